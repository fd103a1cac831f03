//! What the server does with transactions, and with those that wait. [P 6.3, 12.1, 12.2, 12.3, 14]

ghost use Rattle.std.specs.Prelude.{◌≡◌, ◌↔◌, IsOk, ◌++◌, [], ◌∷◌, map, nat_lt, IfErr, IfOk, None, Some, OnErr, OnOk};
ghost use Rattle.std.specs.List.{list_any};
ghost use Rattle.odb_atoms.specs.FinMap as finite;
ghost use Rattle.odb_tables.specs.Change.{all_changed_by};
ghost use Rattle.odb_core.specs.Represented.Upcoming.{after_due, after_ended, IsPlanOf};
ghost use Rattle.odb_core.specs.Represented.Waiting.{outcome_in, waiting_as};
ghost use Rattle.odb_core.specs.Stuck.{AreStuck};
ghost use Rattle.odb_commit.specs.Transaction as transaction;
ghost use Rattle.odb_sessions.specs.Represented.Ended.{ending_of};

use crate::server::Core;
use crate::setting::TransactionSetting;
use crate::submitted::Submitted;
use crate::upcoming::Plan;
use odb_commit::Outcome;
use odb_locks::SessionId;
use odb_ops::OperationResult;
use odb_queue::{Finished, Post, replied_as};
use odb_tables::{ChangeSet, Draft};
use std::alloc::AllocError;

impl Core {
    ghost use Rattle.odb_service.specs.World.{post, retry_all};
    ghost use Rattle.odb_queue.specs.Represented.Item.{item_of};
    ghost use Rattle.odb_queue.specs.Represented.Post.{post_of};
    ghost use Rattle.odb_core.specs.Represented.Core.{IsValid, with_session};
    ghost use Rattle.odb_core.specs.Represented.Steps.{AreTried, OnlySessions, by_service, in_world, let_wait};
    ghost use Rattle.odb_core.specs.Represented.Waiting.{IsDone, IsOutcome, ends, runs};

    /// Opens a session, and returns its number. It is refused where no number is left, too.
    pub(crate) fn add_session(&mut self) -> Result<SessionId, AllocError>
        ensures number { IfOk result (λ session. session ≡ self.old.opened) }
        ensures ok { OnOk result (self.new ≡ with_session self.old) }
        ensures err { OnErr result (self.new ≡ self.old) }
    {
        let number = self.opened;
        if number == usize::MAX {
            return Err(AllocError);
        }
        self.sessions.open(number)?;
        self.opened = number + 1;
        Ok(number)
    }

    /// Returns what transactions are tried with.
    pub(crate) fn setting(&self) -> TransactionSetting<'_>
        ensures schema { result.schema.now ≡ self.entry.now.schema }
        ensures locks { result.locks.now ≡ self.entry.now.world.locks }
        ensures now { result.now ≡ self.entry.now.world.now }
    {
        TransactionSetting {
            alloc: self.alloc,
            schema: self.served.schema(),
            locks: &self.locks,
            now: self.moment,
        }
    }

    /// Returns what a transaction comes to now, as the next commit. Nothing is changed.
    pub(crate) fn outcome(&self, asked: &Submitted) -> Result<Outcome, AllocError>
        ensures { IfOk result (λ outcome. IsOutcome self.entry.now asked.now outcome) }
    {
        let draft = Draft::new(self.alloc, self.sessions.db())?;
        self.setting()
            .outcome(draft, asked, self.sessions.commits())
    }

    /// Queues the reply of a transaction that changes nothing.
    fn reply(&mut self, asked: &Submitted, results: Vec<OperationResult>) -> Result<(), AllocError>
        ensures ok { OnOk result (by_service (ends asked.now results None) self.old ≡ self.new) }
        ensures others { OnlySessions self.old self.new }
        ensures err { OnErr result (self.new ≡ self.old) }
    {
        let reply = replied_as(
            self.alloc,
            &asked.request,
            asked.id.as_slice(),
            results.as_slice(),
        )?;
        self.post(asked.session, reply)
    }

    /// Queues an item for a session, if it is open.
    pub(crate) fn post(&mut self, session: SessionId, item: Finished) -> Result<(), AllocError>
        ensures ok { OnOk result (in_world (post session (item_of item ∷ [])) self.old ≡ self.new) }
        ensures others { OnlySessions self.old self.new }
        ensures err { OnErr result (self.new ≡ self.old) }
    {
        let mut posts = Vec::with_capacity(self.alloc, 1)?;
        posts.push_reserved(Post { session, item });
        drop(self.sessions.post_all(posts)?);
        Ok(())
    }

    /// Makes the change as the next commit, where none waits, and queues the reply.
    fn commit(
        &mut self,
        asked: &Submitted,
        results: Vec<OperationResult>,
        change: ChangeSet,
    ) -> Result<(), AllocError>
        requires outcome { IsDone self.old asked.now results change }
        requires none { self.old.world.waiting ≡ [] }
        ensures ok { OnOk result (by_service (ends asked.now results (Some (all_changed_by self.old.world.db change))) self.old ≡ self.new) }
        ensures waiting { self.new.world.waiting ≡ self.old.world.waiting }
        ensures err { OnErr result (self.new ≡ self.old) }
    {
        let reply = replied_as(
            self.alloc,
            &asked.request,
            asked.id.as_slice(),
            results.as_slice(),
        )?;
        let posts = Vec::new(self.alloc);
        self.sessions.commit(asked.session, reply, posts, change)?;
        Ok(())
    }

    /// Carries out a new transaction (RFC 7047, section 4.1.3): it ends, or waits after the others. Where
    /// memory is refused nothing changes, and it comes back. It costs what its operations and its
    /// settlement do, by the rows touched where these suffice; a commit while others wait costs their tries too.
    pub(crate) fn transact(&mut self, asked: Submitted) -> Result<(), (Submitted, AllocError)>
        requires tried { AreTried self.old }
        ensures ok { OnOk result (by_service (runs asked) self.old ≡ self.new) }
        ensures err { OnErr result (self.new ≡ self.old) }
        ensures back { IfErr result (λ back. back.0 ≡ asked) }
    {
        match self.outcome(&asked) {
            Ok(Outcome::Waiting { deadline }) => self.make_wait(asked, deadline),
            Ok(Outcome::Failed { results }) => {
                let ended = self.reply(&asked, results);
                self.add_failed(ended, asked)
            }
            Ok(Outcome::Done { results, change }) => {
                let ended = self.complete(&asked, results, change);
                back_on_error(ended, asked)
            }
            Err(refused) => Err((asked, refused)),
        }
    }

    /// Adds a transaction that failed, where those are kept. Where memory was refused for its end it comes back.
    fn add_failed(
        &mut self,
        ended: Result<(), AllocError>,
        asked: Submitted,
    ) -> Result<(), (Submitted, AllocError)>
        ensures same { self.new ≡ self.old }
        ensures ok { IsOk result ↔ IsOk ended }
        ensures back { IfErr result (λ back. back.0 ≡ asked) }
    {
        match ended {
            Ok(()) => {
                self.failures.add(asked);
                Ok(())
            }
            Err(refused) => Err((asked, refused)),
        }
    }

    /// Makes a transaction's change, and tries those that wait again where it is a commit.
    fn complete(
        &mut self,
        asked: &Submitted,
        results: Vec<OperationResult>,
        change: ChangeSet,
    ) -> Result<(), AllocError>
        requires tried { AreTried self.old }
        requires outcome { IsDone self.old asked.now results change }
        ensures ok { OnOk result (by_service (runs asked.now) self.old ≡ self.new) }
        ensures err { OnErr result (self.new ≡ self.old) }
    {
        if !changes_rows(&change) {
            self.reply(asked, results)?;
            return Ok(());
        }
        if self.waiting.all().is_empty() {
            self.commit(asked, results, change)?;
            return Ok(());
        }
        self.commit_beside(asked, results, change)?;
        Ok(())
    }

    /// Makes the change as the next commit beside transactions that wait, queues the reply, and tries these again.
    fn commit_beside(
        &mut self,
        asked: &Submitted,
        results: Vec<OperationResult>,
        change: ChangeSet,
    ) -> Result<(), AllocError>
        requires tried { AreTried self.old }
        requires outcome { IsDone self.old asked.now results change }
        ensures ok { OnOk result (by_service retry_all (by_service (ends asked.now results (Some (all_changed_by self.old.world.db change))) self.old) ≡ self.new) }
        ensures err { OnErr result (self.new ≡ self.old) }
    {
        let plan = self.plan_commit(asked, results, change)?;
        self.carry_out_plan(plan)
    }

    /// Tries each transaction whose deadline has come, in order of arrival, and then all that wait where one of these
    /// changed the database. O(waiting), and what the tries cost.
    pub(crate) fn end_due(&mut self) -> Result<(), AllocError>
        requires tried { AreTried self.old }
        ensures ok { OnOk result (by_service after_due self.old ≡ self.new) }
        ensures err { OnErr result (self.new ≡ self.old) }
    {
        let plan = self.plan_due()?;
        self.carry_out_plan(plan)
    }

    /// Lets come what was found out. What `odb_sessions::Sessions::end_all` costs.
    fn carry_out_plan(&mut self, plan: Plan) -> Result<(), AllocError>
        requires plan { IsPlanOf self.old plan }
        requires stuck { AreStuck self.old.schema self.old.world.db self.old.world.waiting → AreStuck self.old.schema (all_changed_by self.old.world.db plan.change) plan.left }
        requires valid { IsValid self.old → IsValid (after_ended self.old (map ending_of plan.ended.items) plan.left) }
        ensures ok { OnOk result (self.new ≡ after_ended self.old (map ending_of plan.ended.items) plan.left) }
        ensures err { OnErr result (self.new ≡ self.old) }
    {
        let Plan {
            ended,
            change,
            left,
            failed,
        } = plan;
        self.sessions.end_all(ended, change)?;
        self.waiting = left;
        self.failures.append(failed);
        Ok(())
    }

    /// Puts a transaction after those that wait. Where memory is refused it comes back.
    fn make_wait(
        &mut self,
        asked: Submitted,
        deadline: Option<u64>,
    ) -> Result<(), (Submitted, AllocError)>
        requires { outcome_in self.old.schema self.old.world asked ≡ transaction.waiting deadline }
        ensures ok { OnOk result (self.new ≡ let_wait (self.old.world.waiting ++ waiting_as asked deadline self.old.world.commits ∷ []) self.old) }
        ensures err { OnErr result (self.new ≡ self.old) }
        ensures back { IfErr result (λ back. back.0 ≡ asked) }
    {
        self.waiting.wait(asked, deadline, self.sessions.commits())
    }
}

/// Hands the transaction back where memory was refused.
fn back_on_error(
    ended: Result<(), AllocError>,
    asked: Submitted,
) -> Result<(), (Submitted, AllocError)>
    ensures ok { IsOk result ↔ IsOk ended }
    ensures back { IfErr result (λ back. back.0 ≡ asked) }
{
    match ended {
        Ok(()) => {
            drop(asked);
            Ok(())
        }
        Err(refused) => Err((asked, refused)),
    }
}

/// Returns whether the change has a row. O(tables).
pub(crate) fn changes_rows(change: &ChangeSet) -> bool
    ensures { result ≡ list_any (λ c. nat_lt 0 (finite.len c)) change.now }
{
    change.tables().iter().any(|table| !table.is_empty())
}
