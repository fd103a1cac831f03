//! What becomes of the transactions that wait where a change is made, and where their deadlines come (RFC 7047,
//! section 5.2.6). They are tried one after another, each on what the ones before it leave, and nothing is changed
//! before all were. [P 12.2, 12.3]

ghost use Rattle.std.specs.Prelude.{◌≡◌, ◌+◌, ◌++◌, ◌==◌, ◌&&◌, ◌≤◌, ◌∷◌, [], ℕ, List, Option, None, Some, false, true, if◌then◌else◌, length, map, IfOk, OnOk};
ghost use Rattle.odb_service.specs.Server.{Server};
ghost use Rattle.odb_service.specs.World as model;
ghost use Rattle.odb_service.specs.World.{is_untried, retry_all, try_due};
ghost use Rattle.odb_sessions.specs.Represented.Ended.{ending_of};
ghost use Rattle.odb_tables.specs.Change.{all_changed_by};
ghost use Rattle.odb_core.specs.Represented.Retrying.{IsRetrying};
ghost use Rattle.odb_core.specs.Represented.Steps.{AreTried, attempted, by_service, let_wait, try_again};
ghost use Rattle.odb_core.specs.Represented.Upcoming.{after_due, GoesOn, Leads};
ghost use Rattle.odb_core.specs.Stuck.{AreStuck, IsSameAt, IsStuckIf};
ghost use Rattle.odb_core.specs.Represented.Waiting.{IsDone, IsOutcome, ends, left_waiting, reply_with, waiting_as};

use crate::failed::Failed;
use crate::marks::{is_marked, unmark};
use crate::server::Core;
use crate::setting::TransactionSetting;
use crate::state::changes_rows;
use crate::submitted::Submitted;
use crate::waiting::{Tried, Waiting};
use crate::waiting_list::WaitingList;
use odb_commit::Outcome;
use odb_ops::OperationResult;
use odb_queue::replied_as;
use odb_sessions::{Ended, Sessions};
use odb_tables::{ChangeSet, Draft, Pending};
use std::alloc::{AllocError, Global};
use std::marker::Model;

/// What becomes of a server: the transactions that end, in their order, with what they change, the one change that
/// all of theirs come to, and those that are left waiting.
#[derive(Drop)]
pub(crate) struct Plan {
    pub(crate) ended: Vec<Ended>,
    pub(crate) change: ChangeSet,
    pub(crate) left: WaitingList,
    /// Those that waited and failed, where they are kept.
    pub(crate) failed: Vec<Failed>,
}

/// A server over which transactions are tried, and nothing is changed: as it is, and as it will be.
#[derive(Drop)]
pub(crate) struct Upcoming<'a> {
    alloc: Global,
    setting: TransactionSetting<'a>,
    opened: usize,
    sessions: &'a Sessions,
    pending: Pending<'a>,
    commits: u64,
    ended: Vec<Ended>,
    waiting: WaitingList,
    /// Of each table whether it is certain that no change touches it.
    marks: Vec<bool>,
    /// Whether memory was refused while a change was put in: then nothing can be tried any more.
    is_spoilt: bool,
    /// Those that waited and failed, and whether they are kept.
    failed: Vec<Failed>,
    keeps: bool,
}

impl<'a> Model for Upcoming<'a> {
    ghost use Rattle.std.specs.Prelude.{map};
    ghost use Rattle.odb_sessions.specs.Represented.Ended.{ending_of};
    ghost use Rattle.odb_core.specs.Represented.Upcoming as spec;
    ghost use Rattle.odb_core.specs.Represented.Upcoming.{after_ended, server_with, upcoming_code, Agrees};

    ghost Value = { spec.Upcoming };

    ghost coded = { upcoming_code };

    ghost view = { λ u. record {
      base = server_with u.setting.schema.now u.setting.locks.now u.setting.now u.opened u.sessions.now;
      next = after_ended (server_with u.setting.schema.now u.setting.locks.now u.setting.now u.opened u.sessions.now) (map ending_of u.ended.items) u.waiting;
    } };

    ghost invariant = { λ u. Agrees u.is_spoilt u.setting.schema.now u.sessions.now u.pending u.commits (map ending_of u.ended.items) u.marks.items u.waiting };
}

impl Core {
    /// Finds out what becomes of those that wait where the change is the next commit: each that wasn't tried since the
    /// newest commit is tried, the earliest first, until there is none; but for those of which it is certain that they
    /// would wait again. What these tries cost, O(waiting) once more for each that changes the database, and O(rows
    /// changed).
    pub(crate) fn plan_commit(
        &self,
        asked: &Submitted,
        results: Vec<OperationResult>,
        change: ChangeSet,
    ) -> Result<Plan, AllocError>
        requires { IsDone self.now asked.now results change }
        ensures plan { IfOk result (λ plan. Leads self.entry.now plan (by_service retry_all (by_service (ends asked.entry.now results (Some (all_changed_by self.entry.now.world.db change))) self.entry.now))) }
        ensures tried { IfOk result (λ plan. AreTried (by_service retry_all (by_service (ends asked.entry.now results (Some (all_changed_by self.entry.now.world.db change))) self.entry.now))) }
    {
        let mut upcoming = self.upcoming()?;
        upcoming.commit(asked, results, change)?;
        upcoming.retry_all()?;
        upcoming.plan()
    }

    /// Finds out what becomes of those that wait where each is tried whose deadline has come, in order of arrival, and
    /// then all where one of these changes the database.
    pub(crate) fn plan_due(&self) -> Result<Plan, AllocError>
        ensures plan { IfOk result (λ plan. Leads self.entry.now plan (by_service after_due self.entry.now)) }
        ensures tried { IfOk result (λ plan. AreTried (by_service after_due self.entry.now)) }
    {
        let mut upcoming = self.upcoming()?;
        upcoming.try_due()?;
        upcoming.retry_all()?;
        upcoming.plan()
    }

    /// Returns the server as it is, over which nothing is tried yet. O(tables) and O(waiting).
    fn upcoming(&self) -> Result<Upcoming<'_>, AllocError>
        ensures base { IfOk result (λ upcoming. upcoming.base ≡ let_wait [] self.entry.now) }
        ensures next { IfOk result (λ upcoming. upcoming.next ≡ self.entry.now) }
    {
        Ok(Upcoming {
            alloc: self.alloc,
            setting: self.setting(),
            opened: self.opened,
            sessions: &self.sessions,
            pending: Pending::new(self.alloc, self.sessions.db())?,
            commits: self.sessions.commits(),
            ended: Vec::new(self.alloc),
            waiting: self.waiting.try_copy()?,
            marks: Vec::from_elem(self.alloc, true, self.sessions.db().len())?,
            is_spoilt: false,
            failed: Vec::new(self.alloc),
            keeps: self.failures.keeps(),
        })
    }
}

impl Upcoming<'_> {
    /// Returns what a transaction comes to now, as the next commit.
    fn outcome(&self, asked: &Submitted) -> Result<Outcome, AllocError>
        ensures { IfOk result (λ outcome. IsOutcome self.entry.now.next asked.now outcome) }
    {
        if self.is_spoilt {
            return Err(AllocError);
        }
        let draft = Draft::over(self.alloc, &self.pending)?;
        self.setting.outcome(draft, asked, self.commits)
    }

    /// Ends a transaction that changes nothing.
    fn reply(&mut self, asked: &Submitted, results: Vec<OperationResult>) -> Result<(), AllocError>
        ensures ok { OnOk result (by_service (ends asked.now results None) self.old.next ≡ self.new.next) }
        ensures base { self.new.base ≡ self.old.base }
    {
        let ended = ended_with(self.alloc, asked, results, None)?;
        self.ended.push(ended)?;
        Ok(())
    }

    /// Ends a transaction, with its change as the next commit.
    fn commit(
        &mut self,
        asked: &Submitted,
        results: Vec<OperationResult>,
        change: ChangeSet,
    ) -> Result<(), AllocError>
        requires { IsDone self.old.next asked.now results change }
        ensures ok { OnOk result (by_service (ends asked.now results (Some (all_changed_by self.old.next.world.db change))) self.old.next ≡ self.new.next) }
        ensures base { self.new.base ≡ self.old.base }
    {
        if self.is_spoilt {
            return Err(AllocError);
        }
        let commits = self.commits.checked_add(1).ok_or(AllocError)?;
        self.ended.reserve(1)?;
        self.is_spoilt = true;
        self.pending.add(&change)?;
        unmark(&mut self.marks, &change);
        let ended = ended_with(self.alloc, asked, results, Some(change))?;
        self.ended.push_reserved(ended);
        self.commits = commits;
        self.is_spoilt = false;
        Ok(())
    }

    /// Carries out what a transaction came to.
    fn attempt_with(&mut self, asked: &Submitted, outcome: Outcome) -> Result<Tried, AllocError>
        requires { IsOutcome self.old.next asked.now outcome }
        ensures tried { IfOk result (λ tried. (deadline : Option ℕ) → (n : ℕ)
            → attempted (waiting_as asked.now deadline n) self.old.next ≡ (self.new.next, left_waiting tried asked.now self.old.next.world.commits)) }
        ensures base { self.new.base ≡ self.old.base }
    {
        match outcome {
            Outcome::Done { results, change } => {
                if changes_rows(&change) {
                    self.commit(asked, results, change)?;
                } else {
                    self.reply(asked, results)?;
                }
                Ok(Tried::Ended)
            }
            Outcome::Failed { results } => {
                self.reply(asked, results)?;
                Ok(Tried::Ended)
            }
            Outcome::Waiting { deadline } => Ok(Tried::Waiting { deadline }),
        }
    }

    /// Tries a transaction that waited: it ends, or waits again.
    fn retried(&mut self, waiting: Waiting) -> Result<Option<Waiting>, AllocError>
        ensures left { IfOk result (λ left. attempted waiting self.old.next ≡ (self.new.next, left)) }
        ensures base { self.new.base ≡ self.old.base }
    {
        let outcome = self.outcome(waiting.submitted())?;
        let fails = fails(&outcome);
        match self.attempt_with(waiting.submitted(), outcome)? {
            Tried::Ended => {
                self.add_ended(waiting, fails);
                Ok(None)
            }
            Tried::Waiting { deadline } => {
                Ok(Some(waiting.tried_again(deadline, self.count_of_commits())))
            }
        }
    }

    /// Adds one that waited and ended to those that failed, where it did and they are kept. Where memory is refused it isn't
    /// added.
    fn add_ended(&mut self, waiting: Waiting, fails: bool)
        ensures { self.new ≡ self.old }
    {
        if fails && self.keeps {
            drop(self.failed.push(Failed::new(waiting)));
        }
    }

    /// Tries each transaction that waits and wasn't tried since the newest commit, the earliest
    /// first, until there is none (RFC 7047, section 5.2.6). O(waiting) besides the tries, and once more for each that
    /// changes the database.
    fn retry_all(&mut self) -> Result<(), AllocError>
        ensures ok { OnOk result (by_service retry_all self.old.next ≡ self.new.next) }
        ensures tried { OnOk result (AreTried self.new.next) }
        ensures base { self.new.base ≡ self.old.base }
    {
        let mut changed = true;
        while changed {
            changed = self.retry_until_commit()?;
        }
        Ok(())
    }

    /// Tries them in that order until one changes the database, and returns whether one did.
    fn retry_until_commit(&mut self) -> Result<bool, AllocError>
        ensures ok { IfOk result (λ changed. by_service retry_all self.old.next ≡ by_service retry_all self.new.next) }
        ensures tried { IfOk result (λ changed. changed ≡ false → AreTried self.new.next) }
        ensures fewer { IfOk result (λ changed. (if changed then 1 else 0) + length self.new.next.world.waiting ≤ length self.old.next.world.waiting) }
        ensures base { self.new.base ≡ self.old.base }
    {
        let commits = self.count_of_commits();
        let earlier = self.take_waiting();
        for waiting in earlier {
            self.retry_next(waiting, commits)?;
        }
        Ok(self.count_of_commits() != commits)
    }

    /// Returns how many commits there will be.
    fn count_of_commits(&self) -> u64
        ensures { result ≡ self.entry.now.next.world.commits }
    {
        self.commits
    }

    /// Tries the next one of them, where there are still as many commits and it wasn't tried at these. It goes
    /// after those that wait, unless it ends.
    fn retry_next(&mut self, waiting: Waiting, commits: u64) -> Result<(), AllocError>
        requires { IsStuckIf self.old.next.schema self.old.base.world.db waiting }
        ensures next { OnOk result ((old : Server) (rest : List model.Waiting) → IsRetrying old self.old.next commits (waiting ∷ rest) → IsRetrying old self.new.next commits rest) }
        ensures base { self.new.base ≡ self.old.base }
    {
        if !self.is_to_try(&waiting, commits) {
            return self.keep(waiting);
        }
        self.retry(waiting)
    }

    /// Tries one that waited, unless it is certain that it would wait again. It goes after those that wait, unless it
    /// ends. O(log n) comparisons of names for n tables, besides the try.
    fn retry(&mut self, waiting: Waiting) -> Result<(), AllocError>
        requires { IsStuckIf self.old.next.schema self.old.base.world.db waiting }
        ensures next { OnOk result (by_service (try_again waiting) self.old.next ≡ self.new.next) }
        ensures base { self.new.base ≡ self.old.base }
    {
        if self.goes_on(&waiting) {
            return self.pass_over(waiting);
        }
        if let Some(waiting) = self.retried(waiting)? {
            self.keep(waiting)?;
        }
        Ok(())
    }

    /// Returns whether it is certain that a transaction that is stuck would wait again: its deadline hasn't come, and
    /// no change touches the table on which it rests.
    fn goes_on(&self, waiting: &Waiting) -> bool
        ensures { result ≡ true → GoesOn self.entry.now waiting.now }
    {
        if waiting.is_due(self.setting.now) {
            return false;
        }
        match waiting.table() {
            Some(name) => self.stays(name),
            None => false,
        }
    }

    /// Returns whether it is certain that no change touches the table of this name.
    fn stays(&self, name: &str) -> bool
        ensures { result ≡ true → IsSameAt self.entry.now.next.schema name.now self.entry.now.base.world.db self.entry.now.next.world.db }
    {
        if self.is_spoilt {
            return false;
        }
        match self.setting.schema.table(name) {
            Some(table) => is_marked(self.marks.as_slice(), table),
            None => false,
        }
    }

    /// Puts one after those that wait, as if it was tried.
    fn pass_over(&mut self, waiting: Waiting) -> Result<(), AllocError>
        requires { IsStuckIf self.old.next.schema self.old.base.world.db waiting }
        ensures next { OnOk result (self.new.next ≡ let_wait (self.old.next.world.waiting ++ record waiting { tried = self.old.next.world.commits } ∷ []) self.old.next) }
        ensures base { self.new.base ≡ self.old.base }
    {
        let deadline = waiting.deadline();
        let commits = self.count_of_commits();
        self.keep(waiting.tried_again(deadline, commits))
    }

    /// Returns whether there are as many commits as that, and the transaction wasn't tried at these.
    fn is_to_try(&self, waiting: &Waiting, commits: u64) -> bool
        ensures { result ≡ (self.entry.now.next.world.commits == commits) && is_untried commits waiting.now }
    {
        self.count_of_commits() == commits && waiting.is_untried(commits)
    }

    /// Takes out all that wait.
    fn take_waiting(&mut self) -> Vec<Waiting>
        ensures all { result.items ≡ self.old.next.world.waiting }
        ensures stuck { AreStuck self.old.next.schema self.old.base.world.db result.items }
        ensures none { self.new.next ≡ let_wait [] self.old.next }
        ensures base { self.new.base ≡ self.old.base }
    {
        self.waiting.take_all()
    }

    /// Puts one after those that wait.
    fn keep(&mut self, waiting: Waiting) -> Result<(), AllocError>
        requires { IsStuckIf self.old.next.schema self.old.base.world.db waiting }
        ensures next { OnOk result (self.new.next ≡ let_wait (self.old.next.world.waiting ++ waiting ∷ []) self.old.next) }
        ensures base { self.new.base ≡ self.old.base }
    {
        self.waiting.push(waiting)
    }

    /// Tries each transaction whose deadline has come, in order of arrival. O(waiting) besides the tries.
    fn try_due(&mut self) -> Result<(), AllocError>
        ensures next { OnOk result (by_service (λ h. try_due h self.old.next.world.waiting) (let_wait [] self.old.next) ≡ self.new.next) }
        ensures base { self.new.base ≡ self.old.base }
    {
        let earlier = self.take_waiting();
        for waiting in earlier {
            self.try_if_due(waiting)?;
        }
        Ok(())
    }

    fn try_if_due(&mut self, waiting: Waiting) -> Result<(), AllocError>
        requires { IsStuckIf self.old.next.schema self.old.base.world.db waiting }
        ensures next { OnOk result ((ps : List model.Waiting) → by_service (λ h. try_due h (waiting ∷ ps)) self.old.next ≡ by_service (λ h. try_due h ps) self.new.next) }
        ensures base { self.new.base ≡ self.old.base }
    {
        if !waiting.is_due(self.setting.now) {
            return self.keep(waiting);
        }
        self.retry(waiting)
    }

    /// Returns what is to be made. O(rows changed) and O(tables).
    fn plan(self) -> Result<Plan, AllocError>
        ensures { IfOk result (λ plan. Leads self.entry.base plan self.entry.next) }
    {
        let Upcoming {
            alloc: _,
            setting: _,
            opened: _,
            sessions: _,
            pending,
            commits: _,
            ended,
            waiting,
            marks: _,
            is_spoilt,
            failed,
            keeps: _,
        } = self;
        if is_spoilt {
            return Err(AllocError);
        }
        let change = pending.changes()?;
        Ok(Plan {
            ended,
            change,
            left: waiting,
            failed,
        })
    }
}

/// Returns whether a transaction failed.
fn fails(outcome: &Outcome) -> bool {
    matches!(outcome, Outcome::Failed { results: _ })
}

/// Returns a transaction that ended with these results.
fn ended_with(
    alloc: Global,
    asked: &Submitted,
    results: Vec<OperationResult>,
    change: Option<ChangeSet>,
) -> Result<Ended, AllocError>
    ensures { IfOk result (λ ended. ending_of ended ≡ (asked.now.session, (reply_with asked.now results, change))) }
{
    let reply = replied_as(
        alloc,
        &asked.request,
        asked.id.as_slice(),
        results.as_slice(),
    )?;
    Ok(Ended {
        session: asked.session,
        reply,
        change,
    })
}
