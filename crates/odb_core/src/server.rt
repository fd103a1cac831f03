//! The server as a machine over events. [P 10.3, 12.3, 13.1, 14]

ghost use Rattle.std.specs.Prelude.{◌≡◌, ◌+◌, ◌≤◌, ◌↔◌, ℕ, List, ◌∷◌, [], flat_map, is_some, map, length, Ok, OnOk, OnErr, IfNone, IfOk, IfErr, IfSome, IsErrOf};
ghost use Rattle.std.specs.List.{All};
ghost use Rattle.odb_atoms.specs.FinMap.{get, len};
ghost use Rattle.odb_atoms.specs.Represented.Atom.{uuid_of};
ghost use Rattle.odb_rpc.specs.Message.{inserts_of};
ghost use Rattle.odb_wire.specs.Shown.{request_data};
ghost use Rattle.odb_service.specs.Run.{closed, max_sessions, once, opened, round, submitted, ticked};
ghost use Rattle.odb_core.specs.Causes.{FailsFor};
ghost use Rattle.odb_core.specs.Deadlines.{earliest};
ghost use Rattle.odb_core.specs.Represented.Core.{empty_world};
ghost use Rattle.odb_core.specs.Represented.Rounds.{book_in};
ghost use Rattle.odb_core.specs.declared.refused.EventRefusal.TheVariants as refused;

use crate::failed::Failed;
use crate::failures::Failures;
use crate::refused::EventRefusal;
use crate::waiting_list::WaitingList;
use odb_cause::Cause;
use odb_locks::{Locks, SessionId};
use odb_queue::ServedSchema;
use odb_round::{Jobs, PreparedRound, accept_round, give_round, plan_round, take_finished};
use odb_schema::Schema;
use odb_sessions::{FirstText, Out, Sessions, ToldMarks};
use odb_tables::{Db, Draft};
use odb_wire::Request;
use std::alloc::{AllocError, Global};
use std::collections::BTreeSet;
use std::hash::RandomState;
use std::marker::Model;
use uuid::Uuid;

/// How many contents can be found of a run without a number of its own: those that its last commits made.
const MOST_FOUND: usize = 100;

/// How many sessions may be open at once.
pub const MAX_SESSIONS: usize = 4_096;

/// The server of RFC 7047 as a machine over events: sessions open and close, submit requests, and are
/// given messages by rounds. Contracts see it as the state of the service machine
/// (`specs/World.antt`), and each call is that machine's step. A call that is refused changes nothing.
/// The database is always sound, and each transaction that waits and rests on one table is stuck on it.
///
/// In the costs below `n` sessions are open, and `w` transactions wait.
pub struct Core {
    pub(crate) alloc: Global,
    pub(crate) served: ServedSchema,
    /// How many sessions were opened.
    pub(crate) opened: usize,
    /// The moment, in milliseconds.
    pub(crate) moment: u64,
    pub(crate) waiting: WaitingList,
    pub(crate) locks: Locks,
    /// The database with its commits, and the open sessions.
    pub(crate) sessions: Sessions,
    pub(crate) failures: Failures,
}

impl Model for Core {
    ghost use Rattle.odb_service.specs.Server.{Server, server_code};
    ghost use Rattle.odb_core.specs.Represented.Core.{IsWhole};

    ghost Value = { Server };

    ghost coded = { server_code };

    ghost view = { λ c. record {
      schema = c.served;
      world = record { db = c.sessions.db; commits = c.sessions.commits; earlier = c.sessions.earlier; now = c.moment; waiting = c.waiting; locks = c.locks; sessions = c.sessions.sessions };
      opened = c.opened;
    } };

    ghost invariant = { λ c. IsWhole c.served c.sessions c.waiting c.locks c.moment c.opened };
}

impl Core {
    ghost use Rattle.odb_service.specs.Server.{serve};
    ghost use Rattle.odb_service.specs.World.{revision_of};
    ghost use Rattle.odb_core.specs.Represented.Core.{IsQuietBut, new_server};
    ghost use Rattle.odb_core.specs.Represented.Rounds.{AreRound, AreRoundOf};
    ghost use Rattle.odb_sessions.specs.FirstTexts.{IsFirstText, IsOfNow};
    ghost use Rattle.odb_round.specs.Jobs.{AreByMarks, AreEachOnce, AreOfJobs};
    ghost use Rattle.odb_round.specs.Taken.{given_by, is_finished, sessions_in};
    ghost use Rattle.odb_sessions.specs.Told.{IsToldOf};
    ghost use Rattle.odb_sessions.specs.Represented.Out.{sent_in};
    ghost use Rattle.odb_core.specs.Represented.Reason.{IsReason};

    /// Makes a server of the schema with empty tables and no session, whose tables will hash by `hashing`: the run's word is
    /// 0, and the contents that the last 100 commits made can be found. Where memory is refused it hands back what was moved
    /// in.
    pub fn new(
        alloc: Global,
        schema: Schema,
        hashing: RandomState,
    ) -> Result<Core, (Schema, RandomState, AllocError)>
        ensures ok { IfOk result (λ core. core ≡ new_server 0 100 schema) }
        ensures err { IfErr result (λ back. (back.0 ≡ schema) × (back.1 ≡ hashing)) }
    {
        Core::with_run(alloc, schema, hashing, 0, MOST_FOUND)
    }

    /// Makes the same in a run with this word, which stands in the upper 64 bits of its commits' identifiers. The contents
    /// that the last `most` commits made can be found by these (ovsdb-server(7), 4.1.15); none, where that is 0. O(`most`)
    /// in memory.
    pub fn with_run(
        alloc: Global,
        schema: Schema,
        hashing: RandomState,
        run: u64,
        most: usize,
    ) -> Result<Core, (Schema, RandomState, AllocError)>
        ensures ok { IfOk result (λ core. core ≡ new_server run most schema) }
        ensures err { IfErr result (λ back. (back.0 ≡ schema) × (back.1 ≡ hashing)) }
    {
        let sessions = match no_sessions(alloc, &schema, hashing, run, most) {
            Ok(sessions) => sessions,
            Err(refused) => return Err((schema, hashing, refused)),
        };
        let served = match ServedSchema::new(alloc, schema) {
            Ok(served) => served,
            Err((schema, refused)) => return Err((schema, hashing, refused)),
        };
        Ok(Core {
            alloc,
            served,
            opened: 0,
            moment: 0,
            waiting: WaitingList::new(alloc),
            locks: Locks::new(alloc),
            sessions,
            failures: Failures::new(alloc),
        })
    }

    /// Opens a session, and returns its number, which no session had before: they are numbered from 0
    /// in order of opening. It is refused with `TooMany` where 4,096 sessions are open, and with
    /// `Memory`, also where 2^64-1 sessions were opened and no number is left. O(log n).
    pub fn open(&mut self) -> Result<SessionId, EventRefusal>
        ensures number { IfOk result (λ session. session ≡ self.old.opened) }
        ensures ok { IfOk result (λ session. serve (opened session) self.old ≡ Ok (self.new, [])) }
        ensures why { IfErr result (λ why. IsReason why (serve (opened self.old.opened) self.old)) }
        ensures too_many { IsErrOf result refused.TooMany ↔ (max_sessions ≤ len self.old.world.sessions) }
        ensures err { OnErr result (self.new ≡ self.old) }
    {
        if self.sessions.len() >= MAX_SESSIONS {
            return Err(EventRefusal::TooMany);
        }
        Ok(self.add_session()?)
    }

    /// Returns the number of the next session that opens. O(1).
    pub fn next_session(&self) -> SessionId
        ensures { result ≡ self.now.opened }
    {
        self.opened
    }

    /// Ends a session: its claims are released, with the notices to those that own now, its transactions
    /// that wait and its queue are dropped. It is refused with `Gone` where no such session is open, and
    /// with `Memory`. O(log n + w + its claims).
    pub fn close(&mut self, session: SessionId) -> Result<(), EventRefusal>
        ensures ok { OnOk result (serve (closed session) self.old ≡ Ok (self.new, [])) }
        ensures why { IfErr result (λ why. IsReason why (serve (closed session) self.old)) }
        ensures err { OnErr result (self.new ≡ self.old) }
    {
        if !self.sessions.has(session) {
            return Err(EventRefusal::Gone);
        }
        self.end_session(session)?;
        Ok(())
    }

    /// Takes a request or a notification of a session in. `fresh` are identifiers that are used
    /// nowhere yet, at least as many as `odb_rpc::inserts` says; `now` is the time in milliseconds, and
    /// an earlier one than the clock's counts as the clock's. It is refused with `Gone` where no
    /// such session is open, with `Busy` where the request needs a reply and the session is owed
    /// 256, and with `Memory`; the request is handed back then. A `transact` costs what its
    /// operations and its settlement do, by the rows touched where these suffice, and what those that wait cost that it
    /// tries again; any other call costs what its request asks for, and O(log n + w).
    pub fn submit(
        &mut self,
        session: SessionId,
        request: Request,
        fresh: &[Uuid],
        now: u64,
    ) -> Result<(), (Request, EventRefusal)>
        requires { inserts_of (request_data request) ≤ length fresh.now }
        ensures ok { OnOk result (serve (submitted session (request_data request) (map uuid_of fresh.now) now) self.old
            ≡ Ok (self.new, [])) }
        ensures why { IfErr result (λ back. IsReason back.1
            (serve (submitted session (request_data request) (map uuid_of fresh.now) now) self.old)) }
        ensures err { OnErr result (self.new ≡ self.old) }
        ensures request_back { IfErr result (λ back. back.0 ≡ request) }
    {
        match self.is_busy(session, &request) {
            None => return Err((request, EventRefusal::Gone)),
            Some(true) => return Err((request, EventRefusal::Busy)),
            Some(false) => {}
        }
        match self.receive(session, request, fresh, now) {
            Ok(()) => Ok(()),
            Err((request, _)) => Err((request, EventRefusal::Memory)),
        }
    }

    /// Keeps the transactions that fail from now on, also those that wait before, until [`Core::take_failed`] takes them
    /// out: so it is to be called again and again. Of what is served nothing changes by it. O(1).
    pub fn keep_failures(&mut self)
        ensures { self.new ≡ self.old }
    {
        self.failures.begin();
    }

    /// Takes out the transactions that failed and were kept, in the order in which they ended. One for which memory was
    /// refused then isn't among them. O(1).
    pub fn take_failed(&mut self) -> Vec<Failed>
        ensures { self.new ≡ self.old }
    {
        self.failures.take()
    }

    /// Tries a transaction that failed once more, and returns why it fails on the core as it is, which a transaction that
    /// fails leaves as it was; nothing, where it would go through or wait by now. Nothing is changed. What
    /// [`odb_cause::explain`] costs.
    pub fn cause(&self, failed: &Failed) -> Result<Option<Cause>, AllocError>
        ensures { IfOk result (λ cause. IfSome cause (FailsFor self.now failed.now)) }
    {
        let draft = Draft::new(self.alloc, self.sessions.db())?;
        self.setting().cause(draft, failed.transaction.submitted())
    }

    /// Advances the clock to `now` (milliseconds); it never goes back, so that an earlier `now`
    /// leaves it. Then the waiting transactions whose deadline has come are tried once each, in
    /// order of arrival. O(w), and what the tries cost.
    pub fn tick(&mut self, now: u64) -> Result<(), AllocError>
        ensures ok { OnOk result (serve (ticked now) self.old ≡ Ok (self.new, [])) }
        ensures err { OnErr result (self.new ≡ self.old) }
    {
        let before = self.moment();
        let moment = before.max(now);
        self.set_moment(moment);
        if !self.has_due(moment) {
            return Ok(());
        }
        match self.end_due() {
            Ok(()) => Ok(()),
            Err(refused) => {
                self.set_moment(before);
                Err(refused)
            }
        }
    }

    /// Gives each session of the list that is open its next message, if it has one: one message at
    /// most for a session, in the order in which the list first names them. An error says that memory
    /// was refused, and nothing was taken then. For a list of k sessions O(k log k + k log n).
    pub fn round(&mut self, ready: &[SessionId]) -> Result<Vec<Out>, AllocError>
        ensures ok { IfOk result (λ outs. serve (round ready.now) self.old
            ≡ Ok (self.new, map sent_in outs.items)) }
        ensures err { OnErr result (self.new ≡ self.old) }
    {
        let listed = once(self.alloc, ready)?;
        let schema = self.served.schema();
        give_round(&mut self.sessions, schema, listed.as_slice())
    }

    /// Lends what clients were told, as it is kept: of each table of a monitor a mark, and the chains that keep what marks
    /// stand for. O(1).
    pub fn told(&self) -> ToldMarks<'_>
        ensures { IsToldOf (book_in self.now.world) result }
    {
        self.sessions.told()
    }

    /// Plans what `round` gives these sessions: the jobs that are to be composed for it, of which no two
    /// are alike, those of replies to who resumes among them. What a job is alike by names the changes of tables at which
    /// clients were told by the versions of their marks, and what it says was told is what the chains keep there. A text that
    /// is composed is of the job of what is due to its session, alike by the marks of the monitor to which that is due; the job
    /// says what the client was told and what is asked, and what stands around the composition is what
    /// the protocol has around any table updates there. Nothing is composed, and nothing is taken. O(k log k + k log n)
    /// for a list of k sessions, and what deciding whether something is sent costs.
    pub fn jobs(&self, ready: &[SessionId]) -> Result<Jobs<'_>, AllocError>
        ensures round { IfOk result (λ jobs. AreRoundOf ready.now self.now jobs.takings) }
        ensures jobs { IfOk result (λ jobs. AreOfJobs (book_in self.now.world) jobs.jobs jobs.takings) }
        ensures now { IfOk result (λ jobs. All (IsOfNow self.now.world.db) jobs.jobs) }
        ensures told { IfOk result (λ jobs. IsToldOf (book_in self.now.world) jobs.told) }
        ensures once { IfOk result (λ jobs. AreEachOnce jobs.told.chains (revision_of self.now.world) jobs.jobs jobs.likenesses) }
        ensures marks { IfOk result (λ jobs. AreByMarks (book_in self.now.world) jobs.told jobs.jobs jobs.likenesses jobs.takings) }
    {
        let listed = once(self.alloc, ready)?;
        let schema = self.served.schema();
        plan_round(&self.sessions, schema, listed.as_slice())
    }

    /// Adds the text of a first reply, if there is one, which [`Jobs::first_text`] found for this core as it is, to those that
    /// are kept until the database changes: who asks the same is told the same by it. Where memory is refused it isn't kept.
    /// O(1), and what letting eight texts go costs.
    pub fn add_first_text(&mut self, first: Option<FirstText>)
        requires { IfSome first (IsFirstText self.old.world.db) }
        ensures { self.new ≡ self.old }
    {
        self.sessions.add_first_text(first);
    }

    /// Carries out a round that was planned for this core as it is, and of which everything is composed: then it is a
    /// `round` of these sessions. It takes no memory, and can't be refused. O(k log n) for k sessions.
    pub fn accept(&mut self, prepared: PreparedRound) -> Vec<Out>
        requires { AreRound self.old prepared }
        ensures round { (ready : List ℕ) → sessions_in prepared ≡ once ready → serve (round ready) self.old
            ≡ Ok (self.new, map sent_in result.items) }
        ensures texts { map sent_in result.items ≡ flat_map (given_by (book_in self.old.world)) prepared }
    {
        accept_round(&mut self.sessions, prepared)
    }

    /// Gives a session its next message, where that is a text which was finished when it was queued, as most replies are: then
    /// it is a `round` of this session alone. Else it gives nothing, and nothing has changed. It takes no memory. O(log n).
    pub fn take_finished(&mut self, session: SessionId) -> Option<Out>
        ensures round { IfSome result (λ out. serve (round (session ∷ [])) self.old ≡ Ok (self.new, sent_in out ∷ [])) }
        ensures finished { is_some result ≡ is_finished (get self.old.world.sessions session) }
        ensures none { IfNone result (self.new ≡ self.old) }
    {
        take_finished(&mut self.sessions, session)
    }

    /// Forgets of the first `most` sessions, from this number on, that may be owed something those that are found to be owed
    /// nothing, and returns the first after them that may be owed something: so [`Core::owed`] gets shorter after rounds, which
    /// leave in it whom they gave something. Where memory is refused a session stays in it. O(log n) for each, and O(1) for each
    /// table of its monitors.
    pub fn shorten_owed(&mut self, from: SessionId, most: usize) -> Option<SessionId>
        ensures same { self.new ≡ self.old }
        ensures next { IfSome result (λ next. from + most ≤ next) }
    {
        self.sessions.forget_resting(from, most)
    }

    /// Returns the sessions that may be owed something. A round gives nothing to any other, and changes nothing of it.
    /// O(1).
    pub fn owed(&self) -> &BTreeSet<SessionId>
        ensures { IsQuietBut result.now self.now }
    {
        self.sessions.owed()
    }

    /// Returns the earliest moment, in milliseconds, at which a transaction that waits is due: a `tick` of an earlier
    /// moment tries none. `None` where none waits, or each for ever. O(1).
    pub fn next_deadline(&self) -> Option<u64>
        ensures { result ≡ earliest self.now.world.waiting }
    {
        self.waiting.earliest()
    }
}

/// Makes sessions over empty tables of the schema, with no commit, of which none is open.
fn no_sessions(
    alloc: Global,
    schema: &Schema,
    hashing: RandomState,
    run: u64,
    most: usize,
) -> Result<Sessions, AllocError>
    ensures { IfOk result (λ sessions. sessions ≡ book_in (empty_world run most (length schema.now.tables))) }
{
    let db = Db::for_schema(alloc, schema, hashing)?;
    Sessions::new(alloc, db, hashing, run, most)
}

/// Lists each session once, where it stands first. O(n log n).
fn once(alloc: Global, ready: &[SessionId]) -> Result<Vec<SessionId>, AllocError>
    ensures { IfOk result (λ listed. listed.items ≡ once ready.now) }
{
    let mut seen = BTreeSet::new(alloc);
    let mut listed = Vec::new(alloc);
    for session in ready {
        if seen.insert(*session)? {
            listed.push(*session)?;
        }
    }
    Ok(listed)
}

// Written, and not derived, so that each end of a scope is one call to prove.
impl Drop for Core {
    fn drop(self) {
        let Core {
            alloc: _,
            served: _,
            opened: _,
            moment: _,
            waiting: _,
            locks: _,
            sessions: _,
            failures: _,
        } = self;
    }
}
