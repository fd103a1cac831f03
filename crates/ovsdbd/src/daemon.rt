//! What all threads of the daemon share. [P 15.2]
ghost use Rattle.odb_hub.specs.Guarded.{IsNew};

use crate::desk::Desk;
use crate::fault::Which;
use crate::front::FrontEnd;
use crate::log::{ConnectionEvent, LogLine, Said};
use crate::notices::Notices;
use crate::pace::{Pace, micros_of};
use crate::second::Second;
use crate::serve::Terms;
use crate::tuning::{BRIEF, FIRST_GROUP, FIRST_TIME, JOURNAL_ROUNDS, LOOKED_FOR, SHORT, SLOW};
use odb_core::{Core, EventRefusal, MAX_SESSIONS, SessionId};
use odb_hub::{BatchOutcome, Counted, Hub, Inbox, Round, Seat};
use odb_par::Open;
use odb_waking::PumpStage;
use std::alloc::{AllocError, Global};
use std::io;
use std::net::SocketAddr;
use std::sync::atomic::{AtomicU64, Ordering};
use std::sync::ledger::{Blank, Ledger};
use std::sync::{Arc, Wait};
use std::thread::Threads;
use std::time::{Clock, Duration, Instant};

/// How many seats of a database may be given at once: one more than sessions may be open, so that it is the core that refuses
/// one too many.
const SEATS: u64 = MAX_SESSIONS as u64 + 1;

/// A turn of submissions, of which the other sessions aren't told yet.
#[derive(Drop)]
pub(crate) struct SubmittedTurn {
    submitted: Result<BatchOutcome, AllocError>,
    /// How many were taken.
    pub(crate) taken: usize,
    /// Whether it had the lock for long.
    pub(crate) is_slow: bool,
    /// Whether it came while no round ran, or had just ended, and none was to begin.
    came_calmly: bool,
}

impl SubmittedTurn {
    /// Returns why the turn stopped, if something was refused.
    pub(crate) fn refusal(&self) -> Option<EventRefusal> {
        let Ok(outcome) = &self.submitted else {
            return Some(EventRefusal::Memory);
        };
        match &outcome.owes {
            Ok(_) => None,
            Err(why) => Some(*why),
        }
    }
}

/// A core for a schema, with empty tables, and the moment from which moments are counted.
#[derive(Drop)]
pub(crate) struct Begun {
    pub(crate) alloc: Global,
    pub(crate) core: Core,
    pub(crate) start: Instant,
}

impl Begun {
    ghost use Rattle.std.specs.Prelude.{◌≡◌};

    /// Has the transactions kept that fail, if why they do is to be logged.
    pub(crate) fn keeping_failures(self, keeps: bool) -> Begun
        ensures { result.core ≡ self.core }
    {
        let Begun {
            alloc,
            mut core,
            start,
        } = self;
        if keeps {
            core.keep_failures();
        }
        Begun { alloc, core, start }
    }
}

/// What all databases that are served have in common.
#[derive(Drop)]
pub(crate) struct Common {
    /// The desks of the threads that serve connections.
    pub(crate) desks: Arc<Vec<Desk>>,
    pub(crate) notices: Arc<Notices>,
}

impl Common {
    /// Makes another that shares it.
    pub(crate) fn try_share(&self) -> Result<Common, AllocError> {
        Ok(Common {
            desks: Arc::try_clone(&self.desks)?,
            notices: Arc::try_clone(&self.notices)?,
        })
    }
}

/// The databases that are served.
pub(crate) struct Daemons<L: Ledger, M: Ledger> {
    pub(crate) first: Daemon<L>,
    pub(crate) second: Option<Second<M>>,
    /// What there is where there are several databases.
    pub(crate) front: Option<FrontEnd>,
}

/// How many milliseconds the daemon bears a peer; none: for ever.
#[derive(Clone, Copy)]
pub(crate) struct Patience {
    /// For how long a peer may say nothing before it is asked whether it is there, and then before it counts as gone.
    pub(crate) probe: Option<u64>,
    /// For how long a peer may take nothing before it counts as gone.
    pub(crate) stall: Option<u64>,
}

impl Patience {
    /// Returns whether the daemon bears each peer for ever.
    pub(crate) fn is_endless(&self) -> bool {
        self.probe.is_none() && self.stall.is_none()
    }
}

/// The server of a database, the clock, the desks of the threads that serve connections, and what the pump sleeps by.
pub(crate) struct Daemon<L: Ledger> {
    pub(crate) alloc: Global,
    which: Which,
    pub(crate) hub: Hub<L>,
    pub(crate) pace: Pace,
    pub(crate) desks: Arc<Vec<Desk>>,
    pub(crate) notices: Arc<Notices>,
    pub(crate) patience: Patience,
    /// The most bytes of a message.
    pub(crate) max_message: usize,
    start: Instant,
    ended: AtomicU64,
}

impl<L: Ledger> Daemon<L> {
    ghost use Rattle.std.specs.Prelude.{◌≡◌};
    ghost use Rattle.odb_waking.specs.Pump.{begins};

    /// Makes a daemon over a core without sessions.
    pub(crate) fn new(
        begun: Begun,
        which: Which,
        blank: Blank,
        common: Common,
        terms: &Terms,
    ) -> Daemon<L>
        requires core { IsNew begun.core }
        requires ledger { (blank.name ≡ L.name) × (blank.parts ≡ L.parts) }
        requires parts { blank.parts ≡ 4098 }
    {
        let Begun { alloc, core, start } = begun;
        let Common { desks, notices } = common;
        Daemon {
            alloc,
            which,
            hub: Hub::new(alloc, core, blank, SEATS, terms.workers),
            pace: Pace::new(),
            desks,
            notices,
            patience: terms.patience,
            max_message: terms.max_message,
            start,
            ended: AtomicU64::new(0),
        }
    }

    /// Returns the milliseconds since the start.
    pub(crate) fn now<R: Clock>(&self, rt: &R) -> u64 {
        match self.start.elapsed(rt) {
            Ok(elapsed) => u64::try_from(elapsed.as_millis()).unwrap_or(u64::MAX),
            Err(_) => 0,
        }
    }

    /// Returns the microseconds since the start.
    fn micros<R: Clock>(&self, rt: &R) -> u64 {
        match self.start.elapsed(rt) {
            Ok(elapsed) => micros_of(elapsed),
            Err(_) => 0,
        }
    }

    /// Has it logged what happened to a client's connection now.
    pub(crate) fn log<R: Wait + Clock>(
        &self,
        rt: &R,
        client: SocketAddr,
        happened: ConnectionEvent,
    ) {
        let moment = self.now(rt);
        let said = Said::OfClient(client, happened);
        self.notices.add_line(rt, LogLine { moment, said });
    }

    /// Has it logged which transactions failed since it was last called, where that is logged.
    fn log_failures<R: Wait + Clock>(&self, rt: &R) {
        if !self.notices.logs_errors() {
            return;
        }
        let failures = self.hub.enter(rt).take_failures();
        for failure in &failures {
            let moment = self.now(rt);
            let said = Said::OfTransaction(self.which, *failure);
            self.notices.add_line(rt, LogLine { moment, said });
        }
    }

    /// Ends the pump, and the thread that writes notices.
    pub(crate) fn end(&self) {
        self.ended.store(1, Ordering::SeqCst);
        self.pace.alarm.call();
        self.notices.end();
    }

    /// Tells each thread that serves connections that none will come any more.
    pub(crate) fn close<R: Wait>(&self, rt: &R) {
        for desk in self.desks.iter() {
            desk.close(rt);
        }
    }

    /// Wakes the threads whose sessions were given something.
    fn wake_called(&self) {
        for desk in self.desks.iter() {
            desk.wake_if_called();
        }
    }

    /// Submits a turn of the first `most` that are pending, and gives their session what it is owed. The other sessions are to be
    /// told by `tell`, once its thread has written that.
    pub(crate) fn submit_turn<R: Threads + Wait + Clock + Sync>(
        &self,
        rt: &R,
        seat: &mut Seat<L>,
        inbox: &mut Inbox,
        most: usize,
    ) -> SubmittedTurn {
        let mut hub = self.hub.enter(rt);
        let turn = self.submit_under(rt, &mut *hub, seat, inbox, most);
        drop(hub);
        turn
    }

    /// Does what `submit_turn` does, under the lock that the caller has, which is free before `tell`.
    pub(crate) fn submit_under<R: Threads + Clock + Sync>(
        &self,
        rt: &R,
        hub: &mut Counted<L>,
        seat: &mut Seat<L>,
        inbox: &mut Inbox,
        most: usize,
    ) -> SubmittedTurn {
        let before = inbox.pending();
        let came_calmly = self.pace.is_calm(self.micros(rt));
        let now = self.now(rt);
        let begun = Instant::now(rt);
        let submitted = inbox.submit_run(rt, hub, seat, now, most);
        SubmittedTurn {
            submitted,
            taken: before.saturating_sub(inbox.pending()),
            is_slow: has_lasted(rt, &begun, SLOW),
            came_calmly,
        }
    }

    /// Tells the other sessions of a turn of submissions.
    pub(crate) fn tell<R: Threads + Wait + Clock + Sync>(&self, rt: &R, turn: SubmittedTurn) {
        let SubmittedTurn {
            submitted,
            taken,
            is_slow: _,
            came_calmly,
        } = turn;
        let Ok(submitted) = submitted else {
            return;
        };
        self.log_failures(rt);
        if submitted.due_sooner {
            self.pace.alarm.call();
        }
        self.wake_called();
        if !is_quiet(&submitted.owes) {
            self.tell_all(rt, submitted.few, came_calmly, taken.max(1) as u64);
        }
    }

    /// Ends a session, and has those told who own its locks then. Where memory is refused the seat comes back.
    pub(crate) fn leave<R: Wait>(&self, rt: &R, seat: Seat<L>) -> Result<(), Seat<L>> {
        let outcome = self.hub.enter(rt).leave(seat);
        match outcome {
            Ok(()) => {
                self.pace.alarm.tell(1);
                Ok(())
            }
            Err(back) => Err(back),
        }
    }

    /// Gives a session what it is owed, as its ring has room again. False says that memory was refused, and that the pump
    /// does it.
    pub(crate) fn refill<R: Threads + Wait + Sync>(&self, rt: &R, session: SessionId) -> bool {
        let given = self.hub.enter(rt).rounds_for(rt, session).is_ok();
        if !given {
            self.pace.alarm.tell(1);
        }
        given
    }

    /// Gives each session its next message after so many requests, one or more, where few are owed something, and where the
    /// pump sleeps and lets others, so that an update doesn't wait for the pump. The pump does what is left. Step: `keeps_silent`,
    /// where few are owed something or one request came alone, and the round leaves nothing owed; else it tells or calls the pump.
    fn tell_all<R: Threads + Wait + Clock + Sync>(
        &self,
        rt: &R,
        few: bool,
        came_calmly: bool,
        requests: u64,
    ) {
        let is_lone = requests == 1;
        let come_singly = self.pace.counts_as_met(requests) && is_lone && came_calmly;
        if few || self.pace.lets_others(is_lone, self.micros(rt)) {
            let round = self.give(rt, is_lone, 0);
            if let Ok(round) = round {
                if !round.owes && (few || is_lone) {
                    return;
                }
                self.pace.set_next(round.next.unwrap_or(SessionId::MAX));
            }
        } else if come_singly {
            self.pace.alarm.call();
            return self.give_first(rt);
        }
        self.pace.alarm.tell(requests);
    }

    /// Gives sessions their next message, group by group, until the pump has begun, which was called and gives the others theirs, or
    /// for some time: a thread that sleeps or pauses takes its time to begin.
    fn give_first<R: Threads + Wait + Clock + Sync>(&self, rt: &R) {
        let begun = Instant::now(rt);
        let mut from = 0;
        for _ in rt.forever() {
            if self.pace.is_running() || has_lasted(rt, &begun, FIRST_TIME) {
                return;
            }
            let Ok(group) = self.give_group(rt, from, FIRST_GROUP) else {
                return;
            };
            from = group.next.unwrap_or(SessionId::MAX);
            self.pace.set_next(from);
            if group.next.is_none() {
                return;
            }
        }
    }

    /// Pumps until the daemon ends.
    pub(crate) fn pump<R: Threads + Wait + Clock + Sync>(&self, rt: &R) {
        let mut rounds: u64 = 0;
        let mut stage = PumpStage::new();
        for _ in rt.forever() {
            if self.ended.load(Ordering::SeqCst) != 0 {
                return;
            }
            rounds = rounds.saturating_add(1);
            if rounds >= JOURNAL_ROUNDS {
                self.hub.enter(rt).begin_journal_anew();
                rounds = 0;
            }
            self.pump_once(rt, &mut stage);
        }
    }

    /// Tries the transactions that are due, gives each session its next message, and waits: it pauses where more may
    /// come, and sleeps where nothing is owed until something may be, or a transaction may be due.
    fn pump_once<R: Threads + Wait + Clock + Sync>(&self, rt: &R, stage: &mut PumpStage)
        requires { stage.old ≡ begins }
        ensures { stage.new ≡ begins }
    {
        let is_lone = self.pace.is_lone();
        self.pace.alarm.begin(stage);
        let now = self.now(rt);
        drop(self.hub.enter(rt).tick(now));
        self.log_failures(rt);
        match self.give_and_forget(rt, is_lone) {
            Ok(round) => {
                let left = self.left(rt, round.deadline);
                self.pace.wait_after(rt, round, left, stage);
            }
            Err(_) => {
                self.give_each(rt, now);
                self.pace.pause_after_refusal(rt, stage);
            }
        }
    }

    /// Gives each session its next message, as `give` does: after a lone request first those that no other thread told of it, and
    /// the others where something is owed still once those are forgotten that are owed nothing.
    fn give_and_forget<R: Threads + Wait + Clock + Sync>(
        &self,
        rt: &R,
        is_lone: bool,
    ) -> Result<Round, AllocError> {
        let next = self.pace.take_next();
        if !is_lone {
            return self.give(rt, is_lone, 0);
        }
        let given = self.give(rt, is_lone, next)?;
        let round = together(&given, &self.forget_resting(rt));
        if next == 0 || !round.owes {
            return Ok(round);
        }
        let others = self.give(rt, is_lone, 0)?;
        Ok(together(&round, &others))
    }

    /// Has those forgotten that are owed nothing, some at a time: others have the lock in between. It returns what is owed then, as
    /// a round that gave nothing.
    fn forget_resting<R: Threads + Wait + Clock + Sync>(&self, rt: &R) -> Round {
        let mut all = self.hub.enter(rt).forget_resting(rt, 0, LOOKED_FOR);
        for _ in rt.forever() {
            let Some(next) = all.next else {
                break;
            };
            let group = self.hub.enter(rt).forget_resting(rt, next, LOOKED_FOR);
            all = together(&all, &group);
        }
        all
    }

    /// Gives each session its next message, and wakes the threads that serve them: after a lone request group by group, and from this
    /// number on, else all in one round, since in a stream each is told of several requests at once.
    fn give<R: Threads + Wait + Clock + Sync>(
        &self,
        rt: &R,
        is_lone: bool,
        from: SessionId,
    ) -> Result<Round, AllocError> {
        self.pace.begin_round();
        let round = if is_lone {
            self.give_groups(rt, from)
        } else {
            self.give_group(rt, 0, usize::MAX)
        };
        self.pace.end_round(&round, from == 0, self.micros(rt));
        round
    }

    /// Gives each session from this number on its next message, group by group: what one group was given is written while the next
    /// is composed, and others have the lock in between. Whom that leaves owed nothing the pump looks for.
    fn give_groups<R: Threads + Wait + Clock + Sync>(
        &self,
        rt: &R,
        from: SessionId,
    ) -> Result<Round, AllocError> {
        let mut most = FIRST_GROUP;
        let mut group = self.give_group(rt, from, most)?;
        let mut all = group;
        for _ in rt.forever() {
            let Some(next) = group.next else {
                break;
            };
            most = next_group(most, group.took);
            group = self.give_group(rt, next, most)?;
            all = together(&all, &group);
        }
        Ok(all)
    }

    /// Gives so many sessions, from this number on, their next message, and wakes the threads that serve them.
    fn give_group<R: Threads + Wait + Clock + Sync>(
        &self,
        rt: &R,
        from: SessionId,
        most: usize,
    ) -> Result<Round, AllocError> {
        let round = self.hub.enter(rt).round(rt, from, most, &Open);
        self.wake_called();
        round
    }

    /// Gives each session alone what it is owed, as memory was refused for all together, so that the others go on where it
    /// is refused for one; that one is to end where this goes on for a second.
    fn give_each<R: Threads + Wait + Sync>(&self, rt: &R, now: u64) {
        let mut from = 0;
        for _ in rt.forever() {
            let given = self.hub.enter(rt).give_next(rt, from, now);
            match given {
                Some(session) => from = session.saturating_add(1),
                None => break,
            }
        }
        self.wake_called();
    }

    /// Returns how long it is until a moment, and a millisecond where that is over: a tick for which memory was refused
    /// is made again.
    fn left<R: Clock>(&self, rt: &R, moment: Option<u64>) -> Option<Duration> {
        let left = moment?.saturating_sub(self.now(rt));
        Some(Duration::from_millis(left.max(1)))
    }
}

impl<L: Ledger, M: Ledger> Daemons<L, M> {
    /// Ends the pumps, and the thread that writes notices.
    pub(crate) fn end(&self) {
        self.first.end();
        if let Some(second) = &self.second {
            second.daemon.end();
        }
    }
}

/// Returns whether so many microseconds or more are over since the moment, if the clock could be read.
pub(crate) fn has_lasted<R: Clock>(rt: &R, begun: &io::Result<Instant>, micros: u64) -> bool {
    let Ok(begun) = begun else {
        return false;
    };
    match begun.elapsed(rt) {
        Ok(elapsed) => elapsed >= Duration::from_micros(micros),
        Err(_) => false,
    }
}

/// Returns what a round and the one after it did together.
fn together(round: &Round, next: &Round) -> Round {
    Round {
        given: round.given.saturating_add(next.given),
        next: next.next,
        more: next.more,
        owes: next.owes,
        took: round.took.saturating_add(next.took),
        deadline: next.deadline,
    }
}

/// Returns how many sessions the group has that comes after one of so many, which took so long: as many, twice as many where that
/// was brief, and all others where it was long, since what several are owed alike is composed once a group.
fn next_group(most: usize, took: Duration) -> usize {
    let micros = micros_of(took);
    if micros < BRIEF {
        most.saturating_mul(2)
    } else if micros < SHORT {
        most
    } else {
        usize::MAX
    }
}

/// Returns whether nothing was refused, and no session is owed anything.
fn is_quiet(owes: &Result<bool, EventRefusal>) -> bool {
    matches!(owes, Ok(false))
}

// Written, and not derived, so that each end of a scope is one call to prove.
impl<L: Ledger, M: Ledger> Drop for Daemons<L, M> {
    fn drop(self) {
        let Daemons {
            first: _,
            second: _,
            front: _,
        } = self;
    }
}

// Written, and not derived, so that each end of a scope is one call to prove.
impl<L: Ledger> Drop for Daemon<L> {
    fn drop(self) {
        let Daemon {
            alloc: _,
            which: _,
            hub: _,
            pace: _,
            desks: _,
            notices: _,
            patience: _,
            max_message: _,
            start: _,
            ended: _,
        } = self;
    }
}
