//! What the lock guards, and the ledger of what its seats were answered.
ghost use Rattle.std.specs.Prelude.{◌≡◌, ◌+◌, ◌-◌, ◌≤◌, ◌⊎◌, ℕ, [], length, true, false, IfErr, IfOk, IfSome, OnErr, OnOk};
ghost use Rattle.odb_core.specs.declared.refused.EventRefusal.TheVariants as refused;
ghost use Rattle.odb_hub.specs.Batch as batch;
ghost use Rattle.odb_service.specs.Run.{opened, ticked};

use crate::bell::Bell;
use crate::failure::TransactionFailure;
use crate::lock_hold::LockHold;
use crate::mailbox::Mailbox;
use crate::seat::Seat;
use crate::state::HubState;
use crate::submission::Submission;
use odb_core::{Core, EventRefusal, SessionId};
use odb_par::{Gate, Workers};
use std::alloc::{AllocError, Global};
use std::marker::Model;
use std::snapshot::Snapshot;
use std::sync::ledger::{Blank, Book, Ledger, Share};
use std::thread::Threads;
use std::time::{Clock, Duration};

/// What came of a turn of a batch.
#[derive(Drop)]
pub struct BatchOutcome {
    /// Whether a session may be owed something, where nothing was refused; else why the turn stopped.
    pub owes: Result<bool, EventRefusal>,
    /// Whether the session was given what it is owed; an error says that memory was refused, and that it is owed it still.
    pub given: Result<(), AllocError>,
    /// Whether few sessions may be owed something, of which half or more have rested, so that they are to be told at once.
    pub few: bool,
    /// Whether a transaction waits that is due sooner than any was before.
    pub due_sooner: bool,
}

/// What a round did.
#[derive(Clone, Copy)]
pub struct Round {
    /// How many messages were given.
    pub given: usize,
    /// The first session that may be owed something and was left out, as `most` were before it.
    pub next: Option<SessionId>,
    /// Whether another one, at once, is likely to give something.
    pub more: bool,
    /// Whether a session may be owed something.
    pub owes: bool,
    /// How long it took from when it had the lock, zero where the clock can't be read.
    pub took: Duration,
    /// The earliest moment, in milliseconds, at which a transaction that waits is due.
    pub deadline: Option<u64>,
}

/// A hub's state, and the ledger of its seats. What is always so (`IsCounted`): the submits in the journal, with those
/// before the base, are as many as all seats together were answered, also those that left. The ledger takes no memory.
#[derive(Drop)]
pub struct Counted<L: Ledger> {
    state: HubState,
    book: Book<L>,
    before_base: Snapshot<Book<L>>,
    unseated: Share<L>,
    seats: u64,
}

impl<L: Ledger> Model for Counted<L> {
    ghost use Rattle.std.specs.Prelude.{◌<◌};
    ghost use Rattle.odb_hub.specs.Counted as model;
    ghost use Rattle.odb_hub.specs.Counted.{IsCounted};

    ghost Value = { model.Counted };

    ghost coded = { model.counted_code };

    ghost view = { λ c. record { guarded = c.state; before_base = c.before_base.value.total; answered = c.book.total } };

    ghost invariant = { λ c. IsCounted (record { guarded = c.state; before_base = c.before_base.value.total; answered = c.book.total }) × (c.seats < c.unseated.parts) };
}

impl<L: Ledger> Counted<L> {
    ghost use Rattle.odb_atoms.specs.FinMap.{empty, get, insert};
    ghost use Rattle.odb_service.specs.Server.{serve};
    ghost use Rattle.odb_core.specs.Deadlines.{earliest};
    ghost use Rattle.odb_core.specs.Represented.Reason.{IsReason};
    ghost use Rattle.odb_hub.specs.Batch.{IsSome, IsTurn, Submits, is_sooner};
    ghost use Rattle.odb_hub.specs.Counted.{Closes, IsCounted, SameCount, submits};
    ghost use Rattle.odb_hub.specs.Guarded.{IsNew, IsQuiet, Takes, counted};
    ghost use Rattle.odb_hub.specs.GroupRounds.{TakesRound};
    ghost use Rattle.odb_hub.specs.Own.{GivesOwn, GivesTo, IsGiven};
    ghost use Rattle.odb_hub.specs.Represented.Mailbox.{name_of, taken};
    ghost use Rattle.odb_hub.specs.Represented.Submission.{events_of};
    ghost use Rattle.odb_hub.specs.Rings.{fresh_ring, IsFlushedAt};

    /// Makes a hub's state over a new core, which has empty tables, no commit and no session, of which so many seats may be given
    /// at once; these workers compose what a session alone is given.
    pub fn new(alloc: Global, core: Core, blank: Blank, seats: u64, workers: Workers) -> Counted<L>
        requires core { IsNew core }
        requires ledger { (blank.name ≡ L.name) × (blank.parts ≡ L.parts) }
        requires parts { blank.parts ≡ seats + 1 }
        ensures { result ≡ record { guarded = record { server = core; base = core.world; events = []; rings = empty }; before_base = 0; answered = 0 } }
    {
        let (book, unseated) = blank.open::<L>();
        Counted {
            state: HubState::new(alloc, core, workers),
            before_base: Snapshot::of(&book),
            book,
            unseated,
            seats,
        }
    }

    /// Returns the hub's state, and what is so of the ledger whenever the lock is free. O(1).
    pub fn state(&self) -> &HubState
        ensures guarded { result.now ≡ self.now.guarded }
        ensures counted { IsCounted self.now }
    {
        &self.state
    }

    /// Opens a session, with a seat that was answered nothing. It is refused as [`HubState::open`] is, and with `Memory`
    /// where all seats are given. O(log n).
    pub fn open(&mut self, bell: Bell) -> Result<(Seat<L>, Mailbox), EventRefusal>
        ensures ok { IfOk result (λ ends. Takes (opened ends.0.session) self.old.guarded self.new.guarded []) }
        ensures ring { IfOk result (λ ends. self.new.guarded.rings ≡ insert self.old.guarded.rings ends.0.session (fresh_ring (name_of ends.1))) }
        ensures mailbox { IfOk result (λ ends. taken ends.1 ≡ []) }
        ensures seat { IfOk result (λ ends. ends.0.answered ≡ 0) }
        ensures count { OnOk result (SameCount self.old self.new) }
        ensures why { IfErr result (λ why. (why ≡ refused.Memory) ⊎ IsReason why (serve (opened self.old.guarded.server.opened) self.old.guarded.server)) }
        ensures err { OnErr result (self.new ≡ self.old) }
    {
        if self.seats == 0 {
            return Err(EventRefusal::Memory);
        }
        let (session, mailbox) = self.state.open(bell)?;
        let share = self.unseated.split_off(1, 0);
        self.seats -= 1;
        Ok((Seat { session, share }, mailbox))
    }

    /// Submits a turn of the batch as [`HubState::submit_turn`] does, and then gives the session what it is owed
    /// ([`HubState::rounds_for`]). It returns what came of both, whether a session may be owed something then, and whether
    /// a transaction is due sooner than any was. The seat is answered each submission that was taken.
    pub fn submit_turn<R: Threads + Clock + Sync>(
        &mut self,
        rt: &R,
        seat: &mut Seat<L>,
        batch: &mut Vec<Submission>,
        now: u64,
    ) -> BatchOutcome
        ensures submits { Submits result.owes seat.old.session (events_of seat.old.session now batch.old.items) (events_of seat.old.session now batch.new.items) self.old.guarded self.new.guarded }
        ensures most { IsTurn (length batch.old.items) (length batch.new.items) }
        ensures some { OnOk result.owes (IsSome (length batch.old.items) (length batch.new.items)) }
        ensures given { OnOk result.given (IsGiven seat.old.session self.new.guarded) }
        ensures quiet { IfOk result.owes (λ owes. owes ≡ false → IsQuiet self.new.guarded.server) }
        ensures sooner { result.due_sooner ≡ is_sooner (earliest self.new.guarded.server.world.waiting) (earliest self.old.guarded.server.world.waiting) }
        ensures seat { seat.new ≡ record { session = seat.old.session; answered = seat.old.answered + (length batch.old.items - length batch.new.items) } }
        ensures answered { self.new.answered ≡ self.old.answered + (length batch.old.items - length batch.new.items) }
        ensures before_base { self.new.before_base ≡ self.old.before_base }
    {
        let due = self.state.core().next_deadline();
        let before = batch.len();
        let submitted = self.state.submit_turn(rt, seat.session, batch, now);
        let answered = before.saturating_sub(batch.len());
        self.book.add(&mut seat.share, answered as u64);
        let given = self.state.rounds_for(rt, seat.session);
        BatchOutcome {
            given,
            owes: match submitted {
                Ok(()) => Ok(self.state.owes()),
                Err(why) => Err(why),
            },
            few: self.state.owes_few(),
            due_sooner: is_sooner(self.state.core().next_deadline(), due),
        }
    }

    /// Does what [`HubState::rounds_for`] does.
    pub fn rounds_for<R: Threads + Sync>(
        &mut self,
        rt: &R,
        session: SessionId,
    ) -> Result<(), AllocError>
        ensures rounds { GivesOwn session self.old.guarded self.new.guarded }
        ensures given { OnOk result (IsGiven session self.new.guarded) }
        ensures count { SameCount self.old self.new }
    {
        self.state.rounds_for(rt, session)
    }

    /// Does what [`HubState::give_next`] does.
    pub fn give_next<R: Threads + Sync>(
        &mut self,
        rt: &R,
        from: SessionId,
        now: u64,
    ) -> Option<SessionId>
        ensures given { GivesTo result self.old.guarded self.new.guarded }
        ensures count { SameCount self.old self.new }
    {
        self.state.give_next(rt, from, now)
    }

    /// Does what [`HubState::take_failures`] does.
    pub fn take_failures(&mut self) -> Vec<TransactionFailure>
        ensures { self.new ≡ self.old }
    {
        self.state.take_failures()
    }

    /// Does what [`HubState::tick`] does.
    pub fn tick(&mut self, now: u64) -> Result<(), AllocError>
        ensures ok { OnOk result (Takes (ticked now) self.old.guarded self.new.guarded []) }
        ensures rings { OnOk result (self.new.guarded.rings ≡ self.old.guarded.rings) }
        ensures count { OnOk result (SameCount self.old self.new) }
        ensures err { OnErr result (self.new ≡ self.old) }
    {
        self.state.tick(now)
    }

    /// Gives some sessions their next message, as [`HubState::round`] does. It returns how many there were, and what is owed
    /// and due then. Where it is the round of all, those that are found to be owed nothing are forgotten; else that is left to
    /// `forget_resting`, so that the other groups are told first.
    pub fn round<R: Threads + Clock + Sync, G: Gate + Sync>(
        &mut self,
        rt: &R,
        from: SessionId,
        most: usize,
        gate: &G,
    ) -> Result<Round, AllocError>
        ensures ok { IfOk result (λ round. TakesRound from most round.given round.next self.old.guarded self.new.guarded) }
        ensures quiet { IfOk result (λ round. round.owes ≡ false → IsQuiet self.new.guarded.server) }
        ensures deadline { IfOk result (λ round. round.deadline ≡ earliest self.new.guarded.server.world.waiting) }
        ensures count { SameCount self.old self.new }
        ensures err { OnErr result (self.new.guarded.server ≡ self.old.guarded.server) }
        ensures journal { OnErr result ((self.new.guarded.base ≡ self.old.guarded.base) × (self.new.guarded.events ≡ self.old.guarded.events)) }
        ensures flushed { OnErr result ((s : ℕ) → IsFlushedAt (get self.old.guarded.rings s) (get self.new.guarded.rings s)) }
    {
        let hold = LockHold::begin(rt);
        let group = self.state.round(rt, from, most, gate)?;
        self.state.forget_after(from, &group);
        Ok(Round {
            given: group.given,
            next: group.next,
            more: self.state.has_more(),
            owes: self.state.owes(),
            took: hold.took(rt),
            deadline: self.state.core().next_deadline(),
        })
    }

    /// Forgets of some sessions those that are found to be owed nothing, as [`HubState::forget_resting`] does. It returns what is
    /// owed and due then, as `round` does, of which no message was given.
    pub fn forget_resting<R: Clock>(&mut self, rt: &R, from: SessionId, most: usize) -> Round
        ensures given { result.given ≡ 0 }
        ensures next { IfSome result.next (λ next. from + most ≤ next) }
        ensures quiet { result.owes ≡ false → IsQuiet self.new.guarded.server }
        ensures deadline { result.deadline ≡ earliest self.new.guarded.server.world.waiting }
        ensures same { self.new ≡ self.old }
    {
        let hold = LockHold::begin(rt);
        let next = self.state.forget_resting(from, most);
        let owes = self.state.owes();
        let deadline = self.state.core().next_deadline();
        Round {
            given: 0,
            next,
            more: self.state.has_more(),
            owes,
            took: hold.took(rt),
            deadline,
        }
    }

    /// Does what [`HubState::begin_journal_anew`] does. The submits in the journal count as those before the base.
    pub fn begin_journal_anew(&mut self) -> u64
        ensures count { result ≡ counted self.old.guarded.events }
        ensures guarded { self.new.guarded ≡ record self.old.guarded { base = self.old.guarded.server.world; events = [] } }
        ensures before_base { self.new.before_base ≡ self.old.before_base + submits self.old.guarded.events }
        ensures answered { self.new.answered ≡ self.old.answered }
    {
        self.before_base = Snapshot::of(&self.book);
        self.state.begin_journal_anew()
    }

    /// Ends a session, and takes its seat back; what that was answered stays counted. What its ring was sent by then can
    /// still be taken out of the mailbox; what is held back for it is gone. Where memory is refused nothing changes and the
    /// seat comes back.
    pub fn leave(&mut self, seat: Seat<L>) -> Result<(), Seat<L>>
        ensures ok { OnOk result (Closes seat.session self.old.guarded self.new.guarded) }
        ensures count { OnOk result (SameCount self.old self.new) }
        ensures err { OnErr result (self.new ≡ self.old) }
        ensures seat { IfErr result (λ back. back ≡ seat) }
    {
        if !self.close(seat.session) {
            return Err(seat);
        }
        let Seat { session: _, share } = seat;
        self.unseated.merge(share);
        self.seats = self.seats.saturating_add(1);
        Ok(())
    }

    /// Closes the session, if it is open. False says that memory was refused.
    fn close(&mut self, session: SessionId) -> bool
        ensures done { result ≡ true → Closes session self.old.guarded self.new.guarded }
        ensures count { SameCount self.old self.new }
        ensures refused { result ≡ false → self.new ≡ self.old }
    {
        match self.state.close(session) {
            Ok(()) => true,
            Err(EventRefusal::Gone) => true,
            Err(_) => false,
        }
    }
}

/// Returns whether a moment comes before another, of which each may be never.
fn is_sooner(moment: Option<u64>, other: Option<u64>) -> bool
    ensures { result ≡ batch.is_sooner moment other }
{
    match (moment, other) {
        (Some(moment), Some(other)) => moment < other,
        (Some(_), None) => true,
        (None, _) => false,
    }
}
