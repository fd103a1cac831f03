//! What the lock guards.
ghost use Rattle.std.specs.Prelude.{◌≡◌, ◌+◌, ◌≤◌, ◌⊎◌, ℕ, true, false, [], map, length, IfErr, IfOk, IfSome, Ok, OnErr, OnOk};
ghost use Rattle.odb_atoms.specs.Represented.Atom.{uuid_of};
ghost use Rattle.odb_wire.specs.Shown.{request_data};
ghost use Rattle.odb_core.specs.declared.refused.EventRefusal.TheVariants as refused;
ghost use Rattle.odb_service.specs.Run.{closed, opened, round, submitted, ticked};

use crate::bell::Bell;
use crate::composing::{round_by, round_of};
use crate::failure::{TransactionFailure, add_causes};
use crate::journal::{Happened, Journal};
use crate::lock_hold::LockHold;
use crate::mailbox::Mailbox;
use crate::rings::Rings;
use crate::submission::Submission;
use odb_core::{Core, EventRefusal, SessionId};
use odb_par::{Gate, Workers};
use std::alloc::{AllocError, Global};
use std::marker::Model;
use std::mem;
use std::snapshot::Snapshot;
use std::thread::Threads;
use std::time::Clock;

/// What a round of some sessions did.
#[derive(Clone, Copy)]
pub struct GroupRound {
    /// How many messages were given.
    pub given: usize,
    /// The first session that may be owed something and was left out, as `most` were before it.
    pub next: Option<SessionId>,
}

/// How many submissions one turn takes at most.
const MOST: usize = 64;

/// How many sessions are few: those whom one thread may tell at once.
const FEW: usize = 32;

/// A server, the events that it took since a base state, and the rings of its sessions. Each call is one event of the
/// service machine: where it succeeds the journal grows by that event, and where it is refused nothing changes. What
/// is always so (`IsGuarded`): base and journal are a legal history that ends in the server's state; and some events
/// lead to it from a new server, by which each ring was sent just what they give its session since that was opened.
///
/// In the costs below `n` sessions are open. The journal takes no memory.
pub struct HubState {
    core: Core,
    journal: Journal,
    since_base: u64,
    rings: Rings,
    /// The causes that were found out. No contract speaks of them.
    failures: Vec<TransactionFailure>,
    alloc: Global,
    workers: Workers,
}

impl Model for HubState {
    ghost use Rattle.std.specs.Prelude.{◌≡◌};
    ghost use Rattle.odb_hub.specs.Guarded.{AreUnused, IsGuarded, Guarded, counted, guarded_code};

    ghost Value = { Guarded };

    ghost coded = { guarded_code };

    ghost view = { λ s. record { server = s.core; base = s.journal.base; events = s.journal.events; rings = s.rings } };

    ghost invariant = { λ s. IsGuarded (record { server = s.core; base = s.journal.base; events = s.journal.events; rings = s.rings })
        × AreUnused s.rings s.core.opened × (s.since_base ≡ counted s.journal.events) };
}

impl HubState {
    ghost use Rattle.odb_atoms.specs.FinMap.{empty, get, insert, len, remove};
    ghost use Rattle.odb_service.specs.Server.{serve};
    ghost use Rattle.odb_core.specs.Represented.Reason.{IsReason};
    ghost use Rattle.odb_hub.specs.Batch.{IsSome, IsTurn, RefusesFirst, TakesUpTo};
    ghost use Rattle.odb_hub.specs.Guarded.{IsGuarded, IsNew, IsQuiet, Takes, counted};
    ghost use Rattle.odb_hub.specs.GroupRounds.{TakesRound};
    ghost use Rattle.odb_hub.specs.Own.{FlushesOwn, GivesOwn, GivesTo, IsGiven, IsOwedNothing, TakesOwnRound};
    ghost use Rattle.odb_hub.specs.Represented.Submission.{events_of};
    ghost use Rattle.odb_hub.specs.Represented.Mailbox.{name_of, taken};
    ghost use Rattle.odb_hub.specs.Rings.{AreShort, fresh_ring, IsFlushedAt};

    /// Makes the state of a new core, which has empty tables, no commit and no session; its own state is the base, and there is
    /// no event. These workers compose what a session alone is given.
    pub fn new(alloc: Global, core: Core, workers: Workers) -> HubState
        requires { IsNew core }
        ensures { result ≡ record { server = core; base = core.world; events = []; rings = empty } }
    {
        HubState {
            journal: Journal::begin(&core),
            since_base: 0,
            rings: Rings::new(alloc),
            core,
            failures: Vec::new(alloc),
            alloc,
            workers,
        }
    }

    /// Returns how many events there were since the base, and what is so whenever the lock is free.
    pub fn since_base(&self) -> u64
        ensures count { result ≡ counted self.now.events }
        ensures guarded { IsGuarded self.now }
        ensures short { AreShort self.now.rings }
    {
        self.rings.short();
        self.since_base
    }

    /// Opens a session, with a ring of its own that rings this bell, and the mailbox where that comes out. Ring and mailbox
    /// are the two ends of one ring, so the mailbox gives just what is sent into it. It is refused with `TooMany` where
    /// 4,096 sessions are open, and with `Memory`, also where no number is left. O(log n).
    pub fn open(&mut self, bell: Bell) -> Result<(SessionId, Mailbox), EventRefusal>
        ensures ok { IfOk result (λ ends. Takes (opened ends.0) self.old self.new []) }
        ensures ring { IfOk result (λ ends. self.new.rings ≡ insert self.old.rings ends.0 (fresh_ring (name_of ends.1))) }
        ensures mailbox { IfOk result (λ ends. taken ends.1 ≡ []) }
        ensures why { IfErr result (λ why. (why ≡ refused.Memory) ⊎ IsReason why (serve (opened self.old.server.opened) self.old.server)) }
        ensures err { OnErr result (self.new ≡ self.old) }
    {
        let number = self.core.next_session();
        let mailbox = self.rings.add(number, bell)?;
        match self.core.open() {
            Ok(session) => {
                self.journal = self.journal.with(Happened::Opened(session));
                self.since_base = self.since_base.saturating_add(1);
                Ok((session, mailbox))
            }
            Err(why) => {
                self.rings.remove(number);
                Err(why)
            }
        }
    }

    /// Takes a message of a session in; `now` is the moment in milliseconds. It is refused as `Core::submit` is, and
    /// hands the submission back then. It costs what that call costs, and what the causes do where failures are kept.
    pub fn submit(
        &mut self,
        session: SessionId,
        submission: Submission,
        now: u64,
    ) -> Result<(), (Submission, EventRefusal)>
        ensures ok { OnOk result (Takes (submitted session (request_data submission.request) (map uuid_of submission.fresh.items) now) self.old self.new []) }
        ensures rings { OnOk result (self.new.rings ≡ self.old.rings) }
        ensures why { IfErr result (λ back. IsReason back.1
            (serve (submitted session (request_data submission.request) (map uuid_of submission.fresh.items) now) self.old.server)) }
        ensures err { OnErr result (self.new ≡ self.old) }
        ensures back { IfErr result (λ back. (back.0.request ≡ submission.request) × (back.0.fresh ≡ submission.fresh)) }
    {
        let taken = self.receive(session, submission, now);
        self.record_causes();
        taken
    }

    /// Takes a message of a session in, as `submit` does.
    fn receive(
        &mut self,
        session: SessionId,
        submission: Submission,
        now: u64,
    ) -> Result<(), (Submission, EventRefusal)>
        ensures ok { OnOk result (Takes (submitted session (request_data submission.request) (map uuid_of submission.fresh.items) now) self.old self.new []) }
        ensures rings { OnOk result (self.new.rings ≡ self.old.rings) }
        ensures why { IfErr result (λ back. IsReason back.1
            (serve (submitted session (request_data submission.request) (map uuid_of submission.fresh.items) now) self.old.server)) }
        ensures err { OnErr result (self.new ≡ self.old) }
        ensures back { IfErr result (λ back. (back.0.request ≡ submission.request) × (back.0.fresh ≡ submission.fresh)) }
    {
        let Submission { request, fresh } = submission;
        let event = Happened::Submitted(session, Snapshot::of(&request), Snapshot::of(&fresh), now);
        let grown = self.journal.with(event);
        match self.core.submit(session, request, fresh.as_slice(), now) {
            Ok(()) => {
                self.journal = grown;
                self.since_base = self.since_base.saturating_add(1);
                Ok(())
            }
            Err((request, why)) => Err((Submission { request, fresh }, why)),
        }
    }

    /// Takes out the transactions that failed and were kept ([`Core::keep_failures`]), with their causes: of those that were
    /// submitted on the core on which they failed, of those that waited on the core as it is now, or as it was when another
    /// was submitted. One for whose cause memory was refused isn't among them. What the causes of those that waited cost.
    pub fn take_failures(&mut self) -> Vec<TransactionFailure>
        ensures { self.new ≡ self.old }
    {
        self.record_causes();
        mem::replace(&mut self.failures, Vec::new(self.alloc))
    }

    /// Records why those that failed did, as far as memory allows.
    fn record_causes(&mut self)
        ensures { self.new ≡ self.old }
    {
        let failed = self.core.take_failed();
        add_causes(&self.core, failed, &mut self.failures);
    }

    /// Submits a turn of the batch, from its last to its first, each as `submit` does: at most 64, and none after the first
    /// once 200 microseconds are over. At a refusal it stops: those before it were taken, and what was refused is the last
    /// of the batch again. It costs what the submits cost.
    pub fn submit_turn<R: Clock>(
        &mut self,
        rt: &R,
        session: SessionId,
        batch: &mut Vec<Submission>,
        now: u64,
    ) -> Result<(), EventRefusal>
        ensures taken { TakesUpTo (events_of session now batch.old.items) (events_of session now batch.new.items) self.old self.new }
        ensures most { IsTurn (length batch.old.items) (length batch.new.items) }
        ensures some { OnOk result (IsSome (length batch.old.items) (length batch.new.items)) }
        ensures why { IfErr result (λ why. RefusesFirst why (events_of session now batch.new.items) self.new.server) }
    {
        let hold = self.begin_hold(rt, now);
        for taken in 0..MOST {
            let Some(submission) = batch.pop() else {
                return Ok(());
            };
            if let Err((submission, why)) = self.submit(session, submission, now) {
                batch.push_reserved(submission);
                return Err(why);
            }
            if batch.is_empty() || hold.is_over(rt) {
                return Ok(());
            }
        }
        Ok(())
    }

    /// Begins a hold of the lock at a moment in milliseconds, by which it is told how long ago sessions were given
    /// something.
    fn begin_hold<R: Clock>(&mut self, rt: &R, now: u64) -> LockHold
        ensures { self.new ≡ self.old }
    {
        self.rings.set_moment(now);
        LockHold::begin(rt)
    }

    /// Sets the moment to `now`, in milliseconds, and tries what waits till then.
    pub fn tick(&mut self, now: u64) -> Result<(), AllocError>
        ensures ok { OnOk result (Takes (ticked now) self.old self.new []) }
        ensures rings { OnOk result (self.new.rings ≡ self.old.rings) }
        ensures err { OnErr result (self.new ≡ self.old) }
    {
        self.core.tick(now)?;
        self.journal = self.journal.with(Happened::Ticked(now));
        self.since_base = self.since_base.saturating_add(1);
        Ok(())
    }

    /// Ends a session: its ring goes with what is held back. It is refused as `Core::close` is.
    pub fn close(&mut self, session: SessionId) -> Result<(), EventRefusal>
        ensures ok { OnOk result (Takes (closed session) self.old self.new []) }
        ensures rings { OnOk result (self.new.rings ≡ remove self.old.rings session) }
        ensures why { IfErr result (λ why. IsReason why (serve (closed session) self.old.server)) }
        ensures err { OnErr result (self.new ≡ self.old) }
    {
        self.core.close(session)?;
        self.rings.remove(session);
        self.journal = self.journal.with(Happened::Closed(session));
        self.since_base = self.since_base.saturating_add(1);
        Ok(())
    }

    /// Gives each of some sessions its next message, if it has one: the first `most`, from this number on, of those that may be
    /// owed something and for which nothing is held back. What is held back is sent first, where its ring has room now; then each
    /// message goes into its session's ring, or is held back where that is full. The workers compose what is to be composed. An
    /// error says that memory was refused: then what was held back may have been sent, and nothing else changed. O(k) where k
    /// sessions may be owed something or have a message held back, O(log n) for each that is listed or had one held back, and what
    /// is composed, and a thread for each worker but one.
    pub fn round<R: Threads + Sync, G: Gate + Sync>(
        &mut self,
        rt: &R,
        from: SessionId,
        most: usize,
        gate: &G,
    ) -> Result<GroupRound, AllocError>
        ensures ok { IfOk result (λ group. TakesRound from most group.given group.next self.old self.new) }
        ensures err { OnErr result (self.new.server ≡ self.old.server) }
        ensures journal { OnErr result ((self.new.base ≡ self.old.base) × (self.new.events ≡ self.old.events)) }
        ensures flushed { OnErr result ((s : ℕ) → IsFlushedAt (get self.old.rings s) (get self.new.rings s)) }
    {
        let ready = self.rings.ready(self.core.owed(), from, most)?;
        let event = Happened::Round(Snapshot::of(&ready.listed));
        let listed = ready.listed.as_slice();
        let outs = round_by(rt, &mut self.core, listed, self.workers, gate)?;
        let given = outs.len();
        self.rings.hand_over(outs);
        self.journal = self.journal.with(event);
        self.since_base = self.since_base.saturating_add(1);
        Ok(GroupRound {
            given,
            next: ready.next,
        })
    }

    /// Forgets of the first `most` sessions, from this number on, that may be owed something those that are found to be owed
    /// nothing, and returns the first after them that may be owed something. What [`Core::shorten_owed`] costs.
    pub fn forget_resting(&mut self, from: SessionId, most: usize) -> Option<SessionId>
        ensures same { self.new ≡ self.old }
        ensures next { IfSome result (λ next. from + most ≤ next) }
    {
        self.core.shorten_owed(from, most)
    }

    /// Forgets the sessions that are found to be owed nothing, where this was the round of all, from this number on: else those of
    /// the other groups are told first.
    pub(crate) fn forget_after(&mut self, from: SessionId, group: &GroupRound)
        ensures { self.new ≡ self.old }
    {
        if from > 0 || group.next.is_some() {
            return;
        }
        self.forget_resting(0, usize::MAX);
    }

    /// Gives this session alone its next message, if it has one and none is held back for it. What is held back is sent
    /// first, where its ring has room now. It returns how many messages there were. An error says that memory was refused:
    /// then what was held back may have been sent, and nothing else changed. O(log n), and O(k) where k sessions have a
    /// message held back, as this one had; where its job is large, the workers of this hub compose it.
    pub fn round_for<R: Threads + Sync>(
        &mut self,
        rt: &R,
        session: SessionId,
    ) -> Result<usize, AllocError>
        ensures ok { IfOk result (λ count. TakesOwnRound session count self.old self.new) }
        ensures err { OnErr result (FlushesOwn session self.old self.new) }
    {
        let ready = self.rings.ready_for(session)?;
        if !ready {
            return Ok(0);
        }
        let outs = round_of(rt, self.alloc, &mut self.core, session, self.workers)?;
        let count = outs.len();
        self.rings.hand_over(outs);
        self.journal = self.journal.with(Happened::RoundOf(session));
        self.since_base = self.since_base.saturating_add(1);
        Ok(count)
    }

    /// Gives this session alone what it is owed, until it is owed nothing more or its ring holds one back. An error says that
    /// memory was refused to the last of these rounds, or that there were 2^64-1. It costs what the rounds cost, of which
    /// none is planned where nothing is owed.
    pub fn rounds_for<R: Threads + Sync>(
        &mut self,
        rt: &R,
        session: SessionId,
    ) -> Result<(), AllocError>
        ensures rounds { GivesOwn session self.old self.new }
        ensures given { OnOk result (IsGiven session self.new) }
    {
        for _ in 0..u64::MAX {
            if self.rests(session) {
                return Ok(());
            }
            let given = self.round_for(rt, session)?;
            if given == 0 {
                return Ok(());
            }
        }
        Err(AllocError)
    }

    /// Gives what it is owed to one session, as `rounds_for` does: the first, from this number on, of those that may be owed
    /// something, whose number it returns; `None` says that there is none. Where memory is refused for that, again and again
    /// for a second up to this moment, in milliseconds, the thread that serves the session is told to end it. O(k) where k
    /// sessions may be owed something, and what the rounds cost.
    pub fn give_next<R: Threads + Sync>(
        &mut self,
        rt: &R,
        from: SessionId,
        now: u64,
    ) -> Option<SessionId>
        ensures { GivesTo result self.old self.new }
    {
        let Some(session) = self.next_owed(from) else {
            return None;
        };
        if self.rounds_for(rt, session).is_err() {
            self.rings.record_refusal(session, now);
        }
        Some(session)
    }

    /// Returns the first session, from this number on, of those that may be owed something. No contract speaks of it.
    fn next_owed(&self, from: SessionId) -> Option<SessionId> {
        for session in self.core.owed().iter() {
            if *session >= from {
                return Some(*session);
            }
        }
        None
    }

    /// Returns whether nothing is owed to the session, and nothing is held back for it. O(log n).
    fn rests(&self, session: SessionId) -> bool
        ensures { result ≡ true → IsOwedNothing session self.now.server }
    {
        !self.may_be_owed(session) && self.rings.is_free(session)
    }

    /// Returns whether the session is among those that may be owed something. O(log n).
    fn may_be_owed(&self, session: SessionId) -> bool
        ensures { result ≡ false → IsOwedNothing session self.now.server }
    {
        self.core.owed().contains(&session)
    }

    /// Returns the server, which knows when a transaction that waits is due ([`Core::next_deadline`]). O(1).
    pub fn core(&self) -> &Core
        ensures { result.now ≡ self.now.server }
    {
        &self.core
    }

    /// Returns whether a session may be owed something. O(1).
    pub fn owes(&self) -> bool
        ensures { result ≡ false → IsQuiet self.now.server }
    {
        !self.core.owed().is_empty()
    }

    /// Returns whether at most 32 sessions may be owed something, half of which or more were given nothing in the last
    /// milliseconds: then little is gained by waiting until they are owed more. O(log n). No contract speaks of it.
    pub(crate) fn owes_few(&self) -> bool {
        let owed = self.core.owed();
        owed.len() <= FEW && self.rings.have_rested(owed)
    }

    /// Returns whether more sessions may be owed something than have a message held back, so that another round is
    /// likely to give something. O(1). No contract speaks of it.
    pub(crate) fn has_more(&self) -> bool {
        self.core.owed().len() > self.rings.held()
    }

    /// Makes the state that the server is in the base, and empties the journal: nothing is copied. It returns how many
    /// events there were, 2^64-1 where there were more.
    pub fn begin_journal_anew(&mut self) -> u64
        ensures count { result ≡ counted self.old.events }
        ensures base { self.new ≡ record self.old { base = self.old.server.world; events = [] } }
    {
        let dropped = self.since_base;
        self.journal = Journal::begin(&self.core);
        self.since_base = 0;
        dropped
    }
}

// Written, and not derived, so that each end of a scope is one call to prove.
impl Drop for HubState {
    fn drop(self) {
        let HubState {
            core: _,
            journal: _,
            since_base: _,
            rings: _,
            failures: _,
            alloc: _,
            workers: _,
        } = self;
    }
}
