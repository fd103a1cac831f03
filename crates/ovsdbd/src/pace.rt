//! When the pump runs a round, pauses and sleeps. [P 15.2]
ghost use Rattle.std.specs.Prelude.{◌≡◌};
ghost use Rattle.odb_waking.specs.Pump.{begins, gives, pauses};

use crate::tuning::{BRIEF, CALM, EACH, LONG, PAUSES, REFUSED, SHORT, SOON};
use odb_core::SessionId;
use odb_hub::Round;
use odb_waking::{Alarm, CALLED, PumpStage};
use std::alloc::AllocError;
use std::sync::Wait;
use std::sync::atomic::{AtomicU64, AtomicUsize, Ordering};
use std::time::Duration;

/// What the pump sleeps by, and how long it pauses. One that sleeps begins at once when it is told that something may
/// be owed. While it is awake it pauses after rounds, so that it holds the lock and wakes writers for a part of the
/// time, and replies have the remainder, longer where commits follow each other fast; but not while more messages are
/// queued than one round gives.
///
/// It takes the steps of the pump of `odb_waking`, which loses no wake-up: contracts say before which it is.
#[derive(Drop)]
pub(crate) struct Pace {
    pub(crate) alarm: Alarm,
    /// For how many microseconds the latest round took that gave something, and when it ended, in microseconds since the start.
    took: AtomicU64,
    ended: AtomicU64,
    /// How many rounds run, and when the latest ended, in microseconds since the start.
    running: AtomicU64,
    over: AtomicU64,
    /// How many requests left something owed since the start, and how many had when the latest round began.
    requests: AtomicU64,
    met: AtomicU64,
    /// The first session that was told of the latest request by no other thread.
    next: AtomicUsize,
}

impl Pace {
    /// Makes that of a pump that is awake and to which nothing was signaled.
    pub(crate) fn new() -> Pace {
        Pace {
            alarm: Alarm::new(),
            took: AtomicU64::new(0),
            ended: AtomicU64::new(0),
            running: AtomicU64::new(0),
            over: AtomicU64::new(0),
            requests: AtomicU64::new(0),
            met: AtomicU64::new(0),
            next: AtomicUsize::new(0),
        }
    }

    /// Counts requests that left something owed, one or more, and returns whether the latest round met all that came before them.
    pub(crate) fn counts_as_met(&self, requests: u64) -> bool {
        let before = self.requests.fetch_add(requests, Ordering::SeqCst);
        before == self.met.load(Ordering::SeqCst)
    }

    /// Returns whether no round runs, none did shortly before this moment, in microseconds since the start, and the pump was signaled
    /// nothing for which it has yet to begin one.
    pub(crate) fn is_calm(&self, now: u64) -> bool {
        let calm = now.saturating_sub(self.over.load(Ordering::SeqCst));
        !self.is_running() && self.alarm.signaled() == 0 && calm >= CALM
    }

    /// Returns whether the pump sleeps, and a round of all is brief: then another thread may as well run it. After a lone request
    /// it may be longer, up to a millisecond, where as much time is over since the latest, so that no thread is woken for it. `now`
    /// is in microseconds since the start.
    pub(crate) fn lets_others(&self, is_lone: bool, now: u64) -> bool {
        if !self.alarm.sleeps() {
            return false;
        }
        let took = self.took.load(Ordering::SeqCst);
        let since = now.saturating_sub(self.ended.load(Ordering::SeqCst));
        took < BRIEF || is_lone && took < SHORT && since >= took
    }

    /// Returns whether a round runs.
    pub(crate) fn is_running(&self) -> bool {
        self.running.load(Ordering::SeqCst) > 0
    }

    /// Remembers that the sessions before this number were told of the latest request by another thread.
    pub(crate) fn set_next(&self, next: SessionId) {
        self.next.store(next, Ordering::SeqCst);
    }

    /// Returns the first session that was told of the latest request by no other thread, and forgets it.
    pub(crate) fn take_next(&self) -> SessionId {
        self.next.swap(0, Ordering::SeqCst)
    }

    /// Returns whether but one request, or one call, was signaled to the pump.
    pub(crate) fn is_lone(&self) -> bool {
        matches!(self.alarm.signaled(), 1 | CALLED)
    }

    /// Remembers that a round runs, which meets all requests by now.
    pub(crate) fn begin_round(&self) {
        self.running.fetch_add(1, Ordering::SeqCst);
        self.met
            .store(self.requests.load(Ordering::SeqCst), Ordering::SeqCst);
    }

    /// Remembers that a round ended at this moment, in microseconds since the start, and how long it took if it gave something and
    /// was of all sessions.
    pub(crate) fn end_round(&self, round: &Result<Round, AllocError>, is_of_all: bool, now: u64) {
        self.over.store(now, Ordering::SeqCst);
        self.running.fetch_sub(1, Ordering::SeqCst);
        let Ok(round) = round else {
            return;
        };
        if round.given > 0 && is_of_all {
            self.took.store(micros_of(round.took), Ordering::SeqCst);
            self.ended.store(now, Ordering::SeqCst);
        }
    }

    /// Goes on at once if the round gave something and more is owed. Else it pauses if the round gave something or
    /// something was signaled since the round began, and sleeps if not; either for no longer than `left`.
    pub(crate) fn wait_after<R: Wait>(
        &self,
        rt: &R,
        round: Round,
        left: Option<Duration>,
        stage: &mut PumpStage,
    )
        requires { stage.old ≡ gives }
        ensures { stage.new ≡ begins }
    {
        if round.given == 0 {
            return self.wait_after_nothing(rt, round, left, stage);
        }
        stage.gave();
        if !round.more {
            self.pause_after(rt, round, left, stage);
        }
        stage.paused();
    }

    /// Pauses after a round that gave nothing if something was signaled since the round began, and sleeps if not.
    fn wait_after_nothing<R: Wait>(
        &self,
        rt: &R,
        round: Round,
        left: Option<Duration>,
        stage: &mut PumpStage,
    )
        requires { stage.old ≡ gives }
        ensures { stage.new ≡ begins }
    {
        stage.gave_nothing();
        if self.alarm.decide(stage) {
            self.pause_after(rt, round, left, stage);
            stage.paused();
        } else {
            self.alarm.sleep(rt, left, stage);
        }
    }

    /// Pauses after a round for which memory was refused.
    pub(crate) fn pause_after_refusal<R: Wait>(&self, rt: &R, stage: &mut PumpStage)
        requires { stage.old ≡ gives }
        ensures { stage.new ≡ begins }
    {
        stage.gave();
        self.pause(rt, Duration::from_millis(REFUSED), None, stage);
        stage.paused();
    }

    /// Pauses for so long, or briefly where that is longer, until `left` is over or the pump is called.
    fn pause<R: Wait>(&self, rt: &R, long: Duration, left: Option<Duration>, stage: &PumpStage)
        requires { stage.now ≡ pauses }
    {
        let pause = long.max(Duration::from_micros(BRIEF));
        self.alarm
            .pause(rt, pause.min(left.unwrap_or(pause)), stage);
    }

    /// Pauses for as long as the round took, half a millisecond at most. Then, where two requests or more were signaled
    /// meanwhile, it pauses for as long as the round took, and so up to three times: the next round has many requests
    /// at once.
    fn pause_after<R: Wait>(&self, rt: &R, round: Round, left: Option<Duration>, stage: &PumpStage)
        requires { stage.now ≡ pauses }
    {
        let long = pause_of(round);
        let mut left = left;
        let mut before = 0;
        let mut next = long.min(Duration::from_micros(SOON));
        for _ in 0..=PAUSES {
            self.pause(rt, next, left, stage);
            let signaled = self.alarm.signaled();
            left = after(left, next);
            if signaled >= CALLED
                || signaled.saturating_sub(before) < 2
                || left == Some(Duration::ZERO)
            {
                return;
            }
            before = signaled;
            next = long;
        }
    }
}

/// Returns the microseconds of a time.
pub(crate) fn micros_of(time: Duration) -> u64 {
    u64::try_from(time.as_micros()).unwrap_or(u64::MAX)
}

/// Returns how much of what a round took counts.
fn pause_of(round: Round) -> Duration {
    let given = u64::try_from(round.given).unwrap_or(u64::MAX);
    let most = Duration::from_micros(given.saturating_mul(EACH));
    round.took.min(most).min(Duration::from_millis(LONG))
}

/// Returns what is left of it once this is over.
fn after(left: Option<Duration>, over: Duration) -> Option<Duration> {
    Some(left?.saturating_sub(over))
}
