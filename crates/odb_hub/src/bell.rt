//! How the thread that serves a session learns that something was given to it.
ghost use Rattle.std.specs.Prelude.{◌≡◌};
ghost use Rattle.odb_waking.specs.Loop as loops;

use crate::wakes::Wakes;
use odb_waking::GiverStage;
use std::sync::Arc;
use std::sync::atomic::{AtomicU64, Ordering};

/// By what the thread that serves a session is called when something is given to it. What is done with it are steps of the
/// loop of `odb_waking`, which loses no call: contracts say before which step the thread is that gives. That the thread which
/// serves the session looks in its turn is said nowhere.
#[derive(Drop)]
pub struct Bell {
    wakes: Arc<Wakes>,
    bit: usize,
    holds: AtomicU64,
    given_at: AtomicU64,
    /// How often memory was refused for what the session is owed since it was given something, and when first.
    refusals: AtomicU64,
    refused: AtomicU64,
    given_up: AtomicU64,
}

/// After how many milliseconds a session that was given something has rested.
const REST: u64 = 2;

/// After how many refusals of memory in a row a session is given up.
const REFUSALS: u64 = 16;

/// After how many milliseconds of them, at the earliest.
const PATIENCE: u64 = 1_000;

impl Bell {
    /// Makes the bell of a session that has this bit among those of a thread.
    pub fn new(wakes: Arc<Wakes>, bit: usize) -> Bell {
        Bell {
            wakes,
            bit,
            holds: AtomicU64::new(0),
            given_at: AtomicU64::new(0),
            refusals: AtomicU64::new(0),
            refused: AtomicU64::new(0),
            given_up: AtomicU64::new(0),
        }
    }

    /// Calls the thread that serves the session, since something was given to it. Whoever gave it wakes the thread, once the
    /// lock is free.
    pub(crate) fn ring(&self, stage: GiverStage)
        requires { stage ≡ loops.calls }
    {
        self.wakes.call(self.bit, stage);
    }

    /// Returns whether the thread that serves the session was called since it last heard that.
    pub fn is_called(&self) -> bool {
        self.wakes.is_called(self.bit)
    }

    /// Remembers the moment, in milliseconds, at which the session is given something.
    pub(crate) fn set_given_at(&self, moment: u64) {
        self.given_at.store(moment, Ordering::SeqCst);
        if self.refusals.load(Ordering::SeqCst) != 0 {
            self.refusals.store(0, Ordering::SeqCst);
        }
    }

    /// Records that memory was refused at this moment, in milliseconds, for what the session is owed. Where that goes on
    /// for a second the session is given up, and the thread that serves it is called.
    pub(crate) fn record_refusal(&self, moment: u64) {
        let before = self.refusals.fetch_add(1, Ordering::SeqCst);
        if before == 0 {
            self.refused.store(moment, Ordering::SeqCst);
        }
        let long = moment.saturating_sub(self.refused.load(Ordering::SeqCst));
        if before >= REFUSALS && long >= PATIENCE {
            self.given_up.store(1, Ordering::SeqCst);
            self.ring(GiverStage::of_a_call());
        }
    }

    /// Returns whether the session is to end, since memory was refused for a second for what it is owed.
    pub fn is_given_up(&self) -> bool {
        self.given_up.load(Ordering::SeqCst) != 0
    }

    /// Returns whether the session was given nothing in the last milliseconds before this moment.
    pub(crate) fn has_rested(&self, moment: u64) -> bool {
        moment.saturating_sub(self.given_at.load(Ordering::SeqCst)) >= REST
    }

    /// Says that a message is held back, since the ring has no room for it.
    pub(crate) fn hold(&self, stage: &mut GiverStage)
        requires { stage.old ≡ loops.refused }
        ensures { stage.new ≡ loops.marked }
    {
        self.holds.store(1, Ordering::SeqCst);
        stage.marked();
    }

    /// Says that nothing is held back, and calls the thread.
    pub(crate) fn let_go(&self, stage: GiverStage)
        requires { stage ≡ loops.sent }
    {
        let mut stage = stage;
        self.say_that_none_is_held(&mut stage);
        self.ring(stage);
    }

    fn say_that_none_is_held(&self, stage: &mut GiverStage)
        requires { stage.old ≡ loops.sent }
        ensures { stage.new ≡ loops.calls }
    {
        if self.is_held_back() {
            self.holds.store(0, Ordering::SeqCst);
        }
        stage.let_go();
    }

    /// Returns whether a message is held back.
    pub fn is_held_back(&self) -> bool {
        self.holds.load(Ordering::SeqCst) != 0
    }
}
