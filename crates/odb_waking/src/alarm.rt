//! What the pump sleeps by. [P 15.2]
ghost use Rattle.std.specs.Prelude.{◌≡◌, false, true, if◌then◌else◌};
ghost use Rattle.odb_waking.specs.Pump.{begins, decides, forgets, gives, lies_down, looks_again, next_stage, pauses, sleeps};
ghost use Rattle.odb_waking.specs.Teller.{calls, done, looks, tells, wakes};

use crate::stage::{PumpStage, PumpStep, TellerStage, TellerStep};
use std::sync::Wait;
use std::sync::atomic::{AtomicU64, Ordering};
use std::thread::Parker;
use std::time::Duration;

/// What a call adds to what is signaled to the pump: more than is signaled in one pause.
pub const CALLED: u64 = 4_294_967_296;

/// What the pump sleeps by: the flags that say that it is awake and what was signaled, and its parker. Its calls take
/// the steps of the pump's machine (`specs/Pump.antt`), which loses no wake-up, in its order: each atomic operation
/// stands in a function of its own, whose contract names the step.
#[derive(Drop)]
pub struct Alarm {
    parker: Parker,
    awake: AtomicU64,
    /// How many requests were signaled to it since its round began, and `CALLED` for each call.
    signaled: AtomicU64,
}

impl Alarm {
    /// Makes that of a pump that is awake and to which nothing was signaled.
    pub fn new() -> Alarm {
        Alarm {
            parker: Parker::new(),
            awake: AtomicU64::new(1),
            signaled: AtomicU64::new(0),
        }
    }

    /// Returns whether the pump counts as asleep.
    pub fn sleeps(&self) -> bool {
        self.awake.load(Ordering::SeqCst) == 0
    }

    /// Returns how many requests were signaled to the pump since its round began, and `CALLED` more for each call.
    pub fn signaled(&self) -> u64 {
        self.signaled.load(Ordering::SeqCst)
    }

    /// Begins a round, which meets what was signaled by now.
    pub fn begin(&self, stage: &mut PumpStage)
        requires { stage.old ≡ begins }
        ensures { stage.new ≡ gives }
    {
        self.rise(stage);
        self.forget(stage);
    }

    /// Counts the pump as awake.
    fn rise(&self, stage: &mut PumpStage)
        requires { stage.old ≡ begins }
        ensures { stage.new ≡ next_stage false true stage.old }
    {
        self.awake.store(1, Ordering::SeqCst);
        stage.next = PumpStep::Forgets;
    }

    /// Forgets what was signaled.
    fn forget(&self, stage: &mut PumpStage)
        requires { stage.old ≡ forgets }
        ensures { stage.new ≡ next_stage false true stage.old }
    {
        self.signaled.store(0, Ordering::SeqCst);
        stage.next = PumpStep::Gives;
    }

    /// Returns whether something was signaled since its round began: then the pump pauses, and else it lies down.
    pub fn decide(&self, stage: &mut PumpStage) -> bool
        requires { stage.old ≡ decides }
        ensures { stage.new ≡ next_stage result true stage.old }
    {
        let is_signaled = self.signaled() != 0;
        stage.next = if is_signaled {
            PumpStep::Pauses
        } else {
            PumpStep::LiesDown
        };
        is_signaled
    }

    /// Pauses for so long, or until the pump is called.
    pub fn pause<R: Wait>(&self, rt: &R, long: Duration, _stage: &PumpStage)
        requires { _stage.now ≡ pauses }
    {
        self.parker.park_timeout(rt, long);
    }

    /// Sleeps until something is signaled to the pump or it is called, or `left` is over.
    pub fn sleep<R: Wait>(&self, rt: &R, left: Option<Duration>, stage: &mut PumpStage)
        requires { stage.old ≡ lies_down }
        ensures { stage.new ≡ begins }
    {
        self.lie_down(stage);
        if self.looks_again(stage) {
            return;
        }
        self.park(rt, left, stage);
    }

    /// Counts the pump as asleep.
    fn lie_down(&self, stage: &mut PumpStage)
        requires { stage.old ≡ lies_down }
        ensures { stage.new ≡ next_stage false true stage.old }
    {
        self.awake.store(0, Ordering::SeqCst);
        stage.next = PumpStep::LooksAgain;
    }

    /// Returns whether something was signaled by who found it awake: then its round begins.
    fn looks_again(&self, stage: &mut PumpStage) -> bool
        requires { stage.old ≡ looks_again }
        ensures { stage.new ≡ next_stage result true stage.old }
    {
        let is_signaled = self.signaled() != 0;
        stage.next = if is_signaled {
            PumpStep::Begins
        } else {
            PumpStep::Sleeps
        };
        is_signaled
    }

    fn park<R: Wait>(&self, rt: &R, left: Option<Duration>, stage: &mut PumpStage)
        requires { stage.old ≡ sleeps }
        ensures { stage.new ≡ next_stage false true stage.old }
    {
        match left {
            Some(left) => self.parker.park_timeout(rt, left),
            None => self.parker.park(rt),
        }
        stage.next = PumpStep::Begins;
    }

    /// Tells the pump that sessions may be owed something by so many requests, one or more, and wakes it if it sleeps.
    pub fn tell(&self, requests: u64) {
        let mut stage = TellerStage::of_what_is_owed();
        self.add(requests, &mut stage);
        if self.finds_asleep(&mut stage) {
            self.unpark(&mut stage);
        }
        stage.end();
    }

    /// Lets the pump go on at once, also if it pauses.
    pub fn call(&self) {
        let mut stage = TellerStage::of_what_is_due();
        self.add_call(&mut stage);
        self.unpark(&mut stage);
        stage.end();
    }

    fn add(&self, requests: u64, stage: &mut TellerStage)
        requires { stage.old ≡ tells }
        ensures { stage.new ≡ looks }
    {
        self.signaled.fetch_add(requests, Ordering::SeqCst);
        stage.next = TellerStep::Looks;
    }

    fn finds_asleep(&self, stage: &mut TellerStage) -> bool
        requires { stage.old ≡ looks }
        ensures { stage.new ≡ (if result then wakes else done) }
    {
        let sleeps = self.sleeps();
        stage.next = if sleeps {
            TellerStep::Wakes
        } else {
            TellerStep::Done
        };
        sleeps
    }

    fn add_call(&self, stage: &mut TellerStage)
        requires { stage.old ≡ calls }
        ensures { stage.new ≡ wakes }
    {
        self.signaled.fetch_add(CALLED, Ordering::SeqCst);
        stage.next = TellerStep::Wakes;
    }

    fn unpark(&self, stage: &mut TellerStage)
        requires { stage.old ≡ wakes }
        ensures { stage.new ≡ done }
    {
        self.parker.unpark();
        stage.next = TellerStep::Done;
    }
}
