//! Before which of their steps the pump and a thread that wakes it are, for contracts. Nothing reads it when the
//! program runs.
ghost use Rattle.std.specs.Prelude.{◌≡◌, false, true, if◌then◌else◌};
ghost use Rattle.odb_waking.specs.Loop as loops;
ghost use Rattle.odb_waking.specs.Pump.{begins, gives, next_stage, pauses};
ghost use Rattle.odb_waking.specs.Teller.{calls, done, ended, flags, rouses, swaps, tells};

use std::marker::Model;

/// The steps of the pump.
#[derive(Clone, Copy)]
pub(crate) enum PumpStep {
    Begins,
    Forgets,
    Gives,
    Decides,
    Pauses,
    LiesDown,
    LooksAgain,
    Sleeps,
}

/// The steps of a thread that wakes the pump.
#[derive(Clone, Copy)]
pub(crate) enum TellerStep {
    Tells,
    Looks,
    Calls,
    Wakes,
    Done,
}

/// The stage of the pump among its steps: the next one.
#[derive(Drop)]
pub struct PumpStage {
    pub(crate) next: PumpStep,
}

impl Model for PumpStage {
    ghost use Rattle.odb_waking.specs.Pump as pump;
    ghost use Rattle.odb_waking.specs.Represented.{pump_stage_of};

    ghost Value = { pump.Stage };

    ghost view = { λ p. pump_stage_of p.next };
}

impl PumpStage {
    /// Makes the stage of a pump that begins its first round.
    pub fn new() -> PumpStage
        ensures { result ≡ begins }
    {
        PumpStage {
            next: PumpStep::Begins,
        }
    }

    /// Goes on after a round that gave something, or for which memory was refused.
    pub fn gave(&mut self)
        requires { self.old ≡ gives }
        ensures { self.new ≡ next_stage false true self.old }
    {
        self.next = PumpStep::Pauses;
    }

    /// Goes on after a round that gave nothing.
    pub fn gave_nothing(&mut self)
        requires { self.old ≡ gives }
        ensures { self.new ≡ next_stage false false self.old }
    {
        self.next = PumpStep::Decides;
    }

    /// Goes on after a pause.
    pub fn paused(&mut self)
        requires { self.old ≡ pauses }
        ensures { self.new ≡ next_stage false true self.old }
    {
        self.next = PumpStep::Begins;
    }
}

/// The stage of a thread that wakes the pump. It can't be let go of before the thread has done so.
pub(crate) struct TellerStage {
    pub(crate) next: TellerStep,
}

impl Model for TellerStage {
    ghost use Rattle.odb_waking.specs.Represented.{teller_of};
    ghost use Rattle.odb_waking.specs.Teller as teller;

    ghost Value = { teller.Teller };

    ghost view = { λ t. teller_of t.next };
}

impl TellerStage {
    /// Makes the stage of a thread that made something owed.
    pub(crate) fn of_what_is_owed() -> TellerStage
        ensures { result ≡ tells }
    {
        TellerStage {
            next: TellerStep::Tells,
        }
    }

    /// Makes the stage of a thread that made something due sooner.
    pub(crate) fn of_what_is_due() -> TellerStage
        ensures { result ≡ calls }
    {
        TellerStage {
            next: TellerStep::Calls,
        }
    }

    /// Ends where nothing is left to be done.
    pub(crate) fn end(self)
        requires { self ≡ done }
    {
        let TellerStage { next: _ } = self;
    }
}

/// The steps of a loop between two turns of its sessions.
#[derive(Clone, Copy)]
pub(crate) enum LoopStep {
    Begins,
    Collects,
    LiesDown,
    LooksAgain,
    Sleeps,
    Rises,
}

/// The steps of a thread that has the lock and puts a message.
#[derive(Clone, Copy)]
pub(crate) enum GiverStep {
    Idle,
    Refused,
    Marked,
    Sent,
    Calls,
    Tells,
}

/// The steps of a thread that wakes a loop.
#[derive(Clone, Copy)]
pub(crate) enum RouserStep {
    Flags,
    Swaps,
    Rouses,
    Ended,
}

/// The stage of a loop among its steps: the next one. What a loop does with its sessions is left out.
#[derive(Drop)]
pub struct LoopStage {
    next: LoopStep,
}

impl Model for LoopStage {
    ghost use Rattle.odb_waking.specs.Loop as loops;
    ghost use Rattle.odb_waking.specs.Represented.{loop_stage_of};

    ghost Value = { loops.Stage };

    ghost view = { λ p. loop_stage_of p.next };
}

impl LoopStage {
    /// Makes the stage of a loop that begins.
    pub fn new() -> LoopStage
        ensures { result ≡ loops.begins }
    {
        LoopStage {
            next: LoopStep::Begins,
        }
    }

    /// Goes on once the loop forgot whether one was called: if one was, it takes the calls.
    pub fn began(&mut self, is_any: bool)
        requires { self.old ≡ loops.begins }
        ensures { self.new ≡ (if is_any then loops.collects else loops.lies_down) }
    {
        self.next = if is_any {
            LoopStep::Collects
        } else {
            LoopStep::LiesDown
        };
    }

    /// Goes on once the loop took the calls.
    pub fn collected(&mut self)
        requires { self.old ≡ loops.collects }
        ensures { self.new ≡ loops.lies_down }
    {
        self.next = LoopStep::LiesDown;
    }

    /// Begins again instead of lying down, for what was called meanwhile.
    pub fn stays(&mut self)
        requires { self.old ≡ loops.lies_down }
        ensures { self.new ≡ loops.begins }
    {
        self.next = LoopStep::Begins;
    }

    /// Goes on where some have a turn next: the loop asks its poll, and doesn't sleep in it.
    pub fn stayed_up(&mut self)
        requires { self.old ≡ loops.lies_down }
        ensures { self.new ≡ loops.rises }
    {
        self.next = LoopStep::Rises;
    }

    /// Goes on as the loop counts as asleep.
    pub fn lay_down(&mut self)
        requires { self.old ≡ loops.lies_down }
        ensures { self.new ≡ loops.looks_again }
    {
        self.next = LoopStep::LooksAgain;
    }

    /// Goes on once the loop has looked whether something was signaled: then it doesn't sleep.
    pub fn looked(&mut self, is_signaled: bool)
        requires { self.old ≡ loops.looks_again }
        ensures { self.new ≡ (if is_signaled then loops.rises else loops.sleeps) }
    {
        self.next = if is_signaled {
            LoopStep::Rises
        } else {
            LoopStep::Sleeps
        };
    }

    /// Goes on after a sleep in the poll.
    pub fn slept(&mut self)
        requires { self.old ≡ loops.sleeps }
        ensures { self.new ≡ loops.rises }
    {
        self.next = LoopStep::Rises;
    }

    /// Goes on as the loop counts as awake.
    pub fn rose(&mut self)
        requires { self.old ≡ loops.rises }
        ensures { self.new ≡ loops.begins }
    {
        self.next = LoopStep::Begins;
    }
}

/// The stage of a thread that has the lock and puts a message, or calls a session for another reason. It can't be let
/// go of before the session is called.
pub struct GiverStage {
    next: GiverStep,
}

impl Model for GiverStage {
    ghost use Rattle.odb_waking.specs.Loop as loops;
    ghost use Rattle.odb_waking.specs.Represented.{giver_of};

    ghost Value = { loops.Giver };

    ghost view = { λ g. giver_of g.next };
}

impl GiverStage {
    /// Makes the stage of a thread that is to put a message.
    pub fn of_a_message() -> GiverStage
        ensures { result ≡ loops.idle }
    {
        GiverStage {
            next: GiverStep::Idle,
        }
    }

    /// Makes the stage of a thread that is to call a session.
    pub fn of_a_call() -> GiverStage
        ensures { result ≡ loops.calls }
    {
        GiverStage {
            next: GiverStep::Calls,
        }
    }

    /// Goes on where the ring had no room.
    pub fn was_refused(&mut self)
        requires { self.old ≡ loops.idle }
        ensures { self.new ≡ loops.refused }
    {
        self.next = GiverStep::Refused;
    }

    /// Goes on once it was said that a message is held back: then it is tried once more.
    pub fn marked(&mut self)
        requires { self.old ≡ loops.refused }
        ensures { self.new ≡ loops.marked }
    {
        self.next = GiverStep::Marked;
    }

    /// Goes on where the message was sent at once.
    pub fn sent(&mut self)
        requires { self.old ≡ loops.idle }
        ensures { self.new ≡ loops.sent }
    {
        self.next = GiverStep::Sent;
    }

    /// Goes on where the message was sent after it was said that one is held back.
    pub fn sent_again(&mut self)
        requires { self.old ≡ loops.marked }
        ensures { self.new ≡ loops.sent }
    {
        self.next = GiverStep::Sent;
    }

    /// Goes on where the message is held back.
    pub fn held(&mut self)
        requires { self.old ≡ loops.marked }
        ensures { self.new ≡ loops.calls }
    {
        self.next = GiverStep::Calls;
    }

    /// Goes on once it was said that nothing is held back.
    pub fn let_go(&mut self)
        requires { self.old ≡ loops.sent }
        ensures { self.new ≡ loops.calls }
    {
        self.next = GiverStep::Calls;
    }

    /// Goes on as the session was called.
    pub fn called(&mut self)
        requires { self.old ≡ loops.calls }
        ensures { self.new ≡ loops.tells }
    {
        self.next = GiverStep::Tells;
    }

    /// Ends as it was signaled to the loop that a session was called.
    pub fn signaled(self)
        requires { self ≡ loops.tells }
    {
        let GiverStage { next: _ } = self;
    }
}

/// The stage of a thread that wakes a loop. It can't be let go of before the thread has done so.
pub struct RouserStage {
    next: RouserStep,
}

impl Model for RouserStage {
    ghost use Rattle.odb_waking.specs.Represented.{rouser_of};
    ghost use Rattle.odb_waking.specs.Teller as teller;

    ghost Value = { teller.Rouser };

    ghost view = { λ r. rouser_of r.next };
}

impl RouserStage {
    /// Makes the stage of a thread that gave a loop something, and is to say so.
    pub fn of_what_came() -> RouserStage
        ensures { result ≡ flags }
    {
        RouserStage {
            next: RouserStep::Flags,
        }
    }

    /// Makes the stage of a thread that found that a loop was called.
    pub fn of_a_call() -> RouserStage
        ensures { result ≡ swaps }
    {
        RouserStage {
            next: RouserStep::Swaps,
        }
    }

    /// Goes on once it was said that something came.
    pub fn flagged(&mut self)
        requires { self.old ≡ flags }
        ensures { self.new ≡ swaps }
    {
        self.next = RouserStep::Swaps;
    }

    /// Goes on once it was found whether the loop counts as asleep.
    pub fn swapped(&mut self, is_asleep: bool)
        requires { self.old ≡ swaps }
        ensures { self.new ≡ (if is_asleep then rouses else ended) }
    {
        self.next = if is_asleep {
            RouserStep::Rouses
        } else {
            RouserStep::Ended
        };
    }

    /// Goes on as the loop was woken.
    pub fn roused(&mut self)
        requires { self.old ≡ rouses }
        ensures { self.new ≡ ended }
    {
        self.next = RouserStep::Ended;
    }

    /// Ends where nothing is left to be done.
    pub fn end(self)
        requires { self ≡ ended }
    {
        let RouserStage { next: _ } = self;
    }
}
