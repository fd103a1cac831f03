//! How the threads of a server wake each other, as machines over atomic steps, and what the pump sleeps by. [P 15.2]
#![tactic(auto)]

ghost use Rattle.odb_waking.specs.Loop.{NoEndIsLeft, NoMessageIsLeft, NoRequestIsLeft, NoSocketIsLeft};
ghost use Rattle.odb_waking.specs.Pump.{NoPumpOversleeps};

mod alarm;
mod stage;

pub use alarm::{Alarm, CALLED};
pub use stage::{GiverStage, LoopStage, PumpStage, RouserStage};

/// States that no wake-up and no end of a connection is lost, whatever the threads do and in which order. The call does nothing.
pub fn law()
    // While the pump sleeps and a session is owed something, or a transaction is due sooner than it knows, a thread is about to tell
    // it, to call it, to look whether it sleeps, or to wake it.
    ensures pump { NoPumpOversleeps }
    // While a loop sleeps and a message is in a session's ring or held back, the session's socket is full as far as the loop knows,
    // or a thread is about to wake the loop, or the connection is closed; so below.
    ensures message { NoMessageIsLeft }
    // While it sleeps and a session's request waits since it met Busy, no message was sent since, or the same holds.
    ensures request { NoRequestIsLeft }
    // While it sleeps, a session's socket that it takes to be full is full, and of any other all is read, but where a request waits,
    // or a thread is about to wake the loop.
    ensures socket { NoSocketIsLeft }
    // While it sleeps, a connection is closed whose peer can neither send nor take, or which is cut off; and one whose peer ended its
    // side, unless its socket is full, or a thread is about to wake the loop.
    ensures end { NoEndIsLeft }
{}
