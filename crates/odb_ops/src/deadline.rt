//! How long a `wait` has time (RFC 7047, section 5.2.6, `timeout`). [P 12.1]
ghost use Rattle.std.specs.Prelude.{◌≡◌, Some};
ghost use Rattle.odb_ops.specs.Execution as model;
ghost use Rattle.odb_ops.specs.Represented.Context.{context_of};
ghost use Rattle.odb_ops.specs.Represented.Stop.{stop_of};

use crate::context::Context;
use crate::stop::Stop;
use odb_atoms::Error;

/// Returns until when it has time, if not for ever: a moment past 2^64-1 is never reached.
fn deadline(context: &Context, timeout: Option<u64>) -> Option<u64>
    ensures { result ≡ model.deadline (context_of context.entry.now) timeout }
{
    context.arrival.checked_add(timeout?)
}

/// Returns whether the moment is there.
fn has_passed(context: &Context, moment: Option<u64>) -> bool
    ensures { result ≡ model.has_passed (context_of context.entry.now) moment }
{
    match moment {
        None => false,
        Some(moment) => moment <= context.now,
    }
}

/// Returns what a `wait` that isn't met comes to: it waits, or its time is up.
pub fn unmet(context: &Context, timeout: Option<u64>) -> Stop
    ensures { stop_of result ≡ Some (model.unmet (context_of context.entry.now)
        (model.deadline (context_of context.entry.now) timeout)) }
{
    let moment = deadline(context, timeout);
    if has_passed(context, moment) {
        return Stop::Fails(Error::TimedOut);
    }
    Stop::MustWait(moment)
}
