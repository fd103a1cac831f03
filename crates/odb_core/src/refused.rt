//! Why an event is refused. [P 13.1]
ghost use Rattle.std.specs.Prelude.{◌≡◌};
ghost use Rattle.odb_core.specs.declared.refused.EventRefusal.TheVariants.{Memory};

use std::alloc::AllocError;
use thiserror::Error;

/// Why a call on a [`Core`](crate::Core) did nothing: with each of these the core is as it was.
#[derive(Clone, Copy, Debug, Error)]
pub enum EventRefusal {
    /// Memory was refused.
    #[error("out of memory")]
    Memory,
    /// An `open` while 4,096 sessions are open.
    #[error("too many sessions")]
    TooMany,
    /// A request that has a reply, of a session that is owed 256 replies.
    #[error("busy")]
    Busy,
    /// No such session is open.
    #[error("no such session")]
    Gone,
}

impl From<AllocError> for EventRefusal {
    ghost from_gives = { λ _ refused. refused ≡ Memory };

    fn from(_refused: AllocError) -> EventRefusal {
        EventRefusal::Memory
    }
}
