//! Named locks (RFC 7047, sections 4.1.8 to 4.1.10).
//!
//! Where memory is refused a call returns `AllocError` or the fault `Memory`, and what it was
//! given is as it was, unless its own page says otherwise. A call whose result has no such error
//! takes no memory.
#![tactic(auto)]

mod index;
mod lock;
mod lock_table;
mod locks;
mod notice;

pub use locks::{LockFault, LockOutcome, Locks, SessionId};
pub use notice::Notice;
