//! Notices to sessions: `locked` and `stolen` (RFC 7047, sections 4.1.9 and 4.1.10).

ghost use Rattle.std.specs.Prelude.{◌≡◌, ◌++◌, OnOk};
ghost use Rattle.odb_locks.specs.Represented.Notice.{notice_to, notices_of};

use std::alloc::{AllocError, Global};

/// What a session has to be told: that it owns a lock now, or that its lock was stolen.
#[derive(Drop)]
pub struct Notice {
    /// The session to tell.
    pub session: usize,
    /// A `stolen` notification (RFC 7047, section 4.1.10), and else a `locked` one (4.1.9).
    pub stolen: bool,
    /// The lock's name.
    pub name: String,
}

/// Adds a notice to the session, if there is one.
pub fn tell(
    notices: &mut Vec<Notice>,
    alloc: Global,
    to: Option<usize>,
    stolen: bool,
    name: &str,
) -> Result<(), AllocError>
    ensures { OnOk result (notices_of notices.new.items
        ≡ notices_of notices.old.items ++ notice_to to stolen name.now) }
{
    if let Some(session) = to {
        let name = String::from_str(alloc, name)?;
        notices.push(Notice {
            session,
            stolen,
            name,
        })?;
    }
    Ok(())
}
