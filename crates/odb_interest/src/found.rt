//! The sessions that were found for a change.
ghost use Rattle.std.specs.Prelude.{◌≡◌, ℕ, IfOk, OnOk};
ghost use Rattle.std.specs.BTreeSet.{IsOrdered, contains};
ghost use Rattle.std.specs.Ordering.{nat_cmp};
ghost use Rattle.odb_interest.specs.Represented.Found.{Grows};

use odb_locks::SessionId;
use std::alloc::{AllocError, Global};
use std::collections::BTreeSet;

/// Adds the sessions to those that were found. O(log n) for each, where n were found.
pub(crate) fn add_all(
    sessions: &BTreeSet<SessionId>,
    found: &mut BTreeSet<SessionId>,
) -> Result<(), AllocError>
    ensures { OnOk result (Grows found.old found.new (contains nat_cmp sessions.now)) }
{
    for session in sessions {
        found.insert(*session)?;
    }
    Ok(())
}

/// Lists the sessions in ascending order. O(the sessions).
pub(crate) fn ascending(
    alloc: Global,
    found: &BTreeSet<SessionId>,
) -> Result<Vec<SessionId>, AllocError>
    ensures all { IfOk result (λ sessions. sessions.items ≡ found.now.keys) }
    ensures ordered { IsOrdered nat_cmp found.now }
{
    let mut sessions = Vec::with_capacity(alloc, found.len())?;
    for session in found {
        sessions.push(*session)?;
    }
    Ok(sessions)
}
