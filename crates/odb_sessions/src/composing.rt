//! What is owed to the client of a monitor, by parts, from the marks for what it was told; and its messages. [P 9.2, 9.3, 9.8, 10.1]
ghost use Rattle.std.specs.Prelude.{◌≡◌, IfOk, map, option_map};
ghost use Rattle.std.specs.List.{All};
ghost use Rattle.odb_sessions.specs.Composed.{IsKnown, part_in, whole_text};
ghost use Rattle.odb_sessions.specs.Represented.Composed.{bytes_in};
ghost use Rattle.odb_sessions.specs.Represented.Out.{sent_in};

use crate::out::Out;
use crate::owed::Owed;
use odb_chain::Chains;
use odb_locks::SessionId;
use odb_monitor::Part;
use std::alloc::{AllocError, Global};
use std::sync::Arc;

/// Returns the parts of these tables; in a first reply the client was told nothing of them. For each the costs are
/// those of `odb_chain::Chains::since`.
pub(crate) fn parts_of<'a>(
    alloc: Global,
    chains: &'a Chains,
    tables: &[Owed<'a>],
    first: bool,
) -> Result<Vec<Part<'a>>, AllocError>
    requires { All (IsKnown chains.now) tables.now }
    ensures { IfOk result (λ parts. parts.items ≡ map (part_in first chains.now.db) tables.now) }
{
    let mut parts = Vec::with_capacity(alloc, tables.len())?;
    for owed in tables {
        parts.push_reserved(owed.part(alloc, chains, first)?);
    }
    Ok(parts)
}

/// A message that is planned: its text is what stands before the composition, that of the job at this place, and what
/// stands after it.
#[derive(Drop)]
pub struct Envelope {
    /// What stands before the composition.
    pub before: Vec<u8>,
    /// The place of the job.
    pub place: usize,
    /// What stands after it.
    pub after: Vec<u8>,
}

impl Envelope {
    /// Makes the message for a session of what is composed of its job, if something is. O(1).
    pub fn seal(self, session: SessionId, body: Option<Arc<Vec<u8>>>) -> Option<Out>
        ensures { option_map sent_in result ≡ option_map (λ b. (session, whole_text self.before.items b self.after.items)) (bytes_in body) }
    {
        let Envelope {
            before,
            place: _,
            after,
        } = self;
        match body {
            Some(body) => Some(Out {
                session,
                before,
                body: Some(body),
                after,
            }),
            None => None,
        }
    }
}
