//! What a session is sent.

ghost use Rattle.std.specs.Prelude.{◌≡◌};
ghost use Rattle.odb_sessions.specs.Represented.Out.{text_of_out};

use odb_locks::SessionId;
use odb_queue::Finished;
use std::alloc::Global;
use std::sync::Arc;

/// A message for a session. Its text is the three parts in order: the body is shared between sessions
/// that are told the same.
pub struct Out {
    /// The session that it is for.
    pub session: SessionId,
    /// The text up to the body.
    pub before: Vec<u8>,
    /// A body that other sessions' messages may have too.
    pub body: Option<Arc<Vec<u8>>>,
    /// The text after the body.
    pub after: Vec<u8>,
}

impl Out {
    /// Makes the message for a session that a finished text is. O(1).
    pub fn finished(alloc: Global, session: SessionId, text: Finished) -> Out
        ensures session { result.session ≡ session }
        ensures text { text_of_out result ≡ text.text.items }
    {
        Out {
            session,
            before: text.text,
            body: None,
            after: Vec::new(alloc),
        }
    }
}

// Written, and not derived, so that each end of a scope is one call to prove.
impl Drop for Out {
    fn drop(self) {
        let Out {
            session: _,
            before: _,
            body: _,
            after: _,
        } = self;
    }
}
