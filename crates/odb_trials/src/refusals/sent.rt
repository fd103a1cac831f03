//! What two sessions are sent.

use std::alloc::{AllocError, Global};

/// Room for all that is sent, so that writing it down asks for no memory.
const ROOM: usize = 16_384;

/// What two sessions were sent, message after message.
#[derive(Drop)]
pub(crate) struct Sent {
    pub(crate) first: Vec<u8>,
    pub(crate) second: Vec<u8>,
}

impl Sent {
    pub(crate) fn new(alloc: Global) -> Result<Sent, AllocError> {
        Ok(Sent {
            first: text(alloc)?,
            second: text(alloc)?,
        })
    }

    /// Returns whether the same was sent.
    pub(crate) fn is_as(&self, other: &Sent) -> bool {
        self.first == other.first && self.second == other.second
    }
}

/// Returns an empty text with room. Where memory is refused it is tried once more.
pub(crate) fn text(alloc: Global) -> Result<Vec<u8>, AllocError> {
    match Vec::with_capacity(alloc, ROOM) {
        Ok(text) => Ok(text),
        Err(_) => Vec::with_capacity(alloc, ROOM),
    }
}
