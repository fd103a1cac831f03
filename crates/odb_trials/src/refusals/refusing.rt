//! How it is said which request for memory is to be refused: by requests of sizes that nobody else asks for, which
//! `tests/refuse.c` knows. Where nobody knows them nothing is refused.

use std::alloc::{AllocError, Global};

/// The bytes of a request by which it is asked whether one was refused since the last request of more bytes: then it
/// is refused too. One of N more bytes has the N-th after it refused.
const ASKED: usize = 7_340_032;

/// Has the request of this number, from 1 on, refused.
pub(crate) fn refuse(alloc: Global, number: usize) -> Result<(), AllocError> {
    let asked: Vec<u8> = Vec::with_capacity(alloc, ASKED.saturating_add(number))?;
    drop(asked);
    Ok(())
}

/// Returns whether one was refused. From here on none is.
pub(crate) fn was_refused(alloc: Global) -> bool {
    let asked: Result<Vec<u8>, AllocError> = Vec::with_capacity(alloc, ASKED);
    asked.is_err()
}
