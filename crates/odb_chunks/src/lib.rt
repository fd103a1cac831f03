//! Lists in chunks, which copies of a list share: one that differs in few places has its other chunks in common with it.
//!
//! Where memory is refused a call returns `AllocError`, and what it was given is as it was, unless its own page says
//! otherwise.
#![tactic(auto)]

mod chunked_list;
mod items;

pub use chunked_list::{CHUNK, ChunkedList};
pub use items::Items;
