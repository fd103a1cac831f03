//! Tags that rows lose by a change, while a database takes it in.
use crate::key::Key;
use std::alloc::{AllocError, Global};
use std::mem;

/// The tags that the rows of a change lose, each with the place of its row's change. Who takes their pairs out tests
/// each of them once more, so no contract rests on what stands here.
#[derive(Drop)]
pub(crate) struct Went {
    row: usize,
    tags: Vec<(usize, Key)>,
}

impl Went {
    /// Makes one without tags, at the first row. O(1), and takes no memory.
    pub(crate) fn new(alloc: Global) -> Went {
        Went {
            row: 0,
            tags: Vec::new(alloc),
        }
    }

    /// Returns the allocator that its tags are of. O(1).
    pub(crate) fn alloc(&self) -> Global {
        *self.tags.allocator()
    }

    /// Goes on to the next row. O(1).
    pub(crate) fn go_on(&mut self) {
        self.row = self.row.wrapping_add(1);
    }

    /// Appends the tag, if there is one, as one that the row loses. O(1), but for growth.
    pub(crate) fn push(&mut self, tag: Option<Key>) -> Result<(), AllocError> {
        let Some(tag) = tag else {
            return Ok(());
        };
        match self.tags.push((self.row, tag)) {
            Ok(()) => Ok(()),
            Err(_) => Err(AllocError),
        }
    }

    /// Returns the tags, each with the place of its row's change, and is at the first row without tags. O(1).
    pub(crate) fn take(&mut self) -> Vec<(usize, Key)> {
        let alloc = self.alloc();
        self.row = 0;
        mem::replace(&mut self.tags, Vec::new(alloc))
    }
}
