//! Lists in chunks.
ghost use Rattle.std.specs.Prelude.{◌≡◌, ◌<◌, ◌++◌, [], length, IfOk, OnOk};
ghost use Rattle.std.specs.Arc.{arc_value};
ghost use Rattle.odb_chunks.specs.Represented.Chunks.{items_in, AreFilled};

use crate::items::Items;
use std::alloc::{AllocError, Global};
use std::marker::Model;
use std::sync::Arc;

/// How many items a chunk has at most that was made of items.
pub const CHUNK: usize = 256;

/// A list in chunks, of which none is empty.
#[derive(Drop)]
pub struct ChunkedList<T: Drop> {
    len: usize,
    chunks: Vec<Arc<Vec<T>>>,
}

impl<T: Drop> Model for ChunkedList<T> {
    ghost use Rattle.std.specs.Prelude.{◌≡◌, List, length};
    ghost use Rattle.odb_chunks.specs.Represented.Chunks.{items_in, AreFilled};

    ghost Value = { List T };

    ghost view = { λ l. items_in l.chunks.items };

    ghost invariant = { λ l. (l.len ≡ length (items_in l.chunks.items)) × AreFilled l.chunks.items };
}

impl<T: Drop> ChunkedList<T> {
    /// Makes the list without items. O(1); it takes no memory, but keeps the allocator.
    pub fn new(alloc: Global) -> ChunkedList<T>
        ensures { result ≡ [] }
    {
        ChunkedList {
            len: 0,
            chunks: Vec::new(alloc),
        }
    }

    /// Returns the number of items. O(1).
    pub fn len(&self) -> usize
        ensures { result ≡ length self.now }
    {
        self.len
    }

    /// Returns the items in their order. O(1).
    #[inline(always)]
    pub fn items(&self) -> Items<'_, T>
        ensures { result ≡ self.now }
    {
        Items::of_chunks(self.len, self.chunks.as_slice())
    }

    /// Returns the chunks in their order. O(1).
    pub fn chunks(&self) -> &[Arc<Vec<T>>]
        ensures items { items_in result.now ≡ self.now }
        ensures filled { AreFilled result.now }
    {
        self.chunks.as_slice()
    }

    /// Appends a chunk, which both have then; an empty one is left out. O(1). Where the list would have more items than a
    /// `usize` counts, memory is refused.
    pub fn push_shared(&mut self, chunk: &Arc<Vec<T>>) -> Result<(), AllocError>
        ensures { OnOk result (self.new ≡ self.old ++ (arc_value chunk.now).items) }
    {
        if chunk.is_empty() {
            return Ok(());
        }
        self.push_filled(Arc::try_clone(chunk)?)
    }

    /// Appends the items, in chunks of at most 256. O(n) for n items, and O(1) where they are one chunk. Where memory is refused
    /// some of them are in the list, and the others are dropped.
    pub fn push_items(&mut self, alloc: Global, items: Vec<T>) -> Result<(), AllocError>
        ensures { OnOk result (self.new ≡ self.old ++ items.items) }
    {
        if items.len() <= CHUNK {
            return self.push_chunk(alloc, items);
        }
        let most = most_in_chunk(items.len());
        let mut chunk = Vec::with_capacity(alloc, most)?;
        for item in items {
            chunk = self.push_full(alloc, chunk, most)?;
            chunk.push(item)?;
        }
        self.push_chunk(alloc, chunk)
    }

    /// Returns the chunk, or where it has that many items appends it, and returns an empty one.
    fn push_full(&mut self, alloc: Global, chunk: Vec<T>, most: usize) -> Result<Vec<T>, AllocError>
        ensures { IfOk result (λ rest. self.new ++ rest.items ≡ self.old ++ chunk.items) }
    {
        if chunk.len() < most {
            return Ok(chunk);
        }
        self.push_chunk(alloc, chunk)?;
        Vec::with_capacity(alloc, most)
    }

    /// Appends the items as a chunk of their own, if there are any.
    fn push_chunk(&mut self, alloc: Global, items: Vec<T>) -> Result<(), AllocError>
        ensures { OnOk result (self.new ≡ self.old ++ items.items) }
    {
        if items.is_empty() {
            return Ok(());
        }
        match Arc::new(alloc, items) {
            Ok(chunk) => self.push_filled(chunk),
            Err(_) => Err(AllocError),
        }
    }

    fn push_filled(&mut self, chunk: Arc<Vec<T>>) -> Result<(), AllocError>
        requires { 0 < length (arc_value chunk).items }
        ensures { OnOk result (self.new ≡ self.old ++ (arc_value chunk).items) }
    {
        let Some(len) = self.len.checked_add(chunk.len()) else {
            return Err(AllocError);
        };
        self.chunks.push(chunk)?;
        self.len = len;
        Ok(())
    }
}

/// Returns how many items a chunk gets of so many: half of them where two chunks are enough, so that both have room.
fn most_in_chunk(len: usize) -> usize {
    if len <= 2 * CHUNK {
        return len - len / 2;
    }
    CHUNK
}
