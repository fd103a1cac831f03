//! How much may be in a ring.
ghost use Rattle.std.specs.Prelude.{◌≡◌, [], ◌∷◌, ◌++◌, true, length, min, IfOk};

use std::alloc::{AllocError, Global};
use std::collections::VecDeque;
use std::marker::Model;

/// How many messages a ring has room for.
pub(crate) const ROOM: usize = 64;

/// For how many bytes of text a ring has room, besides a message that finds it empty.
const TEXT: usize = 262_144;

/// The load of a ring: how many bytes the messages have that may be in it still, the oldest first.
#[derive(Drop)]
pub(crate) struct RingLoad {
    sizes: VecDeque<usize>,
    bytes: usize,
}

impl Model for RingLoad {
    ghost use Rattle.std.specs.Prelude.{ℕ, List, ◌≡◌, ◌≤◌};
    ghost use Rattle.std.specs.Coded.{coded_list, coded_ℕ};
    ghost use Rattle.std.specs.VecDeque.{deque_capacity};
    ghost use Rattle.odb_hub.specs.Room.{total};

    ghost Value = { List ℕ };

    ghost coded = { coded_list coded_ℕ };

    ghost view = { λ w. w.sizes.items };

    ghost invariant = { λ w. (w.bytes ≡ total w.sizes.items) × (64 ≤ deque_capacity w.sizes) };
}

impl RingLoad {
    ghost use Rattle.odb_hub.specs.Room.{IsLooked, has_room};

    /// Makes the load of a ring in which nothing is.
    pub(crate) fn new(alloc: Global) -> Result<RingLoad, AllocError>
        ensures { IfOk result (λ waiting. waiting ≡ []) }
    {
        Ok(RingLoad {
            sizes: VecDeque::with_capacity(alloc, ROOM)?,
            bytes: 0,
        })
    }

    /// Returns whether there is room for a message of so many bytes: one always fits into a ring that is empty, which
    /// has room for 64 of them, and for 256 KiB of text.
    pub(crate) fn has_room(&self, size: usize) -> bool
        ensures { result ≡ has_room self.now size }
    {
        self.sizes.is_empty()
            || (self.sizes.len() < ROOM && self.bytes.saturating_add(size) <= TEXT)
    }

    /// Notes that a message of so many bytes was sent into the ring.
    pub(crate) fn push(&mut self, size: usize)
        requires { has_room self.old size ≡ true }
        ensures { self.new ≡ self.old ++ size ∷ [] }
    {
        self.sizes.push_back_reserved(size);
        self.bytes = self.bytes.saturating_add(size);
    }

    /// Notes that so many messages are in the ring at most.
    pub(crate) fn cut(&mut self, left: usize)
        ensures looked { IsLooked self.old self.new }
        ensures left { length self.new ≡ min left (length self.old) }
    {
        while self.sizes.len() > left {
            let Some(size) = self.sizes.pop_front() else {
                return;
            };
            self.bytes = self.bytes.saturating_sub(size);
        }
    }
}
