//! The lock, and how a thread comes to it.
ghost use Rattle.std.specs.Prelude.{◌≡◌, ◌+◌};

use crate::counted::Counted;
use odb_core::Core;
use odb_par::Workers;
use std::alloc::Global;
use std::sync::ledger::{Blank, Ledger};
use std::sync::{Mutex, MutexGuard, Wait};

/// A server that many threads share: what the lock guards is a [`Counted`]. Of a value under a lock only the facts of its
/// type are known before a call, here that the state is one to which a new server comes, that the rings were sent just what
/// that gives, and that the submits are those that the seats were answered ([`Counted::state`]). Messages are taken out of a
/// [`Mailbox`](crate::Mailbox) without the lock.
///
/// A thread comes to the lock by a door, where one waits at a time: whoever had the lock finds the door shut while another
/// waits, so that nobody has it twice meanwhile. What one call of submissions takes under it is a turn.
#[derive(Drop)]
pub struct Hub<L: Ledger> {
    door: Mutex<()>,
    state: Mutex<Counted<L>>,
}

impl<L: Ledger> Hub<L> {
    ghost use Rattle.odb_hub.specs.Guarded.{IsNew};

    /// Makes a hub over a new core, which has empty tables, no commit and no session, of which so many seats may be given at once;
    /// these workers compose what a session alone is given.
    pub fn new(alloc: Global, core: Core, blank: Blank, seats: u64, workers: Workers) -> Hub<L>
        requires core { IsNew core }
        requires ledger { (blank.name ≡ L.name) × (blank.parts ≡ L.parts) }
        requires parts { blank.parts ≡ seats + 1 }
    {
        Hub {
            door: Mutex::new(()),
            state: Mutex::new(Counted::new(alloc, core, blank, seats, workers)),
        }
    }

    /// Takes the lock, which is free again when what this returns is dropped. Each call of [`Counted`] is made under it,
    /// and one alone each time, so that no thread has it for longer than a turn or a round.
    pub fn enter<R: Wait>(&self, rt: &R) -> MutexGuard<'_, Counted<L>> {
        let door = self.door.lock(rt);
        let state = self.state.lock(rt);
        drop(door);
        state
    }
}
