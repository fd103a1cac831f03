//! What happened since the base, which proofs alone read. It takes no memory, and its calls do nothing at run time.
ghost use Rattle.std.specs.Prelude.{◌≡◌, List, [], ◌∷◌, ◌++◌};
ghost use Rattle.std.specs.Borrow.{ftrue};
ghost use Rattle.odb_service.specs.Run.{Event};
ghost use Rattle.odb_service.specs.World.{World};
ghost use Rattle.odb_service.specs.WorldCode.{world_code};
ghost use Rattle.odb_hub.specs.EventCode.{events_code};

use odb_core::Core;
use std::marker::Model;

pub(crate) mod happened;

pub(crate) use happened::Happened;

/// A state of the service machine, and the events since then.
#[derive(Drop)]
pub(crate) struct Journal {
    pub(crate) ghost base: { World } by { world_code },
    pub(crate) ghost events: { List Event } by { events_code },
}

impl Model for Journal {
    ghost also_owns = { λ _. ftrue };
}

// It owns nothing.
unsafe impl Send for Journal {}

impl Journal {
    ghost use Rattle.odb_hub.specs.Represented.Happened.{event_of};

    /// Makes the journal that begins here, with no event.
    pub(crate) fn begin(_core: &Core) -> Journal
        ensures { (result.base ≡ _core.now.world) × (result.events ≡ []) }
    {
        Journal {}
    }

    /// Returns that with one event more.
    pub(crate) fn with(&self, event: Happened) -> Journal
        ensures base { result.base ≡ self.now.base }
        ensures events { result.events ≡ self.now.events ++ event_of event ∷ [] }
    {
        let grown = self.grown(&event);
        drop(event);
        grown
    }

    fn grown(&self, _event: &Happened) -> Journal
        ensures { (result.base ≡ self.now.base) × (result.events ≡ self.now.events ++ event_of _event.now ∷ []) }
    {
        Journal {}
    }
}
