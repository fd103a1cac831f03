//! Monitors of which a change is asked for. [P 9.5]
ghost use Rattle.std.specs.Prelude.{◌≡◌, ◌∷◌, [], false, map, IfOk};
ghost use Rattle.odb_rpc.specs.Represented.Printable.{printable_data};
ghost use Rattle.odb_service.specs.Session.{renamed, shift};
ghost use Rattle.odb_sessions.specs.Marked.{plain};
ghost use Rattle.odb_sessions.specs.Represented.Item.{filters_of, marked_item_of};
ghost use Rattle.odb_wire.specs.Message.{has_left_out, id_of};
ghost use Rattle.odb_wire.specs.Shown.{request_data};

use crate::granted::Granted;
use crate::id::Id;
use crate::item::{Changes, Item, Renamed, Shift};
use odb_rpc::Printable;
use odb_wire::Request;
use std::alloc::{AllocError, Global};
use std::marker::Model;
use std::sync::Arc;

/// A change of a monitor that is asked for: of its id and of its filters. It is what `Sessions::change` takes.
pub struct Changing {
    reply: Granted,
    old_id: Arc<Id>,
    new_id: Arc<Id>,
    changes: Changes,
}

impl Model for Changing {
    ghost use Rattle.std.specs.Arc.{arc_value};
    ghost use Rattle.odb_sessions.specs.Represented.Codes.{changing_code};
    ghost use Rattle.odb_sessions.specs.Represented.Item.{filters_of};
    ghost use Rattle.odb_sessions.specs.Stopped as model;

    ghost Value = { model.Changing };

    ghost coded = { changing_code };

    ghost view = { λ c. record {
      request = c.reply;
      old = arc_value c.old_id;
      new = arc_value c.new_id;
      filters = filters_of c.changes;
    } };
}

impl Changing {
    /// Makes the change for which the request asks: of the monitor with the old id, which gets the new one and these
    /// filters. O(n) for ids of n bytes.
    pub fn new(
        alloc: Global,
        request: &Request,
        old: Printable<'_>,
        new: Printable<'_>,
        changes: Changes,
    ) -> Result<Changing, AllocError>
        requires { has_left_out (id_of (request_data request.now)) ≡ false }
        ensures { IfOk result (λ made. made ≡ record {
          request = request_data request.now;
          old = printable_data old.entry;
          new = printable_data new.entry;
          filters = filters_of changes;
        }) }
    {
        let reply = Granted::new(alloc, request)?;
        let old_id = Arc::new(alloc, Id::new(alloc, old)?)?;
        let new_id = Arc::new(alloc, Id::new(alloc, new)?)?;
        Ok(Changing {
            reply,
            old_id,
            new_id,
            changes,
        })
    }

    /// Returns the shift to the new filters, and then the reply.
    pub(crate) fn items(self, alloc: Global) -> Result<Vec<Item>, AllocError>
        ensures { IfOk result (λ items. map marked_item_of items.items
            ≡ plain (shift self.old self.filters) ∷ plain (renamed self.request self.old self.new self.filters) ∷ []) }
    {
        let Changing {
            reply,
            old_id,
            new_id,
            changes,
        } = self;
        let shift = Shift {
            id: old_id.clone()?,
            changes: changes.clone()?,
        };
        let mut items = Vec::with_capacity(alloc, 2)?;
        items.push_reserved(Item::Shift(shift));
        items.push_reserved(Item::Renamed(Renamed {
            reply,
            old_id,
            new_id,
            changes,
        }));
        Ok(items)
    }
}

// Written, and not derived, so that each end of a scope is one call to prove.
impl Drop for Changing {
    fn drop(self) {
        let Changing {
            reply: _,
            old_id: _,
            new_id: _,
            changes: _,
        } = self;
    }
}
