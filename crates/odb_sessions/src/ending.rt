//! Monitors that are cancelled. [P 9.6]
ghost use Rattle.std.specs.Prelude.{◌≡◌, ◌∷◌, [], false, map, IfOk};
ghost use Rattle.odb_rpc.specs.Represented.Printable.{printable_data};
ghost use Rattle.odb_service.specs.Session.{stopped, sync};
ghost use Rattle.odb_sessions.specs.Marked.{plain};
ghost use Rattle.odb_sessions.specs.Represented.Item.{marked_item_of};
ghost use Rattle.odb_wire.specs.Message.{has_left_out, id_of};
ghost use Rattle.odb_wire.specs.Shown.{request_data};

use crate::granted::Granted;
use crate::id::Id;
use crate::item::{Item, Stopped};
use odb_rpc::Printable;
use odb_wire::Request;
use std::alloc::{AllocError, Global};
use std::sync::Arc;

/// Returns a sync of the monitor with this id, and then the reply to the request for its cancel. O(n) for ids of n
/// bytes.
pub(crate) fn stopping(
    alloc: Global,
    request: &Request,
    id: Printable<'_>,
) -> Result<Vec<Item>, AllocError>
    requires { has_left_out (id_of (request_data request.now)) ≡ false }
    ensures { IfOk result (λ items. map marked_item_of items.items
        ≡ plain (sync (printable_data id.entry)) ∷ plain (stopped (request_data request.now) (printable_data id.entry)) ∷ []) }
{
    let reply = Granted::new(alloc, request)?;
    let id = Arc::new(alloc, Id::new(alloc, id)?)?;
    let mut items = Vec::with_capacity(alloc, 2)?;
    items.push_reserved(Item::Sync(id.clone()?));
    items.push_reserved(Item::Stopped(Stopped { reply, id }));
    Ok(items)
}
