//! Monitors as asked: what they will be once the whole queue is taken. [P 10.2]
ghost use Rattle.std.specs.Prelude.{◌≡◌, [], ◌∷◌, ◌++◌, map, position, IfOk, OnOk};
ghost use Rattle.std.specs.Arc.{arc_value};
ghost use Rattle.std.specs.List.{list_any};
ghost use Rattle.odb_queue.specs.Represented.Item.{item_of};
ghost use Rattle.odb_service.specs.Session.{at_first, drop_first, sync};
ghost use Rattle.odb_sessions.specs.Asked.{asks_ids, is_same};
ghost use Rattle.odb_sessions.specs.Marked.{item_seen, plain};
ghost use Rattle.odb_sessions.specs.Represented.Item.{marked_item_of};

use crate::id::Id;
use crate::item::Item;
use crate::monitor::Monitor;
use odb_queue::Finished;
use std::alloc::{AllocError, Global};
use std::sync::Arc;

/// Returns the ids of these monitors.
pub(crate) fn ids_of(alloc: Global, monitors: &[Monitor]) -> Result<Vec<Arc<Id>>, AllocError>
    ensures { IfOk result (λ ids. map arc_value ids.items ≡ map (λ h. h.id) monitors.now) }
{
    let mut ids = Vec::with_capacity(alloc, monitors.len())?;
    for monitor in monitors {
        ids.push(monitor.id()?)?;
    }
    Ok(ids)
}

/// Does to the ids as asked what an item does. Where memory is refused some of it may be done.
pub(crate) fn ask(ids: &mut Vec<Arc<Id>>, item: &Item) -> Result<(), AllocError>
    ensures { OnOk result (map arc_value ids.new.items ≡ asks_ids (item_seen (marked_item_of item.now)) (map arc_value ids.old.items)) }
{
    match item {
        Item::Say(_) => Ok(()),
        Item::Start(start) => add(ids, start.monitor.id()?),
        Item::Sync(_) => Ok(()),
        Item::Shift(_) => Ok(()),
        Item::Renamed(renamed) => rename(ids, &renamed.old_id, renamed.new_id.clone()?),
        Item::Stopped(stopped) => forget(ids, &stopped.id),
    }
}

fn add(ids: &mut Vec<Arc<Id>>, id: Arc<Id>) -> Result<(), AllocError>
    ensures { OnOk result (map arc_value ids.new.items ≡ map arc_value ids.old.items ++ arc_value id ∷ []) }
{
    ids.push(id)?;
    Ok(())
}

fn rename(ids: &mut Vec<Arc<Id>>, old: &Id, new: Arc<Id>) -> Result<(), AllocError>
    ensures { OnOk result (map arc_value ids.new.items ≡ at_first (is_same old.now) (λ i. arc_value new) (map arc_value ids.old.items)) }
{
    let Some(place) = place_of(ids.as_slice(), old) else {
        return Ok(());
    };
    ids[place] = new;
    Ok(())
}

fn forget(ids: &mut Vec<Arc<Id>>, id: &Id) -> Result<(), AllocError>
    ensures { OnOk result (map arc_value ids.new.items ≡ drop_first (is_same id.now) (map arc_value ids.old.items)) }
{
    let Some(place) = place_of(ids.as_slice(), id) else {
        return Ok(());
    };
    drop(ids.remove(place));
    Ok(())
}

fn place_of(ids: &[Arc<Id>], id: &Id) -> Option<usize>
    ensures { result ≡ position (λ x. is_same id.now (arc_value x)) ids.now }
{
    ids.iter().position(|known| id.same(known))
}

/// Returns whether the id is one of these.
pub(crate) fn has(ids: &[Arc<Id>], id: &Id) -> bool
    ensures { result ≡ list_any (λ x. is_same id.now (arc_value x)) ids.now }
{
    ids.iter().any(|known| id.same(known))
}

/// Returns a sync for each of these monitors, and then the reply.
pub(crate) fn ending(
    alloc: Global,
    ids: Vec<Arc<Id>>,
    reply: Finished,
) -> Result<Vec<Item>, AllocError>
    ensures { IfOk result (λ items. map marked_item_of items.items ≡ map (λ i. plain (sync (arc_value i))) ids.items ++ plain (item_of reply) ∷ []) }
{
    let mut items = Vec::new(alloc);
    for id in ids {
        items.push(Item::Sync(id))?;
    }
    items.push(Item::Say(reply))?;
    Ok(items)
}
