//! Monitors as asked, without their filters. [P 9.5, 10.2]
ghost use Rattle.std.specs.Prelude.{◌≡◌, [], ◌∷◌, ◌++◌, find, map, position, IfOk, OnOk, bytes_eq};
ghost use Rattle.std.specs.Arc.{arc_value};
ghost use Rattle.std.specs.List.{list_any};
ghost use Rattle.odb_request.specs.Represented.Notation.{notation_of};
ghost use Rattle.odb_service.specs.Session.{at_first, drop_first};
ghost use Rattle.odb_sessions.specs.Asked.{is_same};
ghost use Rattle.odb_sessions.specs.Marked.{item_seen};
ghost use Rattle.odb_sessions.specs.Named.{asks_named, named_of, under_id};
ghost use Rattle.odb_sessions.specs.Represented.Item.{marked_item_of};

use crate::id::Id;
use crate::item::Item;
use crate::monitor::Monitor;
use odb_request::Notation;
use std::alloc::{AllocError, Global};
use std::marker::Model;
use std::sync::Arc;

/// A monitor as asked: its id, its notation and its tables, without filters.
#[derive(Drop)]
pub struct Named<'a> {
    id: Arc<Id>,
    monitor: &'a Monitor,
}

impl<'a> Model for Named<'a> {
    ghost use Rattle.std.specs.Arc.{arc_value};
    ghost use Rattle.odb_sessions.specs.Named as model;
    ghost use Rattle.odb_sessions.specs.Named.{named_of, under_id};
    ghost use Rattle.odb_sessions.specs.Represented.Codes.{named_code};

    ghost Value = { model.Named };

    ghost coded = { named_code };

    ghost view = { λ n. under_id (arc_value n.id) (named_of n.monitor.now) };
}

impl<'a> Named<'a> {
    fn new(monitor: &'a Monitor) -> Result<Named<'a>, AllocError>
        ensures { IfOk result (λ named. named ≡ named_of monitor.now) }
    {
        let id = monitor.id()?;
        Ok(Named { id, monitor })
    }

    /// Returns it under another id.
    fn under(&self, id: Arc<Id>) -> Named<'a>
        ensures { result ≡ under_id (arc_value id) self.now }
    {
        Named {
            id,
            monitor: self.monitor,
        }
    }

    /// Returns whether it has this id.
    fn is_of(&self, id: &Id) -> bool
        ensures { result ≡ is_same id.now self.now.id }
    {
        id.same(&self.id)
    }

    /// Returns which call asked for it. O(1).
    pub fn notation(&self) -> Notation
        ensures { notation_of result ≡ self.now.notation }
    {
        let monitor = self.monitor;
        monitor.notation
    }

    /// Returns whether a table of this name is one of its tables. O(n) comparisons of names for n tables.
    pub fn has_table(&self, name: &str) -> bool
        ensures { result ≡ list_any (λ s. bytes_eq name.now s.name) self.now.shapes }
    {
        self.monitor.has_table(name)
    }
}

/// Names these monitors.
pub(crate) fn all_named<'a>(
    alloc: Global,
    monitors: &'a [Monitor],
) -> Result<Vec<Named<'a>>, AllocError>
    ensures { IfOk result (λ named. named.items ≡ map named_of monitors.now) }
{
    let mut named = Vec::with_capacity(alloc, monitors.len())?;
    for monitor in monitors {
        named.push(Named::new(monitor)?)?;
    }
    Ok(named)
}

/// Does to the monitors as asked what an item does. Where memory is refused some of it may be done.
pub(crate) fn ask_of<'a>(named: &mut Vec<Named<'a>>, item: &'a Item) -> Result<(), AllocError>
    ensures { OnOk result (named.new.items ≡ asks_named (item_seen (marked_item_of item.now)) named.old.items) }
{
    match item {
        Item::Say(_) => Ok(()),
        Item::Start(start) => add(named, &start.monitor),
        Item::Sync(_) => Ok(()),
        Item::Shift(_) => Ok(()),
        Item::Renamed(renamed) => {
            rename(named, &renamed.old_id, renamed.new_id.clone()?);
            Ok(())
        }
        Item::Stopped(stopped) => {
            forget(named, &stopped.id);
            Ok(())
        }
    }
}

fn add<'a>(named: &mut Vec<Named<'a>>, monitor: &'a Monitor) -> Result<(), AllocError>
    ensures { OnOk result (named.new.items ≡ named.old.items ++ named_of monitor.now ∷ []) }
{
    named.push(Named::new(monitor)?)?;
    Ok(())
}

fn rename(named: &mut Vec<Named<'_>>, old: &Id, new: Arc<Id>)
    ensures { named.new.items ≡ at_first (λ n. is_same old.now n.id) (under_id (arc_value new)) named.old.items }
{
    let Some(place) = place_of(named.as_slice(), old) else {
        return;
    };
    named[place] = named[place].under(new);
}

fn forget(named: &mut Vec<Named<'_>>, id: &Id)
    ensures { named.new.items ≡ drop_first (λ n. is_same id.now n.id) named.old.items }
{
    let Some(place) = place_of(named.as_slice(), id) else {
        return;
    };
    drop(named.remove(place));
}

fn place_of(named: &[Named<'_>], id: &Id) -> Option<usize>
    ensures { result ≡ position (λ n. is_same id.now n.id) named.now }
{
    named.iter().position(|known| known.is_of(id))
}

/// Returns the first of these with the id.
pub(crate) fn first_of<'a>(named: Vec<Named<'a>>, id: &Id) -> Option<Named<'a>>
    ensures { result ≡ find (λ n. is_same id.now n.id) named.entry.items }
{
    named.into_iter().find(|known| known.is_of(id))
}
