//! Marks of sessions, which are lent one after the other: those of monitors, and of monitors whose first reply is due.
ghost use Rattle.std.specs.Prelude.{OnOk, flat_map, map, ◌++◌, ◌≡◌};
ghost use Rattle.odb_sessions.specs.Marked.{marks_due, marks_in, marks_of, table_marks};
ghost use Rattle.odb_sessions.specs.Represented.Item.{marked_item_of};

use crate::item::Item;
use crate::monitor::{Monitor, Watching};
use crate::queue::Queue;
use crate::session::Session;
use odb_chain::Mark;
use std::alloc::AllocError;

impl Session {
    /// Adds its marks: those of its monitors, and those of monitors whose first reply is due.
    pub(crate) fn lend<'a>(&'a self, marks: &mut Vec<&'a Mark>) -> Result<(), AllocError>
        ensures { OnOk result (map (λ m. m.now) marks.new.items ≡ map (λ m. m.now) marks.old.items ++ marks_of self.now) }
    {
        lend_monitors(self.monitors.as_slice(), marks)?;
        self.queue.lend(marks)
    }
}

/// Adds the marks of these monitors.
fn lend_monitors<'a>(monitors: &'a [Monitor], marks: &mut Vec<&'a Mark>) -> Result<(), AllocError>
    ensures { OnOk result (map (λ m. m.now) marks.new.items ≡ map (λ m. m.now) marks.old.items ++ flat_map marks_in monitors.now) }
{
    for monitor in monitors {
        monitor.lend(marks)?;
    }
    Ok(())
}

/// Adds the marks of these tables.
pub(crate) fn lend_tables<'a>(
    tables: &'a [Watching],
    marks: &mut Vec<&'a Mark>,
) -> Result<(), AllocError>
    ensures { OnOk result (map (λ m. m.now) marks.new.items ≡ map (λ m. m.now) marks.old.items ++ table_marks tables.now) }
{
    for table in tables {
        marks.push(&table.mark)?;
    }
    Ok(())
}

impl Queue {
    /// Adds the marks of its items.
    fn lend<'a>(&'a self, marks: &mut Vec<&'a Mark>) -> Result<(), AllocError>
        ensures { OnOk result (map (λ m. m.now) marks.new.items ≡ map (λ m. m.now) marks.old.items ++ flat_map marks_due self.now) }
    {
        for item in self.items.iter() {
            lend_item(item, marks)?;
        }
        Ok(())
    }
}

/// Adds the marks of an item.
fn lend_item<'a>(item: &'a Item, marks: &mut Vec<&'a Mark>) -> Result<(), AllocError>
    ensures { OnOk result (map (λ m. m.now) marks.new.items ≡ map (λ m. m.now) marks.old.items ++ marks_due (marked_item_of item.now)) }
{
    match item {
        Item::Say(_) => Ok(()),
        Item::Start(start) => start.monitor.lend(marks),
        Item::Sync(_) => Ok(()),
        Item::Shift(_) => Ok(()),
        Item::Renamed(_) => Ok(()),
        Item::Stopped(_) => Ok(()),
    }
}
