//! Items of the queue that are carried out on a session's monitors. It takes no memory. [P 9.1, 9.5, 9.6, 10.1]
ghost use Rattle.std.specs.Prelude.{◌≡◌, ◌+◌, ◌<◌, ◌≤◌, [], ◌∷◌, ◌++◌, flat_map, map, option_map, position, vec_capacity, vec_len};
ghost use Rattle.std.specs.Arc.{arc_value};
ghost use Rattle.odb_queue.specs.Represented.Item.{item_of};
ghost use Rattle.odb_schema.specs.Schema.{Schema};
ghost use Rattle.odb_service.specs.Server.{served_by};
ghost use Rattle.odb_service.specs.Session as model;
ghost use Rattle.odb_service.specs.Session.{at_first, begun, changed, drop_first, has_id, leaves};
ghost use Rattle.odb_sessions.specs.Asked.{is_same};
ghost use Rattle.odb_sessions.specs.Carried.{Carries, IsReady, begins, finished_in, first_brought};
ghost use Rattle.odb_sessions.specs.Marked.{item_seen, marks_due, marks_in, monitor_of, watch_of};
ghost use Rattle.odb_sessions.specs.Represented.Origin.{granted};
ghost use Rattle.odb_sessions.specs.Represented.Item.{filters_of, marked_item_of};

use crate::id::Id;
use crate::item::{Changes, Item, Renamed, Shift, Stopped};
use crate::monitor::Monitor;
use crate::past::Past;
use odb_queue::Finished;
use std::sync::Arc;

impl Item {
    /// Carries it out, and returns the text that stands in it, if one does.
    pub(crate) fn carry_out(self, monitors: &mut Vec<Monitor>, past: &mut Past) -> Option<Finished>
        requires ready { IsReady past.old (marks_due (marked_item_of self) ++ flat_map marks_in monitors.old.items) }
        requires room { vec_len monitors.old + begins (marked_item_of self) ≤ vec_capacity monitors.old }
        ensures monitors { (s : Schema) → map monitor_of monitors.new.items ≡ leaves (served_by s) past.old.db (item_seen (marked_item_of self)) (map monitor_of monitors.old.items) }
        ensures carried { Carries past.old past.new (marks_due (marked_item_of self) ++ flat_map marks_in monitors.old.items) (flat_map marks_in monitors.new.items) }
        ensures few { vec_len monitors.new ≤ vec_len monitors.old + begins (marked_item_of self) }
        ensures capacity { vec_capacity monitors.new ≡ vec_capacity monitors.old }
        ensures text { option_map item_of result ≡ finished_in (item_seen (marked_item_of self)) }
    {
        match self {
            Item::Say(said) => Some(said),
            Item::Start(start) => {
                begin(monitors, start.monitor, past);
                None
            }
            Item::Sync(id) => {
                sync(monitors, &id, past);
                None
            }
            Item::Shift(shift) => {
                shift_to(monitors, shift, past);
                None
            }
            Item::Renamed(renamed) => Some(rename(monitors, renamed)),
            Item::Stopped(stopped) => Some(stop(monitors, stopped, past)),
        }
    }
}

/// Begins the monitor, whose client has what its tables are now.
fn begin(monitors: &mut Vec<Monitor>, monitor: Monitor, past: &mut Past)
    requires ready { IsReady past.old (marks_in monitor ++ flat_map marks_in monitors.old.items) }
    requires room { vec_len monitors.old < vec_capacity monitors.old }
    ensures monitors { (s : Schema) → map monitor_of monitors.new.items ≡ map monitor_of monitors.old.items ++ begun (served_by s) past.old.db (watch_of monitor) ∷ [] }
    ensures carried { Carries past.old past.new (marks_in monitor ++ flat_map marks_in monitors.old.items) (flat_map marks_in monitors.new.items) }
    ensures few { vec_len monitors.new ≡ vec_len monitors.old + 1 }
    ensures capacity { vec_capacity monitors.new ≡ vec_capacity monitors.old }
{
    let mut monitor = monitor;
    monitor.bring(past);
    monitors.push_reserved(monitor);
}

/// Brings the client of the first monitor with this id to what its tables are now.
fn sync(monitors: &mut Vec<Monitor>, id: &Id, past: &mut Past)
    requires { IsReady past.old (flat_map marks_in monitors.old.items) }
    ensures monitors { (s : Schema) → map monitor_of monitors.new.items ≡ leaves (served_by s) past.old.db (model.sync id.now) (map monitor_of monitors.old.items) }
    ensures carried { Carries past.old past.new (flat_map marks_in monitors.old.items) (flat_map marks_in monitors.new.items) }
    ensures few { vec_len monitors.new ≡ vec_len monitors.old }
    ensures capacity { vec_capacity monitors.new ≡ vec_capacity monitors.old }
{
    let Some(place) = place_of(monitors.as_slice(), id) else {
        return;
    };
    monitors[place].bring(past);
}

/// Does the same under new filters.
fn shift_to(monitors: &mut Vec<Monitor>, shift: Shift, past: &mut Past)
    requires { IsReady past.old (flat_map marks_in monitors.old.items) }
    ensures monitors { (s : Schema) → map monitor_of monitors.new.items ≡ leaves (served_by s) past.old.db (model.shift (arc_value shift.id) (filters_of shift.changes)) (map monitor_of monitors.old.items) }
    ensures carried { Carries past.old past.new (flat_map marks_in monitors.old.items) (flat_map marks_in monitors.new.items) }
    ensures few { vec_len monitors.new ≡ vec_len monitors.old }
    ensures capacity { vec_capacity monitors.new ≡ vec_capacity monitors.old }
{
    let Shift { id, changes } = shift;
    let Some(place) = place_of(monitors.as_slice(), &id) else {
        return;
    };
    monitors[place].bring_under(changes, past);
}

/// Gives the first monitor with the old id the new one, and the new filters. It returns the reply.
fn rename(monitors: &mut Vec<Monitor>, renamed: Renamed) -> Finished
    ensures monitors { (s : Schema) → map monitor_of monitors.new.items
        ≡ at_first (has_id (served_by s) (arc_value renamed.old_id)) (λ m. record m { watch = changed (served_by s) (arc_value renamed.new_id) (filters_of renamed.changes) m.watch }) (map monitor_of monitors.old.items) }
    ensures marks { flat_map marks_in monitors.new.items ≡ flat_map marks_in monitors.old.items }
    ensures few { vec_len monitors.new ≡ vec_len monitors.old }
    ensures capacity { vec_capacity monitors.new ≡ vec_capacity monitors.old }
    ensures text { item_of result ≡ granted renamed.reply }
{
    let Renamed {
        reply,
        old_id,
        new_id,
        changes,
    } = renamed;
    rename_first(monitors, &old_id, new_id, changes);
    reply.finished()
}

fn rename_first(monitors: &mut Vec<Monitor>, old: &Id, new: Arc<Id>, changes: Changes)
    ensures monitors { (s : Schema) → map monitor_of monitors.new.items
        ≡ at_first (has_id (served_by s) old.now) (λ m. record m { watch = changed (served_by s) (arc_value new) (filters_of changes) m.watch }) (map monitor_of monitors.old.items) }
    ensures marks { flat_map marks_in monitors.new.items ≡ flat_map marks_in monitors.old.items }
    ensures few { vec_len monitors.new ≡ vec_len monitors.old }
    ensures capacity { vec_capacity monitors.new ≡ vec_capacity monitors.old }
{
    let Some(place) = place_of(monitors.as_slice(), old) else {
        return;
    };
    monitors[place].rename(new, changes);
}

/// Ends the first monitor with the id. It returns the reply.
fn stop(monitors: &mut Vec<Monitor>, stopped: Stopped, past: &mut Past) -> Finished
    requires { IsReady past.old (flat_map marks_in monitors.old.items) }
    ensures monitors { (s : Schema) → map monitor_of monitors.new.items ≡ drop_first (has_id (served_by s) (arc_value stopped.id)) (map monitor_of monitors.old.items) }
    ensures carried { Carries past.old past.new (flat_map marks_in monitors.old.items) (flat_map marks_in monitors.new.items) }
    ensures few { vec_len monitors.new ≤ vec_len monitors.old }
    ensures capacity { vec_capacity monitors.new ≡ vec_capacity monitors.old }
    ensures text { item_of result ≡ granted stopped.reply }
{
    let Stopped { reply, id } = stopped;
    stop_first(monitors, &id, past);
    reply.finished()
}

fn stop_first(monitors: &mut Vec<Monitor>, id: &Id, past: &mut Past)
    requires { IsReady past.old (flat_map marks_in monitors.old.items) }
    ensures monitors { (s : Schema) → map monitor_of monitors.new.items ≡ drop_first (has_id (served_by s) id.now) (map monitor_of monitors.old.items) }
    ensures carried { Carries past.old past.new (flat_map marks_in monitors.old.items) (flat_map marks_in monitors.new.items) }
    ensures few { vec_len monitors.new ≤ vec_len monitors.old }
    ensures capacity { vec_capacity monitors.new ≡ vec_capacity monitors.old }
{
    let Some(place) = place_of(monitors.as_slice(), id) else {
        return;
    };
    let stopped = monitors.remove(place);
    stopped.release(past);
}

fn place_of(monitors: &[Monitor], id: &Id) -> Option<usize>
    ensures { result ≡ position (λ x. is_same id.now x.id) monitors.now }
{
    monitors.iter().position(|monitor| id.same(&monitor.id))
}

/// Brings the clients of this many monitors, from the first on, to what their tables are now.
pub(crate) fn bring_first(monitors: &mut Vec<Monitor>, count: usize, past: &mut Past)
    requires { IsReady past.old (flat_map marks_in monitors.old.items) }
    ensures monitors { (s : Schema) → map monitor_of monitors.new.items ≡ first_brought (served_by s) past.old.db count (map monitor_of monitors.old.items) }
    ensures carried { Carries past.old past.new (flat_map marks_in monitors.old.items) (flat_map marks_in monitors.new.items) }
    ensures few { vec_len monitors.new ≡ vec_len monitors.old }
    ensures capacity { vec_capacity monitors.new ≡ vec_capacity monitors.old }
{
    let all = count.min(monitors.len());
    for place in 0..all {
        monitors[place].bring(past);
    }
}
