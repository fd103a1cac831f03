//! A session: what is queued for it, and its monitors. [P 10.1]
ghost use Rattle.std.specs.Prelude.{◌≡◌, ◌+◌, ◌≤◌, ◌&&◌, not, nat_lt, flat_map, map, option_map, IfErr, IfOk, OnErr, OnOk, vec_capacity, vec_len};
ghost use Rattle.std.specs.Arc.{arc_value};
ghost use Rattle.odb_queue.specs.Represented.Answer.{call_at};
ghost use Rattle.odb_rpc.specs.Message.{has_reply};
ghost use Rattle.odb_schema.specs.Schema.{Schema};
ghost use Rattle.odb_queue.specs.Represented.Item.{item_of};
ghost use Rattle.odb_service.specs.Run.{max_owed};
ghost use Rattle.odb_service.specs.Server.{served_by};
ghost use Rattle.odb_service.specs.Session.{replies_in};
ghost use Rattle.odb_sessions.specs.Asked.{ids_asked};
ghost use Rattle.odb_sessions.specs.Carried.{Carries, IsReady, all_begin, begins, last_finished, used_by};
ghost use Rattle.odb_sessions.specs.Marked.{empty_session, item_seen, marks_in, marks_of, seen};
ghost use Rattle.odb_sessions.specs.Named.{named_asked};
ghost use Rattle.odb_sessions.specs.Posts.{newest, with_item, without_newest};
ghost use Rattle.odb_sessions.specs.Represented.Item.{marked_item_of};
ghost use Rattle.odb_sessions.specs.Tied.{Frees, HasAll};
ghost use Rattle.odb_sessions.specs.Watches.{KeepsWatch};
ghost use Rattle.odb_wire.specs.Shown.{request_data};

use crate::applying::bring_first;
use crate::asked::ids_of;
use crate::id::Id;
use crate::item::Item;
use crate::monitor::Monitor;
use crate::named::{Named, all_named};
use crate::past::Past;
use crate::queue::Queue;
use crate::watch::Watch;
use odb_queue::Finished;
use odb_rpc::has_reply;
use odb_wire::Request;
use std::alloc::{AllocError, AllocFailed, Global};
use std::collections::VecDeque;
use std::marker::Model;
use std::sync::Arc;

/// How many replies a session may be owed.
const MAX_OWED: usize = 256;

/// A session: what is queued for it, and the monitors whose first reply was taken, the earliest first; and the number of what
/// these ask, once it has one.
pub struct Session {
    pub(crate) queue: Queue,
    pub(crate) monitors: Vec<Monitor>,
    pub(crate) watch: Option<Watch>,
    /// How many changes there were when the clients of all its monitors were last brought to now, of those that
    /// [`Past::changes`] counts. No contract speaks of it.
    pub(crate) brought: u64,
}

impl Model for Session {
    ghost use Rattle.std.specs.Prelude.{◌+◌, ◌≤◌, option_map, vec_capacity, vec_len};
    ghost use Rattle.odb_sessions.specs.Carried.{all_begin};
    ghost use Rattle.odb_sessions.specs.Marked as model;
    ghost use Rattle.odb_sessions.specs.Represented.Codes.{marked_session_code};

    ghost Value = { model.MarkedSession };

    ghost coded = { marked_session_code };

    ghost view = { λ s. record { queue = s.queue; monitors = s.monitors.items; watch = option_map (λ w. w.number) s.watch } };

    ghost invariant = { λ s. vec_len s.monitors + all_begin s.queue ≤ vec_capacity s.monitors };
}

impl Session {
    /// Makes a session for which nothing is queued, and which has no monitors.
    pub(crate) fn new(alloc: Global) -> Session
        ensures { result ≡ empty_session }
    {
        Session {
            queue: Queue::new(alloc),
            monitors: Vec::new(alloc),
            watch: None,
            brought: 0,
        }
    }

    /// Returns what is queued, the earliest first. O(1).
    pub fn items(&self) -> &VecDeque<Item>
        ensures { map marked_item_of result.now.items ≡ self.now.queue }
    {
        &self.queue.items
    }

    /// Returns its monitors whose first reply was taken, the earliest first. O(1).
    pub fn monitors(&self) -> &[Monitor]
        ensures { result.now ≡ self.now.monitors }
    {
        self.monitors.as_slice()
    }

    /// Returns whether the request has a reply while the session is owed as many as it may be; `waiting` of them
    /// are replies of its transactions that wait. O(1).
    pub(crate) fn owes_too_many(&self, request: &Request, waiting: usize) -> bool
        ensures { (schema : Schema) → result ≡ (has_reply (call_at schema (request_data request.now)) && not (nat_lt (replies_in (map item_seen self.now.queue) + waiting) max_owed)) }
    {
        has_reply(request) && self.queue.replies().saturating_add(waiting) >= MAX_OWED
    }

    /// Puts an item at the end of the queue. Where memory is refused it comes back.
    pub(crate) fn push(&mut self, item: Item) -> Result<(), AllocFailed<Item>>
        ensures ok { OnOk result (self.new ≡ with_item (marked_item_of item) self.old) }
        ensures err { OnErr result (self.new ≡ self.old) }
        ensures handed_back { IfErr result (λ refused. refused.value ≡ item) }
    {
        if make_room_for(&item, &self.queue, &mut self.monitors).is_err() {
            return Err(AllocFailed { value: item });
        }
        self.queue.push(item)
    }

    /// Takes the newest item of the queue out, if there is one.
    pub(crate) fn take_newest(&mut self) -> Option<Item>
        ensures session { self.new ≡ without_newest self.old }
        ensures item { option_map marked_item_of result ≡ newest self.old.queue }
    {
        self.queue.pop_newest()
    }

    /// Returns the ids of its monitors as asked, in the order of their creation.
    pub(crate) fn asked(&self, alloc: Global) -> Result<Vec<Arc<Id>>, AllocError>
        ensures { IfOk result (λ ids. map arc_value ids.items ≡ ids_asked (seen self.now)) }
    {
        let mut ids = ids_of(alloc, self.monitors.as_slice())?;
        self.queue.ask(&mut ids)?;
        Ok(ids)
    }

    /// Returns its monitors as asked, without their filters, in the order of their creation.
    pub(crate) fn named(&self, alloc: Global) -> Result<Vec<Named<'_>>, AllocError>
        ensures { IfOk result (λ named. named.items ≡ named_asked (seen self.now)) }
    {
        let mut named = all_named(alloc, self.monitors.as_slice())?;
        self.queue.ask_of(&mut named)?;
        Ok(named)
    }

    /// Carries the earliest item of the queue out, if there is one, and returns the text that stands in it, if
    /// one does.
    fn use_one(&mut self, past: &mut Past) -> Option<Finished>
        requires { IsReady past.old (marks_of self.old) }
        ensures session { (s : Schema) → seen self.new ≡ used_by (served_by s) past.old.db 1 0 (seen self.old) }
        ensures carried { Carries past.old past.new (marks_of self.old) (marks_of self.new) }
        ensures watch { KeepsWatch self.old self.new }
        ensures text { option_map item_of result ≡ last_finished 1 (seen self.old).queue }
    {
        let Some(item) = self.queue.pop() else {
            return None;
        };
        self.watch = item.watch_after(self.watch);
        item.carry_out(&mut self.monitors, past)
    }

    /// Carries this many items of the queue out, and returns the text that stands in the last of them, if one
    /// does.
    fn use_up(&mut self, items: usize, past: &mut Past) -> Option<Finished>
        requires { IsReady past.old (marks_of self.old) }
        ensures session { (s : Schema) → seen self.new ≡ used_by (served_by s) past.old.db items 0 (seen self.old) }
        ensures carried { Carries past.old past.new (marks_of self.old) (marks_of self.new) }
        ensures watch { KeepsWatch self.old self.new }
        ensures text { option_map item_of result ≡ last_finished items (seen self.old).queue }
    {
        let mut text = None;
        for used in 0..items {
            text = self.use_one(past);
        }
        text
    }

    /// Carries a taking out: this many items of the queue, and then the clients of this many monitors have what
    /// their tables are now. It returns the text that stands in the last of the items, if one does.
    pub(crate) fn carry_out(
        &mut self,
        items: usize,
        monitors: usize,
        past: &mut Past,
    ) -> Option<Finished>
        requires { IsReady past.old (marks_of self.old) }
        ensures session { (s : Schema) → seen self.new ≡ used_by (served_by s) past.old.db items monitors (seen self.old) }
        ensures carried { Carries past.old past.new (marks_of self.old) (marks_of self.new) }
        ensures watch { KeepsWatch self.old self.new }
        ensures text { option_map item_of result ≡ last_finished items (seen self.old).queue }
    {
        let text = self.use_up(items, past);
        bring_first(&mut self.monitors, monitors, past);
        let left = self.monitors.len().saturating_sub(monitors);
        self.brought = brought_after(self.brought, left, past);
        text
    }

    /// Returns whether the clients of all its monitors were brought to now since the last change: then their marks need not
    /// move. `false` says nothing, and no contract speaks of it. O(1).
    pub(crate) fn is_brought(&self, past: &Past) -> bool {
        self.brought == past.changes()
    }

    /// Gives the marks of its monitors back, and those of items that are queued.
    pub(crate) fn release(self, past: &mut Past)
        requires { HasAll past.old (marks_of self) }
        ensures { Frees past.old past.new (marks_of self) }
    {
        let Session {
            queue,
            monitors,
            watch: _,
            brought: _,
        } = self;
        release_all(monitors, past);
        queue.release(past);
    }
}

/// Returns how many changes there were when the clients of all monitors were last brought to now, where those of all but so many
/// just were.
fn brought_after(before: u64, left: usize, past: &Past) -> u64 {
    if left > 0 {
        return before;
    }
    past.changes()
}

/// Makes room for the monitor that begins with the item, if one does, beside those that begin with what is queued.
fn make_room_for(item: &Item, queue: &Queue, monitors: &mut Vec<Monitor>) -> Result<(), AllocError>
    requires { vec_len monitors.old + all_begin queue.now ≤ vec_capacity monitors.old }
    ensures items { monitors.new.items ≡ monitors.old.items }
    ensures kept { vec_len monitors.new + all_begin queue.now ≤ vec_capacity monitors.new }
    ensures room { OnOk result (vec_len monitors.new + (all_begin queue.now + begins (marked_item_of item.now)) ≤ vec_capacity monitors.new) }
{
    match item {
        Item::Say(_) => Ok(()),
        Item::Start(_) => make_room(queue, monitors),
        Item::Sync(_) => Ok(()),
        Item::Shift(_) => Ok(()),
        Item::Renamed(_) => Ok(()),
        Item::Stopped(_) => Ok(()),
    }
}

/// Makes room for one monitor more than begin with what is queued.
fn make_room(queue: &Queue, monitors: &mut Vec<Monitor>) -> Result<(), AllocError>
    ensures items { monitors.new.items ≡ monitors.old.items }
    ensures len { vec_len monitors.new ≡ vec_len monitors.old }
    ensures grown { vec_capacity monitors.old ≤ vec_capacity monitors.new }
    ensures room { OnOk result (vec_len monitors.new + (all_begin queue.now + 1) ≤ vec_capacity monitors.new) }
{
    let Some(more) = queue.replies().checked_add(1) else {
        return Err(AllocError);
    };
    monitors.reserve(more)
}

/// Gives the marks of these monitors back.
fn release_all(monitors: Vec<Monitor>, past: &mut Past)
    requires { HasAll past.old (flat_map marks_in monitors.items) }
    ensures { Frees past.old past.new (flat_map marks_in monitors.items) }
{
    for monitor in monitors {
        monitor.release(past);
    }
}

// Written, and not derived, so that each end of a scope is one call to prove.
impl Drop for Session {
    fn drop(self) {
        let Session {
            queue: _,
            monitors: _,
            watch: _,
            brought: _,
        } = self;
    }
}
