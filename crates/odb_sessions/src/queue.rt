//! A session's queue. [P 10.1]
ghost use Rattle.std.specs.Prelude.{◌≡◌, ◌++◌, true, [], ◌∷◌, flat_map, map, IfErr, IfNone, OnErr, OnOk, option_map, option_to_list};
ghost use Rattle.std.specs.Arc.{arc_value};
ghost use Rattle.odb_service.specs.Session.{replies_in};
ghost use Rattle.odb_sessions.specs.Asked.{ids_after};
ghost use Rattle.odb_sessions.specs.Marked.{item_seen, marks_due};
ghost use Rattle.odb_sessions.specs.Named.{named_after};
ghost use Rattle.odb_sessions.specs.Represented.Item.{marked_item_of};
ghost use Rattle.odb_sessions.specs.Tied.{Frees, HasAll};

use crate::asked::ask;
use crate::id::Id;
use crate::item::Item;
use crate::named::{Named, ask_of};
use crate::past::Past;
use std::alloc::{AllocError, AllocFailed, Global};
use std::collections::VecDeque;
use std::marker::Model;
use std::sync::Arc;

/// A session's items, the earliest first, with the count of replies among them.
#[derive(Drop)]
pub(crate) struct Queue {
    pub(crate) items: VecDeque<Item>,
    replies: usize,
}

impl Model for Queue {
    ghost use Rattle.std.specs.Prelude.{◌≡◌, List, map};
    ghost use Rattle.std.specs.Coded.{coded_list};
    ghost use Rattle.odb_service.specs.Session.{replies_in};
    ghost use Rattle.odb_sessions.specs.Marked.{MarkedItem, item_seen};
    ghost use Rattle.odb_sessions.specs.Represented.Codes.{marked_item_code};
    ghost use Rattle.odb_sessions.specs.Represented.Item.{marked_item_of};

    ghost Value = { List MarkedItem };

    ghost coded = { coded_list marked_item_code };

    ghost view = { λ q. map marked_item_of q.items.items };

    ghost invariant = { λ q. q.replies ≡ replies_in (map item_seen (map marked_item_of q.items.items)) };
}

impl Queue {
    /// Makes a queue in which nothing is.
    pub(crate) fn new(alloc: Global) -> Queue
        ensures { result ≡ [] }
    {
        Queue {
            items: VecDeque::new(alloc),
            replies: 0,
        }
    }

    /// Returns whether nothing is queued. O(1).
    pub(crate) fn is_empty(&self) -> bool
        ensures { result ≡ true → self.now ≡ [] }
    {
        self.items.is_empty()
    }

    /// Returns how many replies are queued. O(1).
    pub(crate) fn replies(&self) -> usize
        ensures { result ≡ replies_in (map item_seen self.now) }
    {
        self.replies
    }

    /// Puts an item at the end. Where memory is refused it comes back.
    pub(crate) fn push(&mut self, item: Item) -> Result<(), AllocFailed<Item>>
        ensures ok { OnOk result (self.new ≡ self.old ++ marked_item_of item ∷ []) }
        ensures err { OnErr result (self.new ≡ self.old) }
        ensures handed_back { IfErr result (λ refused. refused.value ≡ item) }
    {
        let is_reply = item.is_reply();
        self.items.push_back(item)?;
        if is_reply {
            self.replies += 1;
        }
        Ok(())
    }

    /// Takes the earliest item out, if there is one. O(1).
    pub(crate) fn pop(&mut self) -> Option<Item>
        ensures first { self.old ≡ option_to_list (option_map marked_item_of result) ++ self.new }
        ensures none { IfNone result (self.old ≡ []) }
    {
        let item = self.items.pop_front()?;
        if item.is_reply() {
            self.replies -= 1;
        }
        Some(item)
    }

    /// Takes the newest item out, if there is one. O(1).
    pub(crate) fn pop_newest(&mut self) -> Option<Item>
        ensures last { self.old ≡ self.new ++ option_to_list (option_map marked_item_of result) }
        ensures none { IfNone result (self.old ≡ []) }
    {
        let item = self.items.pop_back()?;
        if item.is_reply() {
            self.replies -= 1;
        }
        Some(item)
    }

    /// Does to the ids as asked what its items do. Where memory is refused some of it may be done.
    pub(crate) fn ask(&self, ids: &mut Vec<Arc<Id>>) -> Result<(), AllocError>
        ensures { OnOk result (map arc_value ids.new.items ≡ ids_after (map item_seen self.now) (map arc_value ids.old.items)) }
    {
        for item in self.items.iter() {
            ask(ids, item)?;
        }
        Ok(())
    }

    /// Does to the monitors as asked what its items do. Where memory is refused some of it may be done.
    pub(crate) fn ask_of<'a>(&'a self, named: &mut Vec<Named<'a>>) -> Result<(), AllocError>
        ensures { OnOk result (named.new.items ≡ named_after (map item_seen self.now) named.old.items) }
    {
        for item in self.items.iter() {
            ask_of(named, item)?;
        }
        Ok(())
    }

    /// Gives the marks of its items back.
    pub(crate) fn release(self, past: &mut Past)
        requires { HasAll past.old (flat_map marks_due self) }
        ensures { Frees past.old past.new (flat_map marks_due self) }
    {
        let mut queue = self;
        while let Some(item) = queue.pop() {
            item.release(past);
        }
    }
}
