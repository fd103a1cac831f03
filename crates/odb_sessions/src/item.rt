//! What is queued for a session. [P 10.1]
ghost use Rattle.std.specs.Prelude.{◌≡◌, is_some, option_map};
ghost use Rattle.odb_service.specs.Session.{is_answer, label};
ghost use Rattle.odb_sessions.specs.Carried.{finished_text};
ghost use Rattle.odb_sessions.specs.Marked.{item_seen, marks_due, marks_in};
ghost use Rattle.odb_sessions.specs.Represented.Item.{marked_item_of};
ghost use Rattle.odb_sessions.specs.Tied.{Frees, HasAll};
ghost use Rattle.odb_sessions.specs.Watches.{watch_after};

use crate::granted::Granted;
use crate::id::Id;
use crate::monitor::Monitor;
use crate::origin::Origin;
use crate::past::Past;
use crate::watch::Watch;
use odb_queue::Finished;
use odb_request::Change;
use odb_schema::Schema;
use std::alloc::AllocError;
use std::sync::Arc;

/// An item of a session's queue.
#[derive(Drop)]
pub enum Item {
    /// A finished message.
    Say(Finished),
    /// The first reply of a monitor.
    Start(FirstReply),
    /// What the client of the monitor with this id lacks of the database at the taking.
    Sync(Arc<Id>),
    /// The same under new filters.
    Shift(Shift),
    /// The reply to a change of filters.
    Renamed(Renamed),
    /// The reply to a cancel.
    Stopped(Stopped),
}

/// The first reply of a monitor, and the monitor that begins with it.
#[derive(Drop)]
pub struct FirstReply {
    /// The request, with the text with which its reply begins.
    pub origin: Origin,
    /// The monitor.
    pub monitor: Monitor,
}

/// New filters, by tables of the schema.
pub struct Changes {
    /// The schema in which the tables have their places.
    pub schema: Arc<Schema>,
    /// The filters, each with its table's place.
    pub changes: Vec<Change>,
}

/// New filters for the monitor with this id.
#[derive(Drop)]
pub struct Shift {
    /// The monitor's id.
    pub id: Arc<Id>,
    /// The filters.
    pub changes: Changes,
}

/// The reply to a change of the monitor with the old id: of its id and of its filters.
#[derive(Drop)]
pub struct Renamed {
    pub(crate) reply: Granted,
    pub(crate) old_id: Arc<Id>,
    pub(crate) new_id: Arc<Id>,
    pub(crate) changes: Changes,
}

/// The reply to a cancel of the monitor with this id.
#[derive(Drop)]
pub struct Stopped {
    pub(crate) reply: Granted,
    pub(crate) id: Arc<Id>,
}

impl Item {
    /// Returns whether it is a reply to a request.
    pub(crate) fn is_reply(&self) -> bool
        ensures { result ≡ is_answer (label (item_seen (marked_item_of self.now))) }
    {
        match self {
            Item::Say(said) => said.is_reply,
            Item::Start(_) => true,
            Item::Sync(_) => false,
            Item::Shift(_) => false,
            Item::Renamed(_) => true,
            Item::Stopped(_) => true,
        }
    }

    /// Returns the number of what a session's monitors ask once it is carried out, where they had this: none, where it may
    /// change what they ask.
    pub(crate) fn watch_after(&self, watch: Option<Watch>) -> Option<Watch>
        ensures { option_map (λ w. w.number) result ≡ watch_after (item_seen (marked_item_of self.now)) (option_map (λ w. w.number) watch) }
    {
        match self {
            Item::Say(_) => watch,
            Item::Start(_) => None,
            Item::Sync(_) => watch,
            Item::Shift(_) => watch,
            Item::Renamed(_) => None,
            Item::Stopped(_) => None,
        }
    }

    /// Returns whether its text was finished when it was queued. O(1).
    pub fn is_finished(&self) -> bool
        ensures { result ≡ is_some (finished_text (item_seen (marked_item_of self.now))) }
    {
        match self {
            Item::Say(_) => true,
            Item::Start(_) => false,
            Item::Sync(_) => false,
            Item::Shift(_) => false,
            Item::Renamed(_) => true,
            Item::Stopped(_) => true,
        }
    }

    /// Gives its marks back.
    pub(crate) fn release(self, past: &mut Past)
        requires { HasAll past.old (marks_due (marked_item_of self)) }
        ensures { Frees past.old past.new (marks_due (marked_item_of self)) }
    {
        match self {
            Item::Say(said) => drop(said),
            Item::Start(start) => start.release(past),
            Item::Sync(id) => drop(id),
            Item::Shift(shift) => drop(shift),
            Item::Renamed(renamed) => drop(renamed),
            Item::Stopped(stopped) => drop(stopped),
        }
    }
}

impl FirstReply {
    /// Gives the marks of its monitor back.
    fn release(self, past: &mut Past)
        requires { HasAll past.old (marks_in self.monitor) }
        ensures { Frees past.old past.new (marks_in self.monitor) }
    {
        let FirstReply { monitor, .. } = self;
        monitor.release(past);
    }
}

impl Clone for Changes {
    ghost use Rattle.std.specs.Prelude.{◌≡◌};
    ghost use Rattle.odb_sessions.specs.Represented.Item.{filters_of};

    ghost is_clone = { λ x y. filters_of y ≡ filters_of x };

    /// Makes equal filters.
    fn clone(&self) -> Result<Changes, AllocError> {
        let changes = self.changes.clone()?;
        let schema = self.schema.clone()?;
        Ok(Changes { schema, changes })
    }
}

// Written, and not derived, so that each end of a scope is one call to prove.
impl Drop for Changes {
    fn drop(self) {
        let Changes {
            schema: _,
            changes: _,
        } = self;
    }
}
