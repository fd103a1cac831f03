//! The filters that each session asks.
ghost use Rattle.std.specs.Prelude.{◌≡◌, ◌≢◌, ◌++◌, ◌∷◌, [], ℕ, ◌<◌, false, length, slice_get, Some, take, true, IfNone, IfSome, OnErr, OnOk};
ghost use Rattle.std.specs.Bool.{OnFalse, OnTrue};
ghost use Rattle.std.specs.List.{All};
ghost use Rattle.odb_interest.specs.Keys as model;
ghost use Rattle.odb_interest.specs.Keys.{asked_at};
ghost use Rattle.odb_interest.specs.Represented.Asked.{LosesFirst};
ghost use Rattle.odb_interest.specs.Represented.Lists.{Asks, IsSame, with_filter};

use crate::asked::Asked;
use odb_cond::Filter;
use odb_locks::SessionId;
use odb_schema::TableId;
use std::alloc::{AllocError, Global};
use std::collections::BTreeMap;
use std::marker::Model;

/// The filters that each session asks, in the order in which they were added.
#[derive(Drop)]
pub(crate) struct Lists {
    pub(crate) lists: BTreeMap<SessionId, Vec<Asked>>,
}

impl Model for Lists {
    ghost use Rattle.odb_interest.specs.Keys as model;
    ghost use Rattle.odb_interest.specs.Represented.Lists.{lists_in};

    ghost Value = { model.Interests };

    ghost view = { λ a. lists_in a.lists };
}

impl Lists {
    /// Makes lists by which no session asks anything.
    pub(crate) fn new(alloc: Global) -> Lists
        ensures { (s : ℕ) → asked_at result s ≡ [] }
    {
        Lists {
            lists: BTreeMap::new(alloc),
        }
    }

    /// Returns what the session asks.
    pub(crate) fn get(&self, session: SessionId) -> &[Asked]
        ensures { result.now ≡ asked_at self.now session }
    {
        match self.lists.get(&session) {
            Some(list) => list.as_slice(),
            None => &[],
        }
    }

    /// Adds a filter to what the session asks.
    pub(crate) fn push(
        &mut self,
        alloc: Global,
        session: SessionId,
        asked: Asked,
    ) -> Result<(), AllocError>
        ensures ok { OnOk result (Asks self.old self.new session (asked_at self.old session ++ asked ∷ [])) }
        ensures err { OnErr result (IsSame self.old self.new) }
    {
        if let Some(list) = self.lists.get_mut(&session) {
            list.push(asked)?;
            return Ok(());
        }
        let mut list = Vec::new(alloc);
        list.push(asked)?;
        drop(self.lists.insert(session, list)?);
        Ok(())
    }

    /// Has a filter in the place of another in what the session asks, if there is one.
    pub(crate) fn put(&mut self, session: SessionId, place: usize, asked: Asked)
        requires { IfSome (slice_get (asked_at self.old session) place) (λ a. a.0 ≡ asked.0) }
        ensures { Asks self.old self.new session (with_filter (asked_at self.old session) place asked.1) }
    {
        let Some(list) = self.lists.get_mut(&session) else {
            return;
        };
        let Some(there) = list.get_mut(place) else {
            return;
        };
        *there = asked;
    }

    /// Takes the first such filter out of what the session asks, and says whether there was one.
    pub(crate) fn take(&mut self, session: SessionId, table: TableId, filter: &Filter) -> bool
        ensures taken { LosesFirst (table, filter.now) (asked_at self.old session) (asked_at self.new session) }
        ensures others { Asks self.old self.new session (asked_at self.new session) }
        ensures none { OnFalse result (IsSame self.old self.new) }
    {
        let Some(list) = self.lists.get_mut(&session) else {
            return false;
        };
        let Some(place) = place_of(list.as_slice(), table, filter) else {
            return false;
        };
        drop(list.remove(place));
        true
    }

    /// Takes out all that the session asks.
    pub(crate) fn forget(&mut self, session: SessionId)
        ensures { Asks self.old self.new session [] }
    {
        drop(self.lists.remove(&session));
    }
}

/// Returns the place of the first such filter.
fn place_of(filters: &[Asked], table: TableId, filter: &Filter) -> Option<usize>
    ensures found { IfSome result (λ k. (k < length filters.now) × (slice_get filters.now k ≡ Some (table, filter.now)) × All (λ a. a ≢ (table, filter.now)) (take k filters.now)) }
    ensures none { IfNone result (All (λ a. a ≢ (table, filter.now)) filters.now) }
{
    for place in 0..filters.len() {
        if filters[place].is(table, filter) {
            return Some(place);
        }
    }
    None
}
