//! Clients that have what their tables are now. [P 9.2, 9.5, 10.1]
ghost use Rattle.std.specs.Prelude.{◌≡◌, ℕ, ◌∷◌, [], List, false, bytes_eq, map, option_map};
ghost use Rattle.std.specs.Arc.{arc_value};
ghost use Rattle.odb_chain.specs.Chains.{IsNow};
ghost use Rattle.odb_cond.specs.Filter as model;
ghost use Rattle.odb_service.specs.Session.{filter_of};
ghost use Rattle.odb_sessions.specs.Composed.{asked_of};
ghost use Rattle.odb_sessions.specs.Moved.{Moves, asked_under, brought_to, brought_under, told_now};
ghost use Rattle.odb_sessions.specs.Represented.Item.{filters_of};
ghost use Rattle.odb_sessions.specs.Represented.Told.{told_under};
ghost use Rattle.odb_sessions.specs.Started.{AreApart};
ghost use Rattle.odb_sessions.specs.Tied.{HasAll};

use crate::digest::request_digest;
use crate::item::Changes;
use crate::monitor::Watching;
use crate::past::Past;
use odb_cond::Filter;
use std::sync::Arc;

impl Watching {
    /// Brings the client to what the table is now, under this filter, or under the one that is asked where there is
    /// none.
    #[inline(always)]
    pub(crate) fn bring(&mut self, filter: Option<Arc<Filter>>, past: &mut Past)
        requires has { HasAll past.old (self.old.mark ∷ []) }
        requires now { IsNow past.old }
        ensures table { self.new ≡ told_now past.old (told_under self.old.request (option_map arc_value filter)) self.old }
        ensures moved { Moves past.old past.new (self.old.mark ∷ []) }
    {
        past.advance(&mut self.mark);
        self.told = filter;
    }

    /// Brings the client to what the table is now, under the filter that is taken out for it, if there is one.
    fn bring_under(&mut self, changes: &mut Changes, past: &mut Past)
        requires has { HasAll past.old (self.old.mark ∷ []) }
        requires now { IsNow past.old }
        ensures table { self.new ≡ brought_under past.old (filters_of changes.old) self.old }
        ensures moved { Moves past.old past.new (self.old.mark ∷ []) }
        ensures others { (n : List ℕ) (f : model.Filter) → bytes_eq self.old.request.shape.name n ≡ false
            → filter_of (filters_of changes.new) n f ≡ filter_of (filters_of changes.old) n f }
    {
        let filter = changes.take(self.name());
        self.bring(filter, past);
    }

    /// Asks for the table under this filter; what the client was told stays. O(n) for the members and atoms of the filter, with
    /// their bytes.
    fn ask(&mut self, filter: Arc<Filter>)
        ensures { self.new ≡ record { request = record (self.old.request) { filter = arc_value filter }; told = self.old.told; mark = self.old.mark } }
    {
        let old = self.request.replace_filter(filter);
        self.told = self.told.take().or(Some(old));
        self.digest = request_digest(&self.request);
    }

    /// Does the same under the filter that is taken out for it, if there is one.
    fn ask_under(&mut self, changes: &mut Changes)
        ensures table { self.new ≡ asked_under (filters_of changes.old) self.old }
        ensures others { (n : List ℕ) (f : model.Filter) → bytes_eq self.old.request.shape.name n ≡ false
            → filter_of (filters_of changes.new) n f ≡ filter_of (filters_of changes.old) n f }
    {
        let Some(filter) = changes.take(self.name()) else {
            return;
        };
        self.ask(filter);
    }
}

/// Brings the client to what these tables are now, under the filters that are asked.
pub(crate) fn bring_all(tables: &mut Vec<Watching>, past: &mut Past)
    requires has { HasAll past.old (map (λ w. w.mark) tables.old.items) }
    requires now { IsNow past.old }
    ensures tables { tables.new.items ≡ map (brought_to past.old) tables.old.items }
    ensures moved { Moves past.old past.new (map (λ w. w.mark) tables.old.items) }
{
    for place in 0..tables.len() {
        tables[place].bring(None, past);
    }
}

/// Brings the client to what these tables are now, each under the filter that is named for it, or under the one that
/// is asked where none is.
pub(crate) fn bring_all_under(tables: &mut Vec<Watching>, changes: Changes, past: &mut Past)
    requires apart { AreApart (asked_of tables.old.items) }
    requires has { HasAll past.old (map (λ w. w.mark) tables.old.items) }
    requires now { IsNow past.old }
    ensures tables { tables.new.items ≡ map (brought_under past.old (filters_of changes)) tables.old.items }
    ensures moved { Moves past.old past.new (map (λ w. w.mark) tables.old.items) }
{
    let mut changes = changes;
    for place in 0..tables.len() {
        tables[place].bring_under(&mut changes, past);
    }
}

/// Asks for these tables, each under the filter that is named for it, if one is; what the client was told
/// stays.
pub(crate) fn ask_all_under(tables: &mut Vec<Watching>, changes: Changes)
    requires { AreApart (asked_of tables.old.items) }
    ensures { tables.new.items ≡ map (asked_under (filters_of changes)) tables.old.items }
{
    let mut changes = changes;
    for place in 0..tables.len() {
        tables[place].ask_under(&mut changes);
    }
}
