//! Monitors: what is asked, and what the client was told. [P 9.1, 9.2]
ghost use Rattle.std.specs.Prelude.{IfOk, OnErr, OnOk, [], bytes_eq, length, map, option_map, ◌++◌, ◌+◌, ◌<◌, ◌^◌, ◌∷◌, ◌≡◌};
ghost use Rattle.std.specs.Arc.{arc_value};
ghost use Rattle.std.specs.List.{list_any};
ghost use Rattle.odb_chain.specs.Chains.{IsNow};
ghost use Rattle.odb_atoms.specs.Represented.Atom.{uuid_of};
ghost use Rattle.odb_sessions.specs.Asked.{is_same};
ghost use Rattle.odb_sessions.specs.Composed.{AreTheirs};
ghost use Rattle.odb_sessions.specs.Marked.{marks_in, monitor_of, table_marks, watch_of};
ghost use Rattle.odb_sessions.specs.Represented.Digest.{request_digest};
ghost use Rattle.odb_sessions.specs.Started.{AreOfTables};
ghost use Rattle.odb_sessions.specs.Tied.{Adds, Frees, HasAll, counted_in};
ghost use Rattle.std.specs.Bool.{OnTrue};
ghost use Rattle.odb_service.specs.Service.{Service};
ghost use Rattle.odb_service.specs.Session.{brought, changed, refilter};
ghost use Rattle.odb_sessions.specs.Moved.{Moves, all_now};
ghost use Rattle.odb_sessions.specs.Represented.Item.{filters_of};
ghost use Rattle.odb_sessions.specs.Owed.{filter_asked};

use crate::digest::request_digest;
use crate::id::Id;
use crate::item::Changes;
use crate::lending::lend_tables;
use crate::moving::{ask_all_under, bring_all, bring_all_under};
use crate::past::Past;
use odb_chain::{Chains, Mark};
use odb_cond::Filter;
use odb_interest::Asked;
use odb_request::{Notation, Request};
use std::alloc::{AllocError, Global};
use std::marker::Model;
use std::sync::Arc;
use uuid::Uuid;

/// One table of a monitor. What the client was told of it is the content of the mark, under the filter told,
/// or the request's where there is none. The digest is of what is asked.
pub(crate) struct Watching {
    pub(crate) request: Request,
    pub(crate) told: Option<Arc<Filter>>,
    pub(crate) mark: Mark,
    pub(crate) digest: u64,
}

impl Model for Watching {
    ghost use Rattle.std.specs.Prelude.{option_map, ◌≡◌};
    ghost use Rattle.std.specs.Arc.{arc_value};
    ghost use Rattle.odb_sessions.specs.Marked as model;
    ghost use Rattle.odb_sessions.specs.Represented.Codes.{watched_code};
    ghost use Rattle.odb_sessions.specs.Represented.Digest.{request_digest};
    ghost use Rattle.odb_sessions.specs.Represented.Told.{told_under};

    ghost Value = { model.Watched };

    ghost coded = { watched_code };

    ghost view = { λ w. record { request = w.request; told = told_under w.request (option_map arc_value w.told); mark = w.mark } };

    ghost invariant = { λ w. w.digest ≡ request_digest w.request };
}

impl Watching {
    /// Watches what is asked, of which the client was told what the mark stands for. O(n) for the members and atoms of the
    /// filter, with their bytes.
    fn new(request: Request, mark: Mark) -> Watching
        ensures { result ≡ record { request = request; told = request.filter; mark = mark } }
    {
        let digest = request_digest(&request);
        Watching {
            request,
            told: None,
            mark,
            digest,
        }
    }

    /// Returns the digest of what is asked of it. O(1).
    #[inline(always)]
    pub(crate) fn digest(&self) -> u64
        ensures { result ≡ request_digest self.now.request }
    {
        self.digest
    }

    /// Returns the name of its table.
    pub(crate) fn name(&self) -> &str
        ensures { result.now ≡ self.now.request.shape.name }
    {
        let shape = self.request.shape();
        shape.table_schema().name()
    }

    /// Returns whether it is of the table of this name.
    fn is_of(&self, name: &str) -> bool
        ensures { result ≡ bytes_eq name.now self.now.request.shape.name }
    {
        name == self.name()
    }

    /// Gives its mark back.
    fn release(self, past: &mut Past)
        requires { HasAll past.old (self.mark ∷ []) }
        ensures { Frees past.old past.new (self.mark ∷ []) }
    {
        let Watching {
            request: _,
            told: _,
            mark,
            digest: _,
        } = self;
        past.release(mark);
    }

    /// Returns whether this is asked of it. `false` says nothing.
    pub(crate) fn asks(&self, request: &Request) -> bool
        ensures { OnTrue result (request.now ≡ self.now.request) }
    {
        request.same(&self.request)
    }

    /// Returns whether this is what is asked of its table.
    #[inline(always)]
    pub(crate) fn is_asked(&self, asked: &Asked) -> bool
        ensures { OnTrue result (asked.now ≡ filter_asked self.now) }
    {
        asked.is(self.request.table(), self.request.filter())
    }
}

/// A monitor: one whose first reply was taken, or is due. Where a commit was named when it was asked for, its messages
/// name commits.
pub struct Monitor {
    pub(crate) id: Arc<Id>,
    pub(crate) notation: Notation,
    pub(crate) tables: Vec<Watching>,
    pub(crate) since: Option<Uuid>,
}

impl Model for Monitor {
    ghost use Rattle.std.specs.Prelude.{option_map};
    ghost use Rattle.std.specs.Arc.{arc_value};
    ghost use Rattle.odb_atoms.specs.Represented.Atom.{uuid_of};
    ghost use Rattle.odb_request.specs.Represented.Notation.{notation_of};
    ghost use Rattle.odb_sessions.specs.Composed.{AreTheirs, asked_of};
    ghost use Rattle.odb_sessions.specs.Marked as model;
    ghost use Rattle.odb_sessions.specs.Represented.Codes.{marked_monitor_code};
    ghost use Rattle.odb_sessions.specs.Started.{AreApart};

    ghost Value = { model.MarkedMonitor };

    ghost coded = { marked_monitor_code };

    ghost view = { λ m. record { id = arc_value m.id; notation = notation_of m.notation; tables = m.tables.items; since = option_map uuid_of m.since } };

    ghost invariant = { λ m. AreTheirs m.tables.items × AreApart (asked_of m.tables.items) };
}

impl Monitor {
    /// Returns its id, for whoever keeps it too. O(1).
    pub(crate) fn id(&self) -> Result<Arc<Id>, AllocError>
        ensures { IfOk result (λ id. arc_value id ≡ self.now.id) }
    {
        Ok(self.id.clone()?)
    }

    /// Returns whether it has this id. O(n) for ids of n bytes.
    pub fn has_id(&self, id: &Id) -> bool
        ensures { result ≡ is_same id.now self.now.id }
    {
        id.same(&self.id)
    }

    /// Returns the commit that was named when it was asked for, if one was. O(1).
    pub fn since(&self) -> Option<Uuid>
        ensures since { option_map uuid_of result ≡ self.now.since }
        ensures theirs { AreTheirs self.now.tables }
    {
        self.since
    }

    /// Returns whether a table of this name is one of its tables.
    pub(crate) fn has_table(&self, name: &str) -> bool
        ensures { result ≡ list_any (λ w. bytes_eq name.now w.request.shape.name) self.now.tables }
    {
        self.tables.iter().any(|table| table.is_of(name))
    }

    /// Gives its marks back.
    pub(crate) fn release(self, past: &mut Past)
        requires { HasAll past.old (marks_in self) }
        ensures { Frees past.old past.new (marks_in self) }
    {
        let Monitor {
            id: _,
            notation: _,
            tables,
            since: _,
        } = self;
        release_all(tables, past);
    }

    /// Brings its client to what its tables are now.
    pub(crate) fn bring(&mut self, past: &mut Past)
        requires has { HasAll past.old (marks_in self.old) }
        requires now { IsNow past.old }
        ensures monitor { (h : Service) → monitor_of self.new ≡ brought h past.old.db (watch_of self.old).requests (monitor_of self.old) }
        ensures marks { marks_in self.new ≡ all_now past.old (marks_in self.old) }
        ensures moved { Moves past.old past.new (marks_in self.old) }
    {
        bring_all(&mut self.tables, past);
    }

    /// Brings its client to what its tables are now, under these filters.
    pub(crate) fn bring_under(&mut self, changes: Changes, past: &mut Past)
        requires has { HasAll past.old (marks_in self.old) }
        requires now { IsNow past.old }
        ensures monitor { (h : Service) → monitor_of self.new ≡ brought h past.old.db (refilter (filters_of changes) (watch_of self.old).requests) (monitor_of self.old) }
        ensures marks { marks_in self.new ≡ all_now past.old (marks_in self.old) }
        ensures moved { Moves past.old past.new (marks_in self.old) }
    {
        bring_all_under(&mut self.tables, changes, past);
    }

    /// Gives it this id and these filters; what its client was told stays.
    pub(crate) fn rename(&mut self, id: Arc<Id>, changes: Changes)
        ensures monitor { (h : Service) → monitor_of self.new ≡ record (monitor_of self.old) { watch = changed h (arc_value id) (filters_of changes) (watch_of self.old) } }
        ensures marks { marks_in self.new ≡ marks_in self.old }
    {
        ask_all_under(&mut self.tables, changes);
        self.id = id;
    }

    /// Adds its marks.
    pub(crate) fn lend<'a>(&'a self, marks: &mut Vec<&'a Mark>) -> Result<(), AllocError>
        ensures { OnOk result (map (λ m. m.now) marks.new.items ≡ map (λ m. m.now) marks.old.items ++ marks_in self.now) }
    {
        lend_tables(self.tables.as_slice(), marks)
    }
}

/// Gives the marks of these tables back.
fn release_all(tables: Vec<Watching>, past: &mut Past)
    requires { HasAll past.old (table_marks tables.items) }
    ensures { Frees past.old past.new (table_marks tables.items) }
{
    for table in tables {
        table.release(past);
    }
}

/// Watches each of these tables as it is now, with a mark each, or none. O(n) for n tables, and the members and atoms of their
/// filters, with their bytes.
pub(crate) fn watch_all(
    alloc: Global,
    chains: &mut Chains,
    requests: Vec<Request>,
) -> Result<Vec<Watching>, AllocError>
    requires tables { AreOfTables chains.old.db requests.items }
    requires now { IsNow chains.old }
    requires lives { length chains.old.live ≡ length chains.old.db }
    requires few { counted_in chains.old.live + length requests.items < 2 ^ 64 }
    ensures ok { IfOk result (λ tables. Adds chains.old chains.new (table_marks tables.items)) }
    ensures counted { IfOk result (λ tables. counted_in chains.new.live ≡ counted_in chains.old.live + length tables.items) }
    ensures asked { IfOk result (λ tables. map (λ w. w.request) tables.items ≡ requests.items) }
    ensures theirs { IfOk result (λ tables. AreTheirs tables.items) }
    ensures err { OnErr result (chains.new ≡ chains.old) }
{
    let mut tables = Vec::with_capacity(alloc, requests.len())?;
    for request in requests {
        let mark = chains.mark_now(request.table());
        tables.push_reserved(Watching::new(request, mark));
    }
    Ok(tables)
}

// Written, and not derived, so that each end of a scope is one call to prove.
impl Drop for Monitor {
    fn drop(self) {
        let Monitor {
            id: _,
            notation: _,
            tables: _,
            since: _,
        } = self;
    }
}

// Written, and not derived, so that each end of a scope is one call to prove.
impl Drop for Watching {
    fn drop(self) {
        let Watching {
            request: _,
            told: _,
            mark: _,
            digest: _,
        } = self;
    }
}
