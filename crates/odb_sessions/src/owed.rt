//! Tables of monitors of which something may be owed. [P 9.2, 9.3]
ghost use Rattle.std.specs.Prelude.{IfOk, OnOk, length, map, option_map, option_to_list, take, true, ◌++◌, ◌≡◌};
ghost use Rattle.std.specs.Arc.{arc_value};
ghost use Rattle.odb_chain.specs.Chains.{IsLive};
ghost use Rattle.odb_monitor.specs.Represented.Sides.{table_then, told_in};
ghost use Rattle.odb_monitor.specs.View.{selected};
ghost use Rattle.odb_request.specs.Request as model_request;
ghost use Rattle.odb_monitor.specs.Job.{updates_of};
ghost use Rattle.odb_request.specs.Request.{Notation};
ghost use Rattle.odb_sessions.specs.Composed.{IsKnown, IsLacking, all_asked_as, asked_as, asked_of, later_job, part_in, part_since, part_to};
ghost use Rattle.odb_sessions.specs.Represented.Told.{told_under};
ghost use Rattle.odb_tables.specs.Database as model_table;
ghost use Rattle.odb_tables.specs.Database.{table_at};
ghost use Rattle.std.specs.List.{All};
ghost use Rattle.odb_sessions.specs.Filtered.{all_parts_again, part_again};
ghost use Rattle.odb_sessions.specs.Represented.Under.{filters_in};

use crate::monitor::Watching;
use crate::under::{Under, filter_under};
use odb_chain::{Chains, Mark};
use odb_cond::Filter;
use odb_monitor::{Part, Told};
use odb_recent::Recent;
use odb_request::Request;
use odb_tables::TableChange;
use std::alloc::{AllocError, Global};
use std::marker::Model;
use std::sync::Arc;

/// One table of a monitor: what is asked of it, under which filter the client was told of it (the request's
/// where there is none), and the mark for what it was told.
#[derive(Drop)]
pub(crate) struct Owed<'a> {
    pub(crate) request: &'a Request,
    pub(crate) told: Option<&'a Filter>,
    pub(crate) mark: &'a Mark,
}

impl<'a> Model for Owed<'a> {
    ghost use Rattle.std.specs.Prelude.{option_map};
    ghost use Rattle.odb_sessions.specs.Marked as model;
    ghost use Rattle.odb_sessions.specs.Represented.Codes.{watched_code};
    ghost use Rattle.odb_sessions.specs.Represented.Told.{told_under};

    ghost Value = { model.Watched };

    ghost coded = { watched_code };

    ghost view = { λ w. record { request = w.request.now; told = told_under w.request.now (option_map (λ f. f.now) w.told); mark = w.mark.now } };
}

impl<'a> Owed<'a> {
    /// Returns the part of a job that leads the client to what the table is now; in a first reply it was told nothing.
    /// The costs are those of `odb_chain::Chains::since`, and O(1) in a first reply.
    pub(crate) fn part(
        &self,
        alloc: Global,
        chains: &'a Chains,
        first: bool,
    ) -> Result<Part<'a>, AllocError>
        requires { IsKnown chains.now self.now }
        ensures { IfOk result (λ part. part ≡ part_in first chains.now.db self.now) }
    {
        if first {
            let rows = chains.rows(self.mark);
            return Ok(Part::new(self.request, Told::Nothing, rows, None));
        }
        let changes = changes_since(alloc, chains, self.mark)?;
        let rows = chains.rows(self.mark);
        Ok(Part::new(self.request, told_by(self.told), rows, changes))
    }
}

/// Returns what the client was told, by the filter.
#[inline(always)]
fn told_by(filter: Option<&Filter>) -> Told<'_>
    ensures { (q : model_request.Request) (t : model_table.Table)
        → told_in result q t ≡ selected (record q { filter = told_under q (option_map (λ f. f.now) filter.entry) }) t }
{
    match filter {
        None => Told::Asked,
        Some(filter) => Told::Under(filter),
    }
}

/// Returns the filter under which a client was told, unless it is the request's: so no difference is looked for where a
/// change leaves a filter as it is. O(members), each compared once.
fn apart<'a>(told: &'a Filter, request: &Request) -> Option<&'a Filter>
    ensures { told_under request.now (option_map (λ f. f.now) result) ≡ told.now }
{
    if told.same(request.filter()) {
        return None;
    }
    Some(told)
}

/// Returns how the mark's table changed since the mark was made; `None` where it didn't.
fn changes_since(
    alloc: Global,
    chains: &Chains,
    mark: &Mark,
) -> Result<Option<Arc<TableChange>>, AllocError>
    requires { IsLive chains.now mark.now }
    ensures { IfOk result (λ changes.
        table_then (option_map arc_value changes) (table_at chains.now.db mark.now.table) ≡ mark.now.content) }
{
    if chains.is_now(mark) {
        return Ok(None);
    }
    let changes = chains.since(mark)?;
    Ok(Some(Arc::new(alloc, changes)?))
}

impl Watching {
    /// Returns whether the client was told of the table as it is now, under what is asked. `false` says nothing. O(1).
    #[inline(always)]
    pub(crate) fn is_told(&self, chains: &Chains) -> bool
        requires { IsKnown chains.now self.now }
        ensures { result ≡ true → (part_to chains.now.db self.now).told ≡ (part_to chains.now.db self.now).asked }
    {
        if self.told.is_some() {
            return false;
        }
        chains.is_now(&self.mark)
    }

    /// Returns it, under what is asked. O(1).
    fn owed(&self) -> Owed<'_>
        ensures { result ≡ self.now }
    {
        let told = other_filter(&self.told);
        Owed {
            request: &self.request,
            told,
            mark: &self.mark,
        }
    }

    /// Returns the part of a job that leads the client to what the table is now; none where it was told of that under what is
    /// asked. O(1) then, and else what `odb_chain::Chains::since` costs.
    fn lacking_part<'a>(
        &'a self,
        alloc: Global,
        chains: &'a Chains,
    ) -> Result<Option<Part<'a>>, AllocError>
        requires { IsKnown chains.now self.now }
        ensures { IfOk result (λ part. IsLacking chains.now.db self.now part) }
    {
        if self.is_told(chains) {
            return Ok(None);
        }
        let table = self.owed();
        let part = table.part(alloc, chains, false)?;
        Ok(Some(part))
    }

    /// Returns it, as if the request were this one. What `apart` costs.
    fn owed_as<'a>(&'a self, request: &'a Request) -> Owed<'a>
        ensures { result ≡ asked_as self.now request.now }
    {
        Owed {
            request,
            told: apart(self.told_filter(), request),
            mark: &self.mark,
        }
    }

    /// Returns the filter under which the client was told.
    #[inline(always)]
    pub(crate) fn told_filter(&self) -> &Filter
        ensures { result.now ≡ self.now.told }
    {
        match &self.told {
            Some(filter) => filter,
            None => self.request.filter(),
        }
    }

    /// Returns the part of a job that leads the client to what the request selects, where it was told of the table as
    /// it is now under these filters. What `apart` costs, and what a filter is looked up in.
    fn part_again<'a>(
        &'a self,
        chains: &'a Chains,
        told: Under<'a>,
        request: &'a Request,
    ) -> Part<'a>
        requires { IsKnown chains.now self.now }
        ensures { result ≡ part_again chains.now.db (filters_in told.entry) self.now request.now }
    {
        let filter = filter_under(told, &self.request);
        let rows = chains.rows(&self.mark);
        Part::new(request, told_by(apart(filter, request)), rows, None)
    }

    /// Makes the part of a job that leads a client to what the table is now which was told of it as it was so many
    /// commits ago. The costs are those of `odb_recent::Recent::since`.
    fn part_since<'a>(
        &'a self,
        alloc: Global,
        chains: &'a Chains,
        recent: &Recent,
        ago: usize,
    ) -> Result<Part<'a>, AllocError>
        requires { IsKnown chains.now self.now }
        ensures { IfOk result (λ part. part ≡ part_since (take ago recent.now.undos) chains.now.db self.now.request) }
    {
        let table = chains.table(&self.mark);
        let changes = recent.since(ago, self.request.table(), table)?;
        let changes = Arc::new(alloc, changes)?;
        let rows = chains.rows(&self.mark);
        Ok(Part::new(&self.request, Told::Asked, rows, Some(changes)))
    }
}

/// Returns a filter that isn't the request's.
fn other_filter(told: &Option<Arc<Filter>>) -> Option<&Filter>
    ensures { option_map (λ f. f.now) result ≡ option_map arc_value told.now }
{
    match told {
        Some(filter) => Some(filter),
        None => None,
    }
}

/// Returns the tables of a monitor, under what is asked of each. O(n) for n tables.
pub(crate) fn all_owed<'a>(
    alloc: Global,
    tables: &'a [Watching],
) -> Result<Vec<Owed<'a>>, AllocError>
    ensures { IfOk result (λ owed. owed.items ≡ tables.now) }
{
    let mut owed = Vec::with_capacity(alloc, tables.len())?;
    for table in tables {
        owed.push_reserved(table.owed());
    }
    Ok(owed)
}

/// Returns the parts of those tables alone of which the client may lack something: as much is sent of them as of all. O(n) for
/// n tables, and what `odb_chain::Chains::since` costs for each of these.
pub(crate) fn parts_lacking<'a>(
    alloc: Global,
    chains: &'a Chains,
    tables: &'a [Watching],
) -> Result<Vec<Part<'a>>, AllocError>
    requires { All (IsKnown chains.now) tables.now }
    ensures { IfOk result (λ parts. (n : Notation) → updates_of (later_job n parts.items) ≡ updates_of (later_job n (map (part_to chains.now.db) tables.now))) }
{
    let mut parts = Vec::new(alloc);
    for table in tables {
        let part = table.lacking_part(alloc, chains)?;
        add_part(&mut parts, part)?;
    }
    Ok(parts)
}

/// Adds the part, if there is one.
fn add_part<'a>(parts: &mut Vec<Part<'a>>, part: Option<Part<'a>>) -> Result<(), AllocError>
    ensures { OnOk result (parts.new.items ≡ parts.old.items ++ option_to_list part.entry) }
{
    let Some(part) = part else {
        return Ok(());
    };
    if parts.push(part).is_err() {
        return Err(AllocError);
    }
    Ok(())
}

/// Returns the tables of a monitor, as if these were its requests. O(n) for n tables, and the members of their filters.
pub(crate) fn all_owed_as<'a>(
    alloc: Global,
    tables: &'a [Watching],
    requests: &'a [Request],
) -> Result<Vec<Owed<'a>>, AllocError>
    requires { length requests.now ≡ length tables.now }
    ensures { IfOk result (λ owed. owed.items ≡ all_asked_as tables.now requests.now) }
{
    let mut owed = Vec::with_capacity(alloc, tables.len())?;
    for place in 0..tables.len() {
        owed.push_reserved(tables[place].owed_as(&requests[place]));
    }
    Ok(owed)
}

/// Returns the parts for these tables, which lead the client to what the requests select, where it was told of them as
/// they are now under these filters. For n tables O(n), and the members of their filters.
pub(crate) fn parts_again<'a>(
    alloc: Global,
    chains: &'a Chains,
    tables: &'a [Watching],
    told: Under<'a>,
    requests: &'a [Request],
) -> Result<Vec<Part<'a>>, AllocError>
    requires many { length requests.now ≡ length tables.now }
    requires known { All (IsKnown chains.now) tables.now }
    ensures { IfOk result (λ parts. parts.items ≡ all_parts_again chains.now.db (filters_in told.entry) tables.now requests.now) }
{
    let mut parts = Vec::with_capacity(alloc, tables.len())?;
    for place in 0..tables.len() {
        let part = tables[place].part_again(chains, told, &requests[place]);
        parts.push_reserved(part);
    }
    Ok(parts)
}

/// Makes the parts for these tables, of a client that was told of them as they were so many commits ago. For each the
/// costs are those of `odb_recent::Recent::since`.
pub(crate) fn parts_since<'a>(
    alloc: Global,
    chains: &'a Chains,
    tables: &'a [Watching],
    recent: &Recent,
    ago: usize,
) -> Result<Vec<Part<'a>>, AllocError>
    requires { All (IsKnown chains.now) tables.now }
    ensures { IfOk result (λ parts. parts.items ≡ map (part_since (take ago recent.now.undos) chains.now.db) (asked_of tables.now)) }
{
    let mut parts = Vec::with_capacity(alloc, tables.len())?;
    for table in tables {
        parts.push_reserved(table.part_since(alloc, chains, recent, ago)?);
    }
    Ok(parts)
}
