//! What the client of a monitor lacks: the job that leads it there, and the notification that tells it. [P 9.2, 9.3, 9.5, 9.8, 10.1]
ghost use Rattle.std.specs.Prelude.{◌≡◌, ◌++◌, IfOk, map, take, true};
ghost use Rattle.std.specs.List.{All};
ghost use Rattle.serde_json.specs.Data.{Data};
ghost use Rattle.serde_json.specs.Written.{compact_text};
ghost use Rattle.odb_atoms.specs.Represented.Atom.{uuid_of};
ghost use Rattle.odb_monitor.specs.Job.{updates_of};
ghost use Rattle.odb_rpc.specs.Represented.Shared.{after_updates};
ghost use Rattle.odb_sessions.specs.Composed.{AreNow, IsKnown, all_asked_as, asked_of, later_job, notified_text, owed_job, own_job, part_to, resumed_job};
ghost use Rattle.odb_sessions.specs.Filtered.{all_parts_again};
ghost use Rattle.odb_sessions.specs.Marked.{marks_in};
ghost use Rattle.odb_sessions.specs.Represented.Alike.{stand_in};
ghost use Rattle.odb_sessions.specs.Represented.Composed.{IsFrame};
ghost use Rattle.odb_sessions.specs.Represented.Job.{AreRefiltered, asked_by, filters_by};
ghost use Rattle.odb_sessions.specs.Represented.Under.{filters_in};
ghost use Rattle.odb_sessions.specs.Tied.{AreLive};
ghost use Rattle.odb_sessions.specs.declared.way.Way.TheVariants as way;

use crate::composing::{Envelope, parts_of};
use crate::monitor::{Monitor, Watching};
use crate::owed::{all_owed, all_owed_as, parts_again, parts_lacking, parts_since};
use crate::under::{Under, requests_under};
use crate::way::Way;
use odb_chain::Chains;
use odb_cond::Filter;
use odb_recent::Recent;
use odb_request::Request;
use odb_rpc::{after_updates, before_update3, before_updates};
use odb_tables::Rows;
use std::alloc::{AllocError, Global};
use uuid::Uuid;

/// As how many rows a job weighs that tells of what changed: about as many as change at once, and as a member of a filter
/// finds.
const FEW_ROWS: usize = 8;

impl Monitor {
    /// Adds up how many rows its tables have, and 1.
    fn rows(&self, chains: &Chains) -> usize {
        let mut rows: usize = 1;
        for table in &self.tables {
            rows = rows.saturating_add(rows_of(chains, table));
        }
        rows
    }

    /// Adds up about how many tests of a member of its filters it takes to find all that it selects, and 1.
    fn tests(&self, chains: &Chains) -> usize {
        let mut tests: usize = 1;
        for table in &self.tables {
            let filter = table.request.filter();
            let rows = chains.db().rows(table.request.table());
            let found = tests_of(&rows, &**filter, filter.members().len());
            tests = tests.saturating_add(found);
        }
        tests
    }

    /// Says about how many tests of a member of a filter it takes to compose what its client is told in this way, where this
    /// is asked under other filters. O(members of the filters), for each facet that is kept. No contract speaks of it.
    pub fn weight(&self, chains: &Chains, way: Way<'_>, requests: &[Request]) -> usize {
        match way {
            Way::First => self.tests(chains),
            Way::Asked => FEW_ROWS,
            Way::Changed(_) => tests_apart(chains, requests),
            Way::Again(_, _) => tests_apart(chains, requests),
            Way::Since(_, _) => self.rows(chains),
        }
    }

    /// Returns the job of its first reply, or of what its client lacks. For each table the costs are those of
    /// `odb_chain::Chains::since`. An error says that memory was refused.
    pub fn own_job<'a>(
        &'a self,
        alloc: Global,
        chains: &'a Chains,
        first: bool,
    ) -> Result<odb_monitor::Job<'a>, AllocError>
        requires { AreLive chains.now (marks_in self.now) }
        ensures { IfOk result (λ job. job ≡ own_job first chains.now.db self.now) }
    {
        let tables = self.tables.as_slice();
        let owed = all_owed(alloc, tables)?;
        let parts = parts_of(alloc, chains, owed.as_slice(), first)?;
        Ok(odb_monitor::Job::new(self.notation, first, parts))
    }

    /// Returns a job of what its client lacks, of those tables alone of which it may lack something: as much is sent as by the
    /// job of all. O(n) for n tables, and what `odb_chain::Chains::since` costs for each of these. An error says that memory was
    /// refused.
    pub fn lacking_job<'a>(
        &'a self,
        alloc: Global,
        chains: &'a Chains,
    ) -> Result<odb_monitor::Job<'a>, AllocError>
        requires { AreLive chains.now (marks_in self.now) }
        ensures { IfOk result (λ job. updates_of job ≡ updates_of (owed_job chains.now.db self.now)) }
    {
        let tables = self.tables.as_slice();
        let parts = parts_lacking(alloc, chains, tables)?;
        Ok(odb_monitor::Job::new(self.notation, false, parts))
    }

    /// Returns the job of what its client lacks, as if these were its requests. The costs are those of `own_job`. An error says
    /// that memory was refused.
    pub fn changed_job<'a>(
        &'a self,
        alloc: Global,
        chains: &'a Chains,
        requests: &'a [Request],
    ) -> Result<odb_monitor::Job<'a>, AllocError>
        requires live { AreLive chains.now (marks_in self.now) }
        requires requests { AreRefiltered self.now.tables requests.now }
        ensures { IfOk result (λ job. job
            ≡ later_job self.now.notation (map (part_to chains.now.db) (all_asked_as self.now.tables requests.now))) }
    {
        let tables = self.tables.as_slice();
        let owed = all_owed_as(alloc, tables, requests)?;
        let parts = parts_of(alloc, chains, owed.as_slice(), false)?;
        Ok(odb_monitor::Job::new(self.notation, false, parts))
    }

    /// Returns the job of what its client lacks, as if these were its requests, where it was told of its tables as they
    /// are now under these filters. O(n) for n tables and members of their filters. An error says that memory was refused.
    pub fn again_job<'a>(
        &'a self,
        alloc: Global,
        chains: &'a Chains,
        told: Under<'a>,
        requests: &'a [Request],
    ) -> Result<odb_monitor::Job<'a>, AllocError>
        requires live { AreLive chains.now (marks_in self.now) }
        requires requests { AreRefiltered self.now.tables requests.now }
        ensures { IfOk result (λ job. job
            ≡ later_job self.now.notation (all_parts_again chains.now.db (filters_in told.entry) self.now.tables requests.now)) }
    {
        let parts = parts_again(alloc, chains, self.tables.as_slice(), told, requests)?;
        Ok(odb_monitor::Job::new(self.notation, false, parts))
    }

    /// Makes the job of the reply to a client that has what it selected so many commits ago. For each table the costs are those
    /// of `odb_recent::Recent::since`. An error says that memory was refused.
    pub fn resumed_job<'a>(
        &'a self,
        alloc: Global,
        chains: &'a Chains,
        recent: &Recent,
        ago: usize,
    ) -> Result<odb_monitor::Job<'a>, AllocError>
        requires { AreLive chains.now (marks_in self.now) }
        ensures { IfOk result (λ job. job
            ≡ resumed_job (take ago recent.now.undos) chains.now.db self.now.notation (asked_of self.now.tables)) }
    {
        let parts = parts_since(alloc, chains, self.tables.as_slice(), recent, ago)?;
        Ok(odb_monitor::Job::resumed(self.notation, parts))
    }

    /// Returns whether its client was told of its tables as they are now, under what is asked. `false` says nothing. O(n) for n
    /// tables.
    pub fn is_told(&self, chains: &Chains) -> bool
        requires { AreLive chains.now (marks_in self.now) }
        ensures { result ≡ true → AreNow chains.now.db self.now.tables }
    {
        are_now(self.tables.as_slice(), chains)
    }

    /// Returns whether its client stands to its tables as that of the other, where both ask the same. `false` says nothing.
    /// O(n) for n tables.
    pub fn stands_as(&self, other: &Monitor) -> bool
        ensures { result ≡ true → asked_of self.now.tables ≡ asked_of other.now.tables
            → map (stand_in way.Asked) self.now.tables ≡ map (stand_in way.Asked) other.now.tables }
    {
        all_stand_as(self.tables.as_slice(), other.tables.as_slice())
    }

    /// Makes the notification to its client, with the table updates that are composed of the job, where this is the number of
    /// the newest commit. O(n) for an id of n bytes. An error says that memory was refused.
    pub fn around_updates(
        &self,
        alloc: Global,
        number: Uuid,
        place: usize,
    ) -> Result<Envelope, AllocError>
        ensures { IfOk result (λ message. IsFrame message place (notified_text (uuid_of number) self.now)) }
    {
        let before = self.before_updates(alloc, number)?;
        let after = Vec::from_slice(alloc, after_updates())?;
        Ok(Envelope {
            before,
            place,
            after,
        })
    }

    /// Makes what stands before table updates in a notification to its client.
    fn before_updates(&self, alloc: Global, number: Uuid) -> Result<Vec<u8>, AllocError>
        ensures { IfOk result (λ text. (d : Data)
            → text.items ++ (compact_text d ++ after_updates) ≡ notified_text (uuid_of number) self.now d) }
    {
        match self.since {
            None => before_updates(alloc, self.notation, self.id.text()),
            Some(_) => before_update3(alloc, self.id.text(), number),
        }
    }
}

/// Says about how many tests of a member it takes to find the rows that a filter of so many selects. Where what the
/// database keeps tells them, each member is taken to find a few.
fn tests_of(rows: &Rows<'_>, filter: &Filter, members: usize) -> usize {
    let members = members.max(1);
    if rows.is_walked(filter) {
        return rows.len().saturating_mul(members);
    }
    rows.len().min(members.saturating_mul(FEW_ROWS))
}

/// Adds up about how many tests of a member it takes to find what is told where these are asked in place of others: filters
/// change by a member or two.
fn tests_apart(chains: &Chains, requests: &[Request]) -> usize {
    let mut tests: usize = 1;
    for request in requests {
        let rows = chains.db().rows(request.table());
        tests = tests.saturating_add(tests_of(&rows, &**request.filter(), 1));
    }
    tests
}

/// Counts the rows of the table that is watched.
fn rows_of(chains: &Chains, table: &Watching) -> usize {
    match chains.db().table(table.request.table()) {
        Some(table) => table.len(),
        None => 0,
    }
}

/// Returns what is asked of the monitor's tables under other filters; nothing where it is told under its own. O(1), and under
/// other filters what these are looked up in. An error says that memory was refused.
pub fn requests_of(
    alloc: Global,
    monitor: &Monitor,
    way: Way<'_>,
) -> Result<Vec<Request>, AllocError>
    ensures { IfOk result (λ requests. requests.items ≡ asked_by monitor.now.tables (filters_by way.entry)) }
{
    let Some(under) = way.under() else {
        return Ok(Vec::new(alloc));
    };
    requests_under(alloc, monitor.tables.as_slice(), under)
}

/// Returns whether clients stand to these tables as to the others, one by one, where the same is asked of both. `false` says
/// nothing. O(n) for n tables.
fn all_stand_as(tables: &[Watching], others: &[Watching]) -> bool
    ensures { result ≡ true → asked_of tables.now ≡ asked_of others.now
        → map (stand_in way.Asked) tables.now ≡ map (stand_in way.Asked) others.now }
{
    if tables.len() != others.len() {
        return false;
    }
    for place in 0..tables.len() {
        if !tables[place].stands_as(&others[place]) {
            return false;
        }
    }
    true
}

impl Watching {
    /// Returns whether the client stands to it as to the other, where the same is asked of both: it was told of both at the
    /// same change of the table, under what is asked. `false` says nothing. O(1).
    #[inline(always)]
    fn stands_as(&self, other: &Watching) -> bool
        ensures { result ≡ true → self.now.request ≡ other.now.request → stand_in way.Asked self.now ≡ stand_in way.Asked other.now }
    {
        if self.told.is_some() {
            return false;
        }
        if other.told.is_some() {
            return false;
        }
        self.mark.version() == other.mark.version() && self.mark.table() == other.mark.table()
    }
}

/// Returns whether the client has what these tables are now, under what is asked. `false` says nothing. O(n) for n
/// tables.
fn are_now(tables: &[Watching], chains: &Chains) -> bool
    requires { All (IsKnown chains.now) tables.now }
    ensures { result ≡ true → AreNow chains.now.db tables.now }
{
    for table in tables {
        if !table.is_told(chains) {
            return false;
        }
    }
    true
}
