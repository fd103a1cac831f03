//! What jobs are alike by. [P 9.2, 10.1]
ghost use Rattle.std.specs.Prelude.{◌≡◌, map, option_map};
ghost use Rattle.std.specs.Arc.{arc_value};
ghost use Rattle.std.specs.Bool.{Decides};
ghost use Rattle.odb_cond.specs.Represented.Clause.{selector_of};
ghost use Rattle.odb_sessions.specs.Alike.{asks_of};
ghost use Rattle.odb_sessions.specs.Represented.Alike.{ago_in, bare_in, bare_likeness, filter_in, is_first, is_reply, told_in, version_in};

use crate::monitor::{Monitor, Watching};
use crate::under::filter_under;
use crate::way::Way;
use odb_chain::Mark;
use odb_cond::{Filter, Selector};
use odb_request::Request;
use odb_schema::TableId;

impl<'a> Way<'a> {
    /// Returns whether it is a first reply with all that the monitor selects. O(1).
    pub fn is_first(self) -> bool
        ensures { result ≡ is_first self.entry }
    {
        match self {
            Way::First => true,
            Way::Asked => false,
            Way::Changed(_) => false,
            Way::Again(_, _) => false,
            Way::Since(_, _) => false,
        }
    }

    /// Returns whether it is a reply, of which something is always sent. O(1).
    pub fn is_reply(self) -> bool
        ensures { result ≡ is_reply self.entry }
    {
        match self {
            Way::First => true,
            Way::Asked => false,
            Way::Changed(_) => false,
            Way::Again(_, _) => false,
            Way::Since(_, _) => true,
        }
    }

    /// Returns how many commits ago the client had what it asks, if that is found.
    pub(crate) fn ago(self) -> Option<usize>
        ensures { result ≡ ago_in self.entry }
    {
        match self {
            Way::First => None,
            Way::Asked => None,
            Way::Changed(_) => None,
            Way::Again(_, _) => None,
            Way::Since(_, ago) => Some(ago),
        }
    }

    /// Returns the filter that is asked of a table. O(1), and under other filters what one is looked up in.
    pub(crate) fn filter(self, request: &'a Request) -> &'a Filter
        ensures { result.now ≡ filter_in self.entry request.now }
    {
        match self.under() {
            Some(under) => filter_under(under, request),
            None => request.filter(),
        }
    }

    /// Returns the filter under which the client was told of a table, if it counts. The costs are those of `filter`.
    fn told(self, table: &'a Watching) -> Option<&'a Filter>
        ensures { option_map (λ f. f.now) result ≡ told_in self.entry table.now }
    {
        match self {
            Way::First => None,
            Way::Asked => Some(table.told_filter()),
            Way::Changed(_) => Some(table.told_filter()),
            Way::Again(told, _) => Some(filter_under(told, &table.request)),
            Way::Since(_, _) => None,
        }
    }

    /// Returns at which change of which table the client was told, if it counts. O(1).
    pub(crate) fn version(self, mark: &Mark) -> Option<(TableId, u64)>
        ensures { result ≡ version_in self.entry mark.now }
    {
        match self {
            Way::First => None,
            Way::Asked => Some((mark.table(), mark.version())),
            Way::Changed(_) => Some((mark.table(), mark.version())),
            Way::Again(_, _) => None,
            Way::Since(_, _) => None,
        }
    }
}

/// Returns whether both are the same change of the same table, or none.
fn same_version(version: Option<(TableId, u64)>, other: Option<(TableId, u64)>) -> bool
    ensures { Decides result (version ≡ other) }
{
    match (version, other) {
        (Some(version), Some(other)) => version.1 == other.1 && version.0 == other.0,
        (None, None) => true,
        _ => false,
    }
}

/// Returns whether both are as many commits ago, or none.
fn same_ago(ago: Option<usize>, other: Option<usize>) -> bool
    ensures { Decides result (ago ≡ other) }
{
    match (ago, other) {
        (Some(ago), Some(other)) => ago == other,
        (None, None) => true,
        _ => false,
    }
}

/// Returns whether both are the same filter, or none.
fn same_told(told: Option<&Filter>, other: Option<&Filter>) -> bool
    ensures { Decides result (option_map (λ f. f.now) told.entry ≡ option_map (λ f. f.now) other.entry) }
{
    match (told, other) {
        (Some(told), Some(other)) => told.same(other),
        (None, None) => true,
        _ => false,
    }
}

/// Returns whether it is the same column.
fn same_column(column: Selector, other: Selector) -> bool
    ensures { Decides result (selector_of column ≡ selector_of other) }
{
    column == other
}

/// Returns whether the two lists have the same columns, one by one.
fn same_columns(columns: &[Selector], others: &[Selector]) -> bool
    ensures { Decides result (map selector_of columns.now ≡ map selector_of others.now) }
{
    if columns.len() != others.len() {
        return false;
    }
    for place in 0..columns.len() {
        if !same_column(columns[place], others[place]) {
            return false;
        }
    }
    true
}

/// Returns whether the two ask for the same columns and the same kinds of change of the same table, by their places in a
/// schema. O(n) for n columns.
fn ask_alike(request: &Request, other: &Request) -> bool
    ensures { Decides result ((request.now.place ≡ other.now.place) × (map (λ c. c.source) request.now.shape.columns ≡ map (λ c. c.source) other.now.shape.columns) × (request.now.select ≡ other.now.select)) }
{
    request.table() == other.table()
        && same_columns(request.columns(), other.columns())
        && request.select() == other.select()
}

/// Returns whether the same is asked of both, names and types aside.
fn same_asked<'a>(
    request: &'a Request,
    way: Way<'a>,
    other: &'a Request,
    other_way: Way<'a>,
) -> bool
    ensures { Decides result (asks_of (record request.now { filter = filter_in way.entry request.now }) ≡ asks_of (record other.now { filter = filter_in other_way.entry other.now })) }
{
    way.filter(request).same(other_way.filter(other)) && ask_alike(request, other)
}

/// Returns whether both clients stand to the tables in the same way, names and types aside.
fn stand_alike<'a>(
    table: &'a Watching,
    way: Way<'a>,
    other: &'a Watching,
    other_way: Way<'a>,
) -> bool
    ensures { Decides result (bare_in way.entry table.now ≡ bare_in other_way.entry other.now) }
{
    same_version(way.version(&table.mark), other_way.version(&other.mark))
        && same_told(way.told(table), other_way.told(other))
        && same_asked(&table.request, way, &other.request, other_way)
}

/// Returns whether both clients stand to each of these tables in the same way, names and types aside.
fn all_stand_alike<'a>(
    tables: &'a [Watching],
    way: Way<'a>,
    others: &'a [Watching],
    other_way: Way<'a>,
) -> bool
    ensures { Decides result (map (bare_in way.entry) tables.now ≡ map (bare_in other_way.entry) others.now) }
{
    if tables.len() != others.len() {
        return false;
    }
    for place in 0..tables.len() {
        if !stand_alike(&tables[place], way, &others[place], other_way) {
            return false;
        }
    }
    true
}

impl Monitor {
    /// Returns whether what is composed for its client in this way is what is composed for the client of the other in
    /// the other way, where the requests of both are of one schema: names and types aren't looked at. O(n) for n columns of
    /// all tables and members of their filters.
    pub fn is_like<'a>(&'a self, way: Way<'a>, other: &'a Monitor, other_way: Way<'a>) -> bool
        ensures { Decides result (bare_likeness self.now way.entry ≡ bare_likeness other.now other_way.entry) }
    {
        self.is_told_like(way, other, other_way)
            && all_stand_alike(
                self.tables.as_slice(),
                way,
                other.tables.as_slice(),
                other_way,
            )
    }

    /// Returns whether both clients are told in one notation, both for the first time or both later, and both as of one
    /// commit or neither of one.
    fn is_told_like(&self, way: Way<'_>, other: &Monitor, other_way: Way<'_>) -> bool
        ensures { Decides result ((self.now.notation ≡ other.now.notation) × (is_first way.entry ≡ is_first other_way.entry) × (ago_in way.entry ≡ ago_in other_way.entry)) }
    {
        self.notation == other.notation
            && way.is_first() == other_way.is_first()
            && same_ago(way.ago(), other_way.ago())
    }
}
