//! Digests: numbers by which decisions are found. [P 10.1]
ghost use Rattle.std.specs.Prelude.{◌≡◌, map};
ghost use Rattle.odb_cond.specs.Represented.Filter.{member_of};
ghost use Rattle.odb_service.specs.Session.{filter_of};
ghost use Rattle.odb_sessions.specs.Represented.Alike.{filter_in, likeness_in, stand_in};
ghost use Rattle.odb_sessions.specs.Represented.Digest as spec;
ghost use Rattle.odb_sessions.specs.Represented.Under.{filters_in};

use crate::monitor::{Monitor, Watching};
use crate::under::{Under, filter_under, may_differ};
use crate::way::Way;
use odb_cond::{Filter, Member};
use odb_request::Request;
use odb_schema::TableId;
use odb_tables::feed_value;
use std::hash::{DefaultHasher, Hash, Hasher};

/// By what a digest is multiplied before the next word is added: an odd number near 2^64 over the golden ratio (Knuth, The Art of
/// Computer Programming, 6.4).
const MULTIPLIER: u64 = 0x9e37_79b9_7f4a_7c15;

/// Returns the digest of what is composed for the client of a monitor in this way: what is alike has the same, other
/// seldom has. O(n) for n tables; under filters in place of those that the monitor asks also O(n) for the members and atoms of
/// these alone, with their bytes, and what a filter is looked up in for each table.
pub fn digest_of<'a>(monitor: &'a Monitor, way: Way<'a>) -> u64
    ensures { result ≡ spec.digest (likeness_in monitor.now way.entry) }
{
    let stands = with_tables(0, monitor.tables.as_slice(), way);
    with_ago(stands, way.ago())
}

/// Returns a digest that follows from this one and the word. O(1).
#[inline(always)]
fn mixed(digest: u64, word: u64) -> u64
    ensures { result ≡ spec.mixed digest word }
{
    digest.wrapping_mul(MULTIPLIER).wrapping_add(word)
}

/// Mixes in how many commits ago the client had what it asks, if that is found.
fn with_ago(digest: u64, ago: Option<usize>) -> u64
    ensures { result ≡ spec.after_ago digest ago }
{
    match ago {
        Some(ago) => mixed(digest, ago as u64),
        None => digest,
    }
}

/// Mixes in how the client stands to each of these tables.
fn with_tables<'a>(first: u64, tables: &'a [Watching], way: Way<'a>) -> u64
    ensures { result ≡ spec.after_stands first (map (stand_in way.entry) tables.now) }
{
    let mut digest = first;
    for table in tables {
        digest = with_table(digest, table, way);
    }
    digest
}

/// Mixes in the digest of what is asked of the table, and at which change of it the client was told.
fn with_table<'a>(digest: u64, table: &'a Watching, way: Way<'a>) -> u64
    ensures { result ≡ spec.after_stand digest (stand_in way.entry table.now) }
{
    let asked = mixed(digest, digest_in(table, way));
    with_version(asked, way.version(&table.mark))
}

/// Mixes in at which change the client was told, if it counts.
fn with_version(digest: u64, version: Option<(TableId, u64)>) -> u64
    ensures { result ≡ spec.after_version digest version }
{
    match version {
        Some(version) => mixed(digest, version.1),
        None => digest,
    }
}

/// Returns the digest of what is asked of the table in this way: the one that is kept, where that is what its monitor asks.
fn digest_in<'a>(table: &'a Watching, way: Way<'a>) -> u64
    ensures { result ≡ spec.asked_digest table.now.request.place (filter_in way.entry table.now.request) }
{
    match way.under() {
        Some(under) => digest_under(table, under),
        None => table.digest(),
    }
}

/// Returns the digest of what is asked of the table under these filters: the one that is kept, where none of them is of it.
fn digest_under(table: &Watching, under: Under<'_>) -> u64
    ensures { result ≡ spec.asked_digest table.now.request.place (filter_of (filters_in under.entry) table.now.request.shape.name table.now.request.filter) }
{
    if may_differ(under, &table.request) {
        return asked_digest(table.request.table(), filter_under(under, &table.request));
    }
    table.digest()
}

/// Returns the digest of what is asked. O(n) for the members and atoms of its filter, with their bytes.
pub(crate) fn request_digest(request: &Request) -> u64
    ensures { result ≡ spec.request_digest request.now }
{
    asked_digest(request.table(), request.filter())
}

/// Returns the digest of what is asked of the table under the filter.
fn asked_digest(table: TableId, filter: &Filter) -> u64
    ensures { result ≡ spec.asked_digest table filter.now }
{
    let mut asked = DefaultHasher::new();
    table.place().hash(&mut asked);
    feed_filter(&mut asked, filter);
    asked.finish()
}

/// Feeds the atoms in each member of the filter.
fn feed_filter(state: &mut DefaultHasher, filter: &Filter)
    ensures { state.new ≡ spec.after_filter state.old filter.now }
{
    feed_members(state, filter.members());
}

/// Feeds the atoms in each of the members.
fn feed_members(state: &mut DefaultHasher, members: &[Member])
    ensures { state.new ≡ spec.after_filter state.old (map member_of members.now) }
{
    for member in members {
        feed_member(state, member);
    }
}

/// Feeds the atoms in the member.
fn feed_member(state: &mut DefaultHasher, member: &Member)
    ensures { state.new ≡ spec.after_member state.old (member_of member.now) }
{
    match member {
        Member::Always(_) => {}
        Member::When(clause) => feed_value(state, clause.value()),
    }
}
