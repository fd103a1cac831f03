//! What sessions ask of tables, in the index of interest. [P 9.1, 10.1]
ghost use Rattle.std.specs.Prelude.{◌≡◌, ◌++◌, ◌∷◌, [], flat_map, map, option_map, IfOk, IfSome, OnOk};
ghost use Rattle.std.specs.Bool.{OnTrue};
ghost use Rattle.std.specs.Option.{option_copied};
ghost use Rattle.odb_interest.specs.Keys.{asked_at};
ghost use Rattle.odb_sessions.specs.Marked.{seen};
ghost use Rattle.odb_sessions.specs.Owed.{ForgetsOwed, IsPut, KeepsOthers, KeepsResting, filter_asked, filters_asked, interest_if, table_of};

use crate::monitor::{Monitor, Watching};
use crate::session::Session;
use odb_interest::{Asked, Interest};
use odb_locks::SessionId;
use std::alloc::AllocError;
use std::collections::BTreeSet;

/// Makes the index say of a session just what its monitors ask, and nothing where it isn't open. Where memory is
/// refused it may say something else of the session.
///
/// O(the members of the filters). Where it said filters of the same tables in the same order, it costs besides what
/// `odb_interest::Interest::put` does for each that is another now; else what `forget` and `add` cost for each.
pub(crate) fn cover(
    interest: &mut Interest,
    session: SessionId,
    of: Option<&Session>,
) -> Result<(), AllocError>
    ensures others { KeepsOthers interest.old interest.new session }
    ensures ok { OnOk result (asked_at interest.new session ≡ interest_if (option_map seen (option_copied of.entry))) }
{
    let Some(of) = of else {
        interest.forget(session);
        return Ok(());
    };
    let monitors = of.monitors.as_slice();
    let filters = interest.asked(session);
    if are_asked(filters, monitors) {
        return Ok(());
    }
    if are_of_tables(filters, monitors) {
        return put_monitors(interest, session, monitors);
    }
    interest.forget(session);
    add_monitors(interest, session, monitors)
}

/// Makes the index say nothing of those of these sessions that may be owed something, so that it doesn't name them at
/// each change until they rest. O(log n) for each, and what `odb_interest::Interest::forget` costs.
pub(crate) fn forget_owed(interest: &mut Interest, owed: &BTreeSet<SessionId>, listed: &[SessionId])
    ensures resting { KeepsResting owed.now interest.old interest.new }
    ensures forgets { ForgetsOwed owed.now listed.now interest.old interest.new }
{
    for session in listed {
        forget_if_owed(interest, owed, *session);
    }
}

/// Makes the index say nothing of a session that may be owed something.
fn forget_if_owed(interest: &mut Interest, owed: &BTreeSet<SessionId>, session: SessionId)
    ensures resting { KeepsResting owed.now interest.old interest.new }
    ensures forgets { ForgetsOwed owed.now (session ∷ []) interest.old interest.new }
{
    if !owed.contains(&session) {
        return;
    }
    interest.forget(session);
}

/// Adds what these monitors ask to what a session asks. Where memory is refused, some of it.
fn add_monitors(
    interest: &mut Interest,
    session: SessionId,
    monitors: &[Monitor],
) -> Result<(), AllocError>
    ensures others { KeepsOthers interest.old interest.new session }
    ensures ok { OnOk result (asked_at interest.new session ≡ asked_at interest.old session ++ flat_map filters_asked monitors.now) }
{
    for monitor in monitors {
        add_tables(interest, session, monitor.tables.as_slice())?;
    }
    Ok(())
}

/// Adds what is asked of these tables to what a session asks. Where memory is refused, some of it.
fn add_tables(
    interest: &mut Interest,
    session: SessionId,
    tables: &[Watching],
) -> Result<(), AllocError>
    ensures others { KeepsOthers interest.old interest.new session }
    ensures ok { OnOk result (asked_at interest.new session ≡ asked_at interest.old session ++ map filter_asked tables.now) }
{
    for table in tables {
        interest.add(session, table.request.table(), table.request.filter())?;
    }
    Ok(())
}

/// Has what these monitors ask in the place of what a session asks, filter by filter. Where memory is refused, some of
/// it.
fn put_monitors(
    interest: &mut Interest,
    session: SessionId,
    monitors: &[Monitor],
) -> Result<(), AllocError>
    requires { map table_of (asked_at interest.old session) ≡ map table_of (flat_map filters_asked monitors.now) }
    ensures others { KeepsOthers interest.old interest.new session }
    ensures ok { OnOk result (asked_at interest.new session ≡ flat_map filters_asked monitors.now) }
{
    let mut place = 0;
    for monitor in monitors {
        place = put_tables(interest, session, place, monitor.tables.as_slice())?;
    }
    Ok(())
}

/// Has what is asked of these tables in the place of what a session asks from the place on, and returns the place after
/// that. Where memory is refused, some of it.
fn put_tables(
    interest: &mut Interest,
    session: SessionId,
    from: usize,
    tables: &[Watching],
) -> Result<usize, AllocError>
    ensures others { KeepsOthers interest.old interest.new session }
    ensures ok { IfOk result (λ next. IsPut (asked_at interest.old session) (asked_at interest.new session) from (map filter_asked tables.now) next) }
{
    let mut place = from;
    for table in tables {
        place = put_table(interest, session, place, table)?;
    }
    Ok(place)
}

/// Has what is asked of the table in the place of what a session asks at the place, and returns the place after that.
fn put_table(
    interest: &mut Interest,
    session: SessionId,
    place: usize,
    table: &Watching,
) -> Result<usize, AllocError>
    ensures others { KeepsOthers interest.old interest.new session }
    ensures ok { IfOk result (λ next. IsPut (asked_at interest.old session) (asked_at interest.new session) place (filter_asked table.now ∷ []) next) }
{
    let filters = interest.asked(session);
    if place >= filters.len() {
        return Ok(place);
    }
    if table.is_asked(&filters[place]) {
        return Ok(place + 1);
    }
    interest.put(session, place, table.request.filter())?;
    Ok(place + 1)
}

/// Returns whether the filters are just what these monitors ask, in their order.
fn are_asked(filters: &[Asked], monitors: &[Monitor]) -> bool
    ensures { OnTrue result (filters.now ≡ flat_map filters_asked monitors.now) }
{
    let mut left = filters;
    for monitor in monitors {
        let Some(rest) = after(left, monitor.tables.as_slice()) else {
            return false;
        };
        left = rest;
    }
    left.is_empty()
}

/// Returns those of the filters that come after what is asked of these tables, if they begin with it.
fn after<'a>(filters: &'a [Asked], tables: &[Watching]) -> Option<&'a [Asked]>
    ensures { IfSome result (λ left. filters.now ≡ map filter_asked tables.now ++ left.now) }
{
    let mut left = filters;
    for table in tables {
        let [first, rest @ ..] = left else {
            return None;
        };
        if !table.is_asked(first) {
            return None;
        }
        left = rest;
    }
    Some(left)
}

/// Returns whether the filters are of just the tables of which these monitors ask, in their order.
fn are_of_tables(filters: &[Asked], monitors: &[Monitor]) -> bool
    ensures { OnTrue result (map table_of filters.now ≡ map table_of (flat_map filters_asked monitors.now)) }
{
    let mut left = filters;
    for monitor in monitors {
        let Some(rest) = after_tables(left, monitor.tables.as_slice()) else {
            return false;
        };
        left = rest;
    }
    left.is_empty()
}

/// Returns those of the filters that come after some of these tables, if they begin with such.
fn after_tables<'a>(filters: &'a [Asked], tables: &[Watching]) -> Option<&'a [Asked]>
    ensures { IfSome result (λ left. map table_of filters.now ≡ map table_of (map filter_asked tables.now) ++ map table_of left.now) }
{
    let mut left = filters;
    for table in tables {
        let [first, rest @ ..] = left else {
            return None;
        };
        if first.table() != table.request.table() {
            return None;
        }
        left = rest;
    }
    Some(left)
}
