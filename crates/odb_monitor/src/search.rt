//! The rows that are looked for in the table of a part, beside those that were changed.
ghost use Rattle.std.specs.Prelude.{◌≡◌, IfOk, map, option_map};
ghost use Rattle.std.specs.Arc.{arc_value};
ghost use Rattle.odb_monitor.specs.Represented.Search.{Finds};
ghost use Rattle.odb_monitor.specs.Represented.Sought.{AreSought, IsSoughtBy};
ghost use Rattle.odb_tables.specs.Represented.Table.{listed};

use crate::told::Told;
use odb_atoms::Row;
use odb_cond::Filter;
use odb_request::Request;
use odb_tables::Rows;
use std::alloc::{AllocError, Global};
use std::sync::Arc;
use uuid::Uuid;

/// How rows are looked for.
pub(crate) enum Search<'a> {
    /// Where the part is printed, if at all.
    Nothing,
    /// By a test of each of these, which are the rows of the table, by the filter.
    Walk(Arc<Filter>, Vec<(Uuid, &'a Row)>),
}

/// Returns the filter that selects the rows that are looked for, where some are: that which is asked, or one that tells it
/// apart from the one that was told. O(1), or what `Filter::difference` costs.
fn sought_by(
    alloc: Global,
    told: Told<'_>,
    request: &Request,
) -> Result<Option<Arc<Filter>>, AllocError>
    ensures { IfOk result (λ by. IsSoughtBy told.entry request.now.filter (option_map arc_value by)) }
{
    match told {
        Told::Nothing => Ok(Some(request.filter().clone()?)),
        Told::Asked => Ok(None),
        Told::Under(filter) => {
            let differing = filter.difference(alloc, &**request.filter())?;
            Ok(Some(Arc::new(alloc, differing)?))
        }
    }
}

/// Returns the rows that are looked for. It costs what `sought_by` and `odb_tables::Rows::selected` do.
pub(crate) fn sought<'a>(
    alloc: Global,
    told: Told<'_>,
    request: &Request,
    rows: &Rows<'a>,
) -> Result<Vec<(Uuid, &'a Row)>, AllocError>
    ensures { IfOk result (λ found. AreSought told.entry request.now.filter (map listed found.items) rows.now) }
{
    match sought_by(alloc, told, request)? {
        Some(filter) => rows.selected(alloc, &*filter),
        None => Ok(Vec::new(alloc)),
    }
}

/// Returns the rows of the table, and the filter that selects from them those that are looked for, where these aren't found
/// but by a test of each row, and that makes at least so many tests of a member. It costs what `sought_by` and
/// `odb_tables::Rows::is_walked` do, and O(rows of the table) where it returns them.
pub(crate) fn look_for<'a>(
    alloc: Global,
    told: Told<'_>,
    request: &Request,
    rows: &Rows<'a>,
    least: usize,
) -> Result<Search<'a>, AllocError>
    ensures { IfOk result (λ search. Finds told.entry request.now.filter rows.now search) }
{
    let Some(filter) = sought_by(alloc, told, request)? else {
        return Ok(Search::Nothing);
    };
    let tests = rows.len().saturating_mul(filter.members().len());
    if tests < least || !rows.is_walked(&*filter) {
        return Ok(Search::Nothing);
    }
    let all = rows.list(alloc)?;
    Ok(Search::Walk(filter, all))
}
