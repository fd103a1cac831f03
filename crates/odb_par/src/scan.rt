//! Rows of a table, tested by several threads.
ghost use Rattle.std.specs.Prelude.{◌≡◌, IfOk, map};
ghost use Rattle.odb_atoms.specs.Represented.Atom.{uuid_of};
ghost use Rattle.odb_cond.specs.Filter.{selects};
ghost use Rattle.odb_monitor.specs.Walk.{selected_of};
ghost use Rattle.odb_tables.specs.Represented.Table.{listed};

use odb_atoms::Row;
use odb_cond::Filter;
use rayon::prelude::*;
use std::alloc::{AllocError, Global};
use std::thread::Threads;
use uuid::Uuid;

/// Returns those of the rows that the filter selects, in their order. O(the rows), each tested once: a piece of them by each
/// processor.
pub(crate) fn selected_rows<'r, R: Threads + Sync>(
    rt: &R,
    alloc: Global,
    filter: &Filter,
    rows: &[(Uuid, &'r Row)],
) -> Result<Vec<(Uuid, &'r Row)>, AllocError>
    ensures { IfOk result (λ found. map listed found.items ≡ selected_of filter.now (map listed rows.now)) }
{
    rows.par_iter()
        .copied()
        .filter(
            |row: &(Uuid, &Row)| -> bool
                ensures { result ≡ selects filter.entry.now (uuid_of row.now.0) row.now.1.now }
            { filter.holds(row.0, row.1) },
        )
        .collect(rt, alloc)
}
