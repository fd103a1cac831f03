//! The search for the rows of which jobs are composed.
ghost use Rattle.std.specs.Prelude.{◌≡◌, IfOk};

use crate::picked::Picked;
use crate::scan::selected_rows;
use odb_monitor::{Part, Sought, Walk};
use odb_round::RoundJob;
use std::alloc::{AllocError, Global};
use std::thread::Threads;

/// From how many tests of a member of a filter on the rows of a table are tested by several threads.
const LEAST_TESTS: usize = 16_384;

/// Looks for the rows of which the job is composed, where tables are gone through for it and that makes 16,384 tests of a
/// member of a filter or more: each such table by several threads, one table after the other. Else nothing is looked for.
///
/// O(rows of these tables), each tested once, and then what `RoundJob::differences` costs; and what `RoundJob::weight` does.
pub fn pick<'j, 'a, R: Threads + Sync>(
    rt: &R,
    alloc: Global,
    job: &'j RoundJob<'a>,
) -> Result<Picked<'j, 'a>, AllocError>
    ensures { IfOk result (λ picked. picked ≡ job.now) }
{
    if job.weight() < LEAST_TESTS {
        return Ok(Picked::plain(job));
    }
    let mut found = job.differences(alloc)?;
    let parts = found.take_parts(alloc);
    let known = known_parts(rt, alloc, parts)?;
    Ok(Picked::of(job, found.with_parts(known)))
}

/// Returns the parts, in their order, with the rows that were found for them.
fn known_parts<'a, R: Threads + Sync>(
    rt: &R,
    alloc: Global,
    parts: Vec<Part<'a>>,
) -> Result<Vec<Part<'a>>, AllocError>
    ensures { IfOk result (λ known. known.items ≡ parts.entry.items) }
{
    let mut known = Vec::with_capacity(alloc, parts.len())?;
    for part in parts {
        let found = known_part(rt, alloc, part)?;
        if known.push(found).is_err() {
            return Err(AllocError);
        }
    }
    Ok(known)
}

/// Returns the part, with the rows that were found for it.
fn known_part<'a, R: Threads + Sync>(
    rt: &R,
    alloc: Global,
    part: Part<'a>,
) -> Result<Part<'a>, AllocError>
    ensures { IfOk result (λ known. known ≡ part.entry) }
{
    match part.seek(alloc, LEAST_TESTS)? {
        Sought::Known(part) => Ok(part),
        Sought::Walked(walk) => tested(rt, alloc, walk),
    }
}

/// Tests the rows that are handed out, and returns the part with those that the filter selects.
fn tested<'a, R: Threads + Sync>(
    rt: &R,
    alloc: Global,
    walk: Walk<'a>,
) -> Result<Part<'a>, AllocError>
    ensures { IfOk result (λ part. part ≡ walk.entry.part) }
{
    let found = selected_rows(rt, alloc, walk.filter(), walk.rows())?;
    Ok(walk.found(found))
}
