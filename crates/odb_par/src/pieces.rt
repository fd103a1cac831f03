//! Large jobs, of which several threads print pieces.
ghost use Rattle.std.specs.Prelude.{◌≡◌, ◌≤◌, ◌*◌, ◌^◌, ◌<◌, IfOk, Ok, drop, length, map, take};
ghost use Rattle.odb_monitor.specs.Listing.{AreOfRows, rows_text};
ghost use Rattle.odb_par.specs.Pieces.{AreTexts};
ghost use Rattle.odb_sessions.specs.Composed.{composition};
ghost use Rattle.odb_sessions.specs.Represented.Composed.{bytes_in};

use crate::worker::Body;
use odb_monitor::{Job, Joining, Listing};
use std::alloc::{AllocError, Global};
use std::sync::Arc;
use std::thread;
use std::thread::Threads;

/// How many rows a piece has at least, but for the last of a table: to print fewer costs about as much as to begin a thread.
const LEAST_ROWS: usize = 1_024;

/// Composes the job, table by table: the workers print a piece of its rows each, and the pieces are put together in their
/// order. The costs are those of `odb_monitor::compose`, O(the bytes printed) to put the pieces together, and for each
/// table a thread for each piece but one: of a table with fewer than 2,048 rows the caller prints the whole. While a table
/// is put together its pieces take as much memory as its text.
pub(crate) fn compose_by_pieces<R: Threads + Sync>(
    rt: &R,
    alloc: Global,
    job: &Job<'_>,
    workers: usize,
) -> Result<Body, AllocError>
    requires { (1 ≤ workers) × (workers ≤ 64) }
    ensures { IfOk result (λ body. bytes_in body ≡ composition job.now) }
{
    let mut joining = Joining::new(alloc)?;
    for place in 0..job.tables() {
        let listing = job.list(rt, alloc, place)?;
        let pieces = pieces_of(rt, alloc, &listing, workers)?;
        joining.put(alloc, &listing, &pieces)?;
    }
    match joining.finish(job)? {
        Some(text) => Ok(Some(Arc::new(alloc, text)?)),
        None => Ok(None),
    }
}

/// Prints the rows of the listing, a piece by each worker, in their order.
fn pieces_of<R: Threads + Sync>(
    rt: &R,
    alloc: Global,
    listing: &Listing<'_>,
    workers: usize,
) -> Result<Vec<Vec<u8>>, AllocError>
    requires { (1 ≤ workers) × (workers ≤ 64) }
    ensures { IfOk result (λ pieces. AreOfRows listing.now.rows (map (λ piece. piece.items) pieces.items)) }
{
    let size = listing.len().div_ceil(workers).max(LEAST_ROWS);
    let texts = texts_of(rt, alloc, listing, size)?;
    all_of(alloc, texts)
}

/// Prints the rows of the listing by pieces of so many, each in a thread of its own but one.
fn texts_of<R: Threads + Sync>(
    rt: &R,
    alloc: Global,
    listing: &Listing<'_>,
    size: usize,
) -> Result<Vec<Result<Vec<u8>, AllocError>>, AllocError>
    requires { 1 ≤ size }
    ensures { IfOk result (λ texts. AreTexts size listing.now.rows texts.items) }
{
    let count = listing.len().div_ceil(size);
    thread::map_indices(
        rt,
        alloc,
        count,
        &|place| piece_at(alloc, listing, place, size),
    )
}

/// Prints the piece at this place, of pieces of so many rows.
fn piece_at(
    alloc: Global,
    listing: &Listing<'_>,
    place: usize,
    size: usize,
) -> Result<Vec<u8>, AllocError>
    ensures { IfOk result (λ text. text.items ≡ rows_text (take size (drop (place * size) listing.now.rows))) }
{
    let first = place.saturating_mul(size).min(listing.len());
    listing.piece(alloc, first, size)
}

/// Returns the texts, unless one of them failed. O(n) for n texts.
fn all_of(
    alloc: Global,
    texts: Vec<Result<Vec<u8>, AllocError>>,
) -> Result<Vec<Vec<u8>>, AllocError>
    ensures { IfOk result (λ all. map Ok all.items ≡ texts.items) }
{
    let mut all = Vec::with_capacity(alloc, texts.len())?;
    for text in texts {
        let text = text?;
        all.push(text)?;
    }
    Ok(all)
}
