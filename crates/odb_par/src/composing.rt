//! The jobs of a round, composed by several threads.
ghost use Rattle.std.specs.Prelude.{◌≡◌, ◌≤◌, IfOk, map};
ghost use Rattle.odb_par.specs.Shares.{AreShares};
ghost use Rattle.odb_sessions.specs.Composed.{composition};
ghost use Rattle.odb_sessions.specs.Represented.Composed.{bytes_in};

use crate::dealing::in_order;
use crate::gate::Gate;
use crate::picked::Picked;
use crate::picking::pick;
use crate::worker::{Share, own_bodies};
use odb_round::RoundJob;
use std::alloc::{AllocError, Global};
use std::sync::Arc;
use std::thread;
use std::thread::Threads;

/// Composes each of the jobs, and gives what is composed in their order. Of `n` workers the first takes the jobs 0, n,
/// 2 n and so on, the second 1, n + 1, 2 n + 1 and so on: each in a thread of its own, but the caller is one of them,
/// and does the work of those for which no thread can be made. Where there are two workers or more `pick` looks for the
/// rows of each job before, one job after the other, and those for which it goes through tables are composed by pieces
/// then, which the workers print (`compose_by_pieces`); such a job finds its body made. The costs are those of `pick` and
/// `Picked::compose` for each job, O(1) more for each, and a thread for each worker but one; there are no more workers than
/// jobs.
pub fn compose_all<R: Threads + Sync, G: Gate + Sync>(
    rt: &R,
    alloc: Global,
    jobs: &[RoundJob<'_>],
    workers: usize,
    gate: &G,
) -> Result<Vec<Option<Arc<Vec<u8>>>>, AllocError>
    requires workers { (1 ≤ workers) × (workers ≤ 64) }
    ensures { IfOk result (λ bodies. map bytes_in bodies.items ≡ map composition jobs.now) }
{
    let picked = pick_all(rt, alloc, jobs, workers)?;
    let shares = shares_of(rt, alloc, &picked, workers, gate)?;
    in_order(alloc, jobs, workers, shares.as_slice())
}

/// Looks for the rows of each job, and composes the large ones, where there are two workers or more.
fn pick_all<'j, 'a, R: Threads + Sync>(
    rt: &R,
    alloc: Global,
    jobs: &'j [RoundJob<'a>],
    workers: usize,
) -> Result<Vec<Picked<'j, 'a>>, AllocError>
    requires { (1 ≤ workers) × (workers ≤ 64) }
    ensures { IfOk result (λ picked. picked.items ≡ jobs.now) }
{
    let mut picked = Vec::with_capacity(alloc, jobs.len())?;
    for job in jobs {
        let one = pick_by(rt, alloc, job, workers)?;
        if picked.push(one).is_err() {
            return Err(AllocError);
        }
    }
    Ok(picked)
}

/// Looks for the rows of the job, and composes it where it is large, where there are two workers or more.
fn pick_by<'j, 'a, R: Threads + Sync>(
    rt: &R,
    alloc: Global,
    job: &'j RoundJob<'a>,
    workers: usize,
) -> Result<Picked<'j, 'a>, AllocError>
    requires { (1 ≤ workers) × (workers ≤ 64) }
    ensures { IfOk result (λ picked. picked ≡ job.now) }
{
    if workers < 2 {
        return Ok(Picked::plain(job));
    }
    pick(rt, alloc, job)?.composed(rt, alloc, workers)
}

/// Lets each worker compose its jobs.
fn shares_of<R: Threads + Sync, G: Gate + Sync>(
    rt: &R,
    alloc: Global,
    jobs: &[Picked<'_, '_>],
    workers: usize,
    gate: &G,
) -> Result<Vec<Share>, AllocError>
    requires { (1 ≤ workers) × (workers ≤ 64) }
    ensures { IfOk result (λ shares. AreShares workers (map composition jobs.now) shares.items) }
{
    let count = workers.min(jobs.len());
    thread::map_indices(
        rt,
        alloc,
        count,
        &|first| own_bodies(alloc, jobs, first, workers, gate),
    )
}
