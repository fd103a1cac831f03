//! What one worker composes.
ghost use Rattle.std.specs.Prelude.{◌≡◌, ◌≤◌, IfOk, map};
ghost use Rattle.odb_par.specs.Shares.{IsShare};
ghost use Rattle.odb_sessions.specs.Composed.{composition};
ghost use Rattle.odb_sessions.specs.Represented.Composed.{bytes_in};

use crate::gate::Gate;
use crate::picked::Picked;
use std::alloc::{AllocError, Global};
use std::sync::Arc;

/// What is composed of a job: nothing where nothing is sent.
pub(crate) type Body = Option<Arc<Vec<u8>>>;

/// What a worker composed of its jobs, in their order, unless memory was refused.
pub(crate) type Share = Result<Vec<Body>, AllocError>;

/// Composes the jobs at `first`, `first + workers` and so on. The costs are those of `Picked::compose` for each of them.
pub(crate) fn own_bodies<G: Gate>(
    alloc: Global,
    jobs: &[Picked<'_, '_>],
    first: usize,
    workers: usize,
    gate: &G,
) -> Share
    requires { (1 ≤ workers) × (workers ≤ 64) }
    ensures { IfOk result (λ bodies. IsShare first workers (map composition jobs.now) (map bytes_in bodies.items)) }
{
    let mut bodies = Vec::new(alloc);
    let mut place = first;
    while place < jobs.len() {
        let body = composed(alloc, &jobs[place], place, gate)?;
        bodies.push(body)?;
        place += workers;
    }
    Ok(bodies)
}

/// Composes the job at this place, with the gate before and after it.
fn composed<G: Gate>(
    alloc: Global,
    job: &Picked<'_, '_>,
    place: usize,
    gate: &G,
) -> Result<Option<Arc<Vec<u8>>>, AllocError>
    ensures { IfOk result (λ body. bytes_in body ≡ composition job.now) }
{
    gate.enter(place);
    let body = job.compose(alloc);
    gate.leave(place);
    body
}
