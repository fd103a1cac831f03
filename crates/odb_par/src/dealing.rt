//! What the workers composed, in the order of the jobs.
ghost use Rattle.std.specs.Prelude.{◌≡◌, ◌≤◌, IfOk, map};
ghost use Rattle.odb_par.specs.Shares.{AreShares};
ghost use Rattle.odb_sessions.specs.Composed.{composition};
ghost use Rattle.odb_sessions.specs.Represented.Composed.{bytes_in};

use crate::worker::{Body, Share};
use odb_round::RoundJob;
use std::alloc::{AllocError, Global};

/// Deals out for each job its body, in the order of the jobs: each is shared with the worker's. O(n) for n jobs.
pub(crate) fn in_order(
    alloc: Global,
    jobs: &[RoundJob<'_>],
    workers: usize,
    shares: &[Share],
) -> Result<Vec<Body>, AllocError>
    requires workers { 1 ≤ workers }
    requires shares { AreShares workers (map composition jobs.now) shares.now }
    ensures { IfOk result (λ bodies. map bytes_in bodies.items ≡ map composition jobs.now) }
{
    let mut bodies = Vec::with_capacity(alloc, jobs.len())?;
    for place in 0..jobs.len() {
        let Ok(own) = &shares[place % workers] else {
            return Err(AllocError);
        };
        bodies.push_reserved(shared(&own[place / workers])?);
    }
    Ok(bodies)
}

/// Shares the body. O(1).
pub(crate) fn shared(body: &Body) -> Result<Body, AllocError>
    ensures { IfOk result (λ same. bytes_in same ≡ bytes_in body.now) }
{
    let Some(text) = body else {
        return Ok(None);
    };
    Ok(Some(text.clone()?))
}
