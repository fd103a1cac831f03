//! Jobs as the workers compose them.
ghost use Rattle.std.specs.Prelude.{◌≡◌, ◌≤◌, IfOk};
ghost use Rattle.odb_sessions.specs.Composed.{composition};
ghost use Rattle.odb_sessions.specs.Represented.Composed.{bytes_in};

use crate::dealing::shared;
use crate::pieces::compose_by_pieces;
use crate::worker::Body;
use odb_round::{RoundJob, compose_over};
use std::alloc::{AllocError, Global};
use std::marker::Model;
use std::sync::Arc;
use std::thread::Threads;

/// A job of a round, and where tables were gone through for it the same with the rows that were found there, or what was
/// composed of it by pieces. It lends the tables.
#[derive(Drop)]
pub struct Picked<'j, 'a> {
    job: &'j RoundJob<'a>,
    found: Option<odb_monitor::Job<'j>>,
    body: Option<Body>,
}

impl<'j, 'a> Model for Picked<'j, 'a> {
    ghost use Rattle.std.specs.Prelude.{◌≡◌, IfSome};
    ghost use Rattle.odb_monitor.specs.Job as model;
    ghost use Rattle.odb_monitor.specs.Represented.Part.{job_code};
    ghost use Rattle.odb_sessions.specs.Composed.{composition};
    ghost use Rattle.odb_sessions.specs.Represented.Composed.{bytes_in};

    ghost Value = { model.Job };

    ghost coded = { job_code };

    ghost view = { λ p. p.job.now };

    ghost invariant = { λ p. IfSome p.found (λ found. found ≡ p.job.now) × IfSome p.body (λ body. bytes_in body ≡ composition p.job.now) };
}

impl<'j, 'a> Picked<'j, 'a> {
    /// Takes the job as it is. O(1).
    pub(crate) fn plain(job: &'j RoundJob<'a>) -> Picked<'j, 'a>
        ensures { result ≡ job.now }
    {
        Picked {
            job,
            found: None,
            body: None,
        }
    }

    /// Takes the job with what was found for it. O(1).
    pub(crate) fn of(job: &'j RoundJob<'a>, found: odb_monitor::Job<'j>) -> Picked<'j, 'a>
        requires { found ≡ job.now }
        ensures { result ≡ job.now }
    {
        Picked {
            job,
            found: Some(found),
            body: None,
        }
    }

    /// Composes the job by pieces, where tables were gone through for it (`compose_by_pieces`); else it stays as it is.
    pub(crate) fn composed<R: Threads + Sync>(
        self,
        rt: &R,
        alloc: Global,
        workers: usize,
    ) -> Result<Picked<'j, 'a>, AllocError>
        requires { (1 ≤ workers) × (workers ≤ 64) }
        ensures { IfOk result (λ picked. picked ≡ self.entry) }
    {
        let Picked {
            job,
            found,
            body: _,
        } = self;
        let Some(found) = found else {
            return Ok(Picked::plain(job));
        };
        let body = compose_by_pieces(rt, alloc, &found, workers)?;
        Ok(Picked {
            job,
            found: None,
            body: Some(body),
        })
    }

    /// Composes the text of the table updates, without the monitor's id; `None` where nothing is sent. What was composed
    /// before is shared. Where rows were found the costs are those of `odb_monitor::compose` without the search for them,
    /// else those of `RoundJob::compose`.
    pub fn compose(&self, alloc: Global) -> Result<Option<Arc<Vec<u8>>>, AllocError>
        ensures { IfOk result (λ body. bytes_in body ≡ composition self.now) }
    {
        if let Some(body) = &self.body {
            return shared(body);
        }
        match &self.found {
            Some(job) => compose_over(alloc, job),
            None => self.job.compose(alloc),
        }
    }
}
