//! A round as it is planned: what is to be composed, and then what is to be carried out. [P 10.3]
ghost use Rattle.std.specs.Prelude.{◌≡◌, IfOk, IfSome, List, map, option_and_then, slice_get};
ghost use Rattle.std.specs.List.{All};
ghost use Rattle.odb_monitor.specs.Job as model_job;
ghost use Rattle.odb_sessions.specs.FirstTexts.{IsFirstText, IsOfNow};
ghost use Rattle.odb_sessions.specs.Composed.{composition};
ghost use Rattle.odb_sessions.specs.Represented.Composed.{bytes_in};
ghost use Rattle.odb_round.specs.Represented.Taking.{pending_by, pending_of, text_coming, text_planned};
ghost use Rattle.odb_round.specs.Taken.{no_text};
ghost use Rattle.odb_tables.specs.Database as model_db;

use crate::job::RoundJob;
use crate::taking::{Coming, Taking};
use crate::wanted::{Asking, ListedJobs};
use odb_locks::SessionId;
use odb_sessions::{FirstText, Out, ToldMarks};
use std::alloc::{AllocError, Global};
use std::marker::Model;
use std::sync::Arc;

/// A taking as it is planned for a session, and once its job is composed what comes of that.
#[derive(Drop)]
pub(crate) struct Planned {
    pub(crate) session: SessionId,
    pub(crate) taking: Taking,
    /// What is composed of the job by which a message comes. Other messages may have it too.
    pub(crate) body: Option<Arc<Vec<u8>>>,
}

impl Planned {
    /// Plans that nothing comes, since the session isn't open.
    pub(crate) fn none(session: SessionId) -> Planned
        ensures session { result.session ≡ session }
        ensures coming { (js : List model_job.Job) → text_planned js result.taking.coming ≡ no_text }
    {
        Planned {
            session,
            taking: Taking {
                items: 0,
                monitors: 0,
                coming: None,
            },
            body: None,
        }
    }

    /// Returns it with the body of its job, of these. O(1).
    fn with_body(self, bodies: &[Option<Arc<Vec<u8>>>]) -> Result<Planned, AllocError>
        ensures { IfOk result (λ ready. (js : List model_job.Job) → map bytes_in bodies.now ≡ map composition js
            → pending_of ready ≡ pending_by js self) }
    {
        let Planned {
            session,
            taking,
            body: _,
        } = self;
        let body = body_of(&taking.coming, bodies)?;
        Ok(Planned {
            session,
            taking,
            body,
        })
    }
}

/// Returns the body, of these, by which it comes; `None` where it comes by none. O(1).
fn body_of(
    coming: &Option<Coming>,
    bodies: &[Option<Arc<Vec<u8>>>],
) -> Result<Option<Arc<Vec<u8>>>, AllocError>
    ensures { IfOk result (λ body. (js : List model_job.Job) → map bytes_in bodies.now ≡ map composition js
        → text_coming coming.now (bytes_in body) ≡ text_planned js coming.now) }
{
    match coming {
        None => Ok(None),
        Some(Coming::Queued) => Ok(None),
        Some(Coming::Composed(envelope)) => body_at(bodies, envelope.place),
    }
}

/// Returns the body at a place, for one message more; `None` where there is none.
fn body_at(
    bodies: &[Option<Arc<Vec<u8>>>],
    place: usize,
) -> Result<Option<Arc<Vec<u8>>>, AllocError>
    ensures { IfOk result (λ body. bytes_in body ≡ option_and_then bytes_in (slice_get bodies.now place)) }
{
    match bodies.get(place) {
        Some(body) => shared(body),
        None => Ok(None),
    }
}

/// Shares a body, if there is one.
fn shared(body: &Option<Arc<Vec<u8>>>) -> Result<Option<Arc<Vec<u8>>>, AllocError>
    ensures { IfOk result (λ again. bytes_in again ≡ bytes_in body.now) }
{
    match body {
        Some(body) => Ok(Some(body.clone()?)),
        None => Ok(None),
    }
}

/// Returns each of these takings with the body of its job, of these.
fn with_bodies(
    alloc: Global,
    planned: Vec<Planned>,
    bodies: &[Option<Arc<Vec<u8>>>],
) -> Result<Vec<Planned>, AllocError>
    ensures { IfOk result (λ ready. (js : List model_job.Job) → map bytes_in bodies.now ≡ map composition js
        → map pending_of ready.items ≡ map (pending_by js) planned.items) }
{
    let mut ready = Vec::with_capacity(alloc, planned.len())?;
    for taking in planned {
        let one = taking.with_body(bodies)?;
        ready.push_reserved(one);
    }
    Ok(ready)
}

/// A round as it is planned: the jobs that it needs, those that are alike once, and its takings. It lends the tables.
pub struct Jobs<'a> {
    alloc: Global,
    told: ToldMarks<'a>,
    jobs: Vec<RoundJob<'a>>,
    askings: Vec<Asking<'a>>,
    takings: Vec<Planned>,
}

impl<'a> Model for Jobs<'a> {
    ghost use Rattle.std.specs.Prelude.{map};
    ghost use Rattle.odb_round.specs.Jobs as model;
    ghost use Rattle.odb_round.specs.Represented.Codes.{round_code};
    ghost use Rattle.odb_round.specs.Represented.Taking.{pending_by};

    ghost Value = { model.Round };

    ghost coded = { round_code };

    ghost view = { λ j. record { told = j.told; jobs = j.jobs.items; likenesses = j.askings.items; takings = map (pending_by j.jobs.items) j.takings.items } };
}

impl<'a> Jobs<'a> {
    pub(crate) fn new(
        alloc: Global,
        told: ToldMarks<'a>,
        listed: ListedJobs<'a>,
        takings: Vec<Planned>,
    ) -> Jobs<'a>
        ensures { result ≡ record { told = told.entry; jobs = listed.entry.jobs.items; likenesses = listed.entry.askings.items; takings = map (pending_by listed.entry.jobs.items) takings.items } }
    {
        let ListedJobs { jobs, askings } = listed;
        Jobs {
            alloc,
            told,
            jobs,
            askings,
            takings,
        }
    }

    /// Returns the allocator with which the round was planned. O(1).
    pub fn alloc(&self) -> Global {
        self.alloc
    }

    /// Returns what clients were told, as it is kept: the jobs are composed of it. O(1).
    pub fn told(&self) -> &ToldMarks<'a>
        ensures { result.now ≡ self.now.told }
    {
        &self.told
    }

    /// Returns the jobs, each of which is to be composed. O(1).
    pub fn list(&self) -> &[RoundJob<'a>]
        ensures { result.now ≡ self.now.jobs }
    {
        self.jobs.as_slice()
    }

    /// Returns what is composed of each of the jobs, in their order. The costs are those of `RoundJob::compose` for each.
    pub fn compose(&self) -> Result<Vec<Option<Arc<Vec<u8>>>>, AllocError>
        ensures { IfOk result (λ bodies. map bytes_in bodies.items ≡ map composition self.now.jobs) }
    {
        compose_all(self.alloc, self.jobs.as_slice())
    }

    /// Adds up about how many tests of a member of a filter it takes to compose the jobs, at least 1 for each; more than
    /// 2^64-1 count as so many. O(n) for n members of the filters of all jobs, and each facet that is kept. No contract
    /// speaks of it.
    pub fn weight(&self) -> usize {
        let mut weight: usize = 0;
        for job in &self.jobs {
            weight = weight.saturating_add(job.weight());
        }
        weight
    }

    /// Finds what is to be kept of these bodies, which are composed of the jobs: the text of the last first reply among
    /// them that is long and isn't kept yet. An error says that memory was refused. O(n) for n jobs.
    pub fn first_text(
        &self,
        bodies: &[Option<Arc<Vec<u8>>>],
    ) -> Result<Option<FirstText>, AllocError>
        requires { map bytes_in bodies.now ≡ map composition self.now.jobs }
        ensures { IfOk result (λ first. IfSome first (λ f. (db : model_db.Db) → All (IsOfNow db) self.now.jobs → IsFirstText db f)) }
    {
        last_first(self.alloc, self.jobs.as_slice(), bodies)
    }

    /// Finishes the round, with a body for each job, in their order: what is composed of it. Each message shares the
    /// body of its job. O(n) for n sessions.
    pub fn finish(self, bodies: &[Option<Arc<Vec<u8>>>]) -> Result<PreparedRound, AllocError>
        requires { map bytes_in bodies.now ≡ map composition self.jobs }
        ensures { IfOk result (λ prepared. prepared ≡ self.entry.takings) }
    {
        let Jobs {
            alloc,
            told: _,
            jobs: _,
            askings: _,
            takings,
        } = self;
        let outs = Vec::with_capacity(alloc, takings.len())?;
        let takings = with_bodies(alloc, takings, bodies)?;
        Ok(PreparedRound { takings, outs })
    }
}

/// Returns the text of the last first reply among these that is to be kept.
fn last_first(
    alloc: Global,
    jobs: &[RoundJob<'_>],
    bodies: &[Option<Arc<Vec<u8>>>],
) -> Result<Option<FirstText>, AllocError>
    requires { map bytes_in bodies.now ≡ map composition jobs.now }
    ensures { IfOk result (λ first. IfSome first (λ f. (db : model_db.Db) → All (IsOfNow db) jobs.now → IsFirstText db f)) }
{
    let mut place = jobs.len();
    while place > 0 {
        let at = place - 1;
        let first = jobs[at].first_text(alloc, &bodies[at])?;
        if first.is_some() {
            return Ok(first);
        }
        place = at;
    }
    Ok(None)
}

/// Returns what is composed of each of these jobs, in their order.
fn compose_all(
    alloc: Global,
    jobs: &[RoundJob<'_>],
) -> Result<Vec<Option<Arc<Vec<u8>>>>, AllocError>
    ensures { IfOk result (λ bodies. map bytes_in bodies.items ≡ map composition jobs.now) }
{
    let mut bodies = Vec::with_capacity(alloc, jobs.len())?;
    for job in jobs {
        bodies.push_reserved(job.compose(alloc)?);
    }
    Ok(bodies)
}

/// A round that is composed, and takes no memory any more.
#[derive(Drop)]
pub struct PreparedRound {
    pub(crate) takings: Vec<Planned>,
    pub(crate) outs: Vec<Out>,
}

impl Model for PreparedRound {
    ghost use Rattle.std.specs.Prelude.{◌≡◌, ◌≤◌, List, [], length, map, vec_capacity};
    ghost use Rattle.odb_round.specs.Represented.Codes.{pendings_code};
    ghost use Rattle.odb_round.specs.Represented.Taking.{pending_of};
    ghost use Rattle.odb_round.specs.Taken.{Pending};

    ghost Value = { List Pending };

    ghost coded = { pendings_code };

    ghost view = { λ p. map pending_of p.takings.items };

    ghost invariant = { λ p. (p.outs.items ≡ []) × (length p.takings.items ≤ vec_capacity p.outs) };
}

// Written, and not derived, so that each end of a scope is one call to prove.
impl Drop for Jobs<'_> {
    fn drop(self) {
        let Jobs {
            alloc: _,
            told: _,
            jobs: _,
            askings: _,
            takings: _,
        } = self;
    }
}
