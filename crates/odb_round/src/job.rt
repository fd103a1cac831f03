//! Jobs: what is to be composed for the client of a monitor. [P 9.2, 9.3, 9.5, 9.8]
ghost use Rattle.std.specs.Prelude.{◌≡◌, IfOk, IfSome, Some, is_some, option_map};
ghost use Rattle.odb_monitor.specs.Job.{updates_of};
ghost use Rattle.odb_sessions.specs.Composed.{composition};
ghost use Rattle.odb_sessions.specs.FirstTexts.{IsFirstText, IsOfNow};
ghost use Rattle.odb_sessions.specs.Marked.{marks_in};
ghost use Rattle.odb_sessions.specs.Represented.Composed.{bytes_in, bytes_of};
ghost use Rattle.odb_sessions.specs.Represented.Job.{asked_by, filters_by, job_in};
ghost use Rattle.odb_sessions.specs.Tied.{AreLive};
ghost use Rattle.odb_sessions.specs.declared.way.Way.TheVariants as way;
ghost use Rattle.odb_tables.specs.Database as model_db;

use odb_chain::Chains;
use odb_monitor::compose;
use odb_request::Request;
use odb_sessions::{FirstText, Monitor, Way, requests_of};
use std::alloc::{AllocError, Global};
use std::marker::Model;
use std::sync::Arc;

/// From how many bytes on the text of a first reply is kept: a shorter one is composed as fast as it is found.
const LEAST_KEPT: usize = 4096;

/// Up to how many tests of a member of a filter what is told under other filters is composed as soon as it is planned: what is
/// heavier may be shared out over several threads later.
const MOST_AT_ONCE: usize = 4096;

/// Up to how many rows that changed what a client lacks under the filters that it asks is composed as soon as it is planned.
const FEW_ROWS: usize = 16;

/// What is to be composed for the client of a monitor, with its text where that is known, and with the differences that it is
/// composed of where they lend nothing of it. Contracts see the job of `odb_monitor` that it is.
#[derive(Drop)]
pub struct RoundJob<'a> {
    chains: &'a Chains,
    monitor: &'a Monitor,
    way: Way<'a>,
    requests: Vec<Request>,
    lacks: Option<odb_monitor::Job<'a>>,
    text: Option<Arc<Vec<u8>>>,
}

impl<'a> Model for RoundJob<'a> {
    ghost use Rattle.std.specs.Prelude.{◌≡◌, IfSome, Some};
    ghost use Rattle.odb_monitor.specs.Job as model;
    ghost use Rattle.odb_monitor.specs.Job.{updates_of};
    ghost use Rattle.odb_monitor.specs.Represented.Part.{job_code};
    ghost use Rattle.odb_sessions.specs.Marked.{marks_in};
    ghost use Rattle.odb_sessions.specs.Composed.{composition};
    ghost use Rattle.odb_sessions.specs.Represented.Composed.{bytes_of};
    ghost use Rattle.odb_sessions.specs.Represented.Job.{asked_by, filters_by, job_in};
    ghost use Rattle.odb_sessions.specs.Tied.{AreLive};

    ghost Value = { model.Job };

    ghost coded = { job_code };

    ghost view = { λ j. job_in j.chains.now.db j.monitor.now j.way };

    ghost invariant = { λ j. AreLive j.chains.now (marks_in j.monitor.now) × (j.requests.items ≡ asked_by j.monitor.now.tables (filters_by j.way)) × IfSome j.text (λ t. Some (bytes_of t) ≡ composition (job_in j.chains.now.db j.monitor.now j.way)) × IfSome j.lacks (λ k. updates_of k ≡ updates_of (job_in j.chains.now.db j.monitor.now j.way)) };
}

impl<'a> RoundJob<'a> {
    /// Makes the job of what is composed for the client of this monitor in this way. O(1), but under other filters what these
    /// are looked up in, and of what the client lacks under those that it asks what `Monitor::lacking_job` costs.
    pub(crate) fn new(
        alloc: Global,
        chains: &'a Chains,
        monitor: &'a Monitor,
        way: Way<'a>,
    ) -> Result<RoundJob<'a>, AllocError>
        requires { AreLive chains.now (marks_in monitor.now) }
        ensures { IfOk result (λ job. job ≡ job_in chains.now.db monitor.now way.entry) }
    {
        let requests = requests_of(alloc, monitor, way)?;
        let lacks = lacking(alloc, chains, monitor, way)?;
        Ok(RoundJob {
            chains,
            monitor,
            way,
            requests,
            lacks,
            text: None,
        })
    }

    /// Makes that of the first reply of this monitor, with its text where that is kept. O(1).
    pub(crate) fn first(
        alloc: Global,
        chains: &'a Chains,
        monitor: &'a Monitor,
        text: Option<&Arc<Vec<u8>>>,
    ) -> Result<RoundJob<'a>, AllocError>
        requires live { AreLive chains.now (marks_in monitor.now) }
        requires text { IfSome text (λ t. Some (bytes_of t.now) ≡ composition (job_in chains.now.db monitor.now way.First)) }
        ensures { IfOk result (λ job. job ≡ job_in chains.now.db monitor.now way.First) }
    {
        let text = shared(text)?;
        Ok(RoundJob {
            chains,
            monitor,
            way: Way::First,
            requests: Vec::new(alloc),
            lacks: None,
            text,
        })
    }

    /// Tells whether something is sent, and composes at once what is light, which is so compared once. The costs are then those of
    /// `weight` and `compose`, else those of `has_updates`.
    pub(crate) fn decide(&mut self, alloc: Global) -> Result<bool, AllocError>
        ensures job { self.new ≡ self.old }
        ensures sent { IfOk result (λ has. has ≡ is_some (updates_of self.old)) }
    {
        if !self.is_composed_at_once() {
            return self.has_updates(alloc);
        }
        let text = self.compose(alloc)?;
        let is_sent = text.is_some();
        self.text = text;
        Ok(is_sent)
    }

    /// Returns whether it is light, and no reply. The costs are those of `weight`. No contract speaks of it.
    fn is_composed_at_once(&self) -> bool {
        match self.way {
            Way::First => false,
            Way::Asked => self.lacks_few(),
            Way::Changed(_) => self.weight() <= MOST_AT_ONCE,
            Way::Again(_, _) => self.weight() <= MOST_AT_ONCE,
            Way::Since(_, _) => false,
        }
    }

    /// Returns whether few rows changed since its client was told. O(n) for n tables. No contract speaks of it.
    fn lacks_few(&self) -> bool {
        match &self.lacks {
            Some(job) => job.changed_rows() <= FEW_ROWS,
            None => false,
        }
    }

    /// Returns whether something is sent: a reply always is. The costs are those of `odb_monitor::Job::has_updates`, and under
    /// other filters those of `differences`.
    fn has_updates(&self, alloc: Global) -> Result<bool, AllocError>
        ensures { IfOk result (λ has. has ≡ is_some (updates_of self.now)) }
    {
        if self.way.is_reply() {
            return Ok(true);
        }
        if let Some(job) = &self.lacks {
            return job.has_updates(alloc);
        }
        let job = self.differences(alloc)?;
        job.has_updates(alloc)
    }

    /// Composes the text of the table updates, without the monitor's id; `None` where nothing is sent. One that is known
    /// is shared; else the costs are those of `odb_monitor::compose`, and but for what a client lacks under the filters that it
    /// asks those of `differences`.
    pub fn compose(&self, alloc: Global) -> Result<Option<Arc<Vec<u8>>>, AllocError>
        ensures { IfOk result (λ body. bytes_in body ≡ composition self.now) }
    {
        if let Some(text) = &self.text {
            return Ok(Some(text.clone()?));
        }
        if let Some(job) = &self.lacks {
            return compose_over(alloc, job);
        }
        let job = self.differences(alloc)?;
        compose_over(alloc, &job)
    }

    /// Says about how many tests of a member of a filter it takes to compose it, at least 1. O(members of the filters), for
    /// each facet that is kept. No contract speaks of it.
    pub fn weight(&self) -> usize {
        if self.text.is_some() {
            return 1;
        }
        let monitor = self.monitor;
        monitor.weight(self.chains, self.way, self.requests.as_slice())
    }

    /// Returns what is to be kept of it, of which this was composed: where it is that of a first reply, a long text
    /// that isn't kept. O(n) for n tables.
    pub(crate) fn first_text(
        &self,
        alloc: Global,
        body: &Option<Arc<Vec<u8>>>,
    ) -> Result<Option<FirstText>, AllocError>
        requires { bytes_in body.now ≡ composition self.now }
        ensures { IfOk result (λ first. IfSome first (λ f. (db : model_db.Db) → IsOfNow db self.now → IsFirstText db f)) }
    {
        if self.text.is_some() {
            return Ok(None);
        }
        let Some(text) = body else {
            return Ok(None);
        };
        if text.len() < LEAST_KEPT {
            return Ok(None);
        }
        self.told_first(alloc, text)
    }

    /// Returns the text, where it is that of a first reply.
    fn told_first(
        &self,
        alloc: Global,
        text: &Arc<Vec<u8>>,
    ) -> Result<Option<FirstText>, AllocError>
        requires { Some (bytes_of text.now) ≡ composition self.now }
        ensures { IfOk result (λ first. IfSome first (λ f. (db : model_db.Db) → IsOfNow db self.now → IsFirstText db f)) }
    {
        match self.way {
            Way::First => {
                let first = FirstText::new(alloc, self.monitor, text)?;
                Ok(Some(first))
            }
            Way::Asked => Ok(None),
            Way::Changed(_) => Ok(None),
            Way::Again(_, _) => Ok(None),
            Way::Since(_, _) => Ok(None),
        }
    }

    /// Returns the job, with the tables as they are now and how they changed. It costs what `odb_chain::Chains::since` does,
    /// for each table.
    pub fn differences(&self, alloc: Global) -> Result<odb_monitor::Job<'_>, AllocError>
        ensures { IfOk result (λ job. job ≡ self.now) }
    {
        let chains = self.chains;
        let monitor = self.monitor;
        let requests = self.requests.as_slice();
        match self.way {
            Way::First => monitor.own_job(alloc, chains, true),
            Way::Asked => monitor.own_job(alloc, chains, false),
            Way::Changed(_) => monitor.changed_job(alloc, chains, requests),
            Way::Again(told, _) => monitor.again_job(alloc, chains, told, requests),
            Way::Since(recent, ago) => monitor.resumed_job(alloc, chains, recent, ago),
        }
    }
}

/// Shares the text, where there is one. O(1).
fn shared(text: Option<&Arc<Vec<u8>>>) -> Result<Option<Arc<Vec<u8>>>, AllocError>
    ensures { IfOk result (λ own. bytes_in own ≡ option_map (λ t. bytes_of t.now) text.entry) }
{
    let Some(text) = text else {
        return Ok(None);
    };
    Ok(Some(text.clone()?))
}

/// Returns a job by which as much is sent as by that of what the client lacks, where that is under the filters that it asks: it is
/// compared to tell whether something is sent, and then composed. The costs are those of `Monitor::lacking_job`.
fn lacking<'a>(
    alloc: Global,
    chains: &'a Chains,
    monitor: &'a Monitor,
    way: Way<'a>,
) -> Result<Option<odb_monitor::Job<'a>>, AllocError>
    requires { AreLive chains.now (marks_in monitor.now) }
    ensures { IfOk result (λ lacks. IfSome lacks (λ job. updates_of job ≡ updates_of (job_in chains.now.db monitor.now way.entry))) }
{
    match way {
        Way::First => Ok(None),
        Way::Asked => {
            let job = monitor.lacking_job(alloc, chains)?;
            Ok(Some(job))
        }
        Way::Changed(_) => Ok(None),
        Way::Again(_, _) => Ok(None),
        Way::Since(_, _) => Ok(None),
    }
}

/// Composes the text of the table updates of this job, without the monitor's id; `None` where nothing is sent. The costs
/// are those of `odb_monitor::compose`.
pub fn compose_over(
    alloc: Global,
    job: &odb_monitor::Job<'_>,
) -> Result<Option<Arc<Vec<u8>>>, AllocError>
    ensures { IfOk result (λ body. bytes_in body ≡ composition job.now) }
{
    let Some(text) = compose(alloc, job)? else {
        return Ok(None);
    };
    Ok(Some(Arc::new(alloc, text)?))
}
