//! The compositions that a round needs: clients that are owed the same are told it by one of them. [P 10.1, 10.3]
ghost use Rattle.std.specs.Prelude.{◌≡◌, ◌≤◌, ◌++◌, ◌∷◌, [], IfOk, IfSome, List, OnErr, OnOk, Some, length, slice_get, take};
ghost use Rattle.std.specs.List.{All};
ghost use Rattle.odb_atoms.specs.Represented.Atom.{uuid_of};
ghost use Rattle.odb_monitor.specs.Job as model_job;
ghost use Rattle.odb_recent.specs.Recent.{commits_ago, number_of};
ghost use Rattle.odb_sessions.specs.Book.{revision_at};
ghost use Rattle.odb_sessions.specs.Composed.{asked_of, owed_job, resumed_job};
ghost use Rattle.odb_sessions.specs.FirstTexts.{AreFirstTexts, IsOfNow};
ghost use Rattle.odb_sessions.specs.Marked.{marks_in};
ghost use Rattle.odb_round.specs.Jobs.{AreEachOnce, IsFor, Keeps, if_sent};
ghost use Rattle.odb_round.specs.OfSchema.{AreOfSchema};
ghost use Rattle.odb_round.specs.Represented.Decided.{IsFoundIn, IsSame, Puts};
ghost use Rattle.odb_sessions.specs.Represented.Alike.{likeness_in};
ghost use Rattle.odb_sessions.specs.Represented.Digest as spec;
ghost use Rattle.odb_sessions.specs.Represented.Job.{job_in};
ghost use Rattle.odb_round.specs.Represented.Served.{IsAtPlace, IsServed};
ghost use Rattle.odb_sessions.specs.Tied.{AreLive};
ghost use Rattle.odb_sessions.specs.Watches.{AreAlike};
ghost use Rattle.odb_round.specs.Known.{IsKnownAs};
ghost use Rattle.odb_sessions.specs.declared.way.Way.TheVariants as way;

use crate::basis::Basis;
use crate::decided::{Decided, Decision};
use crate::job::RoundJob;
use crate::shared::{SharedJob, SharedJobs};
use odb_chain::Chains;
use odb_recent::Recent;
use odb_sessions::{FirstTexts, Monitor, WatchId, Way, digest_of};
use std::alloc::{AllocError, Global};
use std::marker::Model;
use uuid::Uuid;

/// What a job is composed for: the client of a monitor, and in which way.
#[derive(Drop)]
pub(crate) struct Asking<'a> {
    monitor: &'a Monitor,
    way: Way<'a>,
}

impl<'a> Model for Asking<'a> {
    ghost use Rattle.odb_sessions.specs.Alike as model;
    ghost use Rattle.odb_sessions.specs.Represented.Alike.{likeness_in};
    ghost use Rattle.odb_round.specs.Represented.Codes.{likeness_code};

    ghost Value = { model.Likeness };

    ghost coded = { likeness_code };

    ghost view = { λ a. likeness_in a.monitor.now a.way };
}

impl<'a> Asking<'a> {
    /// Decides that it is composed by the job at this place. O(1).
    fn decided_at(&self, place: usize) -> Decision<'a>
        ensures { result ≡ record { likeness = self.now; place = Some place } }
    {
        Decision::new(self.monitor, self.way, Some(place))
    }
}

/// Jobs, and what each is composed for.
#[derive(Drop)]
pub(crate) struct ListedJobs<'a> {
    pub(crate) jobs: Vec<RoundJob<'a>>,
    pub(crate) askings: Vec<Asking<'a>>,
}

impl<'a> ListedJobs<'a> {
    /// Lists no jobs. O(1).
    fn new(alloc: Global) -> ListedJobs<'a>
        ensures jobs { result.jobs.items ≡ [] }
        ensures askings { result.askings.items ≡ [] }
    {
        ListedJobs {
            jobs: Vec::new(alloc),
            askings: Vec::new(alloc),
        }
    }

    /// Adds a job, which is decided, with the digest of what it is composed for, and returns its place.
    fn add(
        &mut self,
        decided: &mut Decided<'a>,
        digest: u64,
        job: RoundJob<'a>,
        asking: Asking<'a>,
    ) -> Result<usize, AllocError>
        requires digest { digest ≡ spec.digest asking }
        ensures place { IfOk result (λ place. place ≡ length self.old.jobs.items) }
        ensures jobs { OnOk result (self.new.jobs.items ≡ self.old.jobs.items ++ job.entry ∷ []) }
        ensures askings { OnOk result (self.new.askings.items ≡ self.old.askings.items ++ asking.entry ∷ []) }
        ensures decided { OnOk result (Puts decided.old decided.new (record { likeness = asking.entry; place = Some (length self.old.jobs.items) })) }
        ensures kept { OnErr result (self.new.jobs.items ≡ self.old.jobs.items) }
        ensures known { OnErr result (self.new.askings.items ≡ self.old.askings.items) }
        ensures undecided { OnErr result (IsSame decided.old decided.new) }
    {
        let place = self.jobs.len();
        self.jobs.reserve(1)?;
        self.askings.reserve(1)?;
        decided.put(digest, asking.decided_at(place))?;
        self.jobs.push_reserved(job);
        self.askings.push_reserved(asking);
        Ok(place)
    }
}

/// The jobs that a round needs, in the database with its past and its last commits, with the texts of first replies that
/// are kept, and what was decided.
pub(crate) struct Wanted<'a> {
    alloc: Global,
    basis: Basis<'a>,
    chains: &'a Chains,
    recent: &'a Recent,
    firsts: &'a FirstTexts,
    listed: ListedJobs<'a>,
    decided: Decided<'a>,
    shared: SharedJobs<'a>,
}

impl<'a> Model for Wanted<'a> {
    ghost use Rattle.odb_round.specs.Jobs as model;
    ghost use Rattle.odb_round.specs.Represented.Codes.{wanted_code};
    ghost use Rattle.odb_round.specs.Represented.Decided.{AreDecisionsOf, AreShared, AreSharedPlaced, IsPlanned};

    ghost Value = { model.Wanted };

    ghost coded = { wanted_code };

    ghost view = { λ w. record { basis = w.basis; chains = w.chains.now; recent = w.recent.now; jobs = w.listed.jobs.items; likenesses = w.listed.askings.items } };

    ghost invariant = { λ w. IsPlanned w.chains.now w.recent.now.undos w.firsts.now w.listed.jobs.items w.listed.askings.items w.decided × AreDecisionsOf w.basis.schema w.decided × AreShared w.basis w.chains.now w.recent.now.undos w.listed.jobs.items w.shared × AreSharedPlaced w.listed.askings.items w.shared };
}

impl<'a> Wanted<'a> {
    /// Wants no job yet. O(1).
    pub(crate) fn new(
        alloc: Global,
        basis: Basis<'a>,
        chains: &'a Chains,
        recent: &'a Recent,
        firsts: &'a FirstTexts,
    ) -> Wanted<'a>
        requires firsts { AreFirstTexts chains.now.db firsts.now }
        requires alike { AreAlike basis.sessions }
        ensures { result ≡ record { basis = basis.entry; chains = chains.now; recent = recent.now; jobs = []; likenesses = [] } }
    {
        Wanted {
            alloc,
            basis,
            chains,
            recent,
            firsts,
            listed: ListedJobs::new(alloc),
            decided: Decided::new(alloc),
            shared: SharedJobs::new(alloc),
        }
    }

    pub(crate) fn alloc(&self) -> Global {
        self.alloc
    }

    /// Returns the database with its past.
    pub(crate) fn chains(&self) -> &'a Chains
        ensures { result.now ≡ self.now.chains }
    {
        self.chains
    }

    /// Returns the number of the newest commit. O(1).
    pub(crate) fn number(&self) -> Uuid
        ensures { uuid_of result ≡ number_of self.now.recent.run self.now.recent.commits }
    {
        self.recent.number()
    }

    /// Returns how many commits ago the one of this number was, if it is found. O(1).
    pub(crate) fn ago(&self, since: Uuid) -> Option<usize>
        ensures found { result ≡ commits_ago self.now.recent.most self.now.recent.run self.now.recent.commits (uuid_of since) }
        ensures kept { IfSome result (λ ago. ago ≤ length self.now.recent.undos) }
    {
        self.recent.find(since)
    }

    /// Returns the jobs, and what each is composed for.
    pub(crate) fn into_jobs(self) -> ListedJobs<'a>
        ensures jobs { result.jobs.items ≡ self.entry.jobs }
        ensures likenesses { result.askings.items ≡ self.entry.likenesses }
        ensures now { All (IsOfNow self.entry.chains.db) result.jobs.items }
        ensures once { AreEachOnce self.entry.chains (revision_at self.entry.chains self.entry.recent) result.jobs.items result.askings.items }
    {
        let Wanted {
            alloc: _,
            basis: _,
            chains: _,
            recent: _,
            firsts: _,
            listed,
            decided: _,
            shared: _,
        } = self;
        listed
    }

    /// Returns the place of the job for the client of a monitor, for the table updates that it is owed; `None` where
    /// nothing is sent. Where it is known by a number, and what was decided of one that asks the same serves again, the costs
    /// are those of `SharedJobs::find`; else those of `want` too.
    pub(crate) fn updates(
        &mut self,
        monitor: &'a Monitor,
        watch: Option<WatchId>,
    ) -> Result<Option<usize>, AllocError>
        requires live { AreLive self.old.chains (marks_in monitor.now) }
        requires of { AreOfSchema self.old.basis.schema (asked_of monitor.now.tables) }
        requires known { IsKnownAs self.old.basis.sessions watch monitor.now }
        ensures place { IfOk result (λ place. IsFor self.new.jobs (if_sent (owed_job self.old.chains.db monitor.now)) place) }
        ensures marks { IfOk result (λ place. IsServed self.old.likenesses self.new.likenesses (λ h. h ≡ monitor.now) place) }
        ensures jobs { Keeps self.old.jobs self.new.jobs }
        ensures chains { self.new.chains ≡ self.old.chains }
        ensures recent { self.new.recent ≡ self.old.recent }
        ensures basis { self.new.basis ≡ self.old.basis }
    {
        if let Some(place) = self.find_shared(monitor, watch) {
            return Ok(place);
        }
        let place = self.want(monitor, Way::Asked)?;
        self.share(monitor, watch, place);
        Ok(place)
    }

    /// Returns the place of the job for the client of a monitor, of what it lacks, if it is shared.
    fn find_shared(&self, monitor: &'a Monitor, watch: Option<WatchId>) -> Option<Option<usize>>
        requires live { AreLive self.now.chains (marks_in monitor.now) }
        requires known { IsKnownAs self.now.basis.sessions watch monitor.now }
        ensures place { IfSome result (λ place. IsFor self.now.jobs (if_sent (owed_job self.now.chains.db monitor.now)) place) }
        ensures marks { IfSome result (λ place. IsServed self.now.likenesses self.now.likenesses (λ h. h ≡ monitor.now) place) }
    {
        match watch {
            Some(watch) => self.shared.find(monitor, watch),
            None => None,
        }
    }

    /// Lets the client of a monitor that is known by a number share the job at this place, of what it lacks.
    fn share(&mut self, monitor: &'a Monitor, watch: Option<WatchId>, place: Option<usize>)
        requires live { AreLive self.old.chains (marks_in monitor.now) }
        requires known { IsKnownAs self.old.basis.sessions watch monitor.now }
        requires place { IsFor self.old.jobs (if_sent (owed_job self.old.chains.db monitor.now)) place }
        requires likeness { IsAtPlace self.old.likenesses (likeness_in monitor.now way.Asked) place }
        ensures { self.new ≡ self.old }
    {
        let Some(watch) = watch else {
            return;
        };
        self.shared.add(SharedJob::new(monitor, watch, place));
    }

    /// Returns the place of the job for the client of a monitor; `None` where nothing is sent. What was decided of what
    /// is alike serves again: the costs are those of `digest_of` and of `Decided::find`, and where that finds nothing those of
    /// `RoundJob::decide`.
    pub(crate) fn want(
        &mut self,
        monitor: &'a Monitor,
        way: Way<'a>,
    ) -> Result<Option<usize>, AllocError>
        requires live { AreLive self.old.chains (marks_in monitor.now) }
        requires of { AreOfSchema self.old.basis.schema (asked_of monitor.now.tables) }
        requires found { IsFoundIn self.old.recent way }
        ensures place { IfOk result (λ place. IsFor self.new.jobs (if_sent (job_in self.old.chains.db monitor.now way.entry)) place) }
        ensures likeness { IfOk result (λ place. IsAtPlace self.new.likenesses (likeness_in monitor.now way.entry) place) }
        ensures marks { IfOk result (λ place. IsServed self.old.likenesses self.new.likenesses (λ h. h ≡ monitor.now) place) }
        ensures jobs { Keeps self.old.jobs self.new.jobs }
        ensures chains { self.new.chains ≡ self.old.chains }
        ensures recent { self.new.recent ≡ self.old.recent }
        ensures basis { self.new.basis ≡ self.old.basis }
    {
        let digest = digest_of(monitor, way);
        if let Some(place) = self.decided.find(digest, monitor, way) {
            return Ok(place);
        }
        let mut job = self.job(monitor, way)?;
        let is_sent = job.decide(self.alloc)?;
        if !is_sent {
            self.decided.put(digest, Decision::new(monitor, way, None))?;
            return Ok(None);
        }
        let asking = Asking { monitor, way };
        let place = self.listed.add(&mut self.decided, digest, job, asking)?;
        Ok(Some(place))
    }

    /// Returns the job for the client of a monitor, that of a first reply with its text where that is kept.
    fn job(&self, monitor: &'a Monitor, way: Way<'a>) -> Result<RoundJob<'a>, AllocError>
        requires { AreLive self.now.chains (marks_in monitor.now) }
        ensures { IfOk result (λ job. job ≡ job_in self.now.chains.db monitor.now way.entry) }
    {
        if way.is_first() {
            let text = self.firsts.find(monitor);
            return RoundJob::first(self.alloc, self.chains, monitor, text);
        }
        RoundJob::new(self.alloc, self.chains, monitor, way)
    }

    /// Returns the place of the job for the client of a monitor: its first reply. The costs are those of `want`.
    pub(crate) fn first_reply(&mut self, monitor: &'a Monitor) -> Result<usize, AllocError>
        requires live { AreLive self.old.chains (marks_in monitor.now) }
        requires of { AreOfSchema self.old.basis.schema (asked_of monitor.now.tables) }
        ensures place { IfOk result (λ place. (all : List model_job.Job) → Keeps self.new.jobs all
            → slice_get all place ≡ Some (job_in self.old.chains.db monitor.now way.First)) }
        ensures marks { IfOk result (λ place. IsServed self.old.likenesses self.new.likenesses (λ h. h ≡ monitor.now) (Some place)) }
        ensures jobs { Keeps self.old.jobs self.new.jobs }
        ensures chains { self.new.chains ≡ self.old.chains }
        ensures recent { self.new.recent ≡ self.old.recent }
        ensures basis { self.new.basis ≡ self.old.basis }
    {
        let place = self.want(monitor, Way::First)?;
        let Some(place) = place else {
            unreachable!();
        };
        Ok(place)
    }

    /// Returns the place of the job for the client of a monitor: the reply to it, if it has what the monitor selected
    /// so many commits ago. The costs are those of `want`.
    pub(crate) fn resume(&mut self, monitor: &'a Monitor, ago: usize) -> Result<usize, AllocError>
        requires live { AreLive self.old.chains (marks_in monitor.now) }
        requires of { AreOfSchema self.old.basis.schema (asked_of monitor.now.tables) }
        requires kept { ago ≤ length self.old.recent.undos }
        ensures place { IfOk result (λ place. (all : List model_job.Job) → Keeps self.new.jobs all
            → slice_get all place ≡ Some (resumed_job (take ago self.old.recent.undos) self.old.chains.db monitor.now.notation (asked_of monitor.now.tables))) }
        ensures marks { IfOk result (λ place. IsServed self.old.likenesses self.new.likenesses (λ h. h ≡ monitor.now) (Some place)) }
        ensures jobs { Keeps self.old.jobs self.new.jobs }
        ensures chains { self.new.chains ≡ self.old.chains }
        ensures recent { self.new.recent ≡ self.old.recent }
        ensures basis { self.new.basis ≡ self.old.basis }
    {
        let recent = self.recent;
        let place = self.want(monitor, Way::Since(recent, ago))?;
        let Some(place) = place else {
            unreachable!();
        };
        Ok(place)
    }
}

// Written, and not derived, so that each end of a scope is one call to prove.
impl Drop for Wanted<'_> {
    fn drop(self) {
        let Wanted {
            alloc: _,
            basis: _,
            chains: _,
            recent: _,
            firsts: _,
            listed: _,
            decided: _,
            shared: _,
        } = self;
    }
}
