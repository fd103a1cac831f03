//! What a plan foresees of a session's monitors. It changes nothing of them. [P 10.1]
ghost use Rattle.std.specs.Prelude.{◌≡◌, [], IfOk, OnOk, Some, flat_map, map, option_map, position};
ghost use Rattle.odb_schema.specs.Schema.{Schema};
ghost use Rattle.odb_service.specs.Server.{served_by};
ghost use Rattle.odb_service.specs.Service.{Service};
ghost use Rattle.odb_service.specs.Session.{leaves, refilter};
ghost use Rattle.odb_sessions.specs.Asked.{is_same};
ghost use Rattle.std.specs.List.{All, AllByRecursion};
ghost use Rattle.odb_sessions.specs.FirstTexts.{AreFirstTexts, IsOfNow};
ghost use Rattle.odb_sessions.specs.Composed.{asked_of};
ghost use Rattle.odb_round.specs.Foreseen.{AreAheadOf, as_told, marked_ahead, marks_ahead, seen_ahead};
ghost use Rattle.odb_sessions.specs.Marked.{marks_in, monitor_of, watch_of};
ghost use Rattle.odb_round.specs.OfSchema.{AreOfSchema, IsMonitorOf};
ghost use Rattle.odb_round.specs.Planned.{due, plan_monitors};
ghost use Rattle.odb_round.specs.Jobs.{AreEachOnce, Keeps};
ghost use Rattle.odb_round.specs.Represented.Sending.{Tells};
ghost use Rattle.odb_round.specs.Represented.Served.{IsServed, place_told};
ghost use Rattle.odb_sessions.specs.Represented.Under.{filters_in, item_in};
ghost use Rattle.odb_round.specs.Sending.{due_sending, update_sending};
ghost use Rattle.odb_sessions.specs.Tied.{AreLive};
ghost use Rattle.odb_round.specs.ByMarks.{IsDueTo};
ghost use Rattle.odb_sessions.specs.Watches.{AreAlike};
ghost use Rattle.odb_round.specs.Known.{AreKnownAs, IsKnownAs};
ghost use Rattle.odb_sessions.specs.Book.{revision_at};

use crate::basis::Basis;
use crate::planning::{update, update_again};
use crate::wanted::{ListedJobs, Wanted};
use odb_chain::Chains;
use odb_recent::Recent;
use odb_sessions::{Envelope, FirstTexts, Id, Monitor, Under, WatchId};
use std::alloc::{AllocError, Global};
use std::marker::Model;

/// A monitor as a plan foresees it: its client has what it was told, or what its tables are now under these
/// filters.
#[derive(Drop)]
pub(crate) struct Ahead<'a> {
    monitor: &'a Monitor,
    told: Option<Under<'a>>,
}

impl<'a> Model for Ahead<'a> {
    ghost use Rattle.std.specs.Prelude.{option_map};
    ghost use Rattle.odb_round.specs.Foreseen as model;
    ghost use Rattle.odb_round.specs.Represented.Codes.{ahead_code};
    ghost use Rattle.odb_sessions.specs.Represented.Under.{filters_in};

    ghost Value = { model.Ahead };

    ghost coded = { ahead_code };

    ghost view = { λ a. record { marked = a.monitor.now; told = option_map filters_in a.told } };
}

impl<'a> Ahead<'a> {
    /// Foresees nothing of it.
    fn new(monitor: &'a Monitor) -> Ahead<'a>
        ensures { result ≡ as_told monitor.now }
    {
        Ahead {
            monitor,
            told: None,
        }
    }

    /// Returns the update that its client is owed under these filters; `None` where it is owed nothing. The costs are
    /// those of `planning::update`.
    fn update(
        &self,
        wanted: &mut Wanted<'a>,
        under: Under<'a>,
        watch: Option<WatchId>,
    ) -> Result<Option<Envelope>, AllocError>
        requires live { AreLive wanted.old.chains (marks_in self.now.marked) }
        requires of { AreOfSchema wanted.old.basis.schema (asked_of self.now.marked.tables) }
        requires known { IsKnownAs wanted.old.basis.sessions watch self.now.marked }
        ensures text { IfOk result (λ message. (h : Service) → Tells wanted.new.jobs message
            (update_sending h (revision_at wanted.old.chains wanted.old.recent) (refilter (filters_in under.entry) (watch_of self.now.marked).requests) (seen_ahead wanted.old.chains.db self.now))) }
        ensures marks { IfOk result (λ message. IsServed wanted.old.likenesses wanted.new.likenesses (λ h. h ≡ self.now.marked) (place_told message)) }
        ensures jobs { Keeps wanted.old.jobs wanted.new.jobs }
        ensures chains { wanted.new.chains ≡ wanted.old.chains }
        ensures recent { wanted.new.recent ≡ wanted.old.recent }
        ensures basis { wanted.new.basis ≡ wanted.old.basis }
    {
        let monitor = self.monitor;
        match self.told {
            None => update(monitor, wanted, under, watch),
            Some(told) => update_again(monitor, wanted, told, under),
        }
    }

    /// Returns it, where its client has what its tables are now under these filters.
    fn brought(&self, under: Under<'a>) -> Ahead<'a>
        ensures { result ≡ record { marked = self.now.marked; told = Some (filters_in under.entry) } }
    {
        Ahead {
            monitor: self.monitor,
            told: Some(under),
        }
    }

    /// Returns whether the monitor has this id.
    fn is_of(&self, id: &Id) -> bool
        ensures { result ≡ is_same id.now self.now.marked.id }
    {
        let monitor = self.monitor;
        monitor.has_id(id)
    }
}

/// Returns these monitors, of which nothing is foreseen.
fn all_ahead<'a>(alloc: Global, monitors: &'a [Monitor]) -> Result<Vec<Ahead<'a>>, AllocError>
    ensures { IfOk result (λ ahead. ahead.items ≡ map as_told monitors.now) }
{
    let mut ahead = Vec::with_capacity(alloc, monitors.len())?;
    for monitor in monitors {
        ahead.push_reserved(Ahead::new(monitor));
    }
    Ok(ahead)
}

fn place_of(monitors: &[Ahead<'_>], id: &Id) -> Option<usize>
    ensures { result ≡ position (λ a. is_same id.now a.marked.id) monitors.now }
{
    monitors.iter().position(|known| known.is_of(id))
}

/// Returns the first of these that has the id, once it is brought to now under these filters, and what its client is
/// sent.
fn pass<'a>(
    wanted: &mut Wanted<'a>,
    monitors: &mut Vec<Ahead<'a>>,
    id: &Id,
    under: Under<'a>,
) -> Result<Option<Envelope>, AllocError>
    requires live { AreLive wanted.old.chains (marks_ahead monitors.old.items) }
    requires of { AreAheadOf wanted.old.basis.schema monitors.old.items }
    ensures text { IfOk result (λ message. (s : Schema) → Tells wanted.new.jobs message
        (option_map (due_sending (served_by s) (revision_at wanted.old.chains wanted.old.recent)) (due (served_by s) wanted.old.chains.db (item_in id.now under.entry) (map (seen_ahead wanted.old.chains.db) monitors.old.items)))) }
    ensures marks { IfOk result (λ message. (s : Schema) → IsServed wanted.old.likenesses wanted.new.likenesses
        (IsDueTo (due (served_by s) wanted.old.chains.db (item_in id.now under.entry) (map (seen_ahead wanted.old.chains.db) monitors.old.items)) (marked_ahead monitors.old.items)) (place_told message)) }
    ensures passed { OnOk result ((s : Schema) → map (seen_ahead wanted.old.chains.db) monitors.new.items
        ≡ leaves (served_by s) wanted.old.chains.db (item_in id.now under.entry) (map (seen_ahead wanted.old.chains.db) monitors.old.items)) }
    ensures jobs { Keeps wanted.old.jobs wanted.new.jobs }
    ensures chains { wanted.new.chains ≡ wanted.old.chains }
    ensures recent { wanted.new.recent ≡ wanted.old.recent }
    ensures basis { wanted.new.basis ≡ wanted.old.basis }
    ensures live { AreLive wanted.old.chains (marks_ahead monitors.new.items) }
    ensures of { AreAheadOf wanted.old.basis.schema monitors.new.items }
    ensures marked { marked_ahead monitors.new.items ≡ marked_ahead monitors.old.items }
{
    let Some(place) = place_of(monitors.as_slice(), id) else {
        return Ok(None);
    };
    let message = monitors[place].update(wanted, under, None)?;
    monitors[place] = monitors[place].brought(under);
    Ok(message)
}

/// What monitors have due once a session's queue is empty: how many are brought to now, and then what the client
/// of the last of them is sent.
#[derive(Drop)]
pub(crate) struct DueMonitors {
    pub(crate) monitors: usize,
    pub(crate) message: Option<Envelope>,
}

/// Returns the number with the place, if there is one.
fn watch_at(watch: Option<u64>, place: usize) -> Option<WatchId>
    ensures { result ≡ option_map (λ n. (n, place)) watch }
{
    match watch {
        Some(number) => Some((number, place)),
        None => None,
    }
}

/// Returns what these monitors have due, which are those of a session that has the number, if there is one. The costs are
/// those of `Ahead::update` for each monitor up to the first that is owed something.
fn due_of<'a>(
    wanted: &mut Wanted<'a>,
    monitors: &[Ahead<'a>],
    watch: Option<u64>,
) -> Result<DueMonitors, AllocError>
    requires live { AreLive wanted.old.chains (marks_ahead monitors.now) }
    requires of { AreAheadOf wanted.old.basis.schema monitors.now }
    requires known { AreKnownAs wanted.old.basis.sessions watch (marked_ahead monitors.now) }
    ensures monitors { IfOk result (λ found. (h : Service)
        → found.monitors ≡ (plan_monitors h wanted.old.chains.db (map (seen_ahead wanted.old.chains.db) monitors.now)).monitors) }
    ensures text { IfOk result (λ found. (h : Service) → Tells wanted.new.jobs found.message
        (option_map (due_sending h (revision_at wanted.old.chains wanted.old.recent)) (plan_monitors h wanted.old.chains.db (map (seen_ahead wanted.old.chains.db) monitors.now)).out)) }
    ensures marks { IfOk result (λ found. (h : Service) → IsServed wanted.old.likenesses wanted.new.likenesses
        (IsDueTo (plan_monitors h wanted.old.chains.db (map (seen_ahead wanted.old.chains.db) monitors.now)).out (marked_ahead monitors.now)) (place_told found.message)) }
    ensures jobs { Keeps wanted.old.jobs wanted.new.jobs }
    ensures chains { wanted.new.chains ≡ wanted.old.chains }
    ensures recent { wanted.new.recent ≡ wanted.old.recent }
    ensures basis { wanted.new.basis ≡ wanted.old.basis }
{
    for place in 0..monitors.len() {
        let message = monitors[place].update(wanted, Under::Asked, watch_at(watch, place))?;
        if message.is_some() {
            return Ok(DueMonitors {
                monitors: place + 1,
                message,
            });
        }
    }
    Ok(DueMonitors {
        monitors: monitors.len(),
        message: None,
    })
}

/// The database with its past and its last commits, the jobs so far, and what a plan foresees of a session's monitors, with
/// the number of what these ask, if it has one.
pub(crate) struct Planner<'a> {
    pub(crate) wanted: Wanted<'a>,
    monitors: Vec<Ahead<'a>>,
    watch: Option<u64>,
}

impl<'a> Model for Planner<'a> {
    ghost use Rattle.std.specs.Prelude.{map};
    ghost use Rattle.odb_round.specs.Foreseen as model;
    ghost use Rattle.odb_round.specs.Foreseen.{AreAheadOf, marked_ahead, marks_ahead, seen_ahead};
    ghost use Rattle.odb_round.specs.Represented.Codes.{foreseen_code};
    ghost use Rattle.odb_sessions.specs.Tied.{AreLive};
    ghost use Rattle.odb_round.specs.Known.{AreKnownAs};

    ghost Value = { model.Foreseen };

    ghost coded = { foreseen_code };

    ghost view = { λ p. record { basis = p.wanted.basis; chains = p.wanted.chains; recent = p.wanted.recent; jobs = p.wanted.jobs; likenesses = p.wanted.likenesses; marked = marked_ahead p.monitors.items; monitors = map (seen_ahead p.wanted.chains.db) p.monitors.items } };

    ghost invariant = { λ p. AreLive p.wanted.chains (marks_ahead p.monitors.items) × AreAheadOf p.wanted.basis.schema p.monitors.items × AreKnownAs p.wanted.basis.sessions p.watch (marked_ahead p.monitors.items) };
}

impl<'a> Planner<'a> {
    /// Makes a planner of no jobs and no monitors. O(1).
    pub(crate) fn new(
        alloc: Global,
        basis: Basis<'a>,
        chains: &'a Chains,
        recent: &'a Recent,
        firsts: &'a FirstTexts,
    ) -> Planner<'a>
        requires firsts { AreFirstTexts chains.now.db firsts.now }
        requires alike { AreAlike basis.sessions }
        ensures { result ≡ record { basis = basis.entry; chains = chains.now; recent = recent.now; jobs = []; likenesses = []; marked = []; monitors = [] } }
    {
        Planner {
            wanted: Wanted::new(alloc, basis, chains, recent, firsts),
            monitors: Vec::new(alloc),
            watch: None,
        }
    }

    /// Takes these monitors in the place of those that it had, with nothing foreseen of them: they are those of a session
    /// that has the number, if there is one. O(n) for n monitors.
    pub(crate) fn turn_to(
        &mut self,
        monitors: &'a [Monitor],
        watch: Option<u64>,
    ) -> Result<(), AllocError>
        requires live { AreLive self.old.chains (flat_map marks_in monitors.now) }
        requires of { AllByRecursion (IsMonitorOf self.old.basis.schema) (map monitor_of monitors.now) }
        requires known { AreKnownAs self.old.basis.sessions watch monitors.now }
        ensures monitors { OnOk result (self.new.monitors ≡ map monitor_of monitors.now) }
        ensures marked { OnOk result (self.new.marked ≡ monitors.now) }
        ensures likenesses { self.new.likenesses ≡ self.old.likenesses }
        ensures jobs { self.new.jobs ≡ self.old.jobs }
        ensures chains { self.new.chains ≡ self.old.chains }
        ensures recent { self.new.recent ≡ self.old.recent }
        ensures basis { self.new.basis ≡ self.old.basis }
    {
        let ahead = all_ahead(self.wanted.alloc(), monitors)?;
        self.monitors = ahead;
        self.watch = watch;
        Ok(())
    }

    /// Returns what the client of the monitor with this id is sent to be brought to now under these filters; `None`
    /// where that is nothing. From then on it is foreseen so. The costs are those of `planning::update`.
    pub(crate) fn pass(&mut self, id: &Id, under: Under<'a>) -> Result<Option<Envelope>, AllocError>
        ensures text { IfOk result (λ message. (s : Schema) → Tells self.new.jobs message
            (option_map (due_sending (served_by s) (revision_at self.old.chains self.old.recent)) (due (served_by s) self.old.chains.db (item_in id.now under.entry) self.old.monitors))) }
        ensures marks { IfOk result (λ message. (s : Schema) → IsServed self.old.likenesses self.new.likenesses
            (IsDueTo (due (served_by s) self.old.chains.db (item_in id.now under.entry) self.old.monitors) self.old.marked) (place_told message)) }
        ensures marked { self.new.marked ≡ self.old.marked }
        ensures passed { OnOk result ((s : Schema) → self.new.monitors
            ≡ leaves (served_by s) self.old.chains.db (item_in id.now under.entry) self.old.monitors) }
        ensures jobs { Keeps self.old.jobs self.new.jobs }
        ensures chains { self.new.chains ≡ self.old.chains }
        ensures recent { self.new.recent ≡ self.old.recent }
        ensures basis { self.new.basis ≡ self.old.basis }
    {
        pass(&mut self.wanted, &mut self.monitors, id, under)
    }

    /// Returns what its monitors have due once the queue is empty. The costs are those of `planning::update` for each
    /// monitor up to the first that is owed something.
    pub(crate) fn due(&mut self) -> Result<DueMonitors, AllocError>
        ensures monitors { IfOk result (λ found. (h : Service)
            → found.monitors ≡ (plan_monitors h self.old.chains.db self.old.monitors).monitors) }
        ensures text { IfOk result (λ found. (h : Service) → Tells self.new.jobs found.message
            (option_map (due_sending h (revision_at self.old.chains self.old.recent)) (plan_monitors h self.old.chains.db self.old.monitors).out)) }
        ensures marks { IfOk result (λ found. (h : Service) → IsServed self.old.likenesses self.new.likenesses
            (IsDueTo (plan_monitors h self.old.chains.db self.old.monitors).out self.old.marked) (place_told found.message)) }
        ensures marked { self.new.marked ≡ self.old.marked }
        ensures jobs { Keeps self.old.jobs self.new.jobs }
        ensures chains { self.new.chains ≡ self.old.chains }
        ensures recent { self.new.recent ≡ self.old.recent }
        ensures basis { self.new.basis ≡ self.old.basis }
    {
        due_of(&mut self.wanted, self.monitors.as_slice(), self.watch)
    }

    /// Returns the jobs, and what each is composed for.
    pub(crate) fn into_jobs(self) -> ListedJobs<'a>
        ensures jobs { result.jobs.items ≡ self.entry.jobs }
        ensures likenesses { result.askings.items ≡ self.entry.likenesses }
        ensures now { All (IsOfNow self.entry.chains.db) result.jobs.items }
        ensures once { AreEachOnce self.entry.chains (revision_at self.entry.chains self.entry.recent) result.jobs.items result.askings.items }
    {
        let Planner {
            wanted,
            monitors: _,
            watch: _,
        } = self;
        wanted.into_jobs()
    }
}

// Written, and not derived, so that each end of a scope is one call to prove.
impl Drop for Planner<'_> {
    fn drop(self) {
        let Planner {
            wanted: _,
            monitors: _,
            watch: _,
        } = self;
    }
}
