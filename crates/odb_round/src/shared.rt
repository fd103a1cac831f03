//! Jobs that clients share whose monitors are known to ask the same: they are found by numbers. [P 10.1, 10.3]
ghost use Rattle.std.specs.Prelude.{◌≡◌, [], true, IfSome, List, Some};
ghost use Rattle.std.specs.List.{All};
ghost use Rattle.odb_chain.specs.Chains.{Chains};
ghost use Rattle.odb_monitor.specs.Job.{Job};
ghost use Rattle.odb_recent.specs.Undo.{Undo};
ghost use Rattle.odb_sessions.specs.Alike.{Likeness};
ghost use Rattle.odb_sessions.specs.Marked as marked;
ghost use Rattle.odb_sessions.specs.Represented.Alike.{likeness_in};
ghost use Rattle.odb_round.specs.Represented.Decided.{ArePlacesOf, AreSharedPlaced, IsPlaceOf, IsSharedIn};
ghost use Rattle.odb_round.specs.Represented.Served.{IsAtPlace};
ghost use Rattle.odb_sessions.specs.Watches.{AreAlike};
ghost use Rattle.odb_round.specs.Known.{IsKnownAs};
ghost use Rattle.odb_sessions.specs.declared.way.Way.TheVariants as way;

use odb_sessions::{Monitor, WatchId};
use std::alloc::Global;
use std::marker::Model;

/// How many are kept at most.
const MOST_KEPT: usize = 64;

/// The client of a monitor that is known by a number, and the place of the job of what it lacks; `None` where nothing is
/// sent.
#[derive(Drop)]
pub(crate) struct SharedJob<'a> {
    monitor: &'a Monitor,
    watch: WatchId,
    place: Option<usize>,
}

impl<'a> Model for SharedJob<'a> {
    ghost use Rattle.odb_round.specs.Jobs as model;
    ghost use Rattle.odb_sessions.specs.Represented.Alike.{likeness_in};
    ghost use Rattle.odb_round.specs.Represented.Codes.{shared_code};
    ghost use Rattle.odb_sessions.specs.declared.way.Way.TheVariants as way;

    ghost Value = { model.Shared };

    ghost coded = { shared_code };

    ghost view = { λ s. record { watch = s.watch; likeness = likeness_in s.monitor.now way.Asked; place = s.place } };
}

impl<'a> SharedJob<'a> {
    /// Has the job at this place for the client of the monitor that is known so. O(1).
    pub(crate) fn new(monitor: &'a Monitor, watch: WatchId, place: Option<usize>) -> SharedJob<'a>
        ensures { result ≡ record { watch = watch; likeness = likeness_in monitor.now way.Asked; place = place } }
    {
        SharedJob {
            monitor,
            watch,
            place,
        }
    }

    /// Returns whether the client of the monitor that is known so lacks the same. `false` says nothing. O(1) where they are
    /// known by different numbers, and else O(n) for n tables.
    fn serves(&self, monitor: &Monitor, watch: WatchId) -> bool
        ensures { result ≡ true → (m : marked.Sessions) → AreAlike m → IsSharedIn m self.now → IsKnownAs m (Some watch) monitor.now
            → self.now.likeness ≡ likeness_in monitor.now way.Asked }
    {
        let own = self.monitor;
        same_watch(self.watch, watch) && own.stands_as(monitor)
    }
}

/// Returns whether it is the same number and the same place.
fn same_watch(watch: WatchId, other: WatchId) -> bool
    ensures { result ≡ true → watch ≡ other }
{
    watch.0 == other.0 && watch.1 == other.1
}

/// Jobs that were planned for clients of monitors that are known by numbers.
#[derive(Drop)]
pub(crate) struct SharedJobs<'a> {
    jobs: Vec<SharedJob<'a>>,
}

impl<'a> Model for SharedJobs<'a> {
    ghost use Rattle.std.specs.Prelude.{List};
    ghost use Rattle.odb_round.specs.Jobs as model;
    ghost use Rattle.odb_round.specs.Represented.Codes.{shareds_code};

    ghost Value = { List model.Shared };

    ghost coded = { shareds_code };

    ghost view = { λ s. s.jobs.items };
}

impl<'a> SharedJobs<'a> {
    /// Makes shared jobs, of which there are none. O(1).
    pub(crate) fn new(alloc: Global) -> SharedJobs<'a>
        ensures { result ≡ [] }
    {
        SharedJobs {
            jobs: Vec::new(alloc),
        }
    }

    /// Returns the place of the job for the client of the monitor that is known so, if one of these serves it. A comparison of
    /// numbers for each, and O(n) for n tables for those that have its number.
    pub(crate) fn find(&self, monitor: &Monitor, watch: WatchId) -> Option<Option<usize>>
        ensures job { IfSome result (λ place. (m : marked.Sessions) (k : Chains) (us : List Undo) (js : List Job) → AreAlike m → All (IsSharedIn m) self.now → IsKnownAs m (Some watch) monitor.now
            → ArePlacesOf k us js self.now → IsPlaceOf k us js (likeness_in monitor.now way.Asked) place) }
        ensures likeness { IfSome result (λ place. (m : marked.Sessions) (ls : List Likeness) → AreAlike m → All (IsSharedIn m) self.now → IsKnownAs m (Some watch) monitor.now
            → AreSharedPlaced ls self.now → IsAtPlace ls (likeness_in monitor.now way.Asked) place) }
    {
        for job in &self.jobs {
            if job.serves(monitor, watch) {
                return Some(job.place);
            }
        }
        None
    }

    /// Adds a job, where fewer are kept than may be. Where memory is refused it isn't kept.
    pub(crate) fn add(&mut self, job: SharedJob<'a>)
        ensures shared { (m : marked.Sessions) → IsSharedIn m job.entry → All (IsSharedIn m) self.old → All (IsSharedIn m) self.new }
        ensures places { (k : Chains) (us : List Undo) (js : List Job) → IsPlaceOf k us js job.entry.likeness job.entry.place → ArePlacesOf k us js self.old → ArePlacesOf k us js self.new }
        ensures placed { (ls : List Likeness) → IsAtPlace ls job.entry.likeness job.entry.place → AreSharedPlaced ls self.old → AreSharedPlaced ls self.new }
    {
        if self.jobs.len() >= MOST_KEPT {
            return;
        }
        if self.jobs.reserve(1).is_err() {
            return;
        }
        self.jobs.push_reserved(job);
    }
}
