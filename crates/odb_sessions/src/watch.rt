//! What sessions ask, under numbers: those that have one number ask the same. [P 9.1, 10.1]
ghost use Rattle.std.specs.Prelude.{◌≡◌, IfSome, Some, map, vec_capacity, vec_len};
ghost use Rattle.std.specs.Bool.{OnTrue};
ghost use Rattle.odb_sessions.specs.Composed.{asked_of};
ghost use Rattle.odb_sessions.specs.Marked.{monitor_of};
ghost use Rattle.odb_sessions.specs.Watches.{asking_in, asking_of};

use crate::monitor::{Monitor, Watching};
use crate::session::Session;
use odb_request::Request;
use std::alloc::{AllocError, Global};
use std::collections::VecDeque;
use std::hash::{DefaultHasher, Hash, Hasher};

/// The number of what a session's monitors ask, and its digest: what is the same has the same, other seldom has.
#[derive(Clone, Copy)]
pub(crate) struct Watch {
    pub(crate) number: u64,
    pub(crate) digest: u64,
}

/// The number of what a session's monitors ask, and the place of one of them: those with equal ones ask the same.
pub type WatchId = (u64, usize);

impl Session {
    /// Returns the number of what its monitors ask, where it has one with this digest, and those of the other session ask the
    /// same. O(1) where the digest is another one, and else a comparison of what is asked.
    pub(crate) fn watch_if_like(&self, of: &Session, digest: u64) -> Option<u64>
        ensures { IfSome result (λ n. (self.now.watch ≡ Some n) × (asking_in self.now ≡ asking_in of.now)) }
    {
        let Some(watch) = self.watch else {
            return None;
        };
        if watch.digest != digest {
            return None;
        }
        if !ask_the_same(self.monitors.as_slice(), of.monitors.as_slice()) {
            return None;
        }
        Some(watch.number)
    }

    /// Returns the number of what its monitors ask; 0 where it has none.
    pub(crate) fn watch_number(&self) -> u64
        ensures { (n : _) → self.now.watch ≡ Some n → result ≡ n }
    {
        match self.watch {
            Some(watch) => watch.number,
            None => 0,
        }
    }

    /// Returns the number of what its monitors ask, if it has one. O(1).
    pub fn number(&self) -> Option<u64>
        ensures { result ≡ self.now.watch }
    {
        match self.watch {
            Some(watch) => Some(watch.number),
            None => None,
        }
    }

    /// Returns what its monitors ask, table by table, each kept once with this session. O(n) for n tables. No contract speaks of
    /// it.
    pub(crate) fn requests(&self, alloc: Global) -> Result<VecDeque<Request>, AllocError> {
        let mut requests = VecDeque::new(alloc);
        for monitor in &self.monitors {
            for table in &monitor.tables {
                requests.push_back(table.request.try_copy()?)?;
            }
        }
        Ok(requests)
    }

    /// Returns the digest of what its monitors ask. O(n) for n tables. No contract speaks of it.
    pub(crate) fn digest(&self) -> u64 {
        let mut state = DefaultHasher::new();
        for monitor in &self.monitors {
            feed_digests(&mut state, monitor.tables.as_slice());
        }
        state.finish()
    }
}

/// Has each of these in the place of what the monitors ask of a table, one by one, where that is the same: so it is kept once.
/// O(n) for n tables, and a comparison of what is asked.
pub(crate) fn share_each(monitors: &mut Vec<Monitor>, requests: &mut VecDeque<Request>)
    ensures monitors { monitors.new.items ≡ monitors.old.items }
    ensures few { vec_len monitors.new ≡ vec_len monitors.old }
    ensures capacity { vec_capacity monitors.new ≡ vec_capacity monitors.old }
{
    for place in 0..monitors.len() {
        share_all(&mut monitors[place].tables, requests);
    }
}

/// Has each of these in the place of what is asked of a table, where that is the same.
fn share_all(tables: &mut Vec<Watching>, requests: &mut VecDeque<Request>)
    ensures { tables.new.items ≡ tables.old.items }
{
    for place in 0..tables.len() {
        if let Some(request) = requests.pop_front() {
            tables[place].share(request);
        }
    }
}

impl Watching {
    /// Has this in the place of what is asked of it, where that is the same.
    fn share(&mut self, request: Request)
        ensures { self.new ≡ self.old }
    {
        if !self.asks(&request) {
            return;
        }
        self.request = request;
    }
}

/// Feeds the digests of what is asked of these tables.
fn feed_digests(state: &mut DefaultHasher, tables: &[Watching]) {
    for table in tables {
        table.digest().hash(state);
    }
}

/// Returns whether these monitors ask what the others do, one by one. `false` says nothing.
fn ask_the_same(monitors: &[Monitor], others: &[Monitor]) -> bool
    ensures { OnTrue result (map asking_of (map monitor_of monitors.now) ≡ map asking_of (map monitor_of others.now)) }
{
    if monitors.len() != others.len() {
        return false;
    }
    for place in 0..monitors.len() {
        if !monitors[place].asks_as(&others[place]) {
            return false;
        }
    }
    true
}

impl Monitor {
    /// Returns whether it asks what the other one does. `false` says nothing.
    fn asks_as(&self, other: &Monitor) -> bool
        ensures { OnTrue result (asking_of (monitor_of self.now) ≡ asking_of (monitor_of other.now)) }
    {
        self.notation == other.notation
            && same_requests(self.tables.as_slice(), other.tables.as_slice())
    }
}

/// Returns whether the same is asked of these tables as of the others, one by one. `false` says nothing.
fn same_requests(tables: &[Watching], others: &[Watching]) -> bool
    ensures { OnTrue result (asked_of tables.now ≡ asked_of others.now) }
{
    if tables.len() != others.len() {
        return false;
    }
    for place in 0..tables.len() {
        let table = &tables[place];
        if !others[place].asks(&table.request) {
            return false;
        }
    }
    true
}
