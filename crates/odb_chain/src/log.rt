//! In which order old rows were recorded, so that the rows that changed since a version are found without a look at
//! others.
ghost use Rattle.std.specs.Prelude.{◌≡◌, ◌+◌, ◌*◌, ◌≤◌, ℕ, true, [], ◌∷◌, drop, length, nat_lt, IfNone, IfOk, IfSome, OnOk};
ghost use Rattle.std.specs.BTreeSet.{contains};
ghost use Rattle.std.specs.List.{list_all};
ghost use Rattle.odb_atoms.specs.Uuid as model_uuid;
ghost use Rattle.odb_atoms.specs.Uuid.{uuid_cmp};
ghost use Rattle.odb_chain.specs.Represented.Log.{AllFrom, AreRecorded, is_named, is_needed, is_recorded};
ghost use Rattle.odb_tables.specs.Represented.Keyed.{keyed};

use crate::history::History;
use indexmap::IndexMap;
use odb_tables::Key;
use std::alloc::{AllocError, Global};
use std::collections::BTreeSet;
use std::hash::RandomState;
use std::marker::Model;

/// A row of which an old row was recorded up to the version, or to one before it.
#[derive(Drop)]
struct Recorded {
    version: u64,
    key: Key,
}

impl Model for Recorded {
    ghost use Rattle.std.specs.Prelude.{ℕ};
    ghost use Rattle.odb_atoms.specs.Uuid.{Uuid};
    ghost use Rattle.odb_chain.specs.Represented.Codes.{recorded_code};

    ghost Value = { ℕ × Uuid };

    ghost coded = { recorded_code };

    ghost view = { λ n. (n.version, n.key) };
}

/// The rows of which old rows were recorded, the earliest first; versions never fall. The first ones may be done with.
/// Once there are as many entries as the limit, and most are done with, these are cut off. Else those that aren't
/// needed go: at most one for each row is left, or a few of one version. The limit is then eight times as many, so that
/// an entry costs little more than one look-up on the average.
#[derive(Drop)]
pub(crate) struct Log {
    recorded: Vec<Recorded>,
    done: usize,
    latest: u64,
    limit: usize,
}

impl Model for Log {
    ghost use Rattle.std.specs.Prelude.{◌≤◌, List, drop, length};
    ghost use Rattle.std.specs.Coded.{coded_list};
    ghost use Rattle.odb_chain.specs.Represented.Codes.{recorded_code};
    ghost use Rattle.odb_chain.specs.Represented.Log.{AllUpTo, AreInOrder, Recorded as Entry};

    ghost Value = { List Entry };

    ghost coded = { coded_list recorded_code };

    ghost view = { λ l. drop l.done l.recorded.items };

    ghost invariant = { λ l. AreInOrder l.recorded.items × AllUpTo l.latest l.recorded.items × (l.done ≤ length l.recorded.items) };
}

impl Log {
    /// Makes a log in which nothing is recorded.
    pub(crate) fn new(alloc: Global) -> Log
        ensures { result ≡ [] }
    {
        Log {
            recorded: Vec::new(alloc),
            done: 0,
            latest: 0,
            limit: 16,
        }
    }

    /// Records that there is an old row of this row up to the version. O(1).
    pub(crate) fn record(&mut self, version: u64, key: Key) -> Result<(), AllocError>
        ensures ok { OnOk result (is_recorded version key self.new ≡ true) }
        ensures still { (p : ℕ) (u : model_uuid.Uuid) → is_recorded p u self.old ≡ true → is_recorded p u self.new ≡ true }
    {
        let version = later(self.latest, version);
        self.latest = version;
        Ok(self.recorded.push(Recorded { version, key })?)
    }

    /// Returns the rows that are recorded with the version or a later one. O(k log k) for k entries of them.
    pub(crate) fn since(&self, alloc: Global, version: u64) -> Result<BTreeSet<Key>, AllocError>
        ensures { IfOk result (λ keys. (u : model_uuid.Uuid) → is_recorded version u self.now ≡ true → contains uuid_cmp keys u ≡ true) }
    {
        keys_of(alloc, self.from(version))
    }

    /// Returns the entries from the version on. O(log n).
    fn from(&self, version: u64) -> &[Recorded]
        ensures { (u : model_uuid.Uuid) → is_recorded version u self.now ≡ true → is_named u result.now ≡ true }
    {
        let recorded = after(self.recorded.as_slice(), self.done);
        let first = recorded.partition_point(|entry| entry.version < version);
        after(recorded, first)
    }

    /// Leaves out what is done with or isn't needed, once there is as much as the limit. O(1) for each entry on the
    /// average, with a look-up where most aren't done with.
    pub(crate) fn tidy(&mut self, rows: &IndexMap<Key, History, RandomState>)
        ensures { AreRecorded (keyed (λ h. h) rows.now) self.old → AreRecorded (keyed (λ h. h) rows.now) self.new }
    {
        if self.recorded.len() < self.limit {
            return;
        }
        if self.done > self.recorded.len() / 2 {
            self.cut();
            return;
        }
        self.clean(rows);
    }

    /// Cuts off the entries that are done with. O(entries), and no look-up.
    fn cut(&mut self)
        ensures { self.new ≡ self.old }
    {
        self.recorded.drain(..self.done);
        self.done = 0;
    }

    /// Leaves out what isn't needed. One look-up for each entry.
    fn clean(&mut self, rows: &IndexMap<Key, History, RandomState>)
        ensures recorded { AreRecorded (keyed (λ h. h) rows.now) self.old → AreRecorded (keyed (λ h. h) rows.now) self.new }
        ensures needed { list_all (is_needed (keyed (λ h. h) rows.now)) self.new ≡ true }
    {
        self.recorded.retain(|entry| is_needed(rows, entry));
        self.done = 0;
        self.limit = eightfold(self.recorded.len());
    }

    /// Takes the first entry, if its version is before this one, and returns its row; `None` where no entry comes
    /// before it. O(1).
    pub(crate) fn next_before(&mut self, version: u64) -> Option<Key>
        ensures some { IfSome result (λ key. (p : ℕ) × (nat_lt p version ≡ true) × (self.old ≡ (p, key) ∷ self.new)) }
        ensures none { IfNone result (self.new ≡ self.old) }
        ensures from { IfNone result (AllFrom version self.new) }
    {
        if self.done >= self.recorded.len() {
            return None;
        }
        let entry = &self.recorded[self.done];
        if version <= entry.version {
            return None;
        }
        let key = entry.key;
        self.done += 1;
        Some(key)
    }

    /// Leaves out all entries.
    pub(crate) fn clear(&mut self)
        ensures { self.new ≡ [] }
    {
        self.recorded.clear();
        self.done = 0;
    }
}

/// Returns eight times the number and eight more, or the greatest number.
fn eightfold(number: usize) -> usize
    ensures { result ≤ 8 * number + 8 }
{
    if number < usize::MAX / 8 {
        number * 8 + 8
    } else {
        usize::MAX
    }
}

/// Returns the entries from this one on.
fn after(recorded: &[Recorded], first: usize) -> &[Recorded]
    requires { first ≤ length recorded.now }
    ensures { result.now ≡ drop first recorded.now }
{
    &recorded[first..]
}

/// Returns the later one of two versions.
fn later(a: u64, b: u64) -> u64
    ensures first { a ≤ result }
    ensures second { b ≤ result }
{
    if a < b { b } else { a }
}

/// Returns whether there are old rows of the row, and up to no later version.
fn is_needed(rows: &IndexMap<Key, History, RandomState>, entry: &Recorded) -> bool
    ensures { result ≡ is_needed (keyed (λ h. h) rows.now) entry.now }
{
    match rows.get(&entry.key) {
        Some(history) => !history.passes(entry.version),
        None => false,
    }
}

/// Returns the rows of the entries, each once.
fn keys_of(alloc: Global, recorded: &[Recorded]) -> Result<BTreeSet<Key>, AllocError>
    ensures { IfOk result (λ keys. (u : model_uuid.Uuid) → is_named u recorded.now ≡ true → contains uuid_cmp keys u ≡ true) }
{
    let mut keys = BTreeSet::new(alloc);
    for entry in recorded {
        keys.insert(entry.key)?;
    }
    Ok(keys)
}
