//! What sets and maps have in common: entries in the order of their keys, searched and merged.

ghost use Rattle.std.specs.Prelude.{◌≡◌, ◌<◌, ◌≤◌, ◌∷◌, [], Bool, not, length, map, drop, take, ◌++◌, option_map, Option, Some, None};
ghost use Rattle.std.specs.Prelude.{IfOk, IfSome, OnOk, IsTrue, IsPermutation};
ghost use Rattle.std.specs.FinMap.Entries.{is_sorted};
ghost use Rattle.std.specs.List.{list_all};
ghost use Rattle.odb_atoms.specs.Atom as model;
ghost use Rattle.odb_atoms.specs.Atom.{atom_cmp};
ghost use Rattle.odb_atoms.specs.Members.{repeats};
ghost use Rattle.odb_atoms.specs.Represented.Atom.{atom_of};
ghost use Rattle.odb_atoms.specs.Represented.Entry.{alike, entry_at, has_entry, is_after, keys_of, merged};
ghost use Rattle.odb_atoms.specs.Represented.Entry.{AreApart, AreBefore, AreFrom, CopiesRun, IsFirstBefore, IsFrom, IsRising};
ghost use Rattle.odb_chunks.specs.Represented.Chunks.{items_in, AreFilled};
ghost use Rattle.std.specs.Arc.{arc_value};

use crate::atom::Atom;
use odb_chunks::{CHUNK, ChunkedList, Items};
use std::alloc::{AllocError, Global};
use std::cmp::Ordering;
use std::sync::Arc;

/// From how many entries on equal values that were copied from each other have them in common, or their texts.
pub(crate) const SHARED: usize = 16;

/// An entry of a value: an element of a set, which is its own key, or a pair of a map.
pub trait Entry: Drop {
    ghost entry: { Self → model.Atom × Option model.Atom };

    /// Returns what the entries of a value are ordered by.
    fn key(&self) -> &Atom
        ensures { atom_of result.now ≡ (entry self.now).0 };

    /// Returns whether an entry with this key has the same value, too.
    fn is_alike(&self, other: &Self) -> bool
        ensures { result ≡ alike (entry self.now).1 (entry other.now).1 };

    /// Makes an equal entry.
    fn try_copy(&self, alloc: Global) -> Result<Self, AllocError>
        ensures { IfOk result (λ copy. entry copy ≡ entry self.now) };

    /// Appends an equal entry, whose texts are shared with copies of it where that is wanted.
    fn copy_to(&self, alloc: Global, shares: bool, copies: &mut Vec<Self>) -> Result<(), AllocError>
        ensures { OnOk result
            (map entry copies.new.items ≡ map entry copies.old.items ++ entry self.now ∷ []) };
}

impl Entry for Atom {
    ghost entry = { λ a. (atom_of a, None) };

    #[inline(always)]
    fn key(&self) -> &Atom {
        self
    }

    #[inline(always)]
    fn is_alike(&self, _other: &Atom) -> bool {
        true
    }

    fn try_copy(&self, alloc: Global) -> Result<Atom, AllocError> {
        Atom::try_copy(self, alloc)
    }

    // An identifier is written where it will lie, and not into a result first.
    #[inline(always)]
    fn copy_to(
        &self,
        alloc: Global,
        shares: bool,
        copies: &mut Vec<Atom>,
    ) -> Result<(), AllocError> {
        if let Atom::Uuid(uuid) = self {
            copies.push(Atom::Uuid(*uuid))?;
            return Ok(());
        }
        let copy = if shares {
            Atom::shared_copy(self, alloc)?
        } else {
            Atom::try_copy(self, alloc)?
        };
        copies.push(copy)?;
        Ok(())
    }
}

impl Entry for (Atom, Atom) {
    ghost entry = { λ p. (atom_of p.0, Some (atom_of p.1)) };

    #[inline(always)]
    fn key(&self) -> &Atom {
        &self.0
    }

    #[inline(always)]
    fn is_alike(&self, other: &(Atom, Atom)) -> bool {
        self.1 == other.1
    }

    fn try_copy(&self, alloc: Global) -> Result<(Atom, Atom), AllocError> {
        Ok((self.0.try_copy(alloc)?, self.1.try_copy(alloc)?))
    }

    #[inline(always)]
    fn copy_to(
        &self,
        alloc: Global,
        shares: bool,
        copies: &mut Vec<(Atom, Atom)>,
    ) -> Result<(), AllocError> {
        let copy = if shares {
            (self.0.shared_copy(alloc)?, self.1.shared_copy(alloc)?)
        } else {
            (self.0.try_copy(alloc)?, self.1.try_copy(alloc)?)
        };
        copies.push(copy)?;
        Ok(())
    }
}

/// Puts the entries in the order of their keys, in place, and says whether no key stands twice.
/// O(n log n) comparisons, O(n) where the keys rise already.
pub fn sort<E: Entry>(entries: &mut Vec<E>) -> bool
    ensures permutation { IsPermutation entries.old.items entries.new.items }
    ensures distinct { result ≡ not (repeats (keys_of (map E.entry entries.old.items))) }
    ensures rising { IsTrue result → IsRising (map E.entry entries.new.items) }
{
    if is_rising(entries) {
        return true;
    }
    entries.sort_unstable_by(|x, y| x.key().cmp(y.key()));
    is_rising(entries)
}

/// Returns whether each key is greater than the one before. O(n) comparisons.
fn is_rising<E: Entry>(entries: &[E]) -> bool
    ensures { result ≡ is_sorted atom_cmp (map E.entry entries.now) }
{
    entries.is_sorted_by(|x, y| x.key().cmp(y.key()).is_lt())
}

/// Returns the entry at the key. O(log n) comparisons.
pub fn find<'a, E: Entry>(entries: &Items<'a, E>, key: &Atom) -> Option<&'a E>
    requires { IsRising (map E.entry entries.now) }
    ensures { option_map (λ found. (E.entry found.now).1) result
        ≡ entry_at (map E.entry entries.now) (atom_of key.now) }
{
    let (front, later) = entries.parts();
    if starts_after(later, key) {
        return find_in(front, key);
    }
    find_in_chunks(later, key)
}

/// Returns whether there is no chunk, or the first one's first key is greater than this one.
fn starts_after<E: Entry>(chunks: &[Arc<Vec<E>>], key: &Atom) -> bool
    requires { AreFilled chunks.now }
    ensures { result ≡ is_after (map E.entry (items_in chunks.now)) (atom_of key.now) }
{
    let [chunk, ..] = chunks else {
        return true;
    };
    let [first, ..] = chunk.as_slice() else {
        return true;
    };
    key.cmp(first.key()).is_lt()
}

/// Returns the entry at the key, by halves of the chunks.
fn find_in_chunks<'a, E: Entry>(chunks: &'a [Arc<Vec<E>>], key: &Atom) -> Option<&'a E>
    requires rising { IsRising (map E.entry (items_in chunks.now)) }
    requires filled { AreFilled chunks.now }
    ensures { option_map (λ found. (E.entry found.now).1) result
        ≡ entry_at (map E.entry (items_in chunks.now)) (atom_of key.now) }
{
    let mut left = chunks;
    while left.len() > 1 {
        left = half_with(left, key);
    }
    match left {
        [chunk] => find_in(chunk.as_slice(), key),
        _ => None,
    }
}

/// Returns the half of the chunks in which an entry at the key is, if one is there.
fn half_with<'a, E: Entry>(chunks: &'a [Arc<Vec<E>>], key: &Atom) -> &'a [Arc<Vec<E>>]
    requires several { 1 < length chunks.now }
    requires rising { IsRising (map E.entry (items_in chunks.now)) }
    requires filled { AreFilled chunks.now }
    ensures found { entry_at (map E.entry (items_in result.now)) (atom_of key.now)
        ≡ entry_at (map E.entry (items_in chunks.now)) (atom_of key.now) }
    ensures rising { IsRising (map E.entry (items_in result.now)) }
    ensures filled { AreFilled result.now }
    ensures fewer { length result.now < length chunks.now }
{
    let (low, high) = chunks.split_at(chunks.len() / 2);
    if starts_after(high, key) {
        return low;
    }
    high
}

/// Returns the entry of the slice at the key, by binary search.
fn find_in<'a, E: Entry>(entries: &'a [E], key: &Atom) -> Option<&'a E>
    requires { IsRising (map E.entry entries.now) }
    ensures { option_map (λ found. (E.entry found.now).1) result
        ≡ entry_at (map E.entry entries.now) (atom_of key.now) }
{
    match entries.binary_search_by(|entry| entry.key().cmp(key)) {
        Ok(place) => Some(&entries[place]),
        Err(_) => None,
    }
}

/// Returns whether the entry is among `entries`. O(log n) comparisons.
fn has<E: Entry>(entries: &Items<'_, E>, entry: &E) -> bool
    requires { IsRising (map E.entry entries.now) }
    ensures { result ≡ has_entry (map E.entry entries.now) (E.entry entry.now) }
{
    match find(entries, entry.key()) {
        Some(found) => found.is_alike(entry),
        None => false,
    }
}

/// Returns whether to look for `few` entries one by one among `many`, and not to go through both: where
/// those are 16 times as many, as a search is 16 comparisons among 65,536 entries.
#[inline(always)]
fn are_few(few: usize, many: usize) -> bool {
    few < many / 16
}

/// Returns whether each of `wanted` is among `entries`. O(m + n) comparisons for m wanted among n, and
/// O(m log n) where m is less than a sixteenth of n.
pub fn includes<E: Entry>(entries: &Items<'_, E>, wanted: &Items<'_, E>) -> bool
    requires rising { IsRising (map E.entry entries.now) }
    requires wanted_rising { IsRising (map E.entry wanted.now) }
    ensures { result ≡ list_all (has_entry (map E.entry entries.now)) (map E.entry wanted.now) }
{
    if are_few(wanted.len(), entries.len()) {
        return wanted.iter().all(|entry| has(entries, entry));
    }
    includes_by_pass(entries, wanted)
}

/// Returns whether each of `wanted` is among `entries`. One pass over both.
fn includes_by_pass<E: Entry>(entries: &Items<'_, E>, wanted: &Items<'_, E>) -> bool
    requires rising { IsRising (map E.entry entries.now) }
    requires wanted_rising { IsRising (map E.entry wanted.now) }
    ensures { result ≡ list_all (has_entry (map E.entry entries.now)) (map E.entry wanted.now) }
{
    let mut entries_left = entries.iter();
    let mut wanted_left = wanted.iter();
    while let Some(next) = wanted_left.first() {
        let Some(first) = entries_left.first() else {
            return false;
        };
        match first.key().cmp(next.key()) {
            Ordering::Less => entries_left.pass(1),
            Ordering::Equal if first.is_alike(next) => {
                entries_left.pass(1);
                wanted_left.pass(1);
            }
            _ => return false,
        }
    }
    true
}

/// Returns whether none of `unwanted` is among `entries`. O(m + n) comparisons for m unwanted among n, and
/// O(m log n) where m is less than a sixteenth of n.
pub fn excludes<E: Entry>(entries: &Items<'_, E>, unwanted: &Items<'_, E>) -> bool
    requires rising { IsRising (map E.entry entries.now) }
    requires unwanted_rising { IsRising (map E.entry unwanted.now) }
    ensures { result
        ≡ list_all (λ e. not (has_entry (map E.entry entries.now) e)) (map E.entry unwanted.now) }
{
    if are_few(unwanted.len(), entries.len()) {
        return unwanted.iter().all(|entry| !has(entries, entry));
    }
    excludes_by_pass(entries, unwanted)
}

/// Returns whether none of `unwanted` is among `entries`. One pass over both.
fn excludes_by_pass<E: Entry>(entries: &Items<'_, E>, unwanted: &Items<'_, E>) -> bool
    requires rising { IsRising (map E.entry entries.now) }
    requires unwanted_rising { IsRising (map E.entry unwanted.now) }
    ensures { result
        ≡ list_all (λ e. not (has_entry (map E.entry entries.now) e)) (map E.entry unwanted.now) }
{
    let mut entries_left = entries.iter();
    let mut unwanted_left = unwanted.iter();
    while let Some(first) = entries_left.first() {
        let Some(next) = unwanted_left.first() else {
            return true;
        };
        match first.key().cmp(next.key()) {
            Ordering::Less => entries_left.pass(1),
            Ordering::Greater => unwanted_left.pass(1),
            Ordering::Equal if first.is_alike(next) => return false,
            Ordering::Equal => {
                entries_left.pass(1);
                unwanted_left.pass(1);
            }
        }
    }
    true
}

/// Returns for how many entries room is made at once where two lists are gone through: for all, where one has few, so that
/// nearly all of them come out; else for none.
fn room_for(old: usize, new: usize) -> usize {
    if are_few(old, new) || are_few(new, old) {
        old.saturating_add(new)
    } else {
        0
    }
}

/// Returns how many entries at the front are copied at once, of which each has a key less than this one: all those, or the
/// first alone. O(log n) comparisons.
fn run_before<E: Entry>(entries: &[E], key: &Atom, all: bool) -> usize
    requires rising { IsRising (map E.entry entries.now) }
    requires first { IsFirstBefore (map E.entry entries.now) (atom_of key.now) }
    ensures some { 1 ≤ result }
    ensures within { result ≤ length entries.now }
    ensures before { AreBefore (take result (map E.entry entries.now)) (atom_of key.now) }
{
    if !all {
        return 1;
    }
    match entries.binary_search_by(|entry| entry.key().cmp(key)) {
        Ok(place) => place,
        Err(place) => place,
    }
}

/// Appends copies of entries at the front whose keys are less than this one, of the first at least, and passes over them.
/// So many others are left: where these are few, it looks how far the keys are less. O(log n) comparisons, and what is
/// copied.
fn copy_run<E: Entry>(
    alloc: Global,
    entries: &mut Items<'_, E>,
    key: &Atom,
    others: usize,
    change: &mut Vec<E>,
) -> Result<(), AllocError>
    requires rising { IsRising (map E.entry entries.old) }
    requires first { IsFirstBefore (map E.entry entries.old) (atom_of key.now) }
    ensures run { IfOk result (λ _. CopiesRun (atom_of key.now) (map E.entry entries.old) (map E.entry entries.new)
        (map E.entry change.old.items) (map E.entry change.new.items)) }
    ensures fewer { IfOk result (λ _. length entries.new < length entries.old) }
{
    let front = entries.front();
    let run = run_before(front, key, are_few(others, entries.len()));
    append_copies(alloc, &Items::of(&front[..run]), change)?;
    entries.pass(run);
    Ok(())
}

/// Returns the entries by which two lists differ: those whose key one alone has, and where both have the
/// key with other values, those of `new`. One pass over both; where one is less than a sixteenth of the other a search in
/// that for each of its entries, and what is copied.
pub fn changed<E: Entry>(
    alloc: Global,
    old: &Items<'_, E>,
    new: &Items<'_, E>,
) -> Result<Vec<E>, AllocError>
    requires old_rising { IsRising (map E.entry old.now) }
    requires new_rising { IsRising (map E.entry new.now) }
    ensures { IfOk result (λ v. map E.entry v.items ≡ merged (map E.entry old.now) (map E.entry new.now)) }
{
    let mut change = Vec::with_capacity(alloc, room_for(old.len(), new.len()))?;
    let mut old_left = old.iter();
    let mut new_left = new.iter();
    while let Some(first) = old_left.first() {
        let Some(next) = new_left.first() else {
            break;
        };
        match first.key().cmp(next.key()) {
            Ordering::Less => {
                copy_run(
                    alloc,
                    &mut old_left,
                    next.key(),
                    new_left.len(),
                    &mut change,
                )?;
            }
            Ordering::Greater => {
                copy_run(
                    alloc,
                    &mut new_left,
                    first.key(),
                    old_left.len(),
                    &mut change,
                )?;
            }
            Ordering::Equal => {
                if !first.is_alike(next) {
                    change.push(next.try_copy(alloc)?)?;
                }
                old_left.pass(1);
                new_left.pass(1);
            }
        }
    }
    append_copies(alloc, &old_left, &mut change)?;
    append_copies(alloc, &new_left, &mut change)?;
    Ok(change)
}

/// Returns the entries where what they make of so many entries in so many chunks is made in chunks, too: where those are many and
/// fill their chunks well, and these are few and lie in one slice.
pub fn few_for<'a, E: Entry>(len: usize, chunks: usize, few: &Items<'a, E>) -> Option<&'a [E]>
    ensures { IfSome result (λ slice. slice.now ≡ few.now) }
{
    if len < 2 * CHUNK || chunks > len / 32 || !are_few(few.len(), len) {
        return None;
    }
    few.as_slice()
}

/// Returns the entries by which a list in chunks and few entries differ, as `changed` does, with the chunks in which no key
/// of these belongs in common. O(chunks), and what is copied: the entries of the other chunks, and these.
pub fn changed_in_chunks<E: Entry>(
    alloc: Global,
    chunks: &[Arc<Vec<E>>],
    few: &[E],
) -> Result<ChunkedList<E>, AllocError>
    requires rising { IsRising (map E.entry (items_in chunks.now)) }
    requires few_rising { IsRising (map E.entry few.now) }
    requires filled { AreFilled (drop 1 chunks.now) }
    ensures { IfOk result (λ list. map E.entry list ≡ merged (map E.entry (items_in chunks.now)) (map E.entry few.now)) }
{
    let mut list = ChunkedList::new(alloc);
    let mut chunks_left = chunks;
    let mut few_left = few;
    while let [chunk, later @ ..] = chunks_left {
        let (run, rest) = few_left.split_at(count_for(few_left, later));
        push_changed(alloc, chunk, run, &mut list)?;
        chunks_left = later;
        few_left = rest;
    }
    list.push_items(alloc, copies(alloc, &Items::of(few_left))?)?;
    Ok(list)
}

/// Returns how many of the entries belong before the chunks: all where there are none, else those whose keys are less than the
/// first one's there. O(their number).
fn count_for<E: Entry>(few: &[E], later: &[Arc<Vec<E>>]) -> usize
    requires { AreFilled later.now }
    ensures within { result ≤ length few.now }
    ensures before { AreApart (take result (map E.entry few.now)) (map E.entry (items_in later.now)) }
    ensures from { AreFrom (drop result (map E.entry few.now)) (map E.entry (items_in later.now)) }
{
    let [next, ..] = later else {
        return few.len();
    };
    let [first, ..] = next.as_slice() else {
        return few.len();
    };
    count_before(few, first.key())
}

/// Returns how many entries at the front have keys less than this one. O(their number).
fn count_before<E: Entry>(entries: &[E], key: &Atom) -> usize
    ensures within { result ≤ length entries.now }
    ensures before { AreBefore (take result (map E.entry entries.now)) (atom_of key.now) }
    ensures from { IsFrom (drop result (map E.entry entries.now)) (atom_of key.now) }
{
    let mut count = 0;
    for entry in entries {
        if !entry.key().cmp(key).is_lt() {
            return count;
        }
        count += 1;
    }
    count
}

/// Appends the chunk, or where there are entries to change in it what they make of it.
fn push_changed<E: Entry>(
    alloc: Global,
    chunk: &Arc<Vec<E>>,
    run: &[E],
    list: &mut ChunkedList<E>,
) -> Result<(), AllocError>
    requires rising { IsRising (map E.entry (arc_value chunk.now).items) }
    requires run_rising { IsRising (map E.entry run.now) }
    ensures { OnOk result (map E.entry list.new
        ≡ map E.entry list.old ++ merged (map E.entry (arc_value chunk.now).items) (map E.entry run.now)) }
{
    if run.is_empty() {
        return list.push_shared(chunk);
    }
    let items = changed(alloc, &Items::of(chunk.as_slice()), &Items::of(run))?;
    list.push_items(alloc, items)
}

/// Makes equal entries, in the same order.
pub fn copies<E: Entry>(alloc: Global, entries: &Items<'_, E>) -> Result<Vec<E>, AllocError>
    ensures { IfOk result (λ v. map E.entry v.items ≡ map E.entry entries.now) }
{
    let mut copies = Vec::with_capacity(alloc, entries.len())?;
    append_copies(alloc, entries, &mut copies)?;
    Ok(copies)
}

fn append_copies<E: Entry>(
    alloc: Global,
    entries: &Items<'_, E>,
    copies: &mut Vec<E>,
) -> Result<(), AllocError>
    ensures { OnOk result
        (map E.entry copies.new.items
        ≡ map E.entry copies.old.items ++ map E.entry entries.now) }
{
    copies.reserve(entries.len())?;
    let shares = entries.len() >= SHARED;
    for entry in entries.iter() {
        entry.copy_to(alloc, shares, copies)?;
    }
    Ok(())
}
