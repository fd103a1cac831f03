//! What is left of a list's items.
ghost use Rattle.std.specs.Prelude.{◌≡◌, ◌++◌, ◌∷◌, [], length, drop, option_map, IfSome};
ghost use Rattle.std.specs.Cmp.Lexicographic.{pointwise, slice_cmp};
ghost use Rattle.std.specs.Option.{MatchOption};
ghost use Rattle.std.specs.Iterator.{YieldsFirstRef, item_count};
ghost use Rattle.odb_chunks.specs.Represented.Chunks.{items_in, last_of, lone_of, AreFilled, EndsWithFront};

use std::cmp::Ordering;
use std::marker::Model;
use std::sync::Arc;

/// What is left of a list's items, in their order: those of a slice, and then those of chunks.
#[derive(Drop)]
pub struct Items<'a, T: Drop> {
    len: usize,
    front: &'a [T],
    later: &'a [Arc<Vec<T>>],
}

impl<'a, T: Drop> Model for Items<'a, T> {
    ghost use Rattle.std.specs.Prelude.{◌≡◌, ◌++◌, List, length};
    ghost use Rattle.odb_chunks.specs.Represented.Chunks.{items_in, AreFilled, EndsWithFront};

    ghost Value = { List T };

    ghost view = { λ i. i.front.now ++ items_in i.later.now };

    ghost invariant = { λ i. (i.len ≡ length (i.front.now ++ items_in i.later.now))
        × AreFilled i.later.now × EndsWithFront i.front.now i.later.now };
}

impl<'a, T: Drop> Items<'a, T> {
    /// Returns the items of a slice. O(1).
    #[inline(always)]
    pub fn of(slice: &'a [T]) -> Items<'a, T>
        ensures { result ≡ slice.now }
    {
        Items {
            len: slice.len(),
            front: slice,
            later: &[],
        }
    }

    /// Returns the items of filled chunks, which are so many. O(1).
    #[inline(always)]
    pub(crate) fn of_chunks(len: usize, chunks: &'a [Arc<Vec<T>>]) -> Items<'a, T>
        requires len { len ≡ length (items_in chunks.now) }
        requires filled { AreFilled chunks.now }
        ensures { result ≡ items_in chunks.now }
    {
        let (front, later) = filled_from(&[], chunks);
        Items { len, front, later }
    }

    /// Returns how many there are. O(1).
    #[inline(always)]
    pub fn len(&self) -> usize
        ensures { result ≡ length self.now }
    {
        self.len
    }

    /// Returns an iterator over the items. O(1).
    #[inline(always)]
    pub fn iter(&self) -> Items<'a, T>
        ensures { result ≡ self.now }
    {
        Items {
            len: self.len,
            front: self.front,
            later: self.later,
        }
    }

    /// Returns the first item. O(1).
    #[inline(always)]
    pub fn first(&self) -> Option<&'a T>
        ensures { MatchOption result (self.now ≡ []) (λ first. self.now ≡ first.now ∷ drop 1 self.now) }
    {
        match self.front {
            [first, ..] => Some(first),
            [] => None,
        }
    }

    /// Returns the last item. O(1).
    pub fn last(&self) -> Option<&'a T>
        ensures { option_map (λ item. item.now) result ≡ last_of self.now }
    {
        match self.later {
            [.., chunk] => last_in(chunk.as_slice()),
            [] => last_in(self.front),
        }
    }

    /// Returns the item, where there is one alone. O(1).
    #[inline(always)]
    pub fn lone(&self) -> Option<&'a T>
        ensures { option_map (λ item. item.now) result ≡ lone_of self.now }
    {
        if self.len != 1 {
            return None;
        }
        self.first()
    }

    /// Returns those at the front that lie in one slice: none where there are no items. O(1).
    #[inline(always)]
    pub fn front(&self) -> &'a [T]
        ensures front { self.now ≡ result.now ++ drop (length result.now) self.now }
        ensures all { result.now ≡ [] → self.now ≡ [] }
    {
        self.front
    }

    /// Returns all of them, where they lie in one slice. O(1).
    #[inline(always)]
    pub fn as_slice(&self) -> Option<&'a [T]>
        ensures { IfSome result (λ slice. slice.now ≡ self.now) }
    {
        if !self.later.is_empty() {
            return None;
        }
        Some(self.front)
    }

    /// Returns the slice at the front, and the chunks after it. O(1).
    #[inline(always)]
    pub fn parts(&self) -> (&'a [T], &'a [Arc<Vec<T>>])
        ensures items { self.now ≡ result.0.now ++ items_in result.1.now }
        ensures filled { AreFilled result.1.now }
    {
        (self.front, self.later)
    }

    /// Passes over so many items, or all where there are fewer. O(1), and O(chunks passed over).
    #[inline(always)]
    pub fn pass(&mut self, count: usize)
        ensures { self.new ≡ drop count self.old }
    {
        self.len = self.len.saturating_sub(count);
        if count < self.front.len() {
            self.front = &self.front[count..];
            return;
        }
        let (front, later) = after(self.front, self.later, count);
        self.front = front;
        self.later = later;
    }
}

impl<'a, T: PartialEq + Drop> Items<'a, T> {
    /// Returns whether the others are as many, and each is equal to the one at its place. O(n).
    pub fn is_same(&self, other: &Items<'_, T>) -> bool
        ensures { result ≡ pointwise T.eq self.now other.now }
    {
        if self.len != other.len {
            return false;
        }
        let mut left = self.iter();
        let mut right = other.iter();
        while left.len() > 0 {
            let x = left.front();
            let y = right.front();
            let both = x.len().min(y.len());
            if both == 0 {
                return false;
            }
            if x[..both] != y[..both] {
                return false;
            }
            left.pass(both);
            right.pass(both);
        }
        right.len() == 0
    }
}

impl<'a, T: Ord + Drop> Items<'a, T> {
    /// Returns the order of the first that isn't equal to the one at its place, or else of the numbers of items. O(n).
    pub fn compare(&self, other: &Items<'_, T>) -> Ordering
        ensures { result ≡ slice_cmp T.cmp self.now other.now }
    {
        let mut left = self.iter();
        let mut right = other.iter();
        while let Some(x) = left.first() {
            let Some(y) = right.first() else {
                return Ordering::Greater;
            };
            let order = x.cmp(y);
            if order != Ordering::Equal {
                return order;
            }
            left.pass(1);
            right.pass(1);
        }
        if right.len() == 0 {
            return Ordering::Equal;
        }
        Ordering::Less
    }
}

impl<'a, T: Drop> Iterator for Items<'a, T> {
    type Item = &'a T;

    ghost next_gives = { YieldsFirstRef (λ rest. rest) };

    ghost remaining = { item_count (λ rest. rest) };

    #[inline(always)]
    fn next(&mut self) -> Option<&'a T> {
        let [first, rest @ ..] = self.front else {
            return None;
        };
        let (front, later) = filled_from(rest, self.later);
        self.len -= 1;
        self.front = front;
        self.later = later;
        Some(first)
    }
}

/// Returns the slice and the chunks, or where the slice is empty the first chunk's and the others.
#[inline(always)]
fn filled_from<'a, T: Drop>(
    front: &'a [T],
    later: &'a [Arc<Vec<T>>],
) -> (&'a [T], &'a [Arc<Vec<T>>])
    requires { AreFilled later.now }
    ensures items { result.0.now ++ items_in result.1.now ≡ front.now ++ items_in later.now }
    ensures filled { AreFilled result.1.now }
    ensures ends { EndsWithFront result.0.now result.1.now }
{
    if !front.is_empty() {
        return (front, later);
    }
    match later {
        [chunk, rest @ ..] => (chunk.as_slice(), rest),
        [] => (front, later),
    }
}

fn last_in<T>(items: &[T]) -> Option<&T>
    ensures { option_map (λ item. item.now) result ≡ last_of items.now }
{
    match items {
        [.., last] => Some(last),
        [] => None,
    }
}

/// Returns the slice and the chunks without so many items at the front, or nothing where there are fewer. O(chunks passed
/// over).
fn after<'a, T: Drop>(
    front: &'a [T],
    later: &'a [Arc<Vec<T>>],
    count: usize,
) -> (&'a [T], &'a [Arc<Vec<T>>])
    requires { AreFilled later.now }
    ensures items { result.0.now ++ items_in result.1.now ≡ drop count (front.now ++ items_in later.now) }
    ensures filled { AreFilled result.1.now }
    ensures ends { EndsWithFront result.0.now result.1.now }
{
    let mut front_left = front;
    let mut later_left = later;
    let mut left = count;
    while left >= front_left.len() {
        left -= front_left.len();
        let [chunk, rest @ ..] = later_left else {
            return (&[], later_left);
        };
        front_left = chunk.as_slice();
        later_left = rest;
    }
    (&front_left[left..], later_left)
}
