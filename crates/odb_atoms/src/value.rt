//! Values of columns (RFC 7047, section 5.1, `<value>`): sets and maps of atoms. [P 2.1]

ghost use Rattle.std.specs.Prelude.{◌≡◌, ◌==◌, ◌∷◌, [], drop, map, option_map, refl, Some};
ghost use Rattle.std.specs.Prelude.{IfErr, IfOk, IfSome, IsPermutation};
ghost use Rattle.std.specs.Ordering.{eq_by_cmp};
ghost use Rattle.odb_atoms.specs.FinSet as set;
ghost use Rattle.odb_atoms.specs.FinMap as finite;
ghost use Rattle.odb_atoms.specs.Members as members;
ghost use Rattle.odb_atoms.specs.Members.{excludes_all, has, map_fault, set_fault};
ghost use Rattle.odb_atoms.specs.Members.{value_at, value_cmp};
ghost use Rattle.odb_atoms.specs.Value as model;
ghost use Rattle.odb_atoms.specs.Value.{atoms, map_of, set_of, value_code};
ghost use Rattle.odb_atoms.specs.ColType.{is_a};
ghost use Rattle.odb_atoms.specs.Represented.Atom.{atom_of, kind_in};
ghost use Rattle.odb_atoms.specs.Represented.Value.{AreAscending, AreInOrder, HaveAscendingKeys, ascends, content_of};
ghost use Rattle.odb_atoms.specs.Represented.Value.{HasElements, HasPairs, Lists, each_element, each_pair, map_in, pair_of};
ghost use Rattle.odb_chunks.specs.Represented.Chunks.{items_in, AreFilled};
ghost use Rattle.odb_atoms.specs.Represented.Value.{set_in, value_in};
ghost use Rattle.odb_atoms.specs.Represented.Refused.{refusal_of};
ghost use Rattle.odb_atoms.specs.Represented.ValueOrder.{values_equivalent, values_partial};
ghost use Rattle.odb_atoms.specs.Represented.ValueOrder.{values_partially_equivalent, values_total};

use crate::atom::{Atom, Kind};
use crate::entry::{self, SHARED};
use odb_chunks::{ChunkedList, Items};
use std::alloc::{AllocError, Global};
use std::cmp::Ordering;
use std::marker::Model;
use std::slice;
use std::sync::Arc;
use thiserror::Error;

/// A value of a column (RFC 7047, section 5.1, `<value>`): a finite set of atoms, or a finite map
/// from atoms to atoms. A scalar is a set of one atom.
///
/// A value of one atom takes no memory beside its text; any other keeps its entries in one
/// allocation. From 16 entries on its copies share them, and the last of these drops them: where
/// they lie is one allocation more. What a change makes of a value of 512 entries or more lies in
/// chunks of at most 256, of which the two have those in common in which nothing changed. A `Value`
/// itself is 40 bytes.
#[derive(Drop)]
pub struct Value {
    content: Content,
}

/// Why a list of atoms or pairs makes no value (RFC 7047, section 5.1, `<set>` and `<map>`).
#[derive(Clone, Copy, Debug, Error)]
pub enum ListFault {
    /// The elements, the keys or the values are of several kinds.
    #[error("atoms of several kinds")]
    MixedKinds,
    /// An element or a key stands twice.
    #[error("a repeated element or key")]
    Repeated,
}

/// A list that makes no value: the fault, and the list.
#[derive(Drop)]
pub struct Refused<T> {
    /// Why it makes no value.
    pub fault: ListFault,
    /// What was given, in some order.
    pub entries: T,
}

impl<T> Refused<T> {
    fn new(fault: ListFault, entries: T) -> Refused<T>
        ensures fault { result.fault ≡ fault }
        ensures entries { result.entries ≡ entries }
    {
        Refused { fault, entries }
    }
}

enum Content {
    One(Atom),
    Set(Vec<Atom>),
    Map(Vec<(Atom, Atom)>),
    SharedSet(Arc<Vec<Atom>>),
    SharedMap(Arc<Vec<(Atom, Atom)>>),
    ChunkedSet(Arc<ChunkedList<Atom>>),
    ChunkedMap(Arc<ChunkedList<(Atom, Atom)>>),
}

/// The entries of a value in ascending order: the elements of a set, or the pairs of a map by their
/// keys.
#[derive(Drop)]
pub enum Entries<'a> {
    /// The elements of a set.
    Set(Items<'a, Atom>),
    /// The pairs of a map: the key, and its value.
    Map(Items<'a, (Atom, Atom)>),
}

impl Model for Value {
    ghost use Rattle.odb_atoms.specs.Value as model;
    ghost use Rattle.odb_atoms.specs.Value.{value_code};

    ghost Value = { model.Value };

    ghost coded = { value_code };

    ghost use Rattle.odb_atoms.specs.Represented.Value.{value_of, IsAscending};

    ghost view = { value_of };

    ghost invariant = { IsAscending };
}

impl Value {
    /// Makes the set of one atom, which is what a scalar is. O(1).
    pub fn one(atom: Atom) -> Value
        ensures { result ≡ set_of (atoms (atom_of atom ∷ [])) }
    {
        Value {
            content: Content::One(atom),
        }
    }

    /// Makes the set without elements. O(1); it takes no memory, but keeps the allocator.
    pub fn empty_set(alloc: Global) -> Value
        ensures { result ≡ set_of set.empty }
    {
        Value {
            content: Content::Set(Vec::new(alloc)),
        }
    }

    /// Makes the map without pairs. O(1); it takes no memory, but keeps the allocator.
    pub fn empty_map(alloc: Global) -> Value
        ensures { result ≡ map_of finite.empty }
    {
        Value {
            content: Content::Map(Vec::new(alloc)),
        }
    }

    /// Makes the set of the elements, which may come in any order. O(n log n) for n elements.
    ///
    /// The elements have to be of one kind, and none may stand twice (RFC 7047, section 5.1,
    /// `<set>`). Otherwise they are handed back, in some order, with the fault, of which
    /// `MixedKinds` comes first.
    pub fn set(mut elements: Vec<Atom>) -> Result<Value, Refused<Vec<Atom>>>
        ensures value { IfOk result (λ v. v ≡ set_of (atoms (map atom_of elements.items))) }
        ensures fault { refusal_of result ≡ set_fault (map atom_of elements.items) }
        ensures handed_back { IfErr result (λ r. IsPermutation elements.items r.entries.items) }
    {
        if !are_of_one_kind(&elements) {
            return Err(Refused::new(ListFault::MixedKinds, elements));
        }
        if !entry::sort(&mut elements) {
            return Err(Refused::new(ListFault::Repeated, elements));
        }
        Ok(Value::of_elements(elements))
    }

    /// Makes the map of the pairs, which may come in any order. O(n log n) for n pairs.
    ///
    /// The keys have to be of one kind and the values of one kind, and no key may stand twice (RFC
    /// 7047, section 5.1, `<map>`). Otherwise the pairs are handed back, in some order, with the
    /// fault, of which `MixedKinds` comes first.
    pub fn map(mut pairs: Vec<(Atom, Atom)>) -> Result<Value, Refused<Vec<(Atom, Atom)>>>
        ensures value { IfOk result (λ v. v ≡ map_of (finite.from_entries (map pair_of pairs.items))) }
        ensures fault { refusal_of result ≡ map_fault (map pair_of pairs.items) }
        ensures handed_back { IfErr result (λ r. IsPermutation pairs.items r.entries.items) }
    {
        if !have_one_kind_each(&pairs) {
            return Err(Refused::new(ListFault::MixedKinds, pairs));
        }
        if !entry::sort(&mut pairs) {
            return Err(Refused::new(ListFault::Repeated, pairs));
        }
        Ok(Value::of_pairs(pairs))
    }

    /// Makes the map of one pair. O(1); where memory is refused the atoms are dropped.
    pub(crate) fn one_pair(alloc: Global, key: Atom, value: Atom) -> Result<Value, AllocError>
        ensures { IfOk result (λ v. v ≡ map_of (finite.from_entries ((atom_of key, atom_of value) ∷ []))) }
    {
        let mut pairs = Vec::with_capacity(alloc, 1)?;
        pairs.push((key, value))?;
        Ok(Value::of_pairs(pairs))
    }

    /// Makes the set of ascending elements, of which a lone one moves inline.
    pub(crate) fn of_elements(mut elements: Vec<Atom>) -> Value
        requires { AreAscending elements.items }
        ensures { result ≡ set_in elements.items }
    {
        if elements.len() == 1
            && let Some(atom) = elements.pop()
        {
            return Value::one(atom);
        }
        Value {
            content: set_content(elements),
        }
    }

    /// Makes the set of ascending elements in chunks.
    pub(crate) fn of_element_chunks(
        alloc: Global,
        elements: ChunkedList<Atom>,
    ) -> Result<Value, AllocError>
        requires { AreAscending elements }
        ensures { IfOk result (λ v. v ≡ set_in elements) }
    {
        match Arc::new(alloc, elements) {
            Ok(elements) => Ok(Value {
                content: Content::ChunkedSet(elements),
            }),
            Err(_) => Err(AllocError),
        }
    }

    /// Makes the map of pairs in chunks, whose keys ascend.
    pub(crate) fn of_pair_chunks(
        alloc: Global,
        pairs: ChunkedList<(Atom, Atom)>,
    ) -> Result<Value, AllocError>
        requires { HaveAscendingKeys pairs }
        ensures { IfOk result (λ v. v ≡ map_in pairs) }
    {
        match Arc::new(alloc, pairs) {
            Ok(pairs) => Ok(Value {
                content: Content::ChunkedMap(pairs),
            }),
            Err(_) => Err(AllocError),
        }
    }

    /// Returns the chunks that the elements of a set lie in, where copies share these. O(1).
    pub(crate) fn element_chunks(&self) -> Option<&[Arc<Vec<Atom>>]>
        ensures elements { IfSome result (λ chunks. HasElements (items_in chunks.now) self.now) }
        ensures filled { IfSome result (λ chunks. AreFilled (drop 1 chunks.now)) }
    {
        match &self.content {
            Content::SharedSet(elements) => Some(slice::from_ref(elements)),
            Content::ChunkedSet(elements) => Some(elements.chunks()),
            _ => None,
        }
    }

    /// Returns the chunks that the pairs of a map lie in, where copies share these. O(1).
    pub(crate) fn pair_chunks(&self) -> Option<&[Arc<Vec<(Atom, Atom)>>]>
        ensures pairs { IfSome result (λ chunks. HasPairs (items_in chunks.now) self.now) }
        ensures filled { IfSome result (λ chunks. AreFilled (drop 1 chunks.now)) }
    {
        match &self.content {
            Content::SharedMap(pairs) => Some(slice::from_ref(pairs)),
            Content::ChunkedMap(pairs) => Some(pairs.chunks()),
            _ => None,
        }
    }

    /// Makes the map of pairs whose keys ascend.
    pub(crate) fn of_pairs(pairs: Vec<(Atom, Atom)>) -> Value
        requires { HaveAscendingKeys pairs.items }
        ensures { result ≡ map_in pairs.items }
    {
        Value {
            content: map_content(pairs),
        }
    }

    /// Returns the elements or the pairs, in ascending order. O(1).
    #[inline(always)]
    pub fn entries(&self) -> Entries<'_>
        ensures listed { Lists result self.now }
        ensures value { value_in result ≡ self.now }
        ensures in_order { AreInOrder result }
    {
        match &self.content {
            Content::One(atom) => Entries::Set(Items::of(slice::from_ref(atom))),
            Content::Set(elements) => Entries::Set(Items::of(elements.as_slice())),
            Content::Map(pairs) => Entries::Map(Items::of(pairs.as_slice())),
            Content::SharedSet(elements) => Entries::Set(Items::of(elements.as_slice())),
            Content::SharedMap(pairs) => Entries::Map(Items::of(pairs.as_slice())),
            Content::ChunkedSet(elements) => Entries::Set(elements.items()),
            Content::ChunkedMap(pairs) => Entries::Map(pairs.items()),
        }
    }

    /// Returns the number of elements or pairs. O(1).
    pub fn len(&self) -> usize
        ensures { result ≡ model.size self.now }
    {
        match self.entries() {
            Entries::Set(elements) => elements.len(),
            Entries::Map(pairs) => pairs.len(),
        }
    }

    /// Returns whether there is no element or pair. O(1).
    pub fn is_empty(&self) -> bool
        ensures { result ≡ (model.size self.now == 0) }
    {
        self.len() == 0
    }

    /// Returns whether it is a map, and not a set. O(1).
    pub fn is_map(&self) -> bool
        ensures { result ≡ model.is_map self.now }
    {
        match self.entries() {
            Entries::Set(_) => false,
            Entries::Map(_) => true,
        }
    }

    /// Returns whether the atom is an element of the set, or a key of the map. O(log n) comparisons.
    pub fn contains(&self, atom: &Atom) -> bool
        ensures { result ≡ has self.now (atom_of atom.now) }
    {
        match self.entries() {
            Entries::Set(elements) => entry::find(&elements, atom).is_some(),
            Entries::Map(pairs) => entry::find(&pairs, atom).is_some(),
        }
    }

    /// Returns the value that a map has at the key; a set has none. O(log n) comparisons.
    pub fn get(&self, key: &Atom) -> Option<&Atom>
        ensures { option_map (λ value. atom_of value.now) result ≡ value_at self.now (atom_of key.now) }
    {
        match self.entries() {
            Entries::Set(_) => None,
            Entries::Map(pairs) => {
                let pair = entry::find(&pairs, key)?;
                Some(&pair.1)
            }
        }
    }

    /// Returns whether each element or pair of `other` is in this value, which a set and a map never say of
    /// each other (RFC 7047, section 5.1, `<condition>`: "includes"). O(m + n)
    /// comparisons for m of `other` and n of this, O(m log n) where m is less than n / 16.
    pub fn includes(&self, other: &Value) -> bool
        ensures { result ≡ model.includes_all self.now other.now }
    {
        match (self.entries(), other.entries()) {
            (Entries::Set(all), Entries::Set(wanted)) => entry::includes(&all, &wanted),
            (Entries::Map(all), Entries::Map(wanted)) => entry::includes(&all, &wanted),
            _ => false,
        }
    }

    /// Returns whether no element or pair of `other` is in this value, which a set and a map never say of
    /// each other (RFC 7047, section 5.1, `<condition>`: "excludes"). O(m + n)
    /// comparisons for m of `other` and n of this, O(m log n) where m is less than n / 16.
    pub fn excludes(&self, other: &Value) -> bool
        ensures { result ≡ excludes_all self.now other.now }
    {
        match (self.entries(), other.entries()) {
            (Entries::Set(all), Entries::Set(unwanted)) => entry::excludes(&all, &unwanted),
            (Entries::Map(all), Entries::Map(unwanted)) => entry::excludes(&all, &unwanted),
            _ => false,
        }
    }

    fn has_same_entries(&self, other: &Value) -> bool
        ensures value { result ≡ eq_by_cmp value_cmp self.now other.now }
        ensures same { result ≡ model.same_value self.now other.now }
    {
        match (self.entries(), other.entries()) {
            (Entries::Set(left), Entries::Set(right)) => left.is_same(&right),
            (Entries::Map(left), Entries::Map(right)) => left.is_same(&right),
            _ => false,
        }
    }

    /// Makes an equal value. O(the bytes copied), which are those of 15 entries at most; from 16 on they are shared.
    pub fn try_copy(&self, alloc: Global) -> Result<Value, AllocError>
        ensures { IfOk result (λ copy. copy ≡ self.now) }
    {
        match &self.content {
            Content::One(atom) => Ok(Value::one(atom.try_copy(alloc)?)),
            Content::Set(elements) => {
                let elements = entry::copies(alloc, &Items::of(elements.as_slice()))?;
                Ok(Value::of_elements(elements))
            }
            Content::Map(pairs) => {
                let pairs = entry::copies(alloc, &Items::of(pairs.as_slice()))?;
                Ok(Value::of_pairs(pairs))
            }
            Content::SharedSet(elements) => Ok(Value {
                content: Content::SharedSet(elements.clone()?),
            }),
            Content::SharedMap(pairs) => Ok(Value {
                content: Content::SharedMap(pairs.clone()?),
            }),
            Content::ChunkedSet(elements) => Ok(Value {
                content: Content::ChunkedSet(elements.clone()?),
            }),
            Content::ChunkedMap(pairs) => Ok(Value {
                content: Content::ChunkedMap(pairs.clone()?),
            }),
        }
    }
}

/// Sets come before maps; two sets are compared element by element from the lowest on, and two maps
/// pair by pair, by the keys first.
impl Ord for Value {
    ghost cmp = { value_cmp };

    ghost total = { values_total };

    ghost matches_partial_cmp = { λ _ _. refl };

    ghost matches_eq = { λ _ _. refl };

    fn cmp(&self, other: &Value) -> Ordering {
        match (self.entries(), other.entries()) {
            (Entries::Set(left), Entries::Set(right)) => left.compare(&right),
            (Entries::Set(_), Entries::Map(_)) => Ordering::Less,
            (Entries::Map(_), Entries::Set(_)) => Ordering::Greater,
            (Entries::Map(left), Entries::Map(right)) => left.compare(&right),
        }
    }
}

impl PartialOrd for Value {
    ghost partial_cmp = { λ v w. Some (value_cmp v w) };

    ghost laws = { values_partial };

    fn partial_cmp(&self, other: &Value) -> Option<Ordering> {
        Some(self.cmp(other))
    }
}

impl PartialEq for Value {
    ghost eq = { eq_by_cmp value_cmp };

    ghost laws = { values_partially_equivalent };

    fn eq(&self, other: &Value) -> bool
        ensures value { result ≡ eq_by_cmp value_cmp self.now other.now }
        ensures same { result ≡ model.same_value self.now other.now }
    {
        match (&self.content, &other.content) {
            (Content::One(left), Content::One(right)) => *left == *right,
            _ => self.has_same_entries(other),
        }
    }
}

impl Eq for Value {
    ghost laws = { values_equivalent };
}

/// Keeps ascending elements, from `SHARED` on so that copies share them, unless memory for that is refused.
fn set_content(elements: Vec<Atom>) -> Content
    requires { AreAscending elements.items }
    ensures content { content_of result ≡ set_in elements.items }
    ensures ascends { ascends result }
{
    if elements.len() < SHARED {
        return Content::Set(elements);
    }
    match Arc::new(*elements.allocator(), elements) {
        Ok(shared) => Content::SharedSet(shared),
        Err(refused) => Content::Set(refused.value),
    }
}

/// Keeps pairs whose keys ascend, as `set_content` does elements.
fn map_content(pairs: Vec<(Atom, Atom)>) -> Content
    requires { HaveAscendingKeys pairs.items }
    ensures content { content_of result ≡ map_in pairs.items }
    ensures ascends { ascends result }
{
    if pairs.len() < SHARED {
        return Content::Map(pairs);
    }
    match Arc::new(*pairs.allocator(), pairs) {
        Ok(shared) => Content::SharedMap(shared),
        Err(refused) => Content::Map(refused.value),
    }
}

/// Returns whether the elements are of the first one's kind.
fn are_of_one_kind(elements: &[Atom]) -> bool
    ensures { result ≡ members.are_of_one_kind (map atom_of elements.now) }
{
    match elements {
        [] => true,
        [first, rest @ ..] => are_all_a(&Items::of(rest), first.kind()),
    }
}

/// Returns whether the keys are of the first one's kind, and the values too.
fn have_one_kind_each(pairs: &[(Atom, Atom)]) -> bool
    ensures { result ≡ members.have_one_kind_each (map pair_of pairs.now) }
{
    match pairs {
        [] => true,
        [first, rest @ ..] => are_all_pairs_of(&Items::of(rest), first.0.kind(), first.1.kind()),
    }
}

/// Returns whether each element is of the kind.
pub(crate) fn are_all_a(elements: &Items<'_, Atom>, kind: Kind) -> bool
    ensures { result ≡ each_element (is_a (kind_in kind)) elements.now }
{
    elements.iter().all(|atom| atom.is_a(kind))
}

/// Returns whether each of the ascending elements is of the kind, which those in between are where the first and the last
/// are, as atoms are ordered by kind first. O(1).
pub(crate) fn are_within(elements: &Items<'_, Atom>, kind: Kind) -> bool
    requires { AreAscending elements.now }
    ensures { result ≡ each_element (is_a (kind_in kind)) elements.now }
{
    let Some(first) = elements.first() else {
        return true;
    };
    let Some(last) = elements.last() else {
        return true;
    };
    if !first.is_a(kind) {
        return false;
    }
    last.is_a(kind)
}

/// Returns whether each key and each value is of its kind.
pub(crate) fn are_all_pairs_of(pairs: &Items<'_, (Atom, Atom)>, key: Kind, value: Kind) -> bool
    ensures { result ≡ each_pair (is_a (kind_in key)) (is_a (kind_in value)) pairs.now }
{
    pairs
        .iter()
        .all(|pair| pair.0.is_a(key) && pair.1.is_a(value))
}

// Written, and not derived, so that each end of a scope is one call to prove.
impl Drop for Content {
    fn drop(self) {
        match self {
            Content::One(_) => {}
            Content::Set(_) => {}
            Content::Map(_) => {}
            Content::SharedSet(_) => {}
            Content::SharedMap(_) => {}
            Content::ChunkedSet(_) => {}
            Content::ChunkedMap(_) => {}
        }
    }
}
