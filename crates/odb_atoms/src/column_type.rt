//! Column types (RFC 7047, section 3.2, `<type>` and `<base-type>`): what they admit, and their
//! defaults. [P 1.3, 2.4, 2.6]

ghost use Rattle.std.specs.Prelude.{◌≡◌, ◌&&◌, false, length, chars, pos, int_le, IfOk, ℤ};
ghost use Rattle.odb_atoms.specs.Atom.{integer, text, zero_atom};
ghost use Rattle.odb_atoms.specs.ColType as model;
ghost use Rattle.odb_atoms.specs.Value as model_value;
ghost use Rattle.odb_atoms.specs.Value.{set_of};
ghost use Rattle.odb_atoms.specs.Represented.Atom.{atom_of, kind_in};
ghost use Rattle.odb_atoms.specs.Represented.Value.{each_element, each_pair};
ghost use Rattle.odb_atoms.specs.Represented.ColType.{base_of, reference_of, refused_for, type_of};

use crate::atom::{Atom, Kind};
use crate::value::{self, Entries, Value};
use odb_chunks::Items;
use std::alloc::{AllocError, Global};
use std::marker::Model;
use thiserror::Error;

/// The type of a column (RFC 7047, section 3.2, `<type>`).
///
/// It admits sets of `key`, or, where `value` is given, maps from `key` to `value`, of at least
/// `min` and at most `max` elements or pairs. A scalar is a set with `min` and `max` 1.
pub struct ColType {
    /// `key`: the type of the elements, or of a map's keys.
    pub key: Base,
    /// `value`: the type of a map's values.
    pub value: Option<Base>,
    /// `min`, which the RFC has as 0 or 1.
    pub min: u32,
    /// `max`: at least 1; `None` is "unlimited".
    pub max: Option<u32>,
}

/// An atomic type with its constraints (RFC 7047, section 3.2, `<base-type>`), of which all must
/// hold.
pub struct Base {
    /// `type`.
    pub kind: Kind,
    /// `enum`: the atoms that are allowed.
    pub allowed: Option<Enumeration>,
    /// `minInteger`: the smallest integer.
    pub min_integer: Option<i64>,
    /// `maxInteger`: the largest integer.
    pub max_integer: Option<i64>,
    /// `minLength`: the least number of characters (Unicode scalar values) of a string.
    pub min_length: Option<i64>,
    /// `maxLength`: the largest number of characters of a string.
    pub max_length: Option<i64>,
    /// `refTable` and `refType`: the table that an identifier refers to. It is no part of what a
    /// value is admitted by.
    pub reference: Option<Reference>,
}

/// A reference to the rows of a table (RFC 7047, section 3.2, `refTable` and `refType`).
pub struct Reference {
    /// The name of the table.
    pub table: String,
    /// Whether `refType` is "weak", and not "strong".
    pub weak: bool,
}

/// The atoms that an `enum` allows (RFC 7047, section 3.2): a set.
#[derive(Drop)]
pub struct Enumeration {
    atoms: Value,
}

/// Why a type does not admit a value.
#[derive(Clone, Copy, Debug, Error)]
pub enum Admit {
    /// Fewer than `min` elements or pairs.
    #[error("too few elements")]
    TooFew,
    /// More than `max` elements or pairs.
    #[error("too many elements")]
    TooMany,
    /// An atom breaks a constraint of its base type.
    #[error("a broken constraint")]
    Constraint,
    /// A set for a map or a map for a set, or an atom of another kind.
    #[error("a value of another type")]
    Kind,
}

impl Model for Enumeration {
    ghost use Rattle.odb_atoms.specs.FinSet as set;
    ghost use Rattle.odb_atoms.specs.Atom.{atom_code};
    ghost use Rattle.odb_atoms.specs.Value.{Atoms};

    ghost Value = { Atoms };

    ghost coded = { set.code atom_code };

    ghost use Rattle.odb_atoms.specs.Represented.Enumeration.{atoms_of, IsSet};

    ghost view = { atoms_of };

    ghost invariant = { IsSet };
}

impl Enumeration {
    /// Makes an enumeration of the elements of a set. O(1).
    pub fn new(atoms: Value) -> Enumeration
        requires { model_value.is_map atoms ≡ false }
        ensures { set_of result ≡ atoms }
    {
        Enumeration { atoms }
    }

    /// Returns the atoms, as a set. O(1).
    pub fn atoms(&self) -> &Value
        ensures { result.now ≡ set_of self.now }
    {
        &self.atoms
    }

    /// Makes an equal enumeration. O(the bytes copied).
    pub fn try_copy(&self, alloc: Global) -> Result<Enumeration, AllocError>
        ensures { IfOk result (λ copy. copy ≡ self.now) }
    {
        Ok(Enumeration::new(self.atoms().try_copy(alloc)?))
    }
}

impl Reference {
    /// Makes an equal reference. O(the bytes copied).
    pub fn try_copy(&self, alloc: Global) -> Result<Reference, AllocError>
        ensures { IfOk result (λ copy. reference_of copy ≡ reference_of self.now) }
    {
        Ok(Reference {
            table: String::from_str(alloc, self.table.as_str())?,
            weak: self.weak,
        })
    }
}

impl Base {
    /// Returns the kind without constraints. O(1).
    pub fn plain(kind: Kind) -> Base
        ensures { base_of result ≡ model.plain (kind_in kind) }
    {
        Base {
            kind,
            allowed: None,
            min_integer: None,
            max_integer: None,
            min_length: None,
            max_length: None,
            reference: None,
        }
    }

    /// Returns whether the atom meets the constraints, its kind aside. O(log e) comparisons for an `enum`
    /// of e atoms, and O(the bytes) of a string whose length has a bound.
    pub fn meets(&self, atom: &Atom) -> bool
        ensures { result ≡ model.meets (base_of self.now) (atom_of atom.now) }
    {
        self.enumerates(atom) && self.bounds(atom)
    }

    /// Returns whether each atom meets the constraints, as there is neither an `enum` nor a bound. O(1).
    fn is_free(&self) -> bool
        ensures { result ≡ model.is_free (base_of self.now) }
    {
        self.allowed.is_none()
            && self.min_integer.is_none()
            && self.max_integer.is_none()
            && self.min_length.is_none()
            && self.max_length.is_none()
    }

    fn enumerates(&self, atom: &Atom) -> bool
        ensures { result ≡ model.in_enum (base_of self.now).enum (atom_of atom.now) }
    {
        match &self.allowed {
            None => true,
            Some(allowed) => allowed.atoms().contains(atom),
        }
    }

    fn bounds(&self, atom: &Atom) -> bool
        ensures { result ≡ model.in_bounds (base_of self.now) (atom_of atom.now) }
    {
        match atom {
            Atom::Integer(integer) => is_within(
                self.min_integer,
                self.max_integer,
                i128::from(*integer),
            ),
            Atom::Text(text) => self.bounds_length(text.as_str()),
            Atom::SharedText(text) => self.bounds_length(text.as_str()),
            Atom::Boolean(_) | Atom::Uuid(_) => true,
        }
    }

    /// Returns whether the string is as long as the type wants. Its characters are counted where there is a
    /// bound.
    fn bounds_length(&self, string: &str) -> bool
        ensures { result ≡ model.in_bounds (base_of self.now) (text string.now) }
    {
        match (self.min_length, self.max_length) {
            (None, None) => true,
            (min, max) => is_within(min, max, character_count(string) as i128),
        }
    }

    /// Makes an equal base type. O(the bytes copied).
    pub fn try_copy(&self, alloc: Global) -> Result<Base, AllocError>
        ensures { IfOk result (λ copy. base_of copy ≡ base_of self.now) }
    {
        let allowed = match &self.allowed {
            None => None,
            Some(allowed) => Some(allowed.try_copy(alloc)?),
        };
        let reference = match &self.reference {
            None => None,
            Some(reference) => Some(reference.try_copy(alloc)?),
        };
        Ok(Base {
            kind: self.kind,
            allowed,
            min_integer: self.min_integer,
            max_integer: self.max_integer,
            min_length: self.min_length,
            max_length: self.max_length,
            reference,
        })
    }
}

fn character_count(text: &str) -> usize
    ensures { result ≡ length (chars text.now) }
{
    text.chars().count()
}

fn is_within(min: Option<i64>, max: Option<i64>, number: i128) -> bool
    ensures { result ≡ (model.at_least int_le min number && model.at_most int_le max number) }
{
    min.is_none_or(|min| i128::from(min) <= number)
        && max.is_none_or(|max| number <= i128::from(max))
}

impl ColType {
    /// Returns the scalar of the kind without constraints (RFC 7047, section 3.2, `<type>`): the type of
    /// `_uuid` and `_version`, for one. O(1).
    pub fn scalar(kind: Kind) -> ColType
        ensures { type_of result ≡ model.scalar (kind_in kind) }
    {
        ColType {
            key: Base::plain(kind),
            value: None,
            min: 1,
            max: Some(1),
        }
    }

    /// Returns whether `max` is 1, so that a difference is the new value itself (ovsdb-server(7), update2).
    /// O(1).
    pub fn is_single(&self) -> bool
        ensures { result ≡ model.is_single (type_of self.now) }
    {
        self.max == Some(1)
    }

    /// Returns whether it is a scalar (RFC 7047, section 3.2, `<type>`): neither a set nor a map, but of
    /// exactly one element. O(1).
    pub fn is_scalar(&self) -> bool
        ensures { result ≡ model.is_scalar (type_of self.now) }
    {
        self.is_single() && self.min == 1 && self.value.is_none()
    }

    /// Makes an equal type. O(the bytes copied).
    pub fn try_copy(&self, alloc: Global) -> Result<ColType, AllocError>
        ensures { IfOk result (λ copy. type_of copy ≡ type_of self.now) }
    {
        let key = self.key.try_copy(alloc)?;
        let value = match &self.value {
            None => None,
            Some(value) => Some(value.try_copy(alloc)?),
        };
        Ok(ColType {
            key,
            value,
            min: self.min,
            max: self.max,
        })
    }
}

impl Value {
    /// Returns whether the type admits the value (RFC 7047, section 3.2), or else the first of these
    /// faults: `Kind` for a set in place of a map, a map in place of a set, or an atom of another
    /// kind; `TooFew`; `TooMany`; `Constraint`.
    ///
    /// O(n) for n elements or pairs, times O(log e) for an `enum` of e atoms.
    pub fn admit(&self, column: &ColType) -> Result<(), Admit>
        ensures { refused_for result ≡ model.admit_fault (type_of column.now) self.now }
    {
        if !self.is_of_kind(column) {
            return Err(Admit::Kind);
        }
        if self.len() < column.min as usize {
            return Err(Admit::TooFew);
        }
        if column.max.is_some_and(|max| self.len() > max as usize) {
            return Err(Admit::TooMany);
        }
        if !self.meets_constraints(column) {
            return Err(Admit::Constraint);
        }
        Ok(())
    }

    fn is_of_kind(&self, column: &ColType) -> bool
        ensures { result ≡ model.has_kind (type_of column.now) self.now }
    {
        match (self.entries(), &column.value) {
            (Entries::Set(elements), None) => value::are_within(&elements, column.key.kind),
            (Entries::Map(pairs), Some(value)) => value::are_all_pairs_of(
                &pairs,
                column.key.kind,
                value.kind,
            ),
            _ => false,
        }
    }

    fn meets_constraints(&self, column: &ColType) -> bool
        ensures { result ≡ model.meets_constraints (type_of column.now) self.now }
    {
        match self.entries() {
            Entries::Set(elements) => all_meet(&elements, &column.key),
            Entries::Map(pairs) => {
                let value = column.value.as_ref().unwrap_or(&column.key);
                all_pairs_meet(&pairs, &column.key, value)
            }
        }
    }
}

/// Returns the default of a column (RFC 7047, section 5.2.1): the empty set or map where `min` is 0, and
/// else one element or pair of 0, `false`, the empty string or the zero UUID. O(1); only a map
/// takes memory.
pub fn default_of(alloc: Global, column: &ColType) -> Result<Value, AllocError>
    ensures { IfOk result (λ v. v ≡ model.default_of (type_of column.now)) }
{
    let key = column.key.kind;
    match &column.value {
        None if column.min == 0 => Ok(Value::empty_set(alloc)),
        None => Ok(Value::one(Atom::zero(alloc, key))),
        Some(_) if column.min == 0 => Ok(Value::empty_map(alloc)),
        Some(value) => Value::one_pair(
            alloc,
            Atom::zero(alloc, key),
            Atom::zero(alloc, value.kind),
        ),
    }
}

fn all_meet(elements: &Items<'_, Atom>, base: &Base) -> bool
    ensures { result ≡ each_element (model.meets (base_of base.now)) elements.now }
{
    if base.is_free() {
        return true;
    }
    elements.iter().all(|atom| base.meets(atom))
}

fn all_pairs_meet(pairs: &Items<'_, (Atom, Atom)>, key: &Base, value: &Base) -> bool
    ensures { result
        ≡ each_pair (model.meets (base_of key.now)) (model.meets (base_of value.now)) pairs.now }
{
    if key.is_free() && value.is_free() {
        return true;
    }
    pairs
        .iter()
        .all(|pair| key.meets(&pair.0) && value.meets(&pair.1))
}

// Written, and not derived, so that each end of a scope is one call to prove.
impl Drop for Base {
    fn drop(self) {
        let Base {
            kind: _,
            allowed: _,
            min_integer: _,
            max_integer: _,
            min_length: _,
            max_length: _,
            reference: _,
        } = self;
    }
}

// Written, and not derived, so that each end of a scope is one call to prove.
impl Drop for ColType {
    fn drop(self) {
        let ColType {
            key: _,
            value: _,
            min: _,
            max: _,
        } = self;
    }
}

// Written, and not derived, so that each end of a scope is one call to prove.
impl Drop for Reference {
    fn drop(self) {
        let Reference { table: _, weak: _ } = self;
    }
}
