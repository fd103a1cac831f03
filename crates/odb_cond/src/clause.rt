//! One condition (RFC 7047, section 5.1, `<condition>`): a column, a function and a value. [P 3.1]

ghost use Rattle.std.specs.Prelude.{◌≡◌, option_map, IfOk, IfSome, IsTrue};
ghost use Rattle.std.specs.Bool.{Decides, OnTrue};
ghost use Rattle.std.specs.List.{list_any};
ghost use Rattle.odb_atoms.specs.FinSet as set;
ghost use Rattle.odb_atoms.specs.Represented.Atom.{atom_of, uuid_of};
ghost use Rattle.odb_atoms.specs.Row as model_row;
ghost use Rattle.odb_atoms.specs.Row.{cell, declared};
ghost use Rattle.odb_atoms.specs.Uuid as model_uuid;
ghost use Rattle.odb_atoms.specs.Value.{same_value, set_of};
ghost use Rattle.odb_cond.specs.Condition as model;
ghost use Rattle.odb_cond.specs.Pinned.{pinned_by, uuid_in};
ghost use Rattle.odb_cond.specs.Represented.Clause.{function_of, selector_of, some_stands, test_of};
ghost use Rattle.odb_cond.specs.Represented.Keyed.{one};

use odb_atoms::{Atom, Entries, Row, Value};
use odb_chunks::Items;
use std::alloc::{AllocError, Global};
use std::cmp::Ordering;
use std::marker::Model;
use uuid::Uuid;

/// A column of a row: one of the two that every table has, or a declared one (RFC 7047, section
/// 3.2).
#[derive(Clone, Copy, PartialEq, Eq)]
pub enum Selector {
    /// `_uuid`.
    Uuid,
    /// `_version`.
    Version,
    /// The declared column at the place, from 0, in the order of the columns' names.
    Declared(usize),
}

/// How a column has to stand to the value of a condition (RFC 7047, section 5.1, `<function>`).
#[derive(Clone, Copy, PartialEq, Eq)]
pub enum Function {
    /// `<`.
    Less,
    /// `<=`.
    LessOrEqual,
    /// `==`: the same elements or pairs.
    Equal,
    /// `!=`: other elements or pairs.
    NotEqual,
    /// `>=`.
    GreaterOrEqual,
    /// `>`.
    Greater,
    /// `includes`: the column has each element or pair of the value.
    Includes,
    /// `excludes`: the column has no element or pair of the value.
    Excludes,
}

/// A condition on a row (RFC 7047, section 5.1, `<condition>`).
#[derive(Drop)]
pub struct Clause {
    column: Selector,
    function: Function,
    value: Value,
}

impl Model for Clause {
    ghost use Rattle.odb_cond.specs.Condition as model;

    ghost Value = { model.Clause };

    ghost use Rattle.odb_cond.specs.Represented.Clause.{clause_of};

    ghost view = { clause_of };
}

impl Clause {
    /// Makes the condition that the column stands so to the value. O(1).
    ///
    /// Any function and any value may be given. The protocol has the ordered functions on integer
    /// scalars alone (RFC 7047, section 5.1), which is for the reader to test.
    pub fn new(column: Selector, function: Function, value: Value) -> Clause
        ensures { result ≡ record {
          column = selector_of column;
          function = function_of function;
          value = value;
        } }
    {
        Clause {
            column,
            function,
            value,
        }
    }

    /// Returns the column that it tests (RFC 7047, section 5.1, `<column>`). O(1).
    pub fn column(&self) -> Selector
        ensures { selector_of result ≡ self.now.column }
    {
        self.column
    }

    /// Returns how the column has to stand to the value (RFC 7047, section 5.1, `<function>`). O(1).
    pub fn function(&self) -> Function
        ensures { function_of result ≡ self.now.function }
    {
        self.function
    }

    /// Returns the value to which the column has to stand so (RFC 7047, section 5.1, `<value>`). O(1).
    pub fn value(&self) -> &Value
        ensures { result.now ≡ self.now.value }
    {
        &self.value
    }

    /// Returns whether the two are the same condition.
    pub(crate) fn same(&self, other: &Clause) -> bool
        ensures { Decides result (self.now ≡ other.now) }
    {
        self.asks_alike(other) && self.value == other.value
    }

    /// Returns whether the two have the same column and the same function.
    fn asks_alike(&self, other: &Clause) -> bool
        ensures { Decides result ((self.now.column ≡ other.now.column) × (self.now.function ≡ other.now.function)) }
    {
        self.column == other.column && self.function == other.function
    }

    /// Returns whether it holds of the row with the identifier (RFC 7047, section 5.1, `<condition>`).
    ///
    /// A set and a map never include or exclude each other, and aren't equal. A declared column
    /// past the row's counts as the empty set.
    ///
    /// O(the sizes of the column and of the value) comparisons of atoms, for an ordered function
    /// O(their product), which is 1 on scalars.
    pub fn holds(&self, uuid: Uuid, row: &Row) -> bool
        ensures { result ≡ model.holds self.now (uuid_of uuid) row.now }
    {
        match self.column {
            Selector::Uuid => self.holds_of(&Value::one(Atom::Uuid(uuid))),
            Selector::Version => self.holds_of(&Value::one(Atom::Uuid(row.version()))),
            Selector::Declared(place) => match row.get(place) {
                Some(value) => self.holds_of(value),
                None => self.holds_of_nothing(),
            },
        }
    }

    #[tactic(auto, using(crate::proofs::Relations::equality))]
    fn holds_of(&self, column: &Value) -> bool
        ensures { result ≡ model.relates self.now.function column.now self.now.value }
    {
        match self.function {
            Function::Equal => *column == self.value,
            Function::NotEqual => *column != self.value,
            Function::Includes => column.includes(&self.value),
            Function::Excludes => column.excludes(&self.value),
            ordered => ordered.compares(column, &self.value),
        }
    }

    /// Returns whether it holds of the empty set.
    #[tactic(auto, using(crate::proofs::Relations::of_nothing))]
    fn holds_of_nothing(&self) -> bool
        ensures { result ≡ model.relates self.now.function (set_of set.empty) self.now.value }
    {
        match self.function {
            Function::Equal | Function::Includes => self.wants_nothing(),
            Function::NotEqual => !self.wants_nothing(),
            Function::Excludes => !self.value.is_map(),
            Function::Less | Function::LessOrEqual => false,
            Function::GreaterOrEqual | Function::Greater => false,
        }
    }

    /// Returns whether the value is the empty set.
    #[tactic(auto, using(crate::proofs::Relations::nothing_wanted))]
    fn wants_nothing(&self) -> bool
        ensures { result ≡ same_value (set_of set.empty) self.now.value }
    {
        self.value.is_empty() && !self.value.is_map()
    }

    /// Returns the identifier that it wants `_uuid` to be, if it wants one by `==` or `includes`.
    pub(crate) fn pinned(&self) -> Option<Uuid>
        ensures { option_map uuid_of result ≡ pinned_by self.now }
    {
        match (self.column, self.function) {
            (Selector::Uuid, Function::Equal) => lone_uuid(&self.value),
            (Selector::Uuid, Function::Includes) => lone_uuid(&self.value),
            _ => None,
        }
    }

    /// Returns the value that the declared column at the place has where it holds, if it asks it by `==`.
    pub(crate) fn required(&self, place: usize) -> Option<&Value>
        ensures { IfSome result (λ value. (u : model_uuid.Uuid) (r : model_row.Row)
            → IsTrue (model.holds self.now u r) → cell u r (declared place) ≡ value.now) }
    {
        if !self.is_equality_at(place) {
            return None;
        }
        Some(&self.value)
    }

    /// Returns whether it is a condition `==` on the declared column at the place.
    fn is_equality_at(&self, place: usize) -> bool
        ensures { OnTrue result ((self.now.column ≡ declared place) × (self.now.function ≡ model.equal)) }
    {
        match (self.column, self.function) {
            (Selector::Declared(column), Function::Equal) => column == place,
            _ => false,
        }
    }

    /// Makes an equal condition. O(the bytes copied).
    pub fn try_copy(&self, alloc: Global) -> Result<Clause, AllocError>
        ensures { IfOk result (λ copy. copy ≡ self.now) }
    {
        Ok(Clause {
            column: self.column,
            function: self.function,
            value: self.value.try_copy(alloc)?,
        })
    }
}

impl Function {
    /// Returns whether some atom of a set stands so to some atom of the other, by an ordered function.
    fn compares(self, column: &Value, value: &Value) -> bool
        ensures { result ≡ model.compares (test_of self) column.now value.now }
    {
        match (column.entries(), value.entries()) {
            (Entries::Set(atoms), Entries::Set(others)) => self.holds_of_some(&atoms, &others),
            _ => false,
        }
    }

    fn holds_of_some(self, atoms: &Items<'_, Atom>, others: &Items<'_, Atom>) -> bool
        ensures { result ≡ list_any (λ a. some_stands (test_of self) (atom_of a) others.now) atoms.now }
    {
        atoms.iter().any(|atom| self.holds_of_atom(atom, others))
    }

    fn holds_of_atom(self, atom: &Atom, others: &Items<'_, Atom>) -> bool
        ensures { result ≡ some_stands (test_of self) (atom_of atom.now) others.now }
    {
        others.iter().any(|other| self.allows(atom.cmp(other)))
    }

    /// Returns whether an ordered function holds of atoms in this order.
    fn allows(self, order: Ordering) -> bool
        ensures { result ≡ test_of self order }
    {
        match self {
            Function::Less => order.is_lt(),
            Function::LessOrEqual => order.is_le(),
            Function::GreaterOrEqual => order.is_ge(),
            Function::Greater => order.is_gt(),
            Function::Equal | Function::NotEqual => false,
            Function::Includes | Function::Excludes => false,
        }
    }
}

/// Returns the one element of a set, if it is an identifier.
fn lone_uuid(value: &Value) -> Option<Uuid>
    ensures { option_map uuid_of result ≡ uuid_in value.now }
{
    match value.entries() {
        Entries::Set(elements) => match elements.lone() {
            Some(Atom::Uuid(uuid)) => Some(*uuid),
            _ => None,
        },
        Entries::Map(_) => None,
    }
}

/// Returns the one element of a set, if it has just one.
pub(crate) fn lone_atom(value: &Value) -> Option<&Atom>
    ensures { IfSome result (λ atom. value.now ≡ one (atom_of atom.now)) }
{
    match value.entries() {
        Entries::Set(elements) => elements.lone(),
        Entries::Map(_) => None,
    }
}
