//! The conditions of an operation, its `where` (RFC 7047, section 5.2). [P 3.1]

ghost use Rattle.std.specs.Prelude.{◌≡◌, option_map, IfSome, IsTrue};
ghost use Rattle.odb_atoms.specs.Represented.Atom.{uuid_of};
ghost use Rattle.odb_atoms.specs.Row as model_row;
ghost use Rattle.odb_atoms.specs.Row.{cell, declared};
ghost use Rattle.odb_atoms.specs.Uuid as model_uuid;
ghost use Rattle.odb_cond.specs.Condition.{holds_all};
ghost use Rattle.odb_cond.specs.Pinned.{pinned};

use crate::clause::Clause;
use odb_atoms::{Row, Value};
use std::marker::Model;
use uuid::Uuid;

/// The `where` of an operation (RFC 7047, section 5.2.2): conditions that all have to hold, so that
/// none at all selects every row.
#[derive(Drop)]
pub struct Where {
    clauses: Vec<Clause>,
}

impl Model for Where {
    ghost use Rattle.std.specs.Prelude.{List};
    ghost use Rattle.odb_cond.specs.Condition as model;

    ghost Value = { List model.Clause };

    ghost view = { λ a. a.clauses.items };
}

impl Where {
    /// Makes the `where` with these conditions. O(1).
    pub fn new(clauses: Vec<Clause>) -> Where
        ensures { result ≡ clauses.items }
    {
        Where { clauses }
    }

    /// Returns whether each condition holds of the row with the identifier (RFC 7047, section 5.2.2).
    ///
    /// O(the conditions, times the sizes of their columns and values), as `Clause::holds` says it.
    pub fn holds(&self, uuid: Uuid, row: &Row) -> bool
        ensures { result ≡ holds_all self.now (uuid_of uuid) row.now }
    {
        self.clauses.iter().all(|clause| clause.holds(uuid, row))
    }

    /// Returns the identifier that the first condition on `_uuid` pins by `==` or `includes` of one
    /// identifier, if there is such a condition: the rows that match are then this one or none.
    ///
    /// O(the conditions).
    pub fn pinned(&self) -> Option<Uuid>
        ensures first { option_map uuid_of result ≡ pinned self.now }
        ensures no_other_row_matches { IfSome result (λ uuid.
            (u : model_uuid.Uuid) (r : model_row.Row)
            → IsTrue (holds_all self.now u r) → u ≡ uuid_of uuid) }
    {
        for clause in &self.clauses {
            if let Some(uuid) = clause.pinned() {
                return Some(uuid);
            }
        }
        None
    }

    /// Returns the value that the declared column at the place has in each row that matches, by the first
    /// condition that asks it by `==`, if there is such a condition.
    ///
    /// O(the conditions).
    pub fn required(&self, place: usize) -> Option<&Value>
        ensures in_each_match { IfSome result (λ value.
            (u : model_uuid.Uuid) (r : model_row.Row)
            → IsTrue (holds_all self.now u r) → cell u r (declared place) ≡ value.now) }
    {
        for clause in &self.clauses {
            if let Some(value) = clause.required(place) {
                return Some(value);
            }
        }
        None
    }
}
