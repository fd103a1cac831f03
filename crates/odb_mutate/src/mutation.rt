//! Mutations (RFC 7047, section 5.1, `<mutation>`). [P 3.3]

ghost use Rattle.std.specs.Prelude.{◌≡◌, map, IfOk, IsTrue, Ok};
ghost use Rattle.odb_atoms.specs.Atom.{integers};
ghost use Rattle.odb_atoms.specs.ColType.{has_kind, is_a};
ghost use Rattle.odb_atoms.specs.Represented.Atom.{atom_of};
ghost use Rattle.odb_atoms.specs.Represented.ColType.{type_of};
ghost use Rattle.odb_atoms.specs.Represented.Value.{each_element};
ghost use Rattle.odb_atoms.specs.Value.{is_map};
ghost use Rattle.odb_mutate.specs.Mutation as model;
ghost use Rattle.odb_mutate.specs.Mutation.{admitted, mutate, result_of, set_of_results};
ghost use Rattle.odb_mutate.specs.Represented.Kinds.{AreAlike, AreIntegers, HasKinds, HasOneElement};
ghost use Rattle.odb_mutate.specs.Represented.Mutation.{answered, mutator_of, operator_of};
ghost use Rattle.odb_mutate.specs.MutationTyping.{takes};

use crate::operator::Operator;
use crate::{elements, pairs};
use odb_atoms::{Atom, ColType, Entries, Value, changed};
use std::alloc::{AllocError, Global};
use std::marker::Model;
use thiserror::Error;

/// The most elements or pairs that a value may have.
const MAX_ELEMENTS: usize = 65_536;

/// What a mutation does (RFC 7047, section 5.1, `<mutator>`).
#[derive(Clone, Copy)]
pub enum Mutator {
    /// `+=`, `-=`, `*=`, `/=` or `%=`, of each element.
    Calculate(Operator),
    /// `insert`: adds the elements, or the pairs whose key is absent.
    Insert,
    /// `delete`: takes out elements, keys or pairs.
    Delete,
}

/// Why a mutation makes no value (RFC 7047, section 5.2.4).
///
/// Where rows fail differently, the operation has the lowest of their faults, in this order.
#[derive(Clone, Copy, Debug, PartialEq, Eq, PartialOrd, Ord, Error)]
pub enum MutationFault {
    /// A zero divisor.
    #[error("domain error")]
    DomainError,
    /// A result outside 64 bits.
    #[error("range error")]
    RangeError,
    /// More than 65,536 elements or pairs.
    #[error("resources exhausted")]
    ResourcesExhausted,
    /// Elements that became equal, or a value that the column's type doesn't admit.
    #[error("constraint violation")]
    ConstraintViolation,
}

/// A change of a column (RFC 7047, section 5.1, `<mutation>`).
#[derive(Drop)]
pub struct Mutation {
    column: usize,
    mutator: Mutator,
    value: Value,
}

impl Model for Mutation {
    ghost use Rattle.odb_mutate.specs.Mutation as model;

    ghost Value = { model.Mutation };

    ghost use Rattle.odb_mutate.specs.Represented.Mutation.{mutation_of};

    ghost view = { mutation_of };
}

impl Mutation {
    /// Makes the mutation of the declared column at the place, from 0, in the order of the columns'
    /// names. O(1).
    pub fn new(column: usize, mutator: Mutator, value: Value) -> Mutation
        ensures { result ≡ record {
          column = column;
          mutator = mutator_of mutator;
          value = value;
        } }
    {
        Mutation {
            column,
            mutator,
            value,
        }
    }

    /// Returns the place of the declared column that it changes, from 0. O(1).
    pub fn column(&self) -> usize
        ensures { result ≡ self.now.column }
    {
        self.column
    }

    /// Returns what the mutation makes of a value of a column of the type (RFC 7047, section 5.1,
    /// `<mutation>`), or else the first of these faults:
    ///
    /// - `DomainError` for a zero divisor, and `RangeError` for a result outside 64 bits, element by
    ///   element in ascending order, so that an empty set has neither. `-2^63 / -1` is out of range,
    ///   and `-2^63 % -1` is 0.
    /// - `ConstraintViolation` where arithmetic makes two elements equal.
    /// - `ResourcesExhausted` for more than 65,536 elements or pairs.
    /// - `ConstraintViolation` for any other value that the type doesn't admit.
    ///
    /// The value has to be of the type's kind, and the mutation has to suit the type.
    ///
    /// For m elements or pairs of the value and n of the operand, `insert` and `delete` cost O(n log m)
    /// comparisons and the entries copied, arithmetic O(m log m) comparisons. An error of the outer
    /// result says that there was no memory.
    pub fn on(
        &self,
        alloc: Global,
        value: &Value,
        column: &ColType,
    ) -> Result<Result<Value, MutationFault>, AllocError>
        requires kind { IsTrue (has_kind (type_of column.now) value.now) }
        requires suits { IsTrue (takes (type_of column.now) self.now.mutator self.now.value) }
        ensures { IfOk result (λ mutated. answered (λ v. v) mutated
            ≡ mutate self.now.mutator self.now.value (type_of column.now) value.now) }
    {
        let mutated = match self.mutator {
            Mutator::Calculate(operator) => calculate(alloc, operator, value, &self.value)?,
            Mutator::Insert => Ok(insert(alloc, value, &self.value)?),
            Mutator::Delete => Ok(delete(alloc, value, &self.value)?),
        };
        match mutated {
            Ok(new) => Ok(admitted(new, column)),
            Err(fault) => Ok(Err(fault)),
        }
    }
}

/// Returns the value, if it is within the limit and the type admits it.
fn admitted(new: Value, column: &ColType) -> Result<Value, MutationFault>
    ensures { answered (λ v. v) result ≡ admitted (type_of column.now) new }
{
    if new.len() > MAX_ELEMENTS {
        return Err(MutationFault::ResourcesExhausted);
    }
    if new.admit(column).is_err() {
        return Err(MutationFault::ConstraintViolation);
    }
    Ok(new)
}

/// Returns the elements of a set, each calculated with the one operand.
fn calculate(
    alloc: Global,
    operator: Operator,
    value: &Value,
    operand: &Value,
) -> Result<Result<Value, MutationFault>, AllocError>
    requires integers { AreIntegers value.now }
    requires integer { AreIntegers operand.now }
    requires operand { HasOneElement operand.now }
    ensures { IfOk result (λ calculated. answered (λ v. v) calculated
        ≡ result_of (operator_of operator) value.now operand.now) }
{
    let operand = elements::lone(operand);
    match operator.calculate_each(alloc, &elements::of(value), operand)? {
        Ok(results) => Ok(set_of_results(results)),
        Err(fault) => Ok(Err(fault)),
    }
}

/// Returns the set of the results, unless some have become equal.
fn set_of_results(results: Vec<Atom>) -> Result<Value, MutationFault>
    requires { IsTrue (each_element (is_a integers) results.items) }
    ensures { answered (λ v. v) result ≡ set_of_results (map atom_of results.items) }
{
    match Value::set(results) {
        Ok(value) => Ok(value),
        Err(_) => Err(MutationFault::ConstraintViolation),
    }
}

/// Returns the value with the elements, or with the pairs whose key it doesn't have.
fn insert(alloc: Global, value: &Value, added: &Value) -> Result<Value, AllocError>
    requires { AreAlike value.now added.now }
    ensures { IfOk result (λ new. Ok new ≡ result_of model.insert value.now added.now) }
{
    match (value.entries(), added.entries()) {
        (Entries::Set(elements), Entries::Set(others)) => {
            let mut new = Vec::new(alloc);
            elements::append_others(alloc, &others, value, &mut new)?;
            let lacking = elements::set_of(new);
            changed(alloc, value, &lacking)
        }
        (Entries::Map(pairs), Entries::Map(others)) => {
            let mut new = Vec::new(alloc);
            pairs::append_others(alloc, &others, value, &mut new)?;
            let lacking = pairs::map_of(new);
            changed(alloc, value, &lacking)
        }
        _ => unreachable!(),
    }
}

/// Returns the value without the elements, the keys or the pairs.
fn delete(alloc: Global, value: &Value, deleted: &Value) -> Result<Value, AllocError>
    requires kinds { HasKinds value.now }
    requires shape { IsTrue (is_map deleted.now) → IsTrue (is_map value.now) }
    ensures { IfOk result (λ new. Ok new ≡ result_of model.delete value.now deleted.now) }
{
    match (value.entries(), deleted.entries()) {
        (Entries::Set(_), Entries::Set(elements)) => {
            let mut common = Vec::new(alloc);
            elements::append_common(alloc, &elements, value, &mut common)?;
            let present = elements::set_of(common);
            changed(alloc, value, &present)
        }
        (Entries::Map(_), Entries::Set(keys)) => {
            let mut common = Vec::new(alloc);
            pairs::append_at(alloc, &keys, value, &mut common)?;
            let present = pairs::map_of(common);
            changed(alloc, value, &present)
        }
        (Entries::Map(_), Entries::Map(pairs)) => {
            let mut common = Vec::new(alloc);
            pairs::append_common(alloc, &pairs, value, &mut common)?;
            let present = pairs::map_of(common);
            changed(alloc, value, &present)
        }
        _ => unreachable!(),
    }
}
