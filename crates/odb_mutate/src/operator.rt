//! Arithmetic on integers and on sets of integers (RFC 7047, section 5.1, `<mutator>`). [P 3.3]

ghost use Rattle.std.specs.Prelude.{◌≡◌, IfOk, IsTrue, map, ok_or};
ghost use Rattle.odb_atoms.specs.Atom.{integer, integers};
ghost use Rattle.odb_atoms.specs.ColType.{is_a};
ghost use Rattle.odb_atoms.specs.First.{each};
ghost use Rattle.odb_atoms.specs.Represented.Atom.{atom_of};
ghost use Rattle.odb_atoms.specs.Represented.Value.{each_element};
ghost use Rattle.odb_mutate.specs.Mutation.{calculate, calculate_atom};
ghost use Rattle.odb_mutate.specs.Represented.Mutation.{answered, operator_of};

use crate::mutation::MutationFault;
use odb_atoms::Atom;
use odb_chunks::Items;
use std::alloc::{AllocError, Global};

/// An arithmetic mutator (RFC 7047, section 5.1, `<mutator>`).
#[derive(Clone, Copy)]
pub enum Operator {
    /// `+=`.
    Add,
    /// `-=`.
    Subtract,
    /// `*=`.
    Multiply,
    /// `/=`, which truncates towards zero.
    Divide,
    /// `%=`, whose result has the sign of the dividend.
    Remainder,
}

impl Operator {
    /// Returns the result for each element, in order, or the fault of the first that has one.
    pub(crate) fn calculate_each(
        self,
        alloc: Global,
        elements: &Items<'_, Atom>,
        operand: &Atom,
    ) -> Result<Result<Vec<Atom>, MutationFault>, AllocError>
        requires elements { IsTrue (each_element (is_a integers) elements.now) }
        requires operand { IsTrue (is_a integers (atom_of operand.now)) }
        ensures integers { IfOk result (λ results. IfOk results (λ v.
            IsTrue (each_element (is_a integers) v.items))) }
        ensures results { IfOk result (λ results. answered (λ v. map atom_of v.items) results
            ≡ each (λ x. calculate_atom (operator_of self) x (atom_of operand.now))
            (map atom_of elements.now)) }
    {
        let mut results = Vec::with_capacity(alloc, elements.len())?;
        for element in elements.iter() {
            match self.calculate_atom(element, operand) {
                Ok(result) => results.push(result)?,
                Err(fault) => return Ok(Err(fault)),
            }
        }
        Ok(Ok(results))
    }

    fn calculate_atom(self, element: &Atom, operand: &Atom) -> Result<Atom, MutationFault>
        requires element { IsTrue (is_a integers (atom_of element.now)) }
        requires operand { IsTrue (is_a integers (atom_of operand.now)) }
        ensures integer { IfOk result (λ a. IsTrue (is_a integers (atom_of a))) }
        ensures result { answered atom_of result
            ≡ calculate_atom (operator_of self) (atom_of element.now) (atom_of operand.now) }
    {
        match (element, operand) {
            (Atom::Integer(number), Atom::Integer(operand)) => {
                Ok(Atom::Integer(self.calculate(*number, *operand)?))
            }
            _ => unreachable!(),
        }
    }

    fn calculate(self, number: i64, operand: i64) -> Result<i64, MutationFault>
        ensures { answered integer result ≡ calculate (operator_of self) number operand }
    {
        match self {
            Operator::Add => in_range(number.checked_add(operand)),
            Operator::Subtract => in_range(number.checked_sub(operand)),
            Operator::Multiply => in_range(number.checked_mul(operand)),
            Operator::Divide | Operator::Remainder if operand == 0 => {
                Err(MutationFault::DomainError)
            }
            Operator::Divide => in_range(number.checked_div(operand)),
            Operator::Remainder => Ok(number.wrapping_rem(operand)),
        }
    }
}

/// Returns the result, where 64 bits hold it.
fn in_range(exact: Option<i64>) -> Result<i64, MutationFault>
    ensures { result ≡ ok_or exact MutationFault.RangeError }
{
    exact.ok_or(MutationFault::RangeError)
}
