//! Values of columns (RFC 7047, section 5.1, `<value>`). [P 2.3, 2.4, 14]

ghost use Rattle.std.specs.Prelude.{◌≡◌, option_map};
ghost use Rattle.serde_json.specs.View.{view};
ghost use Rattle.odb_atoms.specs.Represented.ColType.{type_of};
ghost use Rattle.odb_schema.specs.Notation as notation;
ghost use Rattle.odb_json.specs.ColumnValue as model;
ghost use Rattle.odb_json.specs.Represented.Fault.{Gives, Reads};
ghost use Rattle.odb_json.specs.Represented.Parts.{in_limit};

use crate::atom::SYNTAX;
use crate::elements::read_set;
use crate::fault::OpFault;
use crate::names::Names;
use crate::pairs::{Kinds, PairReader};
use odb_atoms::{ColType, Error};
use serde_json::Value;
use std::alloc::Global;

/// How many elements or pairs a value may have.
const MAX_ELEMENTS: usize = 65_536;

/// Reads a value of the type's kind, of any number of elements.
fn read_any(
    alloc: Global,
    value: &Value,
    column_type: &ColType,
    names: Option<&Names>,
) -> Result<odb_atoms::Value, OpFault>
    ensures { Reads (λ v. v) result (notation.read_any (option_map (λ n. n.now) names.entry)
        (type_of column_type.now) (view value.now)) }
{
    let key = column_type.key.kind;
    match &column_type.value {
        None => read_set(alloc, key, value, names),
        Some(base) => {
            let reader = PairReader {
                alloc,
                kinds: Kinds {
                    key,
                    value: base.kind,
                },
                names,
            };
            reader.read_map(value)
        }
    }
}

/// Returns the value, if it has no more elements than a value may have.
fn limited(value: odb_atoms::Value) -> Result<odb_atoms::Value, OpFault>
    ensures { Gives (λ v. v) result (in_limit value) }
{
    if value.len() > MAX_ELEMENTS {
        return Err(OpFault::Failed(Error::ResourcesExhausted));
    }
    Ok(value)
}

/// Reads a value of a column in the row of `insert` or `update` (RFC 7047, sections 5.2.1 and 5.2.3): one
/// that the type admits. `names` are those of the transaction, and `None` stands for the outside of
/// one, where `["named-uuid", name]` isn't read.
///
/// The first fault of the text from the front is returned: `UnknownUuidName` for the name of a UUID
/// that isn't among `names`, and `SyntaxError` for all else: another notation or kind, a U+0000, a
/// number that is no integer of 64 bits, an element or a key that stands twice. Then comes
/// `ResourcesExhausted` for more than 65,536 elements or pairs, and then `ConstraintViolation` for
/// too few, too many, or a broken constraint. `Memory` may come in place of any of these.
///
/// O(b + n log n) for n elements in b bytes, and O(log m) more for each name among m.
pub fn read_value(
    alloc: Global,
    value: &Value,
    column_type: &ColType,
    names: Option<&Names>,
) -> Result<odb_atoms::Value, OpFault>
    ensures { Reads (λ v. v) result (model.read_value (option_map (λ n. n.now) names.entry)
        (type_of column_type.now) (view value.now)) }
{
    let read = limited(read_any(alloc, value, column_type, names)?)?;
    match read.admit(column_type) {
        Ok(()) => Ok(read),
        Err(_) => Err(OpFault::Failed(Error::ConstraintViolation)),
    }
}

/// Reads a value of a condition, of a mutation, or of a row of `wait` (RFC 7047, sections 5.1 and 5.2.6):
/// one of the type's kind, with exactly one element for a scalar and any number of them for a set or
/// a map. Constraints aren't looked at.
///
/// The faults of the text are those of [`read_value`]. Then comes `SyntaxError` for a scalar of
/// another number of elements than one, and then `ResourcesExhausted` for more than 65,536. `Memory`
/// may come in place of any of these. The costs are those of `read_value`.
pub fn read_by_kind(
    alloc: Global,
    value: &Value,
    column_type: &ColType,
    names: Option<&Names>,
) -> Result<odb_atoms::Value, OpFault>
    ensures { Reads (λ v. v) result (model.read_by_kind (option_map (λ n. n.now) names.entry)
        (type_of column_type.now) (view value.now)) }
{
    let read = read_any(alloc, value, column_type, names)?;
    if column_type.is_scalar() && read.len() != 1 {
        return Err(SYNTAX);
    }
    limited(read)
}

/// Reads what `read_by_kind` reads, by a type that is handed over.
pub fn read_of_type(
    alloc: Global,
    value: &Value,
    column_type: ColType,
    names: Option<&Names>,
) -> Result<odb_atoms::Value, OpFault>
    ensures { Reads (λ v. v) result
        (model.read_by_kind (option_map (λ n. n.now) names.entry) (type_of column_type)
        (view value.now)) }
{
    let read = read_by_kind(alloc, value, &column_type, names);
    drop(column_type);
    read
}
