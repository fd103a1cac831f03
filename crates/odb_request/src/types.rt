//! Whether two types of columns are the same.
ghost use Rattle.std.specs.Prelude.{◌≡◌, option_map};
ghost use Rattle.std.specs.Bool.{Decides};
ghost use Rattle.odb_atoms.specs.Represented.ColType.{base_of, reference_of, type_of};

use odb_atoms::{Base, ColType, Enumeration, Reference};

/// Returns whether the two refer to the same table in the same way.
fn same_reference(reference: &Reference, other: &Reference) -> bool
    ensures { Decides result (reference_of reference.now ≡ reference_of other.now) }
{
    reference.weak == other.weak && reference.table.as_str() == other.table.as_str()
}

/// Returns the same, where there may be none.
fn same_references(reference: &Option<Reference>, other: &Option<Reference>) -> bool
    ensures { Decides result
        (option_map reference_of reference.now ≡ option_map reference_of other.now) }
{
    match (reference, other) {
        (None, None) => true,
        (Some(reference), Some(other)) => same_reference(reference, other),
        _ => false,
    }
}

/// Returns whether the two allow the same atoms.
fn same_enumeration(allowed: &Enumeration, other: &Enumeration) -> bool
    ensures { Decides result (allowed.now ≡ other.now) }
{
    *allowed.atoms() == *other.atoms()
}

/// Returns the same, where there may be none.
fn same_enumerations(allowed: &Option<Enumeration>, other: &Option<Enumeration>) -> bool
    ensures { Decides result (allowed.now ≡ other.now) }
{
    match (allowed, other) {
        (None, None) => true,
        (Some(allowed), Some(other)) => same_enumeration(allowed, other),
        _ => false,
    }
}

/// Returns whether the two bound integers alike.
fn same_integers(base: &Base, other: &Base) -> bool
    ensures { Decides result ((base.now.min_integer ≡ other.now.min_integer)
        × (base.now.max_integer ≡ other.now.max_integer)) }
{
    base.min_integer == other.min_integer && base.max_integer == other.max_integer
}

/// Returns whether the two bound lengths alike.
fn same_lengths(base: &Base, other: &Base) -> bool
    ensures { Decides result ((base.now.min_length ≡ other.now.min_length)
        × (base.now.max_length ≡ other.now.max_length)) }
{
    base.min_length == other.min_length && base.max_length == other.max_length
}

/// Returns whether all but the bounds are the same.
fn same_rest(base: &Base, other: &Base) -> bool
    ensures { Decides result ((base.now.kind ≡ other.now.kind)
        × (base.now.allowed ≡ other.now.allowed)
        × (option_map reference_of base.now.reference ≡ option_map reference_of other.now.reference)) }
{
    base.kind == other.kind
        && same_enumerations(&base.allowed, &other.allowed)
        && same_references(&base.reference, &other.reference)
}

/// Returns whether the two are the same atomic type with the same constraints.
fn same_base(base: &Base, other: &Base) -> bool
    ensures { Decides result (base_of base.now ≡ base_of other.now) }
{
    same_integers(base, other) && same_lengths(base, other) && same_rest(base, other)
}

/// Returns the same, where there may be none.
fn same_bases(base: &Option<Base>, other: &Option<Base>) -> bool
    ensures { Decides result (option_map base_of base.now ≡ option_map base_of other.now) }
{
    match (base, other) {
        (None, None) => true,
        (Some(base), Some(other)) => same_base(base, other),
        _ => false,
    }
}

/// Returns whether the two admit as many elements.
fn same_sizes(column: &ColType, other: &ColType) -> bool
    ensures { Decides result ((column.now.min ≡ other.now.min) × (column.now.max ≡ other.now.max)) }
{
    column.min == other.min && column.max == other.max
}

/// Returns whether the two types are the same, each constraint included.
pub(crate) fn same_type(column: &ColType, other: &ColType) -> bool
    ensures { Decides result (type_of column.now ≡ type_of other.now) }
{
    same_sizes(column, other)
        && same_base(&column.key, &other.key)
        && same_bases(&column.value, &other.value)
}
