//! Base types and types (RFC 7047, section 3.2, `<base-type>` and `<type>`). [P 1.6]

ghost use Rattle.std.specs.Prelude.{◌≡◌, IfOk, OnOk, option_map};
ghost use Rattle.serde_json.specs.View.{view};
ghost use Rattle.odb_atoms.specs.ColType as model_type;
ghost use Rattle.odb_atoms.specs.Represented.Atom.{kind_in};
ghost use Rattle.odb_atoms.specs.Represented.ColType.{base_of, reference_of, type_of};
ghost use Rattle.odb_schema.specs.SchemaText as model;
ghost use Rattle.odb_schema.specs.Represented.Members as written;
ghost use Rattle.odb_schema.specs.Represented.Members.{onto};

use super::leaf::Object;
use crate::notation::write_value;
use odb_atoms::{Base, ColType, Enumeration, Kind, Reference};
use serde_json::Value;
use std::alloc::{AllocError, Global};

/// Returns the name of an atomic type.
fn kind_name(kind: Kind) -> &'static str
    ensures { result.now ≡ model.kind_name (kind_in kind) }
{
    match kind {
        Kind::Integer => "integer",
        Kind::Boolean => "boolean",
        Kind::Text => "string",
        Kind::Uuid => "uuid",
    }
}

/// Returns whether there are no constraints.
fn is_plain(base: &Base) -> bool
    ensures { result ≡ model.is_plain (base_of base.now) }
{
    base.allowed.is_none()
        && base.min_integer.is_none()
        && base.max_integer.is_none()
        && base.min_length.is_none()
        && base.max_length.is_none()
        && base.reference.is_none()
}

impl Object {
    fn put_reference(&mut self, reference: &Option<Reference>) -> Result<(), AllocError>
        ensures { OnOk result (self.new
            ≡ onto (written.reference_members (option_map reference_of reference.now)) self.old) }
    {
        match reference {
            None => Ok(()),
            Some(reference) => {
                if reference.weak {
                    self.put_text("refType", "weak")?;
                }
                self.put_text("refTable", reference.table.as_str())
            }
        }
    }

    fn put_enum(&mut self, allowed: &Option<Enumeration>) -> Result<(), AllocError>
        ensures { OnOk result (self.new ≡ onto (written.enum_members allowed.now) self.old) }
    {
        let alloc = self.alloc();
        match allowed {
            None => Ok(()),
            Some(allowed) => self.put("enum", write_value(alloc, allowed.atoms())?),
        }
    }

    /// Puts the bounds in.
    fn put_bounds(&mut self, base: &Base) -> Result<(), AllocError>
        ensures { OnOk result (self.new ≡ written.with_bounds (base_of base.now) self.old) }
    {
        self.put_integer("maxLength", base.max_length)?;
        self.put_integer("minLength", base.min_length)?;
        self.put_integer("maxInteger", base.max_integer)?;
        self.put_integer("minInteger", base.min_integer)
    }

    fn put_max(&mut self, max: Option<u32>) -> Result<(), AllocError>
        ensures { OnOk result (self.new ≡ onto (model.write_max max) self.old) }
    {
        match max {
            None => self.put_text("max", "unlimited"),
            Some(max) => self.put_number("max", max),
        }
    }

    fn put_value(&mut self, value: &Option<Base>) -> Result<(), AllocError>
        ensures { OnOk result (self.new
            ≡ onto (written.value_members (option_map base_of value.now)) self.old) }
    {
        let alloc = self.alloc();
        match value {
            None => Ok(()),
            Some(value) => self.put("value", write_base(alloc, value)?),
        }
    }
}

/// Writes a base type as an object.
fn write_constraints(alloc: Global, base: &Base) -> Result<Value, AllocError>
    ensures { IfOk result (λ v. view v ≡ written.base_object (base_of base.now)) }
{
    let mut object = Object::new(alloc);
    object.put_reference(&base.reference)?;
    object.put_bounds(base)?;
    object.put_enum(&base.allowed)?;
    object.put_text("type", kind_name(base.kind))?;
    Ok(object.into_value())
}

/// Writes a base type: its name, if it has no constraints, else an object.
fn write_base(alloc: Global, base: &Base) -> Result<Value, AllocError>
    ensures { IfOk result (λ v. view v ≡ model.write_base (base_of base.now)) }
{
    if is_plain(base) {
        return Value::try_from_str(alloc, kind_name(base.kind));
    }
    write_constraints(alloc, base)
}

/// Returns whether it has exactly one element, which is no pair.
fn is_scalar(column_type: &ColType) -> bool
    ensures { result ≡ model_type.is_scalar (type_of column_type.now) }
{
    column_type.is_single() && column_type.min == 1 && column_type.value.is_none()
}

/// Writes a type as an object.
fn write_members(alloc: Global, column_type: &ColType) -> Result<Value, AllocError>
    ensures { IfOk result (λ v. view v ≡ written.type_object (type_of column_type.now)) }
{
    let mut object = Object::new(alloc);
    object.put_max(column_type.max)?;
    object.put_number("min", column_type.min)?;
    object.put_value(&column_type.value)?;
    let key = write_base(alloc, &column_type.key)?;
    object.put("key", key)?;
    Ok(object.into_value())
}

/// Writes a type: the name of an atomic type for a scalar without constraints, else an object.
pub fn write_type(alloc: Global, column_type: &ColType) -> Result<Value, AllocError>
    ensures { IfOk result (λ v. view v ≡ model.write_type (type_of column_type.now)) }
{
    if is_scalar(column_type) && is_plain(&column_type.key) {
        return Value::try_from_str(alloc, kind_name(column_type.key.kind));
    }
    write_members(alloc, column_type)
}
