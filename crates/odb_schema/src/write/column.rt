//! Columns (RFC 7047, section 3.2, `<column-schema>`). [P 1.6]

ghost use Rattle.std.specs.Prelude.{◌≡◌, IfOk};
ghost use Rattle.serde_json.specs.View.{view};
ghost use Rattle.odb_schema.specs.SchemaText as model;
ghost use Rattle.odb_schema.specs.Represented.Members as written;

use super::base::write_type;
use super::leaf::Object;
use crate::schema::Column;
use serde_json::Value;
use std::alloc::{AllocError, Global};

fn write_column(alloc: Global, column: &Column) -> Result<Value, AllocError>
    ensures { IfOk result (λ v. view v ≡ model.write_column column.now) }
{
    let mut object = Object::new(alloc);
    object.put_flag(column.is_mutable(), "mutable", false)?;
    object.put_flag(!column.is_ephemeral(), "ephemeral", true)?;
    let column_type = write_type(alloc, column.column_type())?;
    object.put("type", column_type)?;
    Ok(object.into_value())
}

/// Writes the columns of a table.
pub fn write_columns(alloc: Global, columns: &[Column]) -> Result<Value, AllocError>
    ensures { IfOk result (λ v. view v ≡ written.columns_object columns.now) }
{
    let mut object = Object::new(alloc);
    for place in (0..columns.len()).rev() {
        let column = &columns[place];
        object.put(column.name(), write_column(alloc, column)?)?;
    }
    Ok(object.into_value())
}
