//! The column for which an operation failed (RFC 7047, sections 5.1 and 5.2). [P 4.1, 15.2]

use odb_json::{Names, OpFault, is_insert, read_by_kind, read_clause, read_mutation, read_value};
use odb_schema::{Column, ColumnId, TableSchema, member};
use serde_json::{Map, Value};
use std::alloc::{AllocError, Global};
use uuid::Uuid;

/// What the parts of an operation are read by.
#[derive(Clone, Copy)]
struct PartReader<'a> {
    alloc: Global,
    table: &'a TableSchema,
    names: &'a Names,
    /// Whether the operation is an `update`, which writes no column that can't change.
    is_update: bool,
}

/// What is wrong with parts of an operation.
#[derive(Clone, Copy)]
enum PartFault {
    /// All can be read.
    Nothing,
    /// One can't be, which is of this column where that is a declared one.
    Unreadable(Option<ColumnId>),
}

/// Makes the names that inserts of the operations have; what they stand for doesn't matter.
pub(crate) fn names_in(alloc: Global, operations: &[Value]) -> Result<Names, AllocError> {
    let mut names = Names::new(alloc);
    for operation in operations {
        if is_insert(operation) {
            add_name(alloc, &mut names, operation)?;
        }
    }
    Ok(names)
}

/// Adds the name of an insert, if it has one.
fn add_name(alloc: Global, names: &mut Names, operation: &Value) -> Result<(), AllocError> {
    let Some(name) = text_member("uuid-name", operation) else {
        return Ok(());
    };
    let name = String::from_str(alloc, name)?;
    drop(names.insert(name, Uuid::nil())?);
    Ok(())
}

/// Returns the member of an object, where it is a string.
fn text_member<'a>(key: &str, value: &'a Value) -> Option<&'a str> {
    member(key, value.as_object()?)?.as_str()
}

/// Returns the members of an array that is a member of an object; none where there is no such array.
fn items_of<'a>(key: &str, members: &'a Map<String, Value>) -> &'a [Value] {
    match member(key, members) {
        Some(value) => items(value),
        None => &[],
    }
}

/// Returns the members of an array; none where it is no array.
fn items(value: &Value) -> &[Value] {
    match value.as_array() {
        Some(items) => items.as_slice(),
        None => &[],
    }
}

/// Returns the declared column for which the operation on the table failed, if it can be told: that of the first part
/// that can't be read, else the one that all of its mutations change.
pub(crate) fn column_of(
    alloc: Global,
    table: &TableSchema,
    names: &Names,
    operation: &Value,
) -> Result<Option<ColumnId>, AllocError> {
    let Some(members) = operation.as_object() else {
        return Ok(None);
    };
    let reader = PartReader {
        alloc,
        table,
        names,
        is_update: matches!(text_member("op", operation), Some("update")),
    };
    match reader.search(members)? {
        PartFault::Unreadable(column) => Ok(column),
        PartFault::Nothing => Ok(reader.only_one(items_of("mutations", members))),
    }
}

impl PartReader<'_> {
    /// Looks for the first part of an operation that can't be read.
    fn search(self, members: &Map<String, Value>) -> Result<PartFault, AllocError> {
        let found = self.in_conditions(items_of("where", members))?;
        if matches!(found, PartFault::Unreadable(_)) {
            return Ok(found);
        }
        let found = self.in_mutations(items_of("mutations", members))?;
        if matches!(found, PartFault::Unreadable(_)) {
            return Ok(found);
        }
        let found = self.in_row(member("row", members))?;
        if matches!(found, PartFault::Unreadable(_)) {
            return Ok(found);
        }
        self.in_rows(items_of("rows", members))
    }

    /// Looks for the first condition that can't be read.
    fn in_conditions(self, items: &[Value]) -> Result<PartFault, AllocError> {
        for item in items {
            if !self.reads_condition(item)? {
                return Ok(PartFault::Unreadable(self.first_of(item)));
            }
        }
        Ok(PartFault::Nothing)
    }

    /// Looks for the first mutation that can't be read.
    fn in_mutations(self, items: &[Value]) -> Result<PartFault, AllocError> {
        for item in items {
            if !self.reads_mutation(item)? {
                return Ok(PartFault::Unreadable(self.first_of(item)));
            }
        }
        Ok(PartFault::Nothing)
    }

    /// Looks for the first column of the row that is written, by ascending name, whose value can't be read.
    fn in_row(self, row: Option<&Value>) -> Result<PartFault, AllocError> {
        let Some(Value::Object(members)) = row else {
            return Ok(PartFault::Nothing);
        };
        for (name, value) in members.iter() {
            let column = self.table.column(name.as_str());
            if !self.reads_value(column, value)? {
                return Ok(PartFault::Unreadable(column));
            }
        }
        Ok(PartFault::Nothing)
    }

    /// Looks for the first column of rows to compare with whose value isn't of its kind.
    fn in_rows(self, rows: &[Value]) -> Result<PartFault, AllocError> {
        for row in rows {
            let found = self.in_expected(row)?;
            if matches!(found, PartFault::Unreadable(_)) {
                return Ok(found);
            }
        }
        Ok(PartFault::Nothing)
    }

    /// Looks for the first column of a row to compare with, by ascending name, whose value isn't of its kind.
    fn in_expected(self, row: &Value) -> Result<PartFault, AllocError> {
        let Some(members) = row.as_object() else {
            return Ok(PartFault::Unreadable(None));
        };
        for (name, value) in members.iter() {
            let column = self.table.column(name.as_str());
            if !self.reads_expected(column, value)? {
                return Ok(PartFault::Unreadable(column));
            }
        }
        Ok(PartFault::Nothing)
    }

    /// Returns whether the condition can be read.
    fn reads_condition(self, item: &Value) -> Result<bool, AllocError> {
        match read_clause(self.alloc, item, self.table, Some(self.names)) {
            Ok(_) => Ok(true),
            Err(OpFault::Failed(_)) => Ok(false),
            Err(OpFault::Memory) => Err(AllocError),
        }
    }

    /// Returns whether the mutation can be read.
    fn reads_mutation(self, item: &Value) -> Result<bool, AllocError> {
        match read_mutation(self.alloc, item, self.table, Some(self.names)) {
            Ok(_) => Ok(true),
            Err(OpFault::Failed(_)) => Ok(false),
            Err(OpFault::Memory) => Err(AllocError),
        }
    }

    /// Returns whether the value can be written to the column.
    fn reads_value(self, column: Option<ColumnId>, value: &Value) -> Result<bool, AllocError> {
        let Some(column) = self.declared(column) else {
            return Ok(false);
        };
        if self.is_update && !column.is_mutable() {
            return Ok(false);
        }
        match read_value(self.alloc, value, column.column_type(), Some(self.names)) {
            Ok(_) => Ok(true),
            Err(OpFault::Failed(_)) => Ok(false),
            Err(OpFault::Memory) => Err(AllocError),
        }
    }

    /// Returns whether the value is of the column's kind, or the column isn't declared, as `_uuid` is not.
    fn reads_expected(self, column: Option<ColumnId>, value: &Value) -> Result<bool, AllocError> {
        let Some(column) = self.declared(column) else {
            return Ok(true);
        };
        match read_by_kind(self.alloc, value, column.column_type(), Some(self.names)) {
            Ok(_) => Ok(true),
            Err(OpFault::Failed(_)) => Ok(false),
            Err(OpFault::Memory) => Err(AllocError),
        }
    }

    /// Returns the column at the place, if there is one.
    fn declared(&self, column: Option<ColumnId>) -> Option<&Column> {
        self.table.columns().get(column?.place())
    }

    /// Returns the declared column that the first member of an array names, as that of a condition or a mutation does.
    fn first_of(self, item: &Value) -> Option<ColumnId> {
        self.table.column(items(item).first()?.as_str()?)
    }

    /// Returns the declared column that each of the mutations names, if it is one and the same.
    fn only_one(self, mutations: &[Value]) -> Option<ColumnId> {
        let column = self.first_of(mutations.first()?)?;
        for mutation in mutations {
            if self.first_of(mutation)?.place() != column.place() {
                return None;
            }
        }
        Some(column)
    }
}
