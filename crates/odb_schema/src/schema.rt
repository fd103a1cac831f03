//! Schemas (RFC 7047, section 3.2, `<database-schema>`): tables by ascending name, in each its
//! columns by ascending name. [P 1.3]

ghost use Rattle.std.specs.Prelude.{◌≡◌, Bool, List, length, slice_get, map, Option, option_map};
ghost use Rattle.std.specs.Prelude.{IfOk, string_bytes};
ghost use Rattle.std.specs.List.{list_any};
ghost use Rattle.std.specs.Option.{option_copied};
ghost use Rattle.odb_atoms.specs.Represented.ColType.{type_of};
ghost use Rattle.odb_schema.specs.Schema as model;
ghost use Rattle.odb_schema.specs.SchemaText.{IsReadBack};
ghost use Rattle.odb_schema.specs.Represented.Names.{ColumnsAscend, TablesAscend, names_of};

use odb_atoms::ColType;
use std::alloc::{AllocError, Global};
use std::marker::Model;

/// A table of a schema: its place in the order of the tables' names, from 0.
#[derive(Clone, Copy, PartialEq, Eq, PartialOrd, Ord)]
pub struct TableId {
    place: usize,
}

/// A declared column of a table: its place in the order of the columns' names, from 0.
#[derive(Clone, Copy)]
pub struct ColumnId {
    place: usize,
}

/// A declared column (RFC 7047, section 3.2, `<column-schema>`).
pub struct Column {
    name: String,
    column_type: ColType,
    is_ephemeral: bool,
    is_mutable: bool,
}

/// A table (RFC 7047, section 3.2, `<table-schema>`), with its columns by ascending name.
pub struct TableSchema {
    name: String,
    columns: Vec<Column>,
    max_rows: Option<u64>,
    is_marked_root: bool,
    indexes: Vec<Vec<String>>,
}

/// A schema (RFC 7047, section 3.2, `<database-schema>`), with its tables by ascending name. It is
/// made by `Schema::read`, from a file's text, and what is printed of it is read as the same schema.
pub struct Schema {
    name: String,
    version: String,
    cksum: Option<String>,
    tables: Vec<TableSchema>,
    marks_roots: bool,
}

impl Model for TableId {
    ghost use Rattle.std.specs.Prelude.{ℕ};

    ghost Value = { ℕ };

    ghost view = { λ a. a.place };

    ghost inverse = { λ n. record { place = n } };
}

impl Model for ColumnId {
    ghost use Rattle.std.specs.Prelude.{ℕ};

    ghost Value = { ℕ };

    ghost view = { λ a. a.place };

    ghost inverse = { λ n. record { place = n } };
}

impl Model for Column {
    ghost use Rattle.odb_schema.specs.Schema as model;
    ghost use Rattle.odb_schema.specs.Represented.Codes.{column_code};

    ghost Value = { model.Column };

    ghost coded = { column_code };

    ghost use Rattle.odb_schema.specs.Represented.Column.{column_of};

    ghost view = { column_of };
}

impl Model for TableSchema {
    ghost use Rattle.odb_schema.specs.Schema as model;
    ghost use Rattle.odb_schema.specs.Represented.Codes.{table_code};

    ghost Value = { model.TableSchema };

    ghost coded = { table_code };

    ghost use Rattle.odb_schema.specs.Represented.Table.{table_of, HasAscendingColumns};

    ghost view = { table_of };

    ghost invariant = { HasAscendingColumns };
}

impl Model for Schema {
    ghost use Rattle.odb_schema.specs.Schema as model;
    ghost use Rattle.odb_schema.specs.Represented.Codes.{schema_code};

    ghost Value = { model.Schema };

    ghost coded = { schema_code };

    ghost use Rattle.odb_schema.specs.Represented.Schema.{schema_of, IsInOrder};

    ghost view = { schema_of };

    ghost invariant = { IsInOrder };
}

impl TableId {
    /// Returns the table at a place, from 0. O(1).
    pub fn at(place: usize) -> TableId
        ensures { result ≡ place }
    {
        TableId { place }
    }

    /// Returns its place, from 0. O(1).
    pub fn place(self) -> usize
        ensures { result ≡ self }
    {
        self.place
    }
}

impl ColumnId {
    /// Returns the column at a place, from 0. O(1).
    pub fn at(place: usize) -> ColumnId
        ensures { result ≡ place }
    {
        ColumnId { place }
    }

    /// Returns its place, from 0. O(1).
    pub fn place(self) -> usize
        ensures { result ≡ self }
    {
        self.place
    }
}

impl Column {
    /// Makes a column with these members.
    pub(crate) fn new(
        name: String,
        column_type: ColType,
        is_ephemeral: bool,
        is_mutable: bool,
    ) -> Column
        ensures { result ≡ record {
          name = string_bytes name;
          type = type_of column_type;
          ephemeral = is_ephemeral;
          mutable = is_mutable;
        } }
    {
        Column {
            name,
            column_type,
            is_ephemeral,
            is_mutable,
        }
    }

    /// Returns the name. O(1).
    pub fn name(&self) -> &str
        ensures { result.now ≡ self.now.name }
    {
        self.name.as_str()
    }

    /// Returns the type. O(1).
    pub fn column_type(&self) -> &ColType
        ensures { type_of result.now ≡ self.now.type }
    {
        &self.column_type
    }

    /// Returns whether `ephemeral` is true. O(1).
    pub fn is_ephemeral(&self) -> bool
        ensures { result ≡ self.now.ephemeral }
    {
        self.is_ephemeral
    }

    /// Returns whether it can change after `insert` (RFC 7047, section 3.2, `mutable`). O(1).
    pub fn is_mutable(&self) -> bool
        ensures { result ≡ self.now.mutable }
    {
        self.is_mutable
    }

    /// Makes an equal column. O(the bytes copied).
    pub fn try_copy(&self, alloc: Global) -> Result<Column, AllocError>
        ensures { IfOk result (λ copy. copy ≡ self.now) }
    {
        let name = String::from_str(alloc, self.name())?;
        let column_type = self.column_type.try_copy(alloc)?;
        Ok(Column::new(name, column_type, self.is_ephemeral, self.is_mutable))
    }
}

impl TableSchema {
    /// Makes a table with these members, its columns by ascending name.
    pub(crate) fn new(
        name: String,
        columns: Vec<Column>,
        max_rows: Option<u64>,
        is_marked_root: bool,
        indexes: Vec<Vec<String>>,
    ) -> TableSchema
        requires { ColumnsAscend columns.items }
        ensures { result ≡ record {
          name = string_bytes name;
          columns = columns.items;
          max_rows = max_rows;
          is_root = is_marked_root;
          indexes = map names_of indexes.items;
        } }
    {
        TableSchema {
            name,
            columns,
            max_rows,
            is_marked_root,
            indexes,
        }
    }

    /// Returns the name. O(1).
    pub fn name(&self) -> &str
        ensures { result.now ≡ self.now.name }
    {
        self.name.as_str()
    }

    /// Returns the declared columns, by ascending name. O(1).
    pub fn columns(&self) -> &[Column]
        ensures { result.now ≡ self.now.columns }
    {
        self.columns.as_slice()
    }

    /// Returns `maxRows`: the most rows that the table may have. O(1).
    pub fn max_rows(&self) -> Option<u64>
        ensures { result ≡ self.now.max_rows }
    {
        self.max_rows
    }

    /// Returns whether `isRoot` is true. Where no table has it true every table is a root table, so
    /// `Schema::is_root` answers that question. O(1).
    pub fn is_marked_root(&self) -> bool
        ensures { result ≡ self.now.is_root }
    {
        self.is_marked_root
    }

    /// Returns the indexes: of each the names of its columns, in the order given. O(1).
    pub fn indexes(&self) -> &[Vec<String>]
        ensures { map names_of result.now ≡ self.now.indexes }
    {
        self.indexes.as_slice()
    }

    /// Returns the declared column with the name, if there is one. O(log n) comparisons of names.
    pub fn column(&self, name: &str) -> Option<ColumnId>
        ensures { result ≡ model.column_place self.now.columns name.now }
    {
        match self
            .columns
            .binary_search_by(|column| column.name().cmp(name))
        {
            Ok(place) => Some(ColumnId::at(place)),
            Err(_) => None,
        }
    }

    /// Makes an equal table. O(the bytes copied).
    pub fn try_copy(&self, alloc: Global) -> Result<TableSchema, AllocError>
        ensures { IfOk result (λ copy. copy ≡ self.now) }
    {
        let name = String::from_str(alloc, self.name())?;
        let columns = copies_of_columns(alloc, &self.columns)?;
        let indexes = copies_of_indexes(alloc, &self.indexes)?;
        Ok(TableSchema::new(name, columns, self.max_rows, self.is_marked_root, indexes))
    }
}

impl Schema {
    /// Makes a schema with these members, its tables by ascending name, that is read as it is printed.
    pub(crate) fn new(
        name: String,
        version: String,
        cksum: Option<String>,
        tables: Vec<TableSchema>,
    ) -> Schema
        requires ascending { TablesAscend tables.items }
        requires read_back { IsReadBack (record {
          name = string_bytes name;
          version = string_bytes version;
          cksum = option_map string_bytes cksum;
          tables = tables.items;
        }) }
        ensures { result ≡ record {
          name = string_bytes name;
          version = string_bytes version;
          cksum = option_map string_bytes cksum;
          tables = tables.items;
        } }
    {
        let marks_roots = marks_roots(&tables);
        Schema {
            name,
            version,
            cksum,
            tables,
            marks_roots,
        }
    }

    /// States that what is printed of it is read as the same schema; called for its contract alone. O(1).
    pub(crate) fn reads_back(&self)
        ensures { IsReadBack self.now }
    {
        let _name = &self.name;
    }

    /// Returns the name of the database. O(1).
    pub fn name(&self) -> &str
        ensures { result.now ≡ self.now.name }
    {
        self.name.as_str()
    }

    /// Returns `version`, as it was given. O(1).
    pub fn version(&self) -> &str
        ensures { result.now ≡ self.now.version }
    {
        self.version.as_str()
    }

    /// Returns the tables, by ascending name. O(1).
    pub fn tables(&self) -> &[TableSchema]
        ensures { result.now ≡ self.now.tables }
    {
        self.tables.as_slice()
    }

    /// Returns the table with the name, if there is one. O(log n) comparisons of names.
    pub fn table(&self, name: &str) -> Option<TableId>
        ensures { result ≡ model.table_place self.now name.now }
    {
        match self.tables.binary_search_by(|table| table.name().cmp(name)) {
            Ok(place) => Some(TableId::at(place)),
            Err(_) => None,
        }
    }

    /// Returns `cksum`, as it was given. O(1).
    pub fn cksum(&self) -> Option<&str>
        ensures { option_map (λ text. text.now) result ≡ self.now.cksum }
    {
        match &self.cksum {
            None => None,
            Some(cksum) => Some(cksum.as_str()),
        }
    }

    /// Returns the declared column of the table with the name, if there is one. O(log n) comparisons of
    /// names.
    pub fn column(&self, table: TableId, name: &str) -> Option<ColumnId>
        ensures { result ≡ model.column_place (model.columns_at self.now table) name.now }
    {
        match self.tables().get(table.place()) {
            None => None,
            Some(table) => table.column(name),
        }
    }

    /// Returns whether the table is a root table: where no table is marked as one, every table is. O(1).
    pub fn is_root(&self, table: TableId) -> bool
        ensures { result ≡ model.is_root_at self.now table }
    {
        let is_marked = match self.tables.get(table.place()) {
            None => false,
            Some(table) => table.is_marked_root(),
        };
        is_marked || !self.marks_roots
    }

    /// Makes an equal schema. O(the bytes copied).
    pub fn try_copy(&self, alloc: Global) -> Result<Schema, AllocError>
        ensures { IfOk result (λ copy. copy ≡ self.now) }
    {
        let name = String::from_str(alloc, self.name())?;
        let version = String::from_str(alloc, self.version())?;
        let cksum = match &self.cksum {
            None => None,
            Some(cksum) => Some(String::from_str(alloc, cksum.as_str())?),
        };
        let tables = copies_of_tables(alloc, &self.tables)?;
        Ok(Schema::new(name, version, cksum, tables))
    }
}

/// Returns whether a table is marked as a root table.
fn marks_roots(tables: &[TableSchema]) -> bool
    ensures { result ≡ list_any (λ t. t.is_root) tables.now }
{
    tables.iter().any(|table| table.is_marked_root())
}

fn copies_of_tables(alloc: Global, tables: &[TableSchema]) -> Result<Vec<TableSchema>, AllocError>
    ensures { IfOk result (λ v. v.items ≡ tables.now) }
{
    let mut copies = Vec::with_capacity(alloc, tables.len())?;
    for table in tables {
        copies.push(table.try_copy(alloc)?)?;
    }
    Ok(copies)
}

fn copies_of_columns(alloc: Global, columns: &[Column]) -> Result<Vec<Column>, AllocError>
    ensures { IfOk result (λ v. v.items ≡ columns.now) }
{
    let mut copies = Vec::with_capacity(alloc, columns.len())?;
    for column in columns {
        copies.push(column.try_copy(alloc)?)?;
    }
    Ok(copies)
}

fn copies_of_indexes(alloc: Global, indexes: &[Vec<String>]) -> Result<Vec<Vec<String>>, AllocError>
    ensures { IfOk result (λ v. map names_of v.items ≡ map names_of indexes.now) }
{
    let mut copies = Vec::with_capacity(alloc, indexes.len())?;
    for index in indexes {
        copies.push(copies_of_names(alloc, index)?)?;
    }
    Ok(copies)
}

fn copies_of_names(alloc: Global, names: &[String]) -> Result<Vec<String>, AllocError>
    ensures { IfOk result (λ v. names_of v ≡ map string_bytes names.now) }
{
    let mut copies = Vec::with_capacity(alloc, names.len())?;
    for name in names {
        copies.push(String::from_str(alloc, name.as_str())?)?;
    }
    Ok(copies)
}

// Written, and not derived, so that each end of a scope is one call to prove.
impl Drop for Column {
    fn drop(self) {
        let Column {
            name: _,
            column_type: _,
            is_ephemeral: _,
            is_mutable: _,
        } = self;
    }
}

// Written, and not derived, so that each end of a scope is one call to prove.
impl Drop for Schema {
    fn drop(self) {
        let Schema {
            name: _,
            version: _,
            cksum: _,
            tables: _,
            marks_roots: _,
        } = self;
    }
}

// Written, and not derived, so that each end of a scope is one call to prove.
impl Drop for TableSchema {
    fn drop(self) {
        let TableSchema {
            name: _,
            columns: _,
            max_rows: _,
            is_marked_root: _,
            indexes: _,
        } = self;
    }
}
