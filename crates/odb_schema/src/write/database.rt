//! Schemas (RFC 7047, section 3.2, `<database-schema>`). [P 1.6]

ghost use Rattle.std.specs.Prelude.{◌≡◌, ◌≤◌, ◌++◌, length, IfOk, IsUtf8, Ok, OnErr, OnOk, Some, option_map};
ghost use Rattle.serde_json.specs.Read.{read};
ghost use Rattle.serde_json.specs.View.{view};
ghost use Rattle.serde_json.specs.Written.{compact_text};
ghost use Rattle.odb_schema.specs.SchemaText as model;
ghost use Rattle.odb_schema.specs.Represented.Members as written;
ghost use Rattle.odb_schema.specs.Represented.Members.{onto};

use super::leaf::Object;
use super::table::write_tables;
use crate::schema::Schema;
use serde_json::Value;
use std::alloc::{AllocError, Global};

impl Object {
    fn put_cksum(&mut self, cksum: Option<&str>) -> Result<(), AllocError>
        ensures { OnOk result (self.new
            ≡ onto (written.cksum_members (option_map (λ text. text.now) cksum.entry)) self.old) }
    {
        match cksum {
            None => Ok(()),
            Some(cksum) => self.put_text("cksum", cksum),
        }
    }
}

impl Schema {
    /// Returns the schema as JSON (RFC 7047, section 3.2). Members that equal their defaults are left out,
    /// and so are those that were passed over when it was read. It is the JSON of the same schema.
    /// O(n log n) for the n bytes of its text.
    pub fn to_value(&self, alloc: Global) -> Result<Value, AllocError>
        ensures exact { IfOk result (λ v. view v ≡ model.write_schema self.now) }
        ensures read_back { IfOk result (λ v. model.read_schema (view v) ≡ Ok self.now) }
    {
        self.reads_back();
        let mut object = Object::new(alloc);
        object.put_cksum(self.cksum())?;
        let tables = write_tables(alloc, self.tables())?;
        object.put("tables", tables)?;
        object.put_text("version", self.version())?;
        object.put_text("name", self.name())?;
        Ok(object.into_value())
    }

    /// Returns the schema's text: its JSON in UTF-8, with no space between tokens and the keys of objects
    /// in ascending order. Where it has at most 16,777,216 bytes, `Schema::read` makes the same
    /// schema of it. O(n log n) for n bytes.
    pub fn to_json(&self, alloc: Global) -> Result<Vec<u8>, AllocError>
        ensures text { IfOk result (λ bytes. bytes.items ≡ compact_text (model.write_schema self.now)) }
        ensures utf8 { IfOk result (λ bytes. IsUtf8 bytes.items) }

        // It is JSON, and the JSON of the schema.
        ensures json { IfOk result (λ bytes. read bytes.items
            ≡ Some (model.write_schema self.now)) }

        // As a file it is the same schema.
        ensures read_back { IfOk result (λ bytes. length bytes.items ≤ model.max_file
            → model.schema_of_file bytes.items ≡ Ok self.now) }
    {
        let value = self.to_value(alloc)?;
        value.to_vec(alloc)
    }
}
