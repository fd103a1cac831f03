//! The schema that is served.
ghost use Rattle.std.specs.Prelude.{◌≡◌, IfOk, IfErr};
ghost use Rattle.std.specs.Arc.{arc_value};
ghost use Rattle.serde_json.specs.Written.{compact_text};
ghost use Rattle.odb_schema.specs.SchemaText.{write_schema};

use odb_schema::Schema;
use std::alloc::{AllocError, Global};
use std::marker::Model;
use std::sync::Arc;

/// A schema with its text, which is printed once. Contracts see it as the schema.
pub struct ServedSchema {
    schema: Arc<Schema>,
    text: Vec<u8>,
}

impl Model for ServedSchema {
    ghost use Rattle.std.specs.Arc.{arc_value};
    ghost use Rattle.std.specs.Prelude.{◌≡◌};
    ghost use Rattle.serde_json.specs.Written.{compact_text};
    ghost use Rattle.odb_schema.specs.Represented.Codes.{schema_code};
    ghost use Rattle.odb_schema.specs.Schema as model;
    ghost use Rattle.odb_schema.specs.SchemaText.{write_schema};

    ghost Value = { model.Schema };

    ghost coded = { schema_code };

    ghost view = { λ s. arc_value s.schema };

    ghost invariant = { λ s. s.text.items ≡ compact_text (write_schema (arc_value s.schema)) };
}

impl ServedSchema {
    /// Prints the schema. O(bytes of the schema). Where memory is refused it is handed back.
    pub fn new(alloc: Global, schema: Schema) -> Result<ServedSchema, (Schema, AllocError)>
        ensures ok { IfOk result (λ served. served ≡ schema) }
        ensures err { IfErr result (λ back. back.0 ≡ schema) }
    {
        let text = match schema.to_json(alloc) {
            Ok(text) => text,
            Err(refused) => return Err((schema, refused)),
        };
        match Arc::new(alloc, schema) {
            Ok(schema) => Ok(ServedSchema { schema, text }),
            Err(refused) => Err((refused.value, AllocError)),
        }
    }

    /// Returns the schema. O(1).
    pub fn schema(&self) -> &Schema
        ensures { result.now ≡ self.now }
    {
        &self.schema
    }

    /// Returns the schema, for whoever keeps it too. O(1).
    pub fn shared(&self) -> Result<Arc<Schema>, AllocError>
        ensures { IfOk result (λ shared. arc_value shared ≡ self.now) }
    {
        Ok(self.schema.clone()?)
    }

    /// Returns its text, as `get_schema` prints it (RFC 7047, section 4.1.2). O(1).
    pub fn text(&self) -> &[u8]
        ensures { result.now ≡ compact_text (write_schema self.now) }
    {
        self.text.as_slice()
    }
}

// Written, and not derived, so that each end of a scope is one call to prove.
impl Drop for ServedSchema {
    fn drop(self) {
        let ServedSchema { schema: _, text: _ } = self;
    }
}
