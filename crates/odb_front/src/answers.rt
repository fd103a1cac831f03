//! What is answered by no database. [P 15.3, 15.4]
ghost use Rattle.std.specs.Prelude.{◌≡◌, bytes_eq, map, option_map, IfOk};
ghost use Rattle.serde_json.specs.Data.{Data, string};
ghost use Rattle.serde_json.specs.View.{view};
ghost use Rattle.serde_json.specs.Written.{compact_text};
ghost use Rattle.odb_rpc.specs.Message.{reply};
ghost use Rattle.odb_rpc.specs.Represented.Printable.{printable_data};
ghost use Rattle.odb_wire.specs.Shown.{request_data};
ghost use Rattle.odb_front.specs.Answers as model;
ghost use Rattle.odb_front.specs.Represented.Answers.{Prints};

use odb_rpc::{Error, Failure, Printable, failure, reply_id, reply_printed};
use odb_wire::Request;
use serde_json::Value;
use std::alloc::{AllocError, Global};
use std::marker::Model;

/// The schema of a database, as its compact text, and the database's name.
pub struct PrintedSchema {
    name: String,
    text: Vec<u8>,
}

impl Model for PrintedSchema {
    ghost use Rattle.std.specs.Prelude.{ℕ, List, string_bytes};
    ghost use Rattle.std.specs.Coded.{coded×, coded_list, coded_ℕ};

    ghost Value = { List ℕ × List ℕ };

    ghost coded = { coded× (coded_list coded_ℕ) (coded_list coded_ℕ) };

    ghost view = { λ s. (string_bytes s.name, s.text.items) };
}

impl PrintedSchema {
    ghost use Rattle.std.specs.Prelude.{string_bytes};

    /// Makes that of a database of this name.
    pub fn new(name: String, text: Vec<u8>) -> PrintedSchema
        ensures { result ≡ (string_bytes name, text.items) }
    {
        PrintedSchema { name, text }
    }

    fn is_of(&self, name: &str) -> bool
        ensures { result ≡ bytes_eq name.now self.now.0 }
    {
        name == self.name()
    }

    /// Returns the database's name. O(1).
    pub fn name(&self) -> &str
        ensures { result.now ≡ self.now.0 }
    {
        self.name.as_str()
    }

    /// Returns the schema's text. O(1).
    pub fn text(&self) -> &[u8]
        ensures { result.now ≡ self.now.1 }
    {
        self.text.as_slice()
    }
}

/// The results of what no database answers.
pub struct Answers {
    /// The schemas of all databases, in the order in which they are told.
    pub schemas: Vec<PrintedSchema>,
    /// The array of their names, and the string that names this run of the server, each as its compact text.
    pub names: Vec<u8>,
    pub server_id: Vec<u8>,
}

impl Answers {
    /// Returns the reply to a request that goes to no database. O(n) for a request and a reply of n bytes.
    pub fn reply_to(&self, alloc: Global, request: &Request) -> Result<Vec<u8>, AllocError>
        ensures { IfOk result (λ text. (a : model.Answers) → Prints self.now a
            → text.items ≡ compact_text (model.answer a (request_data request.now))) }
    {
        let id = reply_id(request);
        if request.has_left_out_number() {
            return refused(alloc, id);
        }
        match request.params().and_then(Value::as_array) {
            Some(params) => self.by_method(alloc, id, request.method(), params.as_slice()),
            None => refused(alloc, id),
        }
    }

    fn by_method(
        &self,
        alloc: Global,
        id: Printable<'_>,
        method: &str,
        params: &[Value],
    ) -> Result<Vec<u8>, AllocError>
        ensures { IfOk result (λ text. (a : model.Answers) → Prints self.now a
            → text.items ≡ compact_text (model.by_method a (printable_data id.entry) method.now (map view params.now))) }
    {
        if method == "list_dbs" {
            return self.with_names(alloc, id);
        }
        if method == "get_schema" {
            return self.of_schema(alloc, id, params);
        }
        if method == "get_server_id" {
            return self.with_server_id(alloc, id);
        }
        if method == "set_db_change_aware" {
            return of_awareness(alloc, id, params);
        }
        refused(alloc, id)
    }

    fn with_names(&self, alloc: Global, id: Printable<'_>) -> Result<Vec<u8>, AllocError>
        ensures { IfOk result (λ text. (a : model.Answers) → Prints self.now a
            → text.items ≡ compact_text (reply (printable_data id.entry) (model.names_of a))) }
    {
        replied(alloc, id, self.names.as_slice())
    }

    fn with_server_id(&self, alloc: Global, id: Printable<'_>) -> Result<Vec<u8>, AllocError>
        ensures { IfOk result (λ text. (a : model.Answers) → Prints self.now a
            → text.items ≡ compact_text (reply (printable_data id.entry) (string a.server_id))) }
    {
        replied(alloc, id, self.server_id.as_slice())
    }

    fn of_schema(
        &self,
        alloc: Global,
        id: Printable<'_>,
        params: &[Value],
    ) -> Result<Vec<u8>, AllocError>
        ensures { IfOk result (λ text. (a : model.Answers) → Prints self.now a
            → text.items ≡ compact_text (model.of_schema a (printable_data id.entry) (map view params.now))) }
    {
        let [name, ..] = params else {
            return refused(alloc, id);
        };
        match name.as_str() {
            Some(name) => self.by_name(alloc, id, name),
            None => refused(alloc, id),
        }
    }

    fn by_name(&self, alloc: Global, id: Printable<'_>, name: &str) -> Result<Vec<u8>, AllocError>
        ensures { IfOk result (λ text. (a : model.Answers) → Prints self.now a
            → text.items ≡ compact_text (model.by_name a (printable_data id.entry) name.now)) }
    {
        match beside(self.schemas.as_slice(), name) {
            Some(schema) => replied(alloc, id, schema),
            None => failure(alloc, id, Failure::UnknownDatabase),
        }
    }
}

/// Returns the text of the schema of this name, if it is there.
fn beside<'a>(schemas: &'a [PrintedSchema], name: &str) -> Option<&'a [u8]>
    ensures { option_map (λ text. text.now) result ≡ model.beside name.now schemas.now }
{
    let mut left = schemas;
    while let [schema, rest @ ..] = left {
        if schema.is_of(name) {
            return Some(schema.text());
        }
        left = rest;
    }
    None
}

fn of_awareness(alloc: Global, id: Printable<'_>, params: &[Value]) -> Result<Vec<u8>, AllocError>
    ensures { IfOk result (λ text. text.items ≡ compact_text (model.of_awareness (printable_data id.entry) (map view params.now))) }
{
    match params {
        [value] => of_flag(alloc, id, value),
        _ => refused(alloc, id),
    }
}

fn of_flag(alloc: Global, id: Printable<'_>, value: &Value) -> Result<Vec<u8>, AllocError>
    ensures { IfOk result (λ text. text.items ≡ compact_text (model.of_flag (printable_data id.entry) (view value.now))) }
{
    match value.as_bool() {
        Some(_) => taken(alloc, id),
        None => refused(alloc, id),
    }
}

fn taken(alloc: Global, id: Printable<'_>) -> Result<Vec<u8>, AllocError>
    ensures { IfOk result (λ text. text.items ≡ compact_text (reply (printable_data id.entry) model.nothing)) }
{
    replied(alloc, id, b"{}")
}

fn refused(alloc: Global, id: Printable<'_>) -> Result<Vec<u8>, AllocError>
    ensures { IfOk result (λ text. text.items ≡ compact_text (model.refused (printable_data id.entry))) }
{
    failure(alloc, id, Failure::Failed(Error::SyntaxError))
}

fn replied(alloc: Global, id: Printable<'_>, printed: &[u8]) -> Result<Vec<u8>, AllocError>
    ensures { IfOk result (λ text. (d : Data) → printed.now ≡ compact_text d
        → text.items ≡ compact_text (reply (printable_data id.entry) d)) }
{
    let id_text = id.to_vec(alloc)?;
    reply_printed(alloc, id_text.as_slice(), printed)
}

// Written, and not derived, so that each end of a scope is one call to prove.
impl Drop for PrintedSchema {
    fn drop(self) {
        let PrintedSchema { name: _, text: _ } = self;
    }
}

// Written, and not derived, so that each end of a scope is one call to prove.
impl Drop for Answers {
    fn drop(self) {
        let Answers {
            schemas: _,
            names: _,
            server_id: _,
        } = self;
    }
}
