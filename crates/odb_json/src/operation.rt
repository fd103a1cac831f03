//! Operations (RFC 7047, section 5.2) and their reading. [P 4.1, 6.2, 16]

ghost use Rattle.std.specs.Prelude.{◌≡◌, ◌<◌, IfOk, codes, length, option_map, string_bytes};
ghost use Rattle.serde_json.specs.View.{members_view, view};
ghost use Rattle.odb_atoms.specs.Represented.Atom.{uuid_of};
ghost use Rattle.odb_schema.specs.Json.{get_member, if_given};
ghost use Rattle.odb_json.specs.Operation as model;
ghost use Rattle.odb_json.specs.Represented.Fault.{Gives, Reads};
ghost use Rattle.odb_json.specs.Suited.{IsFor};
ghost use Rattle.odb_json.specs.Represented.Operation.{on_table_of, op_of, read_by, table_reader, until_of, verb_of};

use crate::atom::{SYNTAX, read_own_uuid};
use crate::clause::read_where;
use crate::column::read_columns;
use crate::fault::OpFault;
use crate::leaf::{needed, no_other, read_bool, read_id, read_natural, read_object, read_text};
use crate::mutation::read_mutations;
use crate::names::Names;
use crate::op::{Delete, Insert, Mutate, Op, Select, Until, Update, Wait};
use crate::row::{WrittenBy, read_expected_rows, read_row};
use odb_atoms::Error;
use odb_schema::{Schema, TableId, TableSchema, member};
use serde_json::{Map, Value};
use std::alloc::Global;
use uuid::Uuid;

/// What `op` names.
#[derive(Clone, Copy)]
enum Verb {
    OnTable(TableVerb),
    Commit,
    Abort,
    Comment,
    Assert,
}

/// What `op` names of operations on a table.
#[derive(Clone, Copy)]
enum TableVerb {
    Insert,
    Select,
    Update,
    Mutate,
    Delete,
    Wait,
}

/// Returns the verb with the name.
fn verb_named(name: &str) -> Option<Verb>
    ensures { option_map verb_of result ≡ model.verb_named name.now }
{
    match name {
        "insert" => Some(Verb::OnTable(TableVerb::Insert)),
        "select" => Some(Verb::OnTable(TableVerb::Select)),
        "update" => Some(Verb::OnTable(TableVerb::Update)),
        "mutate" => Some(Verb::OnTable(TableVerb::Mutate)),
        "delete" => Some(Verb::OnTable(TableVerb::Delete)),
        "wait" => Some(Verb::OnTable(TableVerb::Wait)),
        "commit" => Some(Verb::Commit),
        "abort" => Some(Verb::Abort),
        "comment" => Some(Verb::Comment),
        "assert" => Some(Verb::Assert),
        _ => None,
    }
}

/// Reads `table` of an operation.
fn read_table(schema: &Schema, members: &Map<String, Value>) -> Result<TableId, OpFault>
    ensures place { Gives (λ table. table) result
        (model.read_table schema.now (members_view members.now.entries)) }
    ensures in_schema { IfOk result (λ table. table < length schema.now.tables) }
{
    let name = read_text(needed("table", members)?)?;
    schema
        .table(name)
        .ok_or(OpFault::Failed(Error::UnknownTable))
}

/// Reads `uuid-name` of `insert`, where it is given.
fn read_name(alloc: Global, members: &Map<String, Value>) -> Result<Option<String>, OpFault>
    ensures { Reads (option_map string_bytes) result
        (if_given model.read_id
        (get_member (codes "uuid-name") (members_view members.now.entries))) }
{
    match member("uuid-name", members) {
        None => Ok(None),
        Some(value) => Ok(Some(read_id(alloc, value)?)),
    }
}

/// Reads `uuid` of `insert`, where it is given.
fn read_uuid(members: &Map<String, Value>) -> Result<Option<Uuid>, OpFault>
    ensures { Gives (option_map uuid_of) result
        (if_given model.read_own_uuid
        (get_member (codes "uuid") (members_view members.now.entries))) }
{
    match member("uuid", members) {
        None => Ok(None),
        Some(value) => Ok(Some(read_own_uuid(value)?)),
    }
}

/// Reads `until` of `wait`.
fn read_until(members: &Map<String, Value>) -> Result<Until, OpFault>
    ensures { Gives until_of result
        (model.read_needed (codes "until") model.read_until (members_view members.now.entries)) }
{
    let name = read_text(needed("until", members)?)?;
    match name {
        "==" => Ok(Until::Equal),
        "!=" => Ok(Until::NotEqual),
        _ => Err(SYNTAX),
    }
}

/// Reads `timeout` of `wait`, where it is given.
fn read_timeout(members: &Map<String, Value>) -> Result<Option<u64>, OpFault>
    ensures { Gives (λ timeout. timeout) result
        (if_given model.read_natural
        (get_member (codes "timeout") (members_view members.now.entries))) }
{
    match member("timeout", members) {
        None => Ok(None),
        Some(value) => Ok(Some(read_natural(value)?)),
    }
}

/// An operation on a table: its members, and what they are read by.
#[derive(Clone, Copy)]
struct OnTable<'a> {
    alloc: Global,
    names: &'a Names,
    id: TableId,
    table: &'a TableSchema,
    members: &'a Map<String, Value>,
}

impl OnTable<'_> {
    /// Reads `insert`.
    fn read_insert(&self) -> Result<Op, OpFault>
        ensures { Reads op_of result (read_by model.read_insert self.entry.now) }
    {
        let row = needed("row", self.members)?;
        let row = read_row(self.alloc, row, self.table, WrittenBy::Insert, self.names)?;
        let name = read_name(self.alloc, self.members)?;
        let uuid = read_uuid(self.members)?;
        no_other(&["op", "table", "row", "uuid-name", "uuid"], self.members)?;
        Ok(Op::Insert(Insert {
            table: self.id,
            row,
            name,
            uuid,
        }))
    }

    /// Reads `select`.
    fn read_select(&self) -> Result<Op, OpFault>
        ensures { Reads op_of result (read_by model.read_select self.entry.now) }
    {
        let conditions = read_where(self.alloc, self.members, self.table, self.names)?;
        let columns = read_columns(self.alloc, self.table, self.members)?;
        no_other(&["op", "table", "where", "columns"], self.members)?;
        Ok(Op::Select(Select {
            table: self.id,
            conditions,
            columns,
        }))
    }

    /// Reads `update`.
    fn read_update(&self) -> Result<Op, OpFault>
        ensures { Reads op_of result (read_by model.read_update self.entry.now) }
    {
        let conditions = read_where(self.alloc, self.members, self.table, self.names)?;
        let row = needed("row", self.members)?;
        let row = read_row(self.alloc, row, self.table, WrittenBy::Update, self.names)?;
        no_other(&["op", "table", "where", "row"], self.members)?;
        Ok(Op::Update(Update {
            table: self.id,
            conditions,
            row,
        }))
    }

    /// Reads `mutate`.
    fn read_mutate(&self) -> Result<Op, OpFault>
        ensures { Reads op_of result (read_by model.read_mutate self.entry.now) }
    {
        let conditions = read_where(self.alloc, self.members, self.table, self.names)?;
        let mutations = read_mutations(self.alloc, self.members, self.table, self.names)?;
        no_other(&["op", "table", "where", "mutations"], self.members)?;
        Ok(Op::Mutate(Mutate {
            table: self.id,
            conditions,
            mutations,
        }))
    }

    /// Reads `delete`.
    fn read_delete(&self) -> Result<Op, OpFault>
        ensures { Reads op_of result (read_by model.read_delete self.entry.now) }
    {
        let conditions = read_where(self.alloc, self.members, self.table, self.names)?;
        no_other(&["op", "table", "where"], self.members)?;
        Ok(Op::Delete(Delete {
            table: self.id,
            conditions,
        }))
    }

    /// Reads `wait`.
    fn read_wait(&self) -> Result<Op, OpFault>
        ensures { Reads op_of result (read_by model.read_wait self.entry.now) }
    {
        let conditions = read_where(self.alloc, self.members, self.table, self.names)?;
        let columns = read_columns(self.alloc, self.table, self.members)?;
        let until = read_until(self.members)?;
        let rows = read_expected_rows(self.alloc, self.members, self.table, self.names)?;
        let timeout = read_timeout(self.members)?;
        no_other(
            &[
                "op", "table", "where", "columns", "until", "rows", "timeout",
            ],
            self.members,
        )?;
        Ok(Op::Wait(Wait {
            table: self.id,
            conditions,
            columns,
            until,
            rows,
            timeout,
        }))
    }

    /// Reads the operation that `op` names.
    fn read(&self, verb: TableVerb) -> Result<Op, OpFault>
        ensures { Reads op_of result (read_by (table_reader verb) self.entry.now) }
    {
        match verb {
            TableVerb::Insert => self.read_insert(),
            TableVerb::Select => self.read_select(),
            TableVerb::Update => self.read_update(),
            TableVerb::Mutate => self.read_mutate(),
            TableVerb::Delete => self.read_delete(),
            TableVerb::Wait => self.read_wait(),
        }
    }
}

/// Reads an operation on a table.
fn read_on_table(
    alloc: Global,
    verb: TableVerb,
    schema: &Schema,
    names: &Names,
    members: &Map<String, Value>,
) -> Result<Op, OpFault>
    ensures { Reads op_of result
        (model.read_members schema.now names.now (members_view members.now.entries)
        (on_table_of verb)) }
{
    let id = read_table(schema, members)?;
    let table = &schema.tables()[id.place()];
    let operation = OnTable {
        alloc,
        names,
        id,
        table,
        members,
    };
    operation.read(verb)
}

/// Reads `commit`.
fn read_commit(members: &Map<String, Value>) -> Result<Op, OpFault>
    ensures { Gives op_of result (model.read_commit (members_view members.now.entries)) }
{
    let durable = read_bool(needed("durable", members)?)?;
    no_other(&["op", "durable"], members)?;
    Ok(Op::Commit { durable })
}

/// Reads `abort`.
fn read_abort(members: &Map<String, Value>) -> Result<Op, OpFault>
    ensures { Gives op_of result (model.read_abort (members_view members.now.entries)) }
{
    no_other(&["op"], members)?;
    Ok(Op::Abort)
}

/// Reads `comment`.
fn read_comment(members: &Map<String, Value>) -> Result<Op, OpFault>
    ensures { Gives op_of result (model.read_comment (members_view members.now.entries)) }
{
    read_text(needed("comment", members)?)?;
    no_other(&["op", "comment"], members)?;
    Ok(Op::Comment)
}

/// Reads `assert`.
fn read_assert(alloc: Global, members: &Map<String, Value>) -> Result<Op, OpFault>
    ensures { Reads op_of result (model.read_assert (members_view members.now.entries)) }
{
    let lock = read_id(alloc, needed("lock", members)?)?;
    no_other(&["op", "lock"], members)?;
    Ok(Op::Assert { lock })
}

/// Reads what stands after `op`.
fn read_members(
    alloc: Global,
    verb: Verb,
    schema: &Schema,
    names: &Names,
    members: &Map<String, Value>,
) -> Result<Op, OpFault>
    ensures { Reads op_of result
        (model.read_members schema.now names.now (members_view members.now.entries)
        (verb_of verb)) }
{
    match verb {
        Verb::OnTable(verb) => read_on_table(alloc, verb, schema, names, members),
        Verb::Commit => read_commit(members),
        Verb::Abort => read_abort(members),
        Verb::Comment => read_comment(members),
        Verb::Assert => read_assert(alloc, members),
    }
}

/// Reads an operation on a database of the schema (RFC 7047, section 5.2). `names` are the identifiers
/// that the names of the transaction stand for.
///
/// The first of these faults is returned: an object with a string `op`, else `syntax error`; an
/// `op` that is none of the ten (`unknown operation`); then its members, as below from left to
/// right, where one that has to be there and isn't, or has another JSON kind, is `syntax error`;
/// and last a member that isn't one of them (`syntax error`).
///
/// - `insert`: `table`, `row`, [`uuid-name`], an id, [`uuid`], as `read_own_uuid` reads it;
/// - `select`: `table`, `where`, [`columns`];
/// - `update`: `table`, `where`, `row`;
/// - `mutate`: `table`, `where`, `mutations`;
/// - `delete`: `table`, `where`;
/// - `wait`: `table`, `where`, [`columns`], `until`, `rows`, [`timeout`], an integer of at least 0;
/// - `commit`: `durable`;
/// - `abort`;
/// - `comment`: `comment`, a string;
/// - `assert`: `lock`, an id.
///
/// Those in brackets may be left out. A name of a table that the schema doesn't have is `unknown
/// table`. The faults of `row`, `where`, `mutations` and `columns` are those of `read_row`,
/// `read_clause`, `read_mutation` and `read_columns`, from the front; those of `rows` are by row and
/// in it by ascending name: `unknown column`, and what `read_by_kind` says. `Memory` may come in
/// place of any of these.
///
/// O(log n) comparisons of names for each name, and what `read_columns` and the values take.
///
/// What was read is of the schema: its table is there, the values that it writes are of their
/// columns' kinds, and its mutations are ones that their columns have.
pub fn read_op(alloc: Global, value: &Value, schema: &Schema, names: &Names) -> Result<Op, OpFault>
    ensures reads { Reads op_of result (model.read_op schema.now names.now (view value.now)) }
    ensures suits { IfOk result (λ op. IsFor schema.now (op_of op)) }
{
    read_whole(alloc, value, schema, names)
}

#[tactic(auto, unfolding(crate::specs::Operation::read_op))]
fn read_whole(alloc: Global, value: &Value, schema: &Schema, names: &Names) -> Result<Op, OpFault>
    ensures { Reads op_of result (model.read_op schema.now names.now (view value.now)) }
{
    let members = read_object(value)?;
    let name = read_text(needed("op", members)?)?;
    let verb = verb_named(name).ok_or(OpFault::Failed(Error::UnknownOperation))?;
    read_members(alloc, verb, schema, names, members)
}

/// Returns whether the operation is an insert: an object in which `op` is `insert`, whatever else it has. O(log n)
/// comparisons of names for n members.
pub fn is_insert(operation: &Value) -> bool
    ensures { result ≡ model.is_insert (view operation.now) }
{
    match operation.get("op").and_then(Value::as_str) {
        Some(op) => op == "insert",
        None => false,
    }
}
