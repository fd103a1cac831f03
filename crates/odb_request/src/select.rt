//! The kinds of change that a monitor is told of.

ghost use Rattle.std.specs.Prelude.{◌≡◌, Some, codes, true};
ghost use Rattle.serde_json.specs.View.{members_view, view};
ghost use Rattle.odb_json.specs.Represented.Fault.{Gives};
ghost use Rattle.odb_request.specs.Represented.Select.{select_of};
ghost use Rattle.odb_request.specs.Requests as model;
ghost use Rattle.odb_schema.specs.Json.{get_member, given_or};

use crate::leaf::SYNTAX;
use odb_json::{OpFault, no_other};
use odb_schema::member;
use serde_json::{Map, Value};

/// Which kinds of change of a table are sent (RFC 7047, section 4.1.5, `<monitor-select>`).
#[derive(Clone, Copy, PartialEq, Eq)]
pub struct Select {
    /// `initial`: the rows of the first reply.
    pub initial: bool,
    /// `insert`: rows that come in later.
    pub insert: bool,
    /// `delete`: rows that go out.
    pub delete: bool,
    /// `modify`: rows that differ.
    pub modify: bool,
}

/// Returns a switch, which is on where it is left out.
fn switch(key: &str, members: &Map<String, Value>) -> Result<bool, OpFault>
    ensures { Gives (λ on. on) result
        (given_or true model.read_switch (get_member key.now (members_view members.now.entries))) }
{
    match member(key, members) {
        None => Ok(true),
        Some(value) => value.as_bool().ok_or(SYNTAX),
    }
}

/// Reads the switches of an object.
fn read_switches(value: &Value) -> Result<Select, OpFault>
    ensures { Gives select_of result (model.read_select (Some (view value.now))) }
{
    let members = value.as_object().ok_or(SYNTAX)?;
    let initial = switch("initial", members)?;
    let insert = switch("insert", members)?;
    let delete = switch("delete", members)?;
    let modify = switch("modify", members)?;
    no_other(&["initial", "insert", "delete", "modify"], members)?;
    Ok(Select {
        initial,
        insert,
        delete,
        modify,
    })
}

/// Reads the member `select` of a request.
pub fn read_select(members: &Map<String, Value>) -> Result<Select, OpFault>
    ensures { Gives select_of result
        (model.read_select (get_member (codes "select") (members_view members.now.entries))) }
{
    match member("select", members) {
        None => Ok(Select {
            initial: true,
            insert: true,
            delete: true,
            modify: true,
        }),
        Some(value) => read_switches(value),
    }
}
