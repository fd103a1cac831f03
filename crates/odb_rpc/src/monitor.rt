//! Requests about monitors (RFC 7047, sections 4.1.5 and 4.1.7; ovsdb-server(7), 4.1.12, 4.1.13
//! and 4.1.15). [P 8.2]
ghost use Rattle.std.specs.Prelude.{◌≡◌, false, List, map, option_map, ℕ};
ghost use Rattle.std.specs.List.{list_any};
ghost use Rattle.serde_json.specs.Data.{Data};
ghost use Rattle.serde_json.specs.View.{view};
ghost use Rattle.odb_atoms.specs.Uuid.{uuid_from};
ghost use Rattle.odb_request.specs.Represented.Notation.{notation_of};
ghost use Rattle.odb_wire.specs.Message.{has_left_out};
ghost use Rattle.odb_rpc.specs.Message.{cancel_monitor, commit_of, is_object, of_change, of_monitor, of_monitor_since, of_one};
ghost use Rattle.odb_rpc.specs.Represented.Call.{outcome};

use crate::call::{Call, CallFault, check_database};
use crate::printable::Printable;
use odb_request::Notation;
use odb_schema::parse_uuid;
use serde_json::Value;

/// What a request about monitors asks. It borrows from the request.
#[derive(Clone, Copy)]
pub enum MonitorCall<'a> {
    /// `monitor` (RFC 7047, section 4.1.5), `monitor_cond` (ovsdb-server(7), 4.1.12) or
    /// `monitor_cond_since` (4.1.15).
    Start(MonitorStart<'a>),
    /// `monitor_cond_change` (ovsdb-server(7), 4.1.13).
    Change(MonitorChange<'a>),
    /// `monitor_cancel` (RFC 7047, section 4.1.7): of the monitor with this id.
    Cancel(Printable<'a>),
}

/// A monitor that is to begin.
#[derive(Clone, Copy)]
pub struct MonitorStart<'a> {
    /// In which notation it is told: `monitor_cond_since` asks for that of `monitor_cond`.
    pub notation: Notation,
    /// Its id, any JSON.
    pub id: Printable<'a>,
    /// Its requests, an object.
    pub requests: &'a Value,
    /// The number that is the identifier of the commit of which the client has the content: `monitor_cond_since` names
    /// one.
    pub since: Option<u128>,
}

/// A change of a monitor.
#[derive(Clone, Copy)]
pub struct MonitorChange<'a> {
    /// Its id.
    pub old: Printable<'a>,
    /// The id that it has from then on.
    pub new: Printable<'a>,
    /// Its new filters, an object.
    pub filters: &'a Value,
}

/// Reads the `params` of `monitor` or `monitor_cond`: the database's name, the monitor's id and its
/// requests. O(1).
///
/// The faults in their order: another number of members, or requests that are no object, or a name
/// that is no string (`Syntax`); another database (`UnknownDatabase`).
pub(crate) fn read_monitor<'a>(
    params: &'a [Value],
    database: &str,
    notation: Notation,
) -> Result<Call<'a>, CallFault>
    requires { list_any has_left_out (map view params.now) ≡ false }
    ensures { (json id : Data) → outcome database.now json id result
        ≡ of_monitor database.now id (notation_of notation) (map view params.now) }
{
    let [name, monitor, requests] = params else {
        return Err(CallFault::Syntax);
    };
    if !is_object(requests) {
        return Err(CallFault::Syntax);
    }
    match check_database(name, database) {
        Ok(()) => Ok(Call::Monitor(MonitorCall::Start(MonitorStart {
            notation,
            id: Printable::known(monitor),
            requests,
            since: None,
        }))),
        Err(fault) => Err(fault),
    }
}

/// Reads the `params` of `monitor_cond_since`: the database's name, the monitor's id, its requests
/// and the identifier of a commit. O(1).
///
/// The faults in their order: another number of members, or requests that are no object, or a commit
/// that isn't named by a text of 36 characters as RFC 7047 has it for identifiers (section 5.1,
/// `<uuid>`), or a name that is no string (`Syntax`); another database (`UnknownDatabase`).
pub(crate) fn read_monitor_since<'a>(
    params: &'a [Value],
    database: &str,
) -> Result<Call<'a>, CallFault>
    requires { list_any has_left_out (map view params.now) ≡ false }
    ensures { (json id : Data) → outcome database.now json id result
        ≡ of_monitor_since database.now id (map view params.now) }
{
    let [name, monitor, requests, last] = params else {
        return Err(CallFault::Syntax);
    };
    if !is_object(requests) {
        return Err(CallFault::Syntax);
    }
    let Some(last) = number_in(last) else {
        return Err(CallFault::Syntax);
    };
    match check_database(name, database) {
        Ok(()) => Ok(Call::Monitor(MonitorCall::Start(MonitorStart {
            notation: Notation::MonitorCond,
            id: Printable::known(monitor),
            requests,
            since: Some(last),
        }))),
        Err(fault) => Err(fault),
    }
}

/// Returns the number of the identifier that a text of 36 characters is.
fn number_in(value: &Value) -> Option<u128>
    ensures { option_map uuid_from result ≡ commit_of (view value.now) }
{
    let commit = parse_uuid(value.as_str()?)?;
    Some(commit.as_u128())
}

/// Reads the `params` of `monitor_cond_change`: the monitor's id, its new id and the filters. O(1).
///
/// Another number of members, or filters that are no object, are a fault (`Syntax`).
pub(crate) fn read_monitor_change<'a>(params: &'a [Value]) -> Result<Call<'a>, CallFault>
    requires { list_any has_left_out (map view params.now) ≡ false }
    ensures { (db : List ℕ) → (json id : Data) → outcome db json id result
        ≡ of_change id (map view params.now) }
{
    let [old, new, filters] = params else {
        return Err(CallFault::Syntax);
    };
    if !is_object(filters) {
        return Err(CallFault::Syntax);
    }
    Ok(Call::Monitor(MonitorCall::Change(MonitorChange {
        old: Printable::known(old),
        new: Printable::known(new),
        filters,
    })))
}

/// Reads the `params` of `monitor_cancel`: the monitor's id. O(1). Another number of members is a fault
/// (`Syntax`).
pub(crate) fn read_monitor_cancel<'a>(params: &'a [Value]) -> Result<Call<'a>, CallFault>
    requires { list_any has_left_out (map view params.now) ≡ false }
    ensures { (db : List ℕ) → (json id : Data) → outcome db json id result
        ≡ of_one id (cancel_monitor id) (map view params.now) }
{
    match params {
        [monitor] => Ok(Call::Monitor(MonitorCall::Cancel(Printable::known(monitor)))),
        _ => Err(CallFault::Syntax),
    }
}

#[tactic(auto, using(crate::proofs::Objects::object_by))]
pub(crate) fn is_object(value: &Value) -> bool
    ensures { result ≡ is_object (view value.now) }
{
    value.as_object().is_some()
}
