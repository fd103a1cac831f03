//! Calls: what a request or a notification asks (RFC 7047, section 4.1). [P 6.2, 8.1, 8.2, 16]
ghost use Rattle.std.specs.Prelude.{◌≡◌, ℕ, List, Bool, Some, None, false, drop, map, option_map, if◌then◌else◌};
ghost use Rattle.serde_json.specs.Data.{Data};
ghost use Rattle.serde_json.specs.View.{view};
ghost use Rattle.odb_wire.specs.Message.{has_left_out, id_of, method_of, params_of};
ghost use Rattle.odb_wire.specs.Shown.{request_data};
ghost use Rattle.odb_rpc.specs.Message as message;
ghost use Rattle.odb_rpc.specs.Message.{call_of, has_reply, inserts_of, of_cancel, of_db, of_lock, of_none};
ghost use Rattle.odb_rpc.specs.Message.{of_notification, of_one, of_request, of_transact, operations_of};
ghost use Rattle.odb_rpc.specs.Message.{reply_id};
ghost use Rattle.odb_rpc.specs.Served.{served};
ghost use Rattle.odb_rpc.specs.Represented.Call.{call_view, called, name_of, number_of};
ghost use Rattle.odb_rpc.specs.Represented.Call.{of_name, outcome, unless};
ghost use Rattle.odb_rpc.specs.Represented.Printable.{printable_data};

use crate::error::Failure;
use crate::monitor::{
    MonitorCall, read_monitor, read_monitor_cancel, read_monitor_change, read_monitor_since,
};
use crate::printable::Printable;
use odb_atoms::Error;
use odb_json::is_insert;
use odb_request::Notation;
use odb_schema::{Schema, is_id};
use odb_wire::Request;
use serde_json::Value;

/// What a request or a notification asks (RFC 7047, section 4.1). It borrows from the request.
#[derive(Clone, Copy)]
pub enum Call<'a> {
    /// `list_dbs` (RFC 7047, section 4.1.1): the result is the array of the database's name.
    ListDatabases,
    /// `get_schema` of the database (RFC 7047, section 4.1.2): the result is its schema.
    GetSchema,
    /// `echo` (RFC 7047, section 4.1.11): the result is these `params`, an array.
    Echo(Printable<'a>),
    /// `transact` on the database (RFC 7047, section 4.1.3): these are its operations.
    Transact(&'a [Value]),
    /// One of the five methods of monitors.
    Monitor(MonitorCall<'a>),
    /// `lock` of this name (RFC 7047, section 4.1.8), which is an id (3.1).
    Lock(&'a str),
    /// `steal` of this name (RFC 7047, section 4.1.8), which is an id.
    Steal(&'a str),
    /// `unlock` of this name (RFC 7047, section 4.1.8), which is an id.
    Unlock(&'a str),
    /// The notification `cancel` of the request with this id (RFC 7047, section 4.1.4).
    Cancel(Printable<'a>),
    /// Any other notification, a faulty `cancel` among them: nothing is done.
    PassedOver,
}

/// Why a request gets an error before anything is done. Reading doesn't allocate, so there is no
/// fault for memory.
#[derive(Clone, Copy, Debug, thiserror::Error)]
pub enum CallFault {
    /// The method is not served, or isn't one of requests.
    #[error("unknown method")]
    UnknownMethod,
    /// A left-out number anywhere in the request; or `params` that are absent, no array, of another
    /// length, or have a member of another JSON kind; or the name of a lock that is no id.
    #[error("syntax error")]
    Syntax,
    /// `params` name another database.
    #[error("unknown database")]
    UnknownDatabase,
}

/// The methods of requests that are served.
#[derive(Clone, Copy)]
enum Method {
    ListDatabases,
    GetSchema,
    Transact,
    Monitor,
    MonitorCond,
    MonitorCondSince,
    MonitorCondChange,
    MonitorCancel,
    Lock,
    Steal,
    Unlock,
    Echo,
}

impl CallFault {
    /// Returns its number, by which it is reported: 2 to 4, in the order of the variants. 1 is want of
    /// memory, which reading can't meet.
    pub fn number(self) -> u8
        ensures { result ≡ number_of self }
    {
        match self {
            CallFault::UnknownMethod => 2,
            CallFault::Syntax => 3,
            CallFault::UnknownDatabase => 4,
        }
    }
}

impl From<CallFault> for Failure {
    ghost use Rattle.std.specs.Prelude.{◌≡◌};
    ghost use Rattle.odb_rpc.specs.Represented.Call.{failure_by};
    ghost use Rattle.odb_rpc.specs.Represented.Failure.{failure_of};

    ghost from_gives = { λ fault failure. failure_of failure ≡ failure_by fault };

    fn from(fault: CallFault) -> Failure {
        match fault {
            CallFault::UnknownMethod => Failure::UnknownMethod,
            CallFault::Syntax => Failure::Failed(Error::SyntaxError),
            CallFault::UnknownDatabase => Failure::UnknownDatabase,
        }
    }
}

impl<'a> Call<'a> {
    /// Reads what the message asks, for the database of the schema. It takes no memory, and goes through
    /// a request once, for numbers that are left out.
    ///
    /// Of a request the faults are tested in this order: a left-out number anywhere (`Syntax`), the
    /// method (`UnknownMethod`), the number of `params` and their JSON kinds (`Syntax`), the
    /// database's name (`UnknownDatabase`). A notification has no faults.
    pub fn read(request: &'a Request, schema: &Schema) -> Result<Call<'a>, CallFault>
        ensures reads { (json : Data)
            → call_view schema.now.name json (request_data request.now) result
            ≡ call_of schema.now.name json served (request_data request.now) }
    {
        Call::for_database(request, schema.name())
    }

    pub(crate) fn for_database(request: &'a Request, database: &str) -> Result<Call<'a>, CallFault>
        ensures { (json : Data)
            → call_view database.now json (request_data request.now) result
            ≡ call_of database.now json served (request_data request.now) }
    {
        if request.is_notification() {
            return Ok(Call::of_notification(request));
        }
        if request.has_left_out_number() {
            return Err(CallFault::Syntax);
        }
        let Some(method) = Method::named(request.method()) else {
            return Err(CallFault::UnknownMethod);
        };
        let Some(params) = request.params() else {
            return Err(CallFault::Syntax);
        };
        method.call(params, database)
    }

    fn of_notification(request: &'a Request) -> Call<'a>
        ensures { (db : List ℕ) → (json id : Data) → (m : List ℕ)
            → method_of (request_data request.now) ≡ Some m
            → called db json id result ≡ of_notification m (params_of (request_data request.now)) }
    {
        if request.method() != "cancel" {
            return Call::PassedOver;
        }
        match request.params().and_then(Value::as_array) {
            Some(params) => Call::of_cancel(params.as_slice()),
            None => Call::PassedOver,
        }
    }

    fn of_cancel(params: &'a [Value]) -> Call<'a>
        ensures { (db : List ℕ) → (json id : Data)
            → called db json id result ≡ of_cancel (map view params.now) }
    {
        let [id] = params else {
            return Call::PassedOver;
        };
        match Printable::of(id) {
            Some(id) => Call::Cancel(id),
            None => Call::PassedOver,
        }
    }
}

impl Method {
    fn named(name: &str) -> Option<Method>
        ensures { option_map name_of result ≡ (if served name.now then Some name.now else None) }
    {
        match name {
            "list_dbs" => Some(Method::ListDatabases),
            "get_schema" => Some(Method::GetSchema),
            "transact" => Some(Method::Transact),
            "monitor" => Some(Method::Monitor),
            "monitor_cond" => Some(Method::MonitorCond),
            "monitor_cond_since" => Some(Method::MonitorCondSince),
            "monitor_cond_change" => Some(Method::MonitorCondChange),
            "monitor_cancel" => Some(Method::MonitorCancel),
            "lock" => Some(Method::Lock),
            "steal" => Some(Method::Steal),
            "unlock" => Some(Method::Unlock),
            "echo" => Some(Method::Echo),
            _ => None,
        }
    }

    fn call<'a>(self, params: &'a Value, database: &str) -> Result<Call<'a>, CallFault>
        requires { has_left_out (view params.now) ≡ false }
        ensures { (json id : Data) → outcome database.now json id result
            ≡ of_request database.now json served id (name_of self) (view params.now) }
    {
        let Some(items) = params.as_array() else {
            return Err(CallFault::Syntax);
        };
        match self {
            Method::ListDatabases => list_databases(items.as_slice()),
            Method::GetSchema => get_schema(items.as_slice(), database),
            Method::Transact => transact(items.as_slice(), database),
            Method::Monitor => read_monitor(items.as_slice(), database, Notation::Monitor),
            Method::MonitorCond => read_monitor(items.as_slice(), database, Notation::MonitorCond),
            Method::MonitorCondSince => read_monitor_since(items.as_slice(), database),
            Method::MonitorCondChange => read_monitor_change(items.as_slice()),
            Method::MonitorCancel => read_monitor_cancel(items.as_slice()),
            Method::Lock => lock(items.as_slice()),
            Method::Steal => steal(items.as_slice()),
            Method::Unlock => unlock(items.as_slice()),
            Method::Echo => Ok(Call::Echo(Printable::known(params))),
        }
    }
}

fn list_databases<'a>(params: &[Value]) -> Result<Call<'a>, CallFault>
    ensures { (db : List ℕ) → (json id : Data) → outcome db json id result
        ≡ of_none id (called db json id Call.ListDatabases) (map view params.now) }
{
    match params {
        [] => Ok(Call::ListDatabases),
        _ => Err(CallFault::Syntax),
    }
}

fn get_schema<'a>(params: &[Value], database: &str) -> Result<Call<'a>, CallFault>
    ensures { (json id : Data) → outcome database.now json id result
        ≡ of_one id (λ name. of_db database.now id name (called database.now json id Call.GetSchema))
        (map view params.now) }
{
    let [name] = params else {
        return Err(CallFault::Syntax);
    };
    match check_database(name, database) {
        Ok(()) => Ok(Call::GetSchema),
        Err(fault) => Err(fault),
    }
}

fn transact<'a>(params: &'a [Value], database: &str) -> Result<Call<'a>, CallFault>
    ensures { (json id : Data) → outcome database.now json id result
        ≡ of_transact database.now id (map view params.now) }
{
    let [name, operations @ ..] = params else {
        return Err(CallFault::Syntax);
    };
    match check_database(name, database) {
        Ok(()) => Ok(Call::Transact(operations)),
        Err(fault) => Err(fault),
    }
}

fn lock<'a>(params: &'a [Value]) -> Result<Call<'a>, CallFault>
    ensures { (db : List ℕ) → (json id : Data) → outcome db json id result
        ≡ of_one id (of_lock id (message.lock id)) (map view params.now) }
{
    match lock_name(params) {
        Ok(name) => Ok(Call::Lock(name)),
        Err(fault) => Err(fault),
    }
}

fn steal<'a>(params: &'a [Value]) -> Result<Call<'a>, CallFault>
    ensures { (db : List ℕ) → (json id : Data) → outcome db json id result
        ≡ of_one id (of_lock id (message.steal id)) (map view params.now) }
{
    match lock_name(params) {
        Ok(name) => Ok(Call::Steal(name)),
        Err(fault) => Err(fault),
    }
}

fn unlock<'a>(params: &'a [Value]) -> Result<Call<'a>, CallFault>
    ensures { (db : List ℕ) → (json id : Data) → outcome db json id result
        ≡ of_one id (of_lock id (message.unlock id)) (map view params.now) }
{
    match lock_name(params) {
        Ok(name) => Ok(Call::Unlock(name)),
        Err(fault) => Err(fault),
    }
}

/// Returns the one member of `params`, the name of a lock.
fn lock_name(params: &[Value]) -> Result<&str, CallFault>
    ensures { (id : Data) → (call : List ℕ → message.Call)
        → of_name (λ name. name.now) id call result ≡ of_one id (of_lock id call) (map view params.now) }
{
    match params {
        [name] => id_in(name),
        _ => Err(CallFault::Syntax),
    }
}

/// Returns the id that the JSON is (RFC 7047, section 3.1).
fn id_in(name: &Value) -> Result<&str, CallFault>
    ensures { (id : Data) → (call : List ℕ → message.Call)
        → of_name (λ name. name.now) id call result ≡ of_lock id call (view name.now) }
{
    let Some(name) = name.as_str() else {
        return Err(CallFault::Syntax);
    };
    if is_id(name) {
        Ok(name)
    } else {
        Err(CallFault::Syntax)
    }
}

/// Returns whether the database is that of this name.
pub(crate) fn check_database(name: &Value, database: &str) -> Result<(), CallFault>
    ensures { (id : Data) → (c : message.Call)
        → unless id c result ≡ of_db database.now id (view name.now) c }
{
    match name.as_str() {
        None => Err(CallFault::Syntax),
        Some(name) => if name == database {
            Ok(())
        } else {
            Err(CallFault::UnknownDatabase)
        },
    }
}

/// Returns the operations of a `transact` (RFC 7047, section 4.1.3): the members of `params` after the
/// first; none where `params` are no array, or empty. O(1).
pub fn operations(request: &Request) -> &[Value]
    ensures { map view result.now ≡ operations_of (request_data request.now) }
{
    match request.params().and_then(Value::as_array) {
        Some(params) => after_first(params.as_slice()),
        None => &[],
    }
}

fn after_first(params: &[Value]) -> &[Value]
    ensures { map view result.now ≡ drop 1 (map view params.now) }
{
    match params {
        [_, rest @ ..] => rest,
        [] => &[],
    }
}

/// Returns how many identifiers the request needs: one for each insert among its operations, where it is a `transact` and
/// no notification. O(n) for n operations.
#[tactic(auto, using(crate::proofs::InsertCounts::inserts_found))]
pub fn inserts(request: &Request) -> usize
    ensures { result ≡ inserts_of (request_data request.now) }
{
    if request.is_notification() || request.method() != "transact" {
        return 0;
    }
    operations(request)
        .iter()
        .filter(|operation| is_insert(*operation))
        .count()
}

/// Returns whether the message gets a reply: notifications don't. O(1).
#[tactic(auto, using(crate::proofs::Answered::request_replies))]
pub fn has_reply(request: &Request) -> bool
    ensures { (db : List ℕ) → (schema : Data) → (serves : List ℕ → Bool)
        → result ≡ has_reply (call_of db schema serves (request_data request.now)) }
{
    !request.is_notification()
}

/// Returns the id that a reply to the request carries: the request's own, or null where that has a left-out
/// number. It goes through the id.
pub fn reply_id<'a>(request: &'a Request) -> Printable<'a>
    ensures { printable_data result ≡ reply_id (id_of (request_data request.now)) }
{
    request
        .id()
        .and_then(Printable::of)
        .unwrap_or(Printable::null())
}
