//! Where a message of a connection goes. [P 15.3, 15.4]
ghost use Rattle.std.specs.Prelude.{◌≡◌, Some, IfOk, List, ℕ, map};
ghost use Rattle.serde_json.specs.View.{view};
ghost use Rattle.odb_wire.specs.Message.{method_of};
ghost use Rattle.odb_wire.specs.Shown.{request_data};
ghost use Rattle.odb_front.specs.Front as front;

use crate::databases::Databases;
use crate::ids::{IdText, Ids};
use odb_rpc::Printable;
use odb_wire::Request;
use serde_json::Value;
use std::alloc::{AllocError, Global};

/// Who deals with a message of a connection.
#[derive(Clone, Copy, Debug, PartialEq)]
pub enum Destination {
    /// The first database that is served.
    First,
    /// The second.
    Second,
    /// Both of these: it is about a lock.
    Both,
    /// The database `_Server`.
    Server,
    /// No database: [`Answers`](crate::Answers) has the reply.
    Front,
}

/// Returns where a message goes on a server of these databases, for a connection that has these ids. O(bytes of the ids) where it
/// names a monitor or a request, else O(1).
pub fn destination_of(
    alloc: Global,
    request: &Request,
    databases: &Databases,
    ids: &Ids,
) -> Result<Destination, AllocError>
    ensures { IfOk result (λ destination. destination ≡ front.destination_of databases.now ids.now (request_data request.now)) }
{
    let params = parameters(request);
    if request.is_notification() {
        return of_notification(alloc, request.method(), params, ids);
    }
    if is_shared(request, databases) {
        return Ok(Destination::Both);
    }
    of_request(alloc, request.method(), params, databases, ids)
}

/// Returns whether a request is about a lock, of which both databases learn.
fn is_shared(request: &Request, databases: &Databases) -> bool
    ensures { result ≡ front.is_shared databases.now (request_data request.now) }
{
    databases.has_second() && is_of_locks(request.method()) && !request.has_left_out_number()
}

/// Returns the members of `params`; none where these are no array.
pub(crate) fn parameters(request: &Request) -> &[Value]
    ensures { map view result.now ≡ front.parameters (request_data request.now) }
{
    match request.params().and_then(Value::as_array) {
        Some(params) => params.as_slice(),
        None => &[],
    }
}

fn of_notification(
    alloc: Global,
    method: &str,
    params: &[Value],
    ids: &Ids,
) -> Result<Destination, AllocError>
    ensures { IfOk result (λ destination. destination ≡ front.of_notification ids.now method.now (map view params.now)) }
{
    if method != "cancel" {
        return Ok(Destination::First);
    }
    of_cancel(alloc, params, ids)
}

fn of_cancel(alloc: Global, params: &[Value], ids: &Ids) -> Result<Destination, AllocError>
    ensures { IfOk result (λ destination. destination ≡ front.of_cancel ids.now (map view params.now)) }
{
    if first_among(alloc, params, ids.waiting())? {
        return Ok(Destination::Server);
    }
    if first_among(alloc, params, ids.unanswered())? {
        return Ok(Destination::Second);
    }
    Ok(Destination::First)
}

fn of_request(
    alloc: Global,
    method: &str,
    params: &[Value],
    databases: &Databases,
    ids: &Ids,
) -> Result<Destination, AllocError>
    ensures { IfOk result (λ destination. destination ≡ front.of_request databases.now ids.now method.now (map view params.now)) }
{
    if is_answered(method, databases) {
        return Ok(Destination::Front);
    }
    if method == "transact" {
        return Ok(of_transact(params, databases));
    }
    if is_start(method) {
        return of_start(alloc, params, databases, ids);
    }
    if method == "monitor_cond_change" {
        return of_change(alloc, params, ids);
    }
    if method == "monitor_cancel" {
        return of_end(alloc, params, ids);
    }
    Ok(Destination::First)
}

/// Returns whether no database answers requests of this method.
fn is_answered(method: &str, databases: &Databases) -> bool
    ensures { result ≡ front.is_answered databases.now method.now }
{
    is_of_all(method) || databases.has_server() && is_of_server(method)
}

fn is_of_all(method: &str) -> bool
    ensures { result ≡ front.is_of_all method.now }
{
    method == "list_dbs" || method == "get_schema"
}

fn is_of_server(method: &str) -> bool
    ensures { result ≡ front.is_of_server method.now }
{
    method == "get_server_id" || method == "set_db_change_aware"
}

fn is_of_locks(method: &str) -> bool
    ensures { result ≡ front.is_of_locks method.now }
{
    method == "lock" || method == "steal" || method == "unlock"
}

/// Returns whether requests of this method begin a monitor.
pub(crate) fn is_start(method: &str) -> bool
    ensures { result ≡ front.is_start method.now }
{
    method == "monitor" || method == "monitor_cond" || method == "monitor_cond_since"
}

fn of_transact(params: &[Value], databases: &Databases) -> Destination
    ensures { result ≡ front.of_transact databases.now (map view params.now) }
{
    if databases.is_server(params) {
        return Destination::Server;
    }
    if databases.is_second(params) {
        return Destination::Second;
    }
    Destination::First
}

fn of_start(
    alloc: Global,
    params: &[Value],
    databases: &Databases,
    ids: &Ids,
) -> Result<Destination, AllocError>
    ensures { IfOk result (λ destination. destination ≡ front.of_start databases.now ids.now (map view params.now)) }
{
    if databases.is_server(params) {
        return unless_taken(
            alloc,
            params,
            Destination::Server,
            ids.first(),
            ids.second(),
        );
    }
    if databases.is_second(params) {
        return unless_taken(
            alloc,
            params,
            Destination::Second,
            ids.first(),
            ids.server(),
        );
    }
    if !databases.is_first(params) {
        return Ok(Destination::First);
    }
    unless_taken(
        alloc,
        params,
        Destination::First,
        ids.second(),
        ids.server(),
    )
}

fn of_change(alloc: Global, params: &[Value], ids: &Ids) -> Result<Destination, AllocError>
    ensures { IfOk result (λ destination. destination ≡ front.of_change ids.now (map view params.now)) }
{
    if first_among(alloc, params, ids.server())? {
        return unless_taken(
            alloc,
            params,
            Destination::Server,
            ids.first(),
            ids.second(),
        );
    }
    if first_among(alloc, params, ids.second())? {
        return unless_taken(
            alloc,
            params,
            Destination::Second,
            ids.first(),
            ids.server(),
        );
    }
    if !first_among(alloc, params, ids.first())? {
        return Ok(Destination::First);
    }
    unless_taken(
        alloc,
        params,
        Destination::First,
        ids.second(),
        ids.server(),
    )
}

/// Returns where what names a monitor by the second of its `params` goes: there, unless that is among these ids of other
/// databases.
fn unless_taken(
    alloc: Global,
    params: &[Value],
    destination: Destination,
    others: &[IdText],
    more: &[IdText],
) -> Result<Destination, AllocError>
    ensures { IfOk result (λ goes. goes ≡ front.unless_taken destination others.now more.now (map view params.now)) }
{
    if second_among(alloc, params, others)? {
        return Ok(Destination::Front);
    }
    if second_among(alloc, params, more)? {
        return Ok(Destination::Front);
    }
    Ok(destination)
}

/// Returns where the end of a monitor goes.
fn of_end(alloc: Global, params: &[Value], ids: &Ids) -> Result<Destination, AllocError>
    ensures { IfOk result (λ destination. destination ≡ front.of_end ids.now (map view params.now)) }
{
    if first_among(alloc, params, ids.server())? {
        return Ok(Destination::Server);
    }
    let is_there = first_among(alloc, params, ids.second())?;
    if is_there {
        return Ok(Destination::Second);
    }
    Ok(Destination::First)
}

/// Returns whether the first of the `params` is this name.
pub(crate) fn names(params: &[Value], name: &str) -> bool
    ensures { result ≡ front.names name.now (map view params.now) }
{
    match params {
        [first, ..] => is_text(first, name),
        [] => false,
    }
}

pub(crate) fn is_text(value: &Value, text: &str) -> bool
    ensures { result ≡ front.is_text text.now (view value.now) }
{
    match value.as_str() {
        Some(found) => found == text,
        None => false,
    }
}

/// Returns whether the first of the `params` is among these ids.
fn first_among(alloc: Global, params: &[Value], ids: &[IdText]) -> Result<bool, AllocError>
    ensures { IfOk result (λ found. found ≡ front.first_among ids.now (map view params.now)) }
{
    match params {
        [first, ..] => is_among(alloc, first, ids),
        [] => Ok(false),
    }
}

/// Returns whether the second of the `params` is among these ids.
fn second_among(alloc: Global, params: &[Value], ids: &[IdText]) -> Result<bool, AllocError>
    ensures { IfOk result (λ found. found ≡ front.second_among ids.now (map view params.now)) }
{
    match params {
        [_, second, ..] => is_among(alloc, second, ids),
        _ => Ok(false),
    }
}

fn is_among(alloc: Global, id: &Value, ids: &[IdText]) -> Result<bool, AllocError>
    ensures { IfOk result (λ found. found ≡ front.is_among ids.now (view id.now)) }
{
    match Printable::of(id) {
        Some(id) => {
            let text = IdText::new(alloc, id)?;
            Ok(text.is_among(ids))
        }
        None => Ok(false),
    }
}
