//! How a request names monitors. [P 15.3]
ghost use Rattle.std.specs.Prelude.{◌≡◌, bytes_eq, map, None, Some, ℕ, List, Option, IfOk, OnErr, OnOk};
ghost use Rattle.serde_json.specs.View.{view};
ghost use Rattle.odb_wire.specs.Shown.{request_data};
ghost use Rattle.odb_front.specs.Front as front;

use crate::destination::{is_start, parameters};
use crate::ids::IdText;
use odb_rpc::Printable;
use odb_wire::Request;
use serde_json::Value;
use std::alloc::{AllocError, Global};
use std::marker::Model;

/// Which id names no monitor any more once a request was carried out, and which one names one.
pub struct Naming {
    gone: Option<IdText>,
    come: Option<IdText>,
}

impl Model for Naming {
    ghost use Rattle.odb_front.specs.Front as front;

    ghost Value = { front.Naming };

    ghost coded = { front.naming_code };

    ghost view = { λ n. record { gone = n.gone; come = n.come } };
}

/// Returns whether a request may begin, change or end a monitor: it has such a method, asks for a reply, and has no number that is
/// left out. O(1).
pub fn names_monitor(request: &Request) -> bool
    ensures { result ≡ front.names_monitor (request_data request.now) }
{
    is_of_monitors(request.method()) && !request.is_notification() && !request.has_left_out_number()
}

/// Returns whether the first of the `params` of a request is to name a database. O(1).
pub fn names_database(request: &Request) -> bool
    ensures { result ≡ front.names_database (request_data request.now) }
{
    is_of_database(request.method())
}

fn is_of_database(method: &str) -> bool
    ensures { result ≡ front.is_of_database method.now }
{
    method == "transact" || is_start(method)
}

fn is_of_monitors(method: &str) -> bool
    ensures { result ≡ front.is_of_monitors method.now }
{
    is_start(method) || method == "monitor_cond_change" || method == "monitor_cancel"
}

impl Naming {
    /// Reads how a request names monitors. O(bytes of the ids).
    pub fn of(alloc: Global, request: &Request) -> Result<Naming, AllocError>
        ensures { IfOk result (λ naming. naming ≡ front.naming_of (request_data request.now)) }
    {
        naming_by(alloc, request.method(), parameters(request))
    }

    /// Notes it among the ids of a database: where the one that goes isn't there, nothing happens.
    pub(crate) fn put_into(self, ids: &mut Vec<IdText>) -> Result<(), AllocError>
        ensures ok { OnOk result (ids.new.items ≡ front.named self ids.old.items) }
        ensures err { OnErr result (ids.new.items ≡ ids.old.items) }
    {
        let Naming { gone, come } = self;
        match gone {
            Some(gone) => put_in_place(&gone, come, ids),
            None => put_some(come, ids),
        }
    }
}

/// Returns the first of the `params` of a request as an id, if it may be one. O(bytes of it).
pub fn first_id(alloc: Global, request: &Request) -> Result<Option<IdText>, AllocError>
    ensures { IfOk result (λ id. id ≡ front.first_text (front.parameters (request_data request.now))) }
{
    first(alloc, parameters(request))
}

fn naming_by(alloc: Global, method: &str, params: &[Value]) -> Result<Naming, AllocError>
    ensures { IfOk result (λ naming. naming ≡ front.naming_by method.now (map view params.now)) }
{
    if is_start(method) {
        return Ok(Naming {
            gone: None,
            come: second(alloc, params)?,
        });
    }
    if method == "monitor_cond_change" {
        return changed(alloc, params);
    }
    if method == "monitor_cancel" {
        return ended(alloc, params);
    }
    Ok(nothing())
}

fn nothing() -> Naming
    ensures { result ≡ front.nothing }
{
    Naming {
        gone: None,
        come: None,
    }
}

fn changed(alloc: Global, params: &[Value]) -> Result<Naming, AllocError>
    ensures { IfOk result (λ naming. naming ≡ front.changed (map view params.now)) }
{
    let [old, new, _] = params else {
        return Ok(nothing());
    };
    let gone = text_of(alloc, old)?;
    let come = text_of(alloc, new)?;
    Ok(Naming { gone, come })
}

fn ended(alloc: Global, params: &[Value]) -> Result<Naming, AllocError>
    ensures { IfOk result (λ naming. naming ≡ front.ended (map view params.now)) }
{
    let [id] = params else {
        return Ok(nothing());
    };
    Ok(Naming {
        gone: text_of(alloc, id)?,
        come: None,
    })
}

fn first(alloc: Global, params: &[Value]) -> Result<Option<IdText>, AllocError>
    ensures { IfOk result (λ id. id ≡ front.first_text (map view params.now)) }
{
    match params {
        [first, ..] => text_of(alloc, first),
        [] => Ok(None),
    }
}

fn second(alloc: Global, params: &[Value]) -> Result<Option<IdText>, AllocError>
    ensures { IfOk result (λ id. id ≡ front.second_text (map view params.now)) }
{
    match params {
        [_, second, ..] => text_of(alloc, second),
        _ => Ok(None),
    }
}

fn text_of(alloc: Global, id: &Value) -> Result<Option<IdText>, AllocError>
    ensures { IfOk result (λ text. text ≡ front.text_of (view id.now)) }
{
    match Printable::of(id) {
        Some(id) => Ok(Some(IdText::new(alloc, id)?)),
        None => Ok(None),
    }
}

fn put_some(come: Option<IdText>, ids: &mut Vec<IdText>) -> Result<(), AllocError>
    ensures ok { OnOk result (ids.new.items ≡ front.put_some come ids.old.items) }
    ensures err { OnErr result (ids.new.items ≡ ids.old.items) }
{
    match come {
        Some(come) => put(come, ids),
        None => Ok(()),
    }
}

/// Puts an id in the place of another that is among these; where that isn't, nothing happens.
fn put_in_place(
    gone: &IdText,
    come: Option<IdText>,
    ids: &mut Vec<IdText>,
) -> Result<(), AllocError>
    ensures ok { OnOk result (ids.new.items ≡ front.put_in_place gone.now come ids.old.items) }
    ensures err { OnErr result (ids.new.items ≡ ids.old.items) }
{
    if !gone.is_among(ids.as_slice()) {
        return Ok(());
    }
    match come {
        Some(come) => replace(gone, come, ids),
        None => {
            gone.leave(ids);
            Ok(())
        }
    }
}

fn replace(gone: &IdText, come: IdText, ids: &mut Vec<IdText>) -> Result<(), AllocError>
    ensures ok { OnOk result (ids.new.items ≡ front.replaced gone.now come ids.old.items) }
    ensures err { OnErr result (ids.new.items ≡ ids.old.items) }
{
    if gone.is_same(&come) {
        return Ok(());
    }
    put(come, ids)?;
    gone.leave(ids);
    Ok(())
}

/// Puts an id among these, unless it is there.
fn put(id: IdText, ids: &mut Vec<IdText>) -> Result<(), AllocError>
    ensures ok { OnOk result (ids.new.items ≡ front.put id ids.old.items) }
    ensures err { OnErr result (ids.new.items ≡ ids.old.items) }
{
    if id.is_among(ids.as_slice()) {
        return Ok(());
    }
    ids.push(id)?;
    Ok(())
}

// Written, and not derived, so that each end of a scope is one call to prove.
impl Drop for Naming {
    fn drop(self) {
        let Naming { gone: _, come: _ } = self;
    }
}
