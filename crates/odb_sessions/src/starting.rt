//! Monitors that are asked for. [P 9.1, 9.8]
ghost use Rattle.std.specs.Prelude.{◌≡◌, false, IfOk, OnErr, option_map};
ghost use Rattle.odb_atoms.specs.Represented.Atom.{uuid_of};
ghost use Rattle.odb_atoms.specs.Uuid.{uuid_from};
ghost use Rattle.odb_chain.specs.Chains.{IsNow};
ghost use Rattle.odb_request.specs.Represented.Notation.{notation_of};
ghost use Rattle.odb_rpc.specs.Represented.Printable.{printable_data};
ghost use Rattle.odb_sessions.specs.Marked.{item_seen, due, marks_in};
ghost use Rattle.odb_sessions.specs.Started.{AreApart, AreOfTables, started};
ghost use Rattle.odb_sessions.specs.Tied.{Adds};
ghost use Rattle.odb_wire.specs.Message.{has_left_out, id_of};
ghost use Rattle.odb_wire.specs.Shown.{request_data};

use crate::id::Id;
use crate::item::FirstReply;
use crate::monitor::Monitor;
use crate::origin::Origin;
use crate::past::Past;
use odb_request::{Notation, Request};
use odb_rpc::MonitorStart;
use std::alloc::{AllocError, Global};
use std::marker::Model;
use std::sync::Arc;
use uuid::Uuid;

/// A monitor that is asked for, and the reply to the request for it, as far as it is known. It is what
/// `Sessions::start` takes.
pub struct Starting {
    origin: Origin,
    id: Arc<Id>,
    notation: Notation,
    requests: Vec<Request>,
    since: Option<Uuid>,
}

impl Model for Starting {
    ghost use Rattle.std.specs.Prelude.{option_map};
    ghost use Rattle.std.specs.Arc.{arc_value};
    ghost use Rattle.odb_atoms.specs.Represented.Atom.{uuid_of};
    ghost use Rattle.odb_request.specs.Represented.Notation.{notation_of};
    ghost use Rattle.odb_sessions.specs.Represented.Codes.{starting_code};
    ghost use Rattle.odb_sessions.specs.Started as model;

    ghost Value = { model.Starting };

    ghost coded = { starting_code };

    ghost view = { λ s. record {
      request = s.origin;
      watch = record { id = arc_value s.id; notation = notation_of s.notation; requests = s.requests.items; since = option_map uuid_of s.since };
    } };
}

impl Starting {
    /// Makes the monitor for which the request asks, of which these are the requests as they were read: under the id that
    /// is asked, in its notation, since the commit that it names. O(n) for ids of n bytes.
    pub fn new(
        alloc: Global,
        request: &odb_wire::Request,
        asked: MonitorStart<'_>,
        requests: Vec<Request>,
    ) -> Result<Starting, AllocError>
        requires { has_left_out (id_of (request_data request.now)) ≡ false }
        ensures { IfOk result (λ made. made ≡ record {
          request = request_data request.now;
          watch = record { id = printable_data asked.entry.id; notation = notation_of asked.entry.notation; requests = requests.items; since = option_map uuid_from asked.entry.since };
        }) }
    {
        let origin = Origin::new(alloc, request)?;
        let id = Arc::new(alloc, Id::new(alloc, asked.id)?)?;
        Ok(Starting {
            origin,
            id,
            notation: asked.notation,
            requests,
            since: identifier_of(asked.since),
        })
    }

    /// Makes the item of its first reply, with a mark for each of its tables. Where memory is refused no mark is made.
    pub(crate) fn begin(self, alloc: Global, past: &mut Past) -> Result<FirstReply, AllocError>
        requires tables { AreOfTables past.old.db self.watch.requests }
        requires apart { AreApart self.watch.requests }
        requires now { IsNow past.old }
        ensures ok { IfOk result (λ start. Adds past.old past.new (marks_in start.monitor)) }
        ensures item { IfOk result (λ start. item_seen (due start.origin start.monitor) ≡ started self) }
        ensures err { OnErr result (past.new ≡ past.old) }
    {
        let Starting {
            origin,
            id,
            notation,
            requests,
            since,
        } = self;
        let tables = past.watch(alloc, requests)?;
        let monitor = Monitor {
            id,
            notation,
            tables,
            since,
        };
        Ok(FirstReply { origin, monitor })
    }
}

/// Returns the identifier that the number is, if there is one.
fn identifier_of(number: Option<u128>) -> Option<Uuid>
    ensures { option_map uuid_of result ≡ option_map uuid_from number }
{
    match number {
        Some(number) => Some(Uuid::from_u128(number)),
        None => None,
    }
}

// Written, and not derived, so that each end of a scope is one call to prove.
impl Drop for Starting {
    fn drop(self) {
        let Starting {
            origin: _,
            id: _,
            notation: _,
            requests: _,
            since: _,
        } = self;
    }
}
