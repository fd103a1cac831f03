//! The calls about monitors (RFC 7047, sections 4.1.5 and 4.1.7; ovsdb-server(7), 4.1.12,
//! 4.1.13 and 4.1.15). [P 9.1, 9.5, 9.6, 9.8]

ghost use Rattle.std.specs.Prelude.{◌≡◌, ◌∷◌, [], bytes_eq, false, is_some, map, option_map, IfOk, List, Ok, OnErr, OnOk};
ghost use Rattle.std.specs.List.{list_all, list_any};
ghost use Rattle.std.specs.Arc.{arc_value};
ghost use Rattle.serde_json.specs.Data.{Data};
ghost use Rattle.serde_json.specs.View.{view};
ghost use Rattle.odb_atoms.specs.FinMap.{get};
ghost use Rattle.odb_atoms.specs.Uuid as identifiers;
ghost use Rattle.odb_atoms.specs.Uuid.{uuid_from};
ghost use Rattle.odb_request.specs.Represented.Change as requested;
ghost use Rattle.odb_request.specs.Represented.Notation.{notation_of};
ghost use Rattle.odb_request.specs.Represented.Shape.{table_name};
ghost use Rattle.odb_request.specs.Requests.{read_changes, read_requests};
ghost use Rattle.odb_round.specs.OfSchema.{AreOfSchema};
ghost use Rattle.odb_rpc.specs.Represented.Failure.{failure_of};
ghost use Rattle.odb_rpc.specs.Represented.Monitor.{monitor_called};
ghost use Rattle.odb_rpc.specs.Represented.Printable.{printable_data};
ghost use Rattle.odb_schema.specs.Schema as model;
ghost use Rattle.odb_service.specs.Server.{served_by};
ghost use Rattle.odb_service.specs.Session.{start};
ghost use Rattle.odb_service.specs.World.{asked_of, change_of, fail, handle};
ghost use Rattle.odb_service.specs.World.{on_cancel_monitor, on_monitor, post, watched};
ghost use Rattle.odb_sessions.specs.Named.{named};
ghost use Rattle.odb_sessions.specs.Represented.Item.{filters_of};
ghost use Rattle.odb_sessions.specs.Started.{AreApart, AreOfTables};
ghost use Rattle.odb_wire.specs.Message.{has_left_out, id_of};
ghost use Rattle.odb_wire.specs.Shown.{request_data};
ghost use Rattle.odb_core.specs.Represented.Monitors.{change_for, changed_by};
ghost use Rattle.odb_core.specs.Represented.Monitors.{filters_as, filters_for, is_taken, requests_as};
ghost use Rattle.odb_core.specs.Represented.Steps.{OnlySessions, by_service, in_world};

use crate::server::Core;
use odb_locks::SessionId;
use odb_queue::{ServedSchema, failed};
use odb_request as monitored;
use odb_request::{Change, RequestFault, read_changes, read_requests};
use odb_rpc::{Error, Failure, MonitorCall, MonitorChange, MonitorStart, Printable};
use odb_schema::{Schema, TableId};
use odb_sessions::{Changes, Changing, Id, Named, Starting};
use odb_wire::Request;
use serde_json::Value;
use std::alloc::{AllocError, Global};
use std::sync::Arc;

impl Core {
    /// Carries a call about monitors out.
    pub(crate) fn monitor(
        &mut self,
        session: SessionId,
        request: &Request,
        call: MonitorCall<'_>,
    ) -> Result<(), AllocError>
        requires own { has_left_out (id_of (request_data request.now)) ≡ false }
        ensures ok { OnOk result ((id : Data) (fresh : List identifiers.Uuid)
            → by_service (λ h. handle h session (request_data request.now) fresh (monitor_called id call.entry)) self.old ≡ self.new) }
        ensures others { OnlySessions self.old self.new }
        ensures err { OnErr result (self.new ≡ self.old) }
    {
        match call {
            MonitorCall::Start(asked) => self.start_monitor(session, request, asked),
            MonitorCall::Change(asked) => self.change_monitor(session, request, asked),
            MonitorCall::Cancel(id) => self.cancel_monitor(session, request, id),
        }
    }

    /// Carries out `monitor`, `monitor_cond` or `monitor_cond_since`. Where the session has a monitor of the id as
    /// asked it is `syntax error`; then come the faults of the requests. It costs what `odb_request::read_requests` and
    /// `odb_sessions::Sessions::start` do, and O(monitors + items queued) for the session's.
    fn start_monitor(
        &mut self,
        session: SessionId,
        request: &Request,
        asked: MonitorStart<'_>,
    ) -> Result<(), AllocError>
        requires own { has_left_out (id_of (request_data request.now)) ≡ false }
        ensures ok { OnOk result (by_service (λ h. on_monitor h session (request_data request.now)
            (notation_of asked.entry.notation) (printable_data asked.entry.id) (option_map uuid_from asked.entry.since) (view asked.entry.requests.now)) self.old ≡ self.new) }
        ensures others { OnlySessions self.old self.new }
        ensures err { OnErr result (self.new ≡ self.old) }
    {
        if self.is_used(session, asked.id)? {
            return self.fail(session, request, Failure::Failed(Error::SyntaxError));
        }
        match requests_of(self.alloc, &self.served, asked)? {
            Ok(requests) => self.begin(session, request, asked, requests),
            Err(why) => self.fail(session, request, Failure::Failed(why)),
        }
    }

    /// Returns whether the session has a monitor of this id as asked.
    fn is_used(&self, session: SessionId, id: Printable<'_>) -> Result<bool, AllocError>
        ensures { IfOk result (λ used. (schema : model.Schema)
            → used ≡ is_some (watched (served_by schema) (printable_data id.entry) (asked_of (served_by schema) (get self.entry.now.world.sessions session)))) }
    {
        let id = Id::new(self.alloc, id)?;
        self.sessions.asked(session, &id)
    }

    /// Queues the first reply of a monitor with these requests.
    fn begin(
        &mut self,
        session: SessionId,
        request: &Request,
        asked: MonitorStart<'_>,
        requests: Vec<monitored::Request>,
    ) -> Result<(), AllocError>
        requires own { has_left_out (id_of (request_data request.now)) ≡ false }
        requires tables { AreOfTables self.old.world.db requests.items }
        requires apart { AreApart requests.items }
        requires of { AreOfSchema self.old.schema requests.items }
        ensures ok { OnOk result (in_world (post session (start (request_data request.now) (record {
          id = printable_data asked.entry.id;
          notation = notation_of asked.entry.notation;
          requests = requests.items;
          since = option_map uuid_from asked.entry.since;
        }) ∷ [])) self.old ≡ self.new) }
        ensures others { OnlySessions self.old self.new }
        ensures err { OnErr result (self.new ≡ self.old) }
    {
        let starting = Starting::new(self.alloc, request, asked, requests)?;
        self.sessions.start(session, starting)?;
        Ok(())
    }

    /// Carries out `monitor_cancel`: of no monitor as asked it is `unknown monitor`. The costs are those of
    /// `odb_sessions::Sessions::stop`, and O(monitors + items queued) for the session's.
    fn cancel_monitor(
        &mut self,
        session: SessionId,
        request: &Request,
        id: Printable<'_>,
    ) -> Result<(), AllocError>
        requires { has_left_out (id_of (request_data request.now)) ≡ false }
        ensures ok { OnOk result (by_service (λ h w. on_cancel_monitor h session (request_data request.now) (printable_data id.entry)
            (watched h (printable_data id.entry) (asked_of h (get w.sessions session))) w) self.old ≡ self.new) }
        ensures others { OnlySessions self.old self.new }
        ensures err { OnErr result (self.new ≡ self.old) }
    {
        if !self.is_used(session, id)? {
            return self.fail(session, request, Failure::UnknownMonitor);
        }
        self.sessions.stop(session, request, id)?;
        Ok(())
    }

    /// Carries out `monitor_cond_change`: the faults in their order are those of `read_change`. The costs are those of
    /// `odb_request::read_changes`, and O(monitors + items queued) for the session's.
    fn change_monitor(
        &mut self,
        session: SessionId,
        request: &Request,
        asked: MonitorChange<'_>,
    ) -> Result<(), AllocError>
        requires { has_left_out (id_of (request_data request.now)) ≡ false }
        ensures ok { OnOk result (by_service (λ h w. change_of h session (request_data request.now)
            (printable_data asked.entry.old) (printable_data asked.entry.new) (view asked.entry.filters.now)
            (watched h (printable_data asked.entry.old) (asked_of h (get w.sessions session))) w) self.old ≡ self.new) }
        ensures others { OnlySessions self.old self.new }
        ensures err { OnErr result (self.new ≡ self.old) }
    {
        match self.read_change(session, asked)? {
            Ok(changes) => self.shift(session, request, asked, changes),
            Err(why) => self.fail(session, request, why),
        }
    }

    /// Reads the new filters, or returns why the change is refused: the session has no monitor of the old id as asked,
    /// or one of `monitor` (`unknown monitor`); it has another of the new id (`syntax error`); a fault of the filters;
    /// or a table that isn't the monitor's (`syntax error`).
    fn read_change(
        &self,
        session: SessionId,
        asked: MonitorChange<'_>,
    ) -> Result<Result<Changes, Failure>, AllocError>
        ensures { IfOk result (λ read. filters_as read ≡ change_for (served_by self.entry.now.schema)
            (is_taken (served_by self.entry.now.schema) (printable_data asked.entry.old) (printable_data asked.entry.new) (get self.entry.now.world.sessions session))
            (read_changes self.entry.now.schema (view asked.entry.filters.now))
            (option_map named (watched (served_by self.entry.now.schema) (printable_data asked.entry.old) (asked_of (served_by self.entry.now.schema) (get self.entry.now.world.sessions session))))) }
    {
        let old = Id::new(self.alloc, asked.old)?;
        let Some(monitor) = self.sessions.asked_watch(session, &old)? else {
            return Ok(Err(Failure::UnknownMonitor));
        };
        if !monitor.notation().is_conditional() {
            return Ok(Err(Failure::UnknownMonitor));
        }
        if self.is_taken(session, &old, asked.new)? {
            return Ok(Err(Failure::Failed(Error::SyntaxError)));
        }
        filters_for(self.alloc, &self.served, &monitor, asked.filters)
    }

    /// Returns whether another monitor of the session, as asked, has the new id.
    fn is_taken(&self, session: SessionId, old: &Id, new: Printable<'_>) -> Result<bool, AllocError>
        ensures { IfOk result (λ taken. (schema : model.Schema)
            → taken ≡ is_taken (served_by schema) old.now (printable_data new.entry) (get self.entry.now.world.sessions session)) }
    {
        let new = Id::new(self.alloc, new)?;
        if old.same(&new) {
            return Ok(false);
        }
        self.sessions.asked(session, &new)
    }

    /// Queues what the client lacks under the new filters, and then the reply.
    fn shift(
        &mut self,
        session: SessionId,
        request: &Request,
        asked: MonitorChange<'_>,
        changes: Changes,
    ) -> Result<(), AllocError>
        requires { has_left_out (id_of (request_data request.now)) ≡ false }
        ensures ok { OnOk result (in_world (changed_by session (request_data request.now) (printable_data asked.entry.old) (printable_data asked.entry.new)
            (Ok (filters_of changes))) self.old ≡ self.new) }
        ensures others { OnlySessions self.old self.new }
        ensures err { OnErr result (self.new ≡ self.old) }
    {
        let changing = Changing::new(self.alloc, request, asked.old, asked.new, changes)?;
        self.sessions.change(session, changing)?;
        Ok(())
    }

    /// Queues the error reply to a request.
    fn fail(
        &mut self,
        session: SessionId,
        request: &Request,
        why: Failure,
    ) -> Result<(), AllocError>
        requires { has_left_out (id_of (request_data request.now)) ≡ false }
        ensures ok { OnOk result (in_world (fail session (request_data request.now) (failure_of why)) self.old ≡ self.new) }
        ensures others { OnlySessions self.old self.new }
        ensures err { OnErr result (self.new ≡ self.old) }
    {
        let reply = failed(self.alloc, request, why)?;
        self.post(session, reply)
    }
}

/// Returns the requests of a monitor, or their first fault.
fn requests_of(
    alloc: Global,
    served: &ServedSchema,
    asked: MonitorStart<'_>,
) -> Result<Result<Vec<monitored::Request>, Error>, AllocError>
    ensures { IfOk result (λ read. requests_as read
        ≡ read_requests served.now (notation_of asked.entry.notation) (view asked.entry.requests.now)) }
{
    let schema = served.shared()?;
    match read_requests(alloc, asked.requests, &schema, asked.notation) {
        Ok(requests) => Ok(Ok(requests)),
        Err(RequestFault::Failed(why)) => Ok(Err(why)),
        Err(RequestFault::Memory) => Err(AllocError),
    }
}

/// Returns the filters for the monitor, or why they are refused.
fn filters_for(
    alloc: Global,
    served: &ServedSchema,
    monitor: &Named<'_>,
    filters: &Value,
) -> Result<Result<Changes, Failure>, AllocError>
    ensures { IfOk result (λ read. filters_as read
        ≡ filters_for monitor.now.shapes (read_changes served.now (view filters.now))) }
{
    let schema = served.shared()?;
    match read_changes(alloc, filters, &schema) {
        Ok(changes) => Ok(of_its_tables(schema, changes, monitor)),
        Err(RequestFault::Failed(why)) => Ok(Err(Failure::Failed(why))),
        Err(RequestFault::Memory) => Err(AllocError),
    }
}

/// Returns the filters, unless one is for a table that isn't the monitor's.
fn of_its_tables(
    schema: Arc<Schema>,
    changes: Vec<Change>,
    monitor: &Named<'_>,
) -> Result<Changes, Failure>
    ensures { filters_as result ≡ filters_for monitor.now.shapes (Ok (map (requested.change_of (arc_value schema)) changes.items)) }
{
    if !are_among(&schema, changes.as_slice(), monitor) {
        return Err(Failure::Failed(Error::SyntaxError));
    }
    Ok(Changes { schema, changes })
}

/// Returns whether each change is of one of the monitor's tables.
fn are_among(schema: &Schema, changes: &[Change], monitor: &Named<'_>) -> bool
    ensures { result ≡ list_all (λ c. list_any (λ s. bytes_eq (table_name schema.now c.table) s.name) monitor.now.shapes) changes.now }
{
    changes
        .iter()
        .all(|change| is_among(schema, change.table, monitor))
}

fn is_among(schema: &Schema, table: TableId, monitor: &Named<'_>) -> bool
    ensures { result ≡ list_any (λ s. bytes_eq (table_name schema.now table) s.name) monitor.now.shapes }
{
    match schema.tables().get(table.place()) {
        Some(table) => monitor.has_table(table.name()),
        None => monitor.has_table(""),
    }
}
