//! What the service does with a request, and with a session that closes (RFC 7047, section 4.1).
//! [P 8.1, 8.3, 10.5, 11.2, 12.3, 12.4, 13.2]

ghost use Rattle.std.specs.Prelude.{◌≡◌, ◌==◌, ◌&&◌, count_by, false, List, max, map, nat_lt, not, None, Option};
ghost use Rattle.std.specs.Prelude.{option_map, option_to_list, ◌↔◌, IfErr, IfOk, IsOk, IsSome, OnErr, OnOk, Some, true};
ghost use Rattle.std.specs.List.{list_any, position};
ghost use Rattle.serde_json.specs.Data.{Data};
ghost use Rattle.serde_json.specs.View.{view};
ghost use Rattle.serde_json.specs.Written.{has_float};
ghost use Rattle.odb_atoms.specs.FinMap.{get};
ghost use Rattle.odb_atoms.specs.Uuid as identifiers;
ghost use Rattle.odb_locks.specs.Locks as model;
ghost use Rattle.odb_locks.specs.Represented.Locks.{claim_by};
ghost use Rattle.odb_locks.specs.Represented.Notice.{notices_of};
ghost use Rattle.odb_rpc.specs.Message.{failed, has_reply, reply_id};
ghost use Rattle.odb_schema.specs.Schema.{Schema};
ghost use Rattle.odb_service.specs.Run.{max_owed};
ghost use Rattle.odb_atoms.specs.Represented.Atom.{uuid_of};
ghost use Rattle.odb_rpc.specs.Represented.Printable.{printable_data};
ghost use Rattle.odb_rpc.specs.Represented.Call.{call_view, called};
ghost use Rattle.odb_schema.specs.SchemaText.{write_schema};
ghost use Rattle.odb_wire.specs.Message.{has_left_out, id_of};
ghost use Rattle.odb_wire.specs.Shown.{request_data};
ghost use Rattle.odb_queue.specs.Represented.Answer.{at_once, call_at, said};
ghost use Rattle.odb_sessions.specs.Posts.{unposted};
ghost use Rattle.odb_core.specs.Represented.Locking.{fault_of};
ghost use Rattle.odb_core.specs.Represented.Waiting.{is_named};
ghost use Rattle.odb_core.specs.Represented.Requests.{asks_transaction};
ghost use Rattle.odb_core.specs.Represented.Steps.{AreTried, OnlyLocksAndSessions, OnlySessions, by_service, in_world};
ghost use Rattle.odb_service.specs.Service.{Service};
ghost use Rattle.odb_service.specs.Session.{no_result};
ghost use Rattle.odb_service.specs.World.{at_moment, cancel, close, handle, is_due, owed_replies, post};
ghost use Rattle.odb_service.specs.World.{fail, lock_error, locked, on_lock, post_notices, succeed};

use crate::server::Core;
use crate::submitted::Submitted;
use odb_locks::{LockFault, Notice, SessionId};
use odb_queue::{Post, answer_at_once, failed, notices, replied};
use odb_rpc::{Call, CallFault, Error, Failure, Printable};
use odb_wire::Request;
use serde_json::{Map, Value};
use std::alloc::{AllocError, Global};
use uuid::Uuid;

impl Core {
    /// Takes a message of a session in, at a moment in milliseconds. Where memory is refused nothing
    /// changes, and the message comes back.
    pub(crate) fn receive(
        &mut self,
        session: SessionId,
        request: Request,
        fresh: &[Uuid],
        now: u64,
    ) -> Result<(), (Request, AllocError)>
        ensures ok { OnOk result (by_service (λ h w. handle h session (request_data request) (map uuid_of fresh.now)
            (call_at self.old.schema (request_data request)) (at_moment h now w)) self.old ≡ self.new) }
        ensures err { OnErr result (self.new ≡ self.old) }
        ensures back { IfErr result (λ back. back.0 ≡ request) }
    {
        let before = self.moment;
        self.moment = self.moment.max(now);
        let taken = self.handle(session, request, fresh);
        if taken.is_err() {
            self.moment = before;
        }
        taken
    }

    /// Returns whether to refuse the request as Busy: it needs a reply, and the session is already owed
    /// `MAX_OWED`. `None` where the session isn't open. O(log n) for n sessions.
    pub(crate) fn is_busy(&self, session: SessionId, request: &Request) -> Option<bool>
        ensures { (h : Service) (s : Schema) → result ≡ option_map (λ x. has_reply (call_at s (request_data request.now))
            && not (nat_lt (owed_replies h session x self.entry.now.world) max_owed)) (get self.entry.now.world.sessions session) }
    {
        let waiting = self.waiting_of(session);
        self.sessions.owes_too_many(session, request, waiting)
    }

    /// Returns how many transactions of the session wait. O(log n).
    fn waiting_of(&self, session: SessionId) -> usize
        ensures { result ≡ count_by (λ p. p.session == session) self.entry.now.world.waiting }
    {
        self.waiting.count_of(session)
    }

    fn handle(
        &mut self,
        session: SessionId,
        request: Request,
        fresh: &[Uuid],
    ) -> Result<(), (Request, AllocError)>
        ensures ok { OnOk result (by_service (λ h. handle h session (request_data request) (map uuid_of fresh.now)
            (call_at self.old.schema (request_data request))) self.old ≡ self.new) }
        ensures err { OnErr result (self.new ≡ self.old) }
        ensures back { IfErr result (λ back. back.0 ≡ request) }
    {
        match self.handle_call(session, &request) {
            Ok(true) => {
                drop(request);
                Ok(())
            }
            Ok(false) => self.submit_transaction(session, request, fresh),
            Err(refused) => Err((request, refused)),
        }
    }

    fn submit_transaction(
        &mut self,
        session: SessionId,
        request: Request,
        fresh: &[Uuid],
    ) -> Result<(), (Request, AllocError)>
        requires asks { asks_transaction (call_at self.old.schema (request_data request)) ≡ true }
        ensures ok { OnOk result (by_service (λ h. handle h session (request_data request) (map uuid_of fresh.now)
            (call_at self.old.schema (request_data request))) self.old ≡ self.new) }
        ensures err { OnErr result (self.new ≡ self.old) }
        ensures back { IfErr result (λ back. back.0 ≡ request) }
    {
        let asked = Submitted::new(self.alloc, session, request, fresh, self.moment)?;
        match self.transact(asked) {
            Ok(()) => Ok(()),
            Err((asked, refused)) => Err((asked.into_request(), refused)),
        }
    }

    /// Reads what is asked and carries it out, and says so; but for a `transact`, which needs the
    /// request for itself.
    fn handle_call(&mut self, session: SessionId, request: &Request) -> Result<bool, AllocError>
        ensures done { IfOk result (λ done. done ≡ true → (fresh : List identifiers.Uuid) → by_service (λ h. handle h session (request_data request.now) fresh
            (call_at self.old.schema (request_data request.now))) self.old ≡ self.new) }
        ensures transaction { IfOk result (λ done. done ≡ false → asks_transaction (call_at self.old.schema (request_data request.now)) ≡ true) }
        ensures untouched { IfOk result (λ done. done ≡ false → self.new ≡ self.old) }
        ensures err { OnErr result (self.new ≡ self.old) }
    {
        match Call::read(request, self.served.schema()) {
            Ok(call) => self.carry_out(session, request, call),
            Err(fault) => done(self.answer(session, request, Err(fault))),
        }
    }

    fn carry_out(
        &mut self,
        session: SessionId,
        request: &Request,
        call: Call<'_>,
    ) -> Result<bool, AllocError>
        requires call { called self.old.schema.name (write_schema self.old.schema) (reply_id (id_of (request_data request.now))) call
            ≡ call_at self.old.schema (request_data request.now) }
        ensures done { IfOk result (λ done. done ≡ true → (fresh : List identifiers.Uuid) → by_service (λ h. handle h session (request_data request.now) fresh
            (call_at self.old.schema (request_data request.now))) self.old ≡ self.new) }
        ensures transaction { IfOk result (λ done. done ≡ false → asks_transaction (call_at self.old.schema (request_data request.now)) ≡ true) }
        ensures untouched { IfOk result (λ done. done ≡ false → self.new ≡ self.old) }
        ensures err { OnErr result (self.new ≡ self.old) }
    {
        match call {
            Call::Transact(_) => Ok(false),
            Call::Lock(name) => done(self.claim(session, request, name, false)),
            Call::Steal(name) => done(self.claim(session, request, name, true)),
            Call::Unlock(name) => done(self.unlock(session, request, name)),
            Call::Cancel(id) => done(self.cancel(session, id)),
            Call::Monitor(call) => done(self.monitor(session, request, call)),
            call => done(self.answer(session, request, Ok(call))),
        }
    }

    /// Queues the reply to a call that is done at once, if it has one.
    fn answer(
        &mut self,
        session: SessionId,
        request: &Request,
        call: Result<Call<'_>, CallFault>,
    ) -> Result<(), AllocError>
        requires { call_view self.old.schema.name (write_schema self.old.schema) (request_data request.now) call
            ≡ call_at self.old.schema (request_data request.now) }
        ensures ok { OnOk result ((found : Option Data) → at_once (call_at self.old.schema (request_data request.now)) ≡ Some found
            → in_world (post session (option_to_list (option_map (said (request_data request.now)) found))) self.old ≡ self.new) }
        ensures others { OnlySessions self.old self.new }
        ensures err { OnErr result (self.new ≡ self.old) }
    {
        match answer_at_once(self.alloc, &self.served, request, call)? {
            Some(item) => self.post(session, item),
            None => Ok(()),
        }
    }

    /// Carries out `cancel` of a transaction that waits (RFC 7047, section 4.1.4): the session's earliest one
    /// of this id ends. O(waiting transactions).
    fn cancel(&mut self, session: SessionId, id: Printable<'_>) -> Result<(), AllocError>
        ensures ok { OnOk result (by_service (λ h. cancel h session (printable_data id.entry)) self.old ≡ self.new) }
        ensures err { OnErr result (self.new ≡ self.old) }
    {
        let text = id.to_vec(self.alloc)?;
        let Some(place) = self.place_of(session, &text) else {
            return Ok(());
        };
        let request = &self.waiting.at(place).submitted().request;
        let reply = failed(self.alloc, request, Failure::Canceled)?;
        self.post(session, reply)?;
        drop(self.waiting.remove(place));
        Ok(())
    }

    /// Returns where the session's earliest waiting transaction of this id stands.
    fn place_of(&self, session: SessionId, id: &[u8]) -> Option<usize>
        ensures { result ≡ position (is_named session id.now) self.entry.now.world.waiting }
    {
        self.waiting
            .all()
            .iter()
            .position(|waiting| waiting.has_id_and_session(session, id))
    }

    /// Carries out `lock` of a name, or `steal` where the claim is `stolen` (RFC 7047, section 4.1.8).
    /// O(log n + c) for n names and c claims of this one.
    pub(crate) fn claim(
        &mut self,
        session: SessionId,
        request: &Request,
        name: &str,
        stolen: bool,
    ) -> Result<(), AllocError>
        requires { has_left_out (id_of (request_data request.now)) ≡ false }
        ensures ok { OnOk result (by_service (λ h. on_lock h session (request_data request.now) (locked h) (claim_by stolen self.old.world.locks session name.now)) self.old ≡ self.new) }
        ensures others { OnlyLocksAndSessions self.old self.new }
        ensures err { OnErr result (self.new ≡ self.old) }
    {
        let preview = match self.locks.preview_claim(session, name, stolen) {
            Ok(preview) => preview,
            Err(fault) => return self.refuse(session, request, fault),
        };
        let result = locked(self.alloc, preview.owns)?;
        let posted_to = self.answer_lock(session, request, &result, &preview.notices)?;
        if self.locks.claim(session, name, stolen).is_err() {
            self.sessions.take_back(posted_to);
            return Err(AllocError);
        }
        Ok(())
    }

    /// Carries out `unlock` of a name (RFC 7047, section 4.1.8). O(log n + c).
    pub(crate) fn unlock(
        &mut self,
        session: SessionId,
        request: &Request,
        name: &str,
    ) -> Result<(), AllocError>
        requires { has_left_out (id_of (request_data request.now)) ≡ false }
        ensures ok { OnOk result (by_service (λ h. on_lock h session (request_data request.now) (λ b. no_result) (model.unlock self.old.world.locks session name.now)) self.old ≡ self.new) }
        ensures others { OnlyLocksAndSessions self.old self.new }
        ensures err { OnErr result (self.new ≡ self.old) }
    {
        let notices = match self.locks.preview_unlock(session, name) {
            Ok(notices) => notices,
            Err(fault) => return self.refuse(session, request, fault),
        };
        let result = Value::Object(Map::new(self.alloc));
        let posted_to = self.answer_lock(session, request, &result, &notices)?;
        if self.locks.unlock(session, name).is_err() {
            self.sessions.take_back(posted_to);
            return Err(AllocError);
        }
        Ok(())
    }

    /// Queues the notices and then the reply, and returns the sessions for which they were queued.
    fn answer_lock(
        &mut self,
        session: SessionId,
        request: &Request,
        value: &Value,
        lock_notices: &[Notice],
    ) -> Result<Vec<SessionId>, AllocError>
        requires id { has_left_out (id_of (request_data request.now)) ≡ false }
        requires value { has_float (view value.now) ≡ false }
        ensures ok { IfOk result (λ queued.
            in_world (λ w. succeed session (request_data request.now) (view value.now) (post_notices (notices_of lock_notices.now) w)) self.old ≡ self.new) }
        ensures others { OnlySessions self.old self.new }
        ensures back { IfOk result (λ queued. unposted queued.items self.new.world.sessions ≡ self.old.world.sessions) }
        ensures err { OnErr result (self.new ≡ self.old) }
    {
        let mut posts = notices(self.alloc, lock_notices)?;
        let item = replied(self.alloc, request, value)?;
        posts.push(Post { session, item })?;
        self.sessions.post_all(posts)
    }

    /// Queues the error reply to a call that the locks refuse.
    fn refuse(
        &mut self,
        session: SessionId,
        request: &Request,
        fault: LockFault,
    ) -> Result<(), AllocError>
        requires { has_left_out (id_of (request_data request.now)) ≡ false }
        ensures ok { OnOk result ((e : model.LockFault) → fault_of fault ≡ Some e
            → in_world (fail session (request_data request.now) (failed (lock_error e))) self.old ≡ self.new) }
        ensures memory { OnOk result (IsSome (fault_of fault)) }
        ensures others { OnlySessions self.old self.new }
        ensures err { OnErr result (self.new ≡ self.old) }
    {
        let why = match fault {
            LockFault::OutOfTurn => Error::SyntaxError,
            LockFault::TooMany => Error::ResourcesExhausted,
            LockFault::Memory => return Err(AllocError),
        };
        let reply = failed(self.alloc, request, Failure::Failed(why))?;
        self.post(session, reply)
    }

    /// Closes a session (RFC 7047, section 4.1.8): its claims, its transactions that wait and its
    /// queue go. O(its claims + waiting transactions).
    pub(crate) fn end_session(&mut self, session: SessionId) -> Result<(), AllocError>
        ensures ok { OnOk result (by_service (λ h. close h session) self.old ≡ self.new) }
        ensures err { OnErr result (self.new ≡ self.old) }
    {
        let lock_notices = self.locks.preview_drop(session)?;
        let posts = notices(self.alloc, &lock_notices)?;
        drop(self.sessions.post_all(posts)?);
        self.locks.forget_session(session);
        self.waiting.end_session(session);
        self.sessions.close(session);
        Ok(())
    }

    /// Returns the moment now.
    pub(crate) fn moment(&self) -> u64
        ensures now { result ≡ self.entry.now.world.now }
        ensures tried { AreTried self.entry.now }
    {
        self.moment
    }

    /// Sets the moment.
    pub(crate) fn set_moment(&mut self, now: u64)
        ensures { self.new ≡ in_world (λ w. record w { now = now }) self.old }
    {
        self.moment = now;
    }

    /// Returns whether the deadline of a transaction has come by this moment. O(waiting transactions).
    pub(crate) fn has_due(&self, moment: u64) -> bool
        ensures { result ≡ list_any (λ p. is_due moment p.deadline) self.entry.now.world.waiting }
    {
        self.waiting
            .all()
            .iter()
            .any(|waiting| waiting.is_due(moment))
    }
}

/// Returns that a call was carried out, unless memory was refused.
fn done(ended: Result<(), AllocError>) -> Result<bool, AllocError>
    ensures ok { IsOk result ↔ IsOk ended }
    ensures done { IfOk result (λ done. done ≡ true) }
{
    match ended {
        Ok(()) => Ok(true),
        Err(refused) => Err(refused),
    }
}

/// Returns the result of `lock` and `steal` (RFC 7047, section 4.1.8).
fn locked(alloc: Global, owns: bool) -> Result<Value, AllocError>
    ensures value { IfOk result (λ value. (h : Service) → view value ≡ locked h owns) }
    ensures float { IfOk result (λ value. has_float (view value) ≡ false) }
{
    let mut members = Map::new(alloc);
    members.insert(String::from_str(alloc, "locked")?, Value::Bool(owns))?;
    Ok(Value::Object(members))
}
