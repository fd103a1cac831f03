//! The engine of scripts. [P 15.1]
ghost use Rattle.std.specs.Prelude.{◌≡◌, All, IfOk, Ok, OnOk, bytes_eq, map};
ghost use Rattle.odb_wire.specs.Feeding.{fault_of};
ghost use Rattle.odb_wire.specs.Shown.{message_data, request_data, IsOfItsKind};
ghost use Rattle.odb_wire.specs.Stream.{Ending};
ghost use Rattle.std.specs.List.{position};
ghost use Rattle.odb_service.specs.Run.{closed, ticked};
ghost use Rattle.odb_service.specs.Server.{served_by};
ghost use Rattle.odb_script.specs.Script.{Script, in_world, world_after};

use crate::command::Command;
use crate::draining::{drain, drain_all, print_line};
use crate::fresh::fresh_uuids;
use crate::session::ScriptSession;
use odb_core::{Core, EventRefusal, SessionId};
use odb_rpc::inserts;
use odb_schema::Schema;
use odb_wire::{Framer, Message, Request, WireFault};
use std::alloc::{AllocError, Global};
use std::hash::RandomState;
use std::marker::Model;

/// A script that runs: its server, its sessions in order of opening, how many inserts were counted,
/// and the moment in milliseconds. No two sessions have one name, and their numbers rise, up to the next one.
pub(crate) struct Engine {
    alloc: Global,
    core: Core,
    sessions: Vec<ScriptSession>,
    inserts: u64,
    moment: u64,
}

impl Model for Engine {
    ghost use Rattle.odb_script.specs.Running.{Running, running_code};
    ghost use Rattle.odb_script.specs.Represented.Names.{AreOpened};

    ghost Value = { Running };

    ghost coded = { running_code };

    ghost view = { λ e. record {
      schema = e.core.schema;
      script = record {
        world = e.core.world;
        sessions = e.sessions.items;
        opened_so_far = e.core.opened;
        inserts = e.inserts;
        moment = e.moment;
      };
    } };

    ghost invariant = { λ e. AreOpened e.core.opened e.sessions.items };
}

impl Engine {
    ghost use Rattle.odb_script.specs.Script.{at_ending, at_moment, close_named, drain_all};
    ghost use Rattle.odb_script.specs.Script.{fresh_script, deliver_all, dispatch, hold_named};
    ghost use Rattle.odb_script.specs.Script.{open_named, perform, piece, shut, shut_with};
    ghost use Rattle.odb_script.specs.Script.{submit_as, drain, take_named};
    ghost use Rattle.odb_script.specs.Represented.Command.{command_in};
    ghost use Rattle.odb_script.specs.Represented.Steps.{Performs};

    /// Makes a server of the schema with empty tables and no session.
    pub(crate) fn new(
        alloc: Global,
        schema: Schema,
        hashing: RandomState,
    ) -> Result<Engine, AllocError>
        ensures { IfOk result (λ engine. engine
            ≡ record { schema = schema; script = fresh_script schema }) }
    {
        match Core::new(alloc, schema, hashing) {
            Ok(core) => Ok(Engine {
                alloc,
                core,
                sessions: Vec::new(alloc),
                inserts: 0,
                moment: 0,
            }),
            Err((_, _, refused)) => Err(refused),
        }
    }

    /// Carries a command out, and returns what is printed. After an error, which says that memory
    /// was refused, the engine is of no further use.
    pub(crate) fn perform(&mut self, command: Command<'_>) -> Result<Vec<u8>, AllocError>
        ensures text { IfOk result (λ text.
            perform (served_by self.old.schema) (command_in command.entry) self.old.script
            ≡ (self.new.script, text.items)) }
        ensures schema { IfOk result (λ text. self.new.schema ≡ self.old.schema) }
    {
        let mut text = Vec::new(self.alloc);
        match command {
            Command::Piece { name, bytes } => self.receive(name, bytes, &mut text)?,
            Command::Open(name) => {
                self.open_named(name, &mut text)?;
                self.drain_all(&mut text)?;
            }
            Command::Close(name) => {
                self.close_named(name, &mut text)?;
                self.drain_all(&mut text)?;
            }
            Command::Hold(name) => {
                self.hold_named(name, &mut text)?;
                self.drain_all(&mut text)?;
            }
            Command::Take(name) => {
                self.take_named(name, &mut text)?;
                self.drain_all(&mut text)?;
            }
            Command::Tick(moment) => {
                self.set_moment(moment)?;
                self.drain_all(&mut text)?;
            }
        }
        Ok(text)
    }

    fn drain_all(&mut self, text: &mut Vec<u8>) -> Result<(), AllocError>
        ensures done { OnOk result (drain_all (served_by self.old.schema) (self.old.script, text.old.items)
            ≡ (self.new.script, text.new.items)) }
        ensures schema { OnOk result (self.new.schema ≡ self.old.schema) }
    {
        drain_all(self.alloc, &mut self.core, self.sessions.as_slice(), text)
    }

    fn open_named(&mut self, name: &[u8], text: &mut Vec<u8>) -> Result<(), AllocError>
        ensures done { OnOk result (Performs (λ h. open_named h name.now)
            self.old text.old.items self.new text.new.items) }
        ensures schema { OnOk result (self.new.schema ≡ self.old.schema) }
    {
        if place_of(name, self.sessions.as_slice()).is_some() {
            return print_line(text, name, "!open");
        }
        match self.core.open() {
            Ok(session) => {
                let name = Vec::from_slice(self.alloc, name)?;
                let framer = Framer::with_default_limit(self.alloc);
                self.sessions.push(ScriptSession {
                    name,
                    session,
                    framer,
                    held: false,
                })?;
                Ok(())
            }
            Err(EventRefusal::TooMany) => print_line(text, name, "!toomany"),
            Err(_) => Err(AllocError),
        }
    }

    fn close_named(&mut self, name: &[u8], text: &mut Vec<u8>) -> Result<(), AllocError>
        ensures done { OnOk result (Performs (λ h. close_named h name.now)
            self.old text.old.items self.new text.new.items) }
        ensures schema { OnOk result (self.new.schema ≡ self.old.schema) }
    {
        let Some(place) = place_of(name, self.sessions.as_slice()) else {
            return print_line(text, name, "!gone");
        };
        let session = self.sessions[place].session;
        self.shut(name, session)
    }

    /// Ends the session of this name and number.
    fn shut(&mut self, name: &[u8], session: SessionId) -> Result<(), AllocError>
        ensures done { OnOk result (self.new.script
            ≡ shut (served_by self.old.schema) name.now session self.old.script) }
        ensures schema { OnOk result (self.new.schema ≡ self.old.schema) }
    {
        close_if_open(&mut self.core, session)?;
        self.sessions.retain(|named| named.name.as_slice() != name);
        Ok(())
    }

    fn hold_named(&mut self, name: &[u8], text: &mut Vec<u8>) -> Result<(), AllocError>
        ensures done { OnOk result (Performs (λ h. hold_named h name.now)
            self.old text.old.items self.new text.new.items) }
        ensures schema { OnOk result (self.new.schema ≡ self.old.schema) }
    {
        let Some(place) = place_of(name, self.sessions.as_slice()) else {
            return print_line(text, name, "!gone");
        };
        self.sessions[place].set_held(true);
        Ok(())
    }

    fn take_named(&mut self, name: &[u8], text: &mut Vec<u8>) -> Result<(), AllocError>
        ensures done { OnOk result (Performs (λ h. take_named h name.now)
            self.old text.old.items self.new text.new.items) }
        ensures schema { OnOk result (self.new.schema ≡ self.old.schema) }
    {
        let Some(place) = place_of(name, self.sessions.as_slice()) else {
            return print_line(text, name, "!gone");
        };
        let session = self.sessions[place].session;
        drain(&mut self.core, session, name, text)?;
        self.sessions[place].set_held(false);
        Ok(())
    }

    fn set_moment(&mut self, moment: u64) -> Result<(), AllocError>
        ensures done { OnOk result (self.new.script
            ≡ at_moment (served_by self.old.schema) moment self.old.script) }
        ensures schema { OnOk result (self.new.schema ≡ self.old.schema) }
    {
        tick_core(&mut self.core, moment)?;
        self.moment = moment;
        Ok(())
    }

    fn receive(&mut self, name: &[u8], bytes: &[u8], text: &mut Vec<u8>) -> Result<(), AllocError>
        ensures done { OnOk result (Performs (λ h. perform h (piece name.now bytes.now))
            self.old text.old.items self.new text.new.items) }
        ensures schema { OnOk result (self.new.schema ≡ self.old.schema) }
    {
        let Some(place) = place_of(name, self.sessions.as_slice()) else {
            return print_line(text, name, "!gone");
        };
        let session = self.sessions[place].session;
        let fed = self.sessions[place].feed(bytes)?;
        self.deliver_all(name, session, fed.messages, text)?;
        self.end(name, session, fed.fault, text)
    }

    /// Ends the session of a stream that is at a fault.
    fn end(
        &mut self,
        name: &[u8],
        session: SessionId,
        fault: Option<WireFault>,
        text: &mut Vec<u8>,
    ) -> Result<(), AllocError>
        ensures done { OnOk result ((e : Ending) → fault_of e ≡ fault
            → at_ending (served_by self.old.schema) name.now session e (self.old.script, text.old.items)
            ≡ (self.new.script, text.new.items)) }
        ensures schema { OnOk result (self.new.schema ≡ self.old.schema) }
    {
        match fault {
            None => Ok(()),
            Some(WireFault::TooLong) => self.shut_with(name, session, "!fault 2", text),
            Some(WireFault::BadStream) => self.shut_with(name, session, "!fault 3", text),
        }
    }

    fn shut_with(
        &mut self,
        name: &[u8],
        session: SessionId,
        line: &str,
        text: &mut Vec<u8>,
    ) -> Result<(), AllocError>
        ensures done { OnOk result (shut_with (served_by self.old.schema) name.now session line.now
            (self.old.script, text.old.items) ≡ (self.new.script, text.new.items)) }
        ensures schema { OnOk result (self.new.schema ≡ self.old.schema) }
    {
        self.shut(name, session)?;
        print_line(text, name, line)?;
        self.drain_all(text)
    }

    fn deliver_all(
        &mut self,
        name: &[u8],
        session: SessionId,
        messages: Vec<Message>,
        text: &mut Vec<u8>,
    ) -> Result<(), AllocError>
        requires { All IsOfItsKind messages.items }
        ensures done { OnOk result (Performs (λ h. deliver_all h name.now session (map message_data messages.items))
            self.old text.old.items self.new text.new.items) }
        ensures schema { OnOk result (self.new.schema ≡ self.old.schema) }
    {
        for message in messages {
            self.deliver(name, session, message, text)?;
        }
        Ok(())
    }

    /// Delivers a message, and drains all sessions.
    fn deliver(
        &mut self,
        name: &[u8],
        session: SessionId,
        message: Message,
        text: &mut Vec<u8>,
    ) -> Result<(), AllocError>
        requires { IsOfItsKind message }
        ensures done { OnOk result (Performs (λ h p. drain_all h (dispatch h name.now session (message_data message) p))
            self.old text.old.items self.new text.new.items) }
        ensures schema { OnOk result (self.new.schema ≡ self.old.schema) }
    {
        self.dispatch(name, session, message, text)?;
        self.drain_all(text)
    }

    /// Submits a request or a notification, which may be refused; a response does nothing.
    fn dispatch(
        &mut self,
        name: &[u8],
        session: SessionId,
        message: Message,
        text: &mut Vec<u8>,
    ) -> Result<(), AllocError>
        requires { IsOfItsKind message }
        ensures done { OnOk result (Performs (λ h. dispatch h name.now session (message_data message))
            self.old text.old.items self.new text.new.items) }
        ensures schema { OnOk result (self.new.schema ≡ self.old.schema) }
    {
        match message {
            Message::Request(request) => self.submit(name, session, request, text),
            Message::Notification(request) => self.submit(name, session, request, text),
            Message::Response(response) => {
                drop(response);
                Ok(())
            }
        }
    }

    /// Submits a request or a notification, which may be refused, with an identifier for each of its inserts.
    fn submit(
        &mut self,
        name: &[u8],
        session: SessionId,
        request: Request,
        text: &mut Vec<u8>,
    ) -> Result<(), AllocError>
        ensures done { OnOk result (Performs (λ h. submit_as h name.now session (request_data request))
            self.old text.old.items self.new text.new.items) }
        ensures schema { OnOk result (self.new.schema ≡ self.old.schema) }
    {
        let fresh = fresh_uuids(self.alloc, self.inserts, inserts(&request))?;
        let counted = self.inserts.checked_add(inserts(&request) as u64);
        self.inserts = counted.ok_or(AllocError)?;
        match self
            .core
            .submit(session, request, fresh.as_slice(), self.moment)
        {
            Ok(()) => Ok(()),
            Err((_, EventRefusal::Busy)) => print_line(text, name, "!busy"),
            Err((_, EventRefusal::Gone)) => print_line(text, name, "!gone"),
            Err(_) => Err(AllocError),
        }
    }
}

/// Closes a session, where it is open.
fn close_if_open(core: &mut Core, session: SessionId) -> Result<(), AllocError>
    ensures world { OnOk result ((p : Script) → p.world ≡ core.old.world
        → in_world (served_by core.old.schema) (world_after (served_by core.old.schema) (closed session) p) p
        ≡ record p { world = core.new.world }) }
    ensures schema { OnOk result (core.new.schema ≡ core.old.schema) }
    ensures opened { core.new.opened ≡ core.old.opened }
{
    match core.close(session) {
        Ok(()) => Ok(()),
        Err(EventRefusal::Gone) => Ok(()),
        Err(_) => Err(AllocError),
    }
}

fn tick_core(core: &mut Core, moment: u64) -> Result<(), AllocError>
    ensures world { OnOk result ((p : Script) → p.world ≡ core.old.world
        → world_after (served_by core.old.schema) (ticked moment) p ≡ Ok core.new.world) }
    ensures schema { OnOk result (core.new.schema ≡ core.old.schema) }
    ensures opened { core.new.opened ≡ core.old.opened }
{
    core.tick(moment)
}

/// Returns where the session of a name stands.
fn place_of(name: &[u8], sessions: &[ScriptSession]) -> Option<usize>
    ensures { result ≡ position (λ x. bytes_eq x.name name.now) sessions.now }
{
    sessions
        .iter()
        .position(|named| named.name.as_slice() == name)
}

// Written, and not derived, so that each end of a scope is one call to prove.
impl Drop for Engine {
    fn drop(self) {
        let Engine {
            alloc: _,
            core: _,
            sessions: _,
            inserts: _,
            moment: _,
        } = self;
    }
}
