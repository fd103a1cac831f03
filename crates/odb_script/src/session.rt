//! The sessions of a script by their names. [P 15.1]
ghost use Rattle.std.specs.Prelude.{◌≡◌, All, IfOk, drop, map};
ghost use Rattle.odb_script.specs.Script.{with_bytes, with_held};
ghost use Rattle.odb_wire.specs.Feeding.{fault_of};
ghost use Rattle.odb_wire.specs.Shown.{message_data, IsOfItsKind};
ghost use Rattle.odb_wire.specs.Stream.{max_message, messages};

use odb_core::SessionId;
use odb_wire::{Fed, Framer};
use std::alloc::AllocError;
use std::marker::Model;

/// An open session: its name, its number, its framer, and whether it is held.
pub(crate) struct ScriptSession {
    pub(crate) name: Vec<u8>,
    pub(crate) session: SessionId,
    pub(crate) framer: Framer,
    pub(crate) held: bool,
}

impl Model for ScriptSession {
    ghost use Rattle.std.specs.Prelude.{◌≡◌, length};
    ghost use Rattle.odb_script.specs.Running.{script_session_code};
    ghost use Rattle.odb_script.specs.Script as model;
    ghost use Rattle.odb_wire.specs.Stream.{max_message, messages};

    ghost Value = { model.ScriptSession };

    ghost coded = { script_session_code };

    ghost view = { λ n. record {
      name = n.name.items;
      session = n.session;
      bytes = n.framer.bytes;
      delivered = length (messages max_message n.framer.bytes).0;
      held = n.held;
    } };

    ghost invariant = { λ n. n.framer.most ≡ max_message };
}

impl ScriptSession {
    /// Holds the session, or no longer.
    pub(crate) fn set_held(&mut self, held: bool)
        ensures { self.new ≡ with_held held self.old }
    {
        self.held = held;
    }

    /// Takes the next bytes of the session's stream in.
    pub(crate) fn feed(&mut self, bytes: &[u8]) -> Result<Fed, AllocError>
        ensures session { IfOk result (λ fed. self.new ≡ with_bytes bytes.now self.old) }
        ensures messages { IfOk result (λ fed. map message_data fed.messages.items
            ≡ drop self.old.delivered (messages max_message self.new.bytes).0) }
        ensures kinds { IfOk result (λ fed. All IsOfItsKind fed.messages.items) }
        ensures fault { IfOk result (λ fed. fault_of (messages max_message self.new.bytes).1 ≡ fed.fault) }
        ensures name { self.new.name ≡ self.old.name }
        ensures number { self.new.session ≡ self.old.session }
    {
        self.framer.feed(bytes)
    }
}

// Written, and not derived, so that each end of a scope is one call to prove.
impl Drop for ScriptSession {
    fn drop(self) {
        let ScriptSession {
            name: _,
            session: _,
            framer: _,
            held: _,
        } = self;
    }
}
