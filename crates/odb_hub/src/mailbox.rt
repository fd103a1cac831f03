//! Where a session's messages come out.
ghost use Rattle.std.specs.Prelude.{◌≡◌, [], ◌∷◌, ◌++◌, IfSome, IfNone};
ghost use Rattle.odb_hub.specs.Represented.Mailbox.{taken, name_of};

use crate::bell::Bell;
use odb_core::Out;
use rtrb::Consumer;
use std::sync::Arc;

/// The messages of a session, as its ring gives them: each once, in the order in which the session is sent them.
/// One thread takes them out, without the lock.
pub struct Mailbox {
    pub(crate) consumer: Consumer<Out>,
    pub(crate) bell: Arc<Bell>,
}

impl Mailbox {
    /// Returns what wakes the thread that takes messages out.
    pub fn bell(&self) -> &Bell {
        &*self.bell
    }

    /// Takes the next message out, if the ring has one now. It waits for nobody.
    pub fn next(&mut self) -> Option<Out>
        ensures some { IfSome result (λ out. taken self.new ≡ taken self.old ++ out ∷ []) }
        ensures none { IfNone result (taken self.new ≡ taken self.old) }
        ensures ring { name_of self.new ≡ name_of self.old }
    {
        self.consumer.pop().ok()
    }
}

// Written, and not derived, so that each end of a scope is one call to prove.
impl Drop for Mailbox {
    fn drop(self) {
        let Mailbox {
            consumer: _,
            bell: _,
        } = self;
    }
}
