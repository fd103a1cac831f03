//! What isn't moved yet of a message that was taken out.
ghost use Rattle.std.specs.Prelude.{◌≡◌, ◌≢◌, ◌==◌, ◌++◌, [], length, OnErr};
ghost use Rattle.odb_sessions.specs.Represented.Out.{text_of_out};
ghost use Rattle.odb_hub.specs.Represented.Mailbox.{body_of};
ghost use Rattle.odb_hub.specs.Outbox.{bytes_of};

use crate::buffer::Buffer;
use odb_core::Out;
use std::alloc::AllocError;
use std::marker::Model;

/// What is left of a message, of which so many bytes of each part were moved. A body may be many sessions', so it is
/// moved in pieces, and never copied whole.
pub(crate) struct MessageLeft {
    out: Out,
    before: usize,
    body: usize,
    after: usize,
}

impl Model for MessageLeft {
    ghost use Rattle.std.specs.Prelude.{ℕ, List, ◌≤◌, ◌++◌, drop, length};
    ghost use Rattle.std.specs.Coded.{coded_list, coded_ℕ};
    ghost use Rattle.odb_hub.specs.Represented.Mailbox.{body_of};

    ghost Value = { List ℕ };

    ghost coded = { coded_list coded_ℕ };

    ghost view = { λ r. drop r.before r.out.before.items ++ drop r.body (body_of r.out) ++ drop r.after r.out.after.items };

    ghost invariant = { λ r. (r.before ≤ length r.out.before.items) × (r.body ≤ length (body_of r.out)) × (r.after ≤ length r.out.after.items) };
}

impl MessageLeft {
    /// Makes what is left of a message of which nothing was moved.
    pub(crate) fn new(out: Out) -> MessageLeft
        ensures { result ≡ text_of_out out }
    {
        MessageLeft {
            out,
            before: 0,
            body: 0,
            after: 0,
        }
    }

    /// Returns whether all is moved.
    pub(crate) fn is_empty(&self) -> bool
        ensures { result ≡ (length self.now == 0) }
    {
        self.before == self.out.before.len()
            && self.body == body_of(&self.out).len()
            && self.after == self.out.after.len()
    }

    /// Moves a piece of the first part that isn't moved whole.
    pub(crate) fn move_to(&mut self, buffer: &mut Buffer) -> Result<(), AllocError>
        ensures same { buffer.new ++ self.new ≡ buffer.old ++ self.old }
        ensures err { OnErr result (self.new ≢ []) }
    {
        if self.before < self.out.before.len() {
            self.before = buffer.add(self.out.before.as_slice(), self.before)?;
            return Ok(());
        }
        if self.body < body_of(&self.out).len() {
            self.body = buffer.add(body_of(&self.out), self.body)?;
            return Ok(());
        }
        self.after = buffer.add(self.out.after.as_slice(), self.after)?;
        Ok(())
    }

    /// Returns what is left, unless all is moved.
    pub(crate) fn unless_empty(self) -> Option<MessageLeft>
        ensures { bytes_of result ≡ self }
    {
        if self.is_empty() {
            return None;
        }
        Some(self)
    }
}

fn body_of(out: &Out) -> &[u8]
    ensures { result.now ≡ body_of out.now }
{
    match &out.body {
        Some(body) => body.as_slice(),
        None => &[],
    }
}

// Written, and not derived, so that each end of a scope is one call to prove.
impl Drop for MessageLeft {
    fn drop(self) {
        let MessageLeft {
            out: _,
            before: _,
            body: _,
            after: _,
        } = self;
    }
}
