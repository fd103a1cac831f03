//! Where a session's messages are written, as far as a writer takes them.
ghost use Rattle.std.specs.Prelude.{◌≡◌, ◌≢◌, ◌==◌, ◌++◌, [], length, map, not, true, false, IfErr, IfOk, OnErr, OnOk};
ghost use Rattle.std.specs.Io.KnownBytes.{Keeps};
ghost use Rattle.odb_sessions.specs.Represented.Out.{text_of_out};
ghost use Rattle.odb_hub.specs.Outbox.{bytes_of};
ghost use Rattle.odb_hub.specs.Represented.Mailbox.{name_of, taken};

use crate::bell::Bell;
use crate::buffer::{Buffer, PIECE};
use crate::left::MessageLeft;
use crate::mailbox::Mailbox;
use odb_core::Out;
use std::alloc::{AllocError, Global};
use std::io::{self, Write};
use std::marker::Model;

/// A mailbox, and what was taken out of it and isn't written yet: the bytes of a buffer, and then what is left of a
/// message.
pub struct Outbox {
    mailbox: Mailbox,
    message: Option<MessageLeft>,
    buffer: Buffer,
}

impl Model for Outbox {
    ghost use Rattle.std.specs.Prelude.{map, ◌++◌};
    ghost use Rattle.odb_sessions.specs.Represented.Out.{text_of_out};
    ghost use Rattle.odb_hub.specs.Represented.Mailbox.{name_of, taken};
    ghost use Rattle.odb_hub.specs.Outbox as model;

    ghost Value = { model.Outbox };

    ghost coded = { model.outbox_code };

    ghost view = { λ o. record { name = name_of o.mailbox; taken = map text_of_out (taken o.mailbox); left = o.buffer ++ model.bytes_of o.message } };
}

/// The request by which a peer is probed, whether it is there (RFC 7047, 4.1.11).
const PROBE: &[u8] = b"{\"id\":\"echo\",\"method\":\"echo\",\"params\":[]}";

/// How many pieces are written in a turn at most.
const TURN: usize = 64;

impl Outbox {
    ghost use Rattle.odb_hub.specs.Outbox.{ProbesBy, Moves, MovesSome, Takes};

    /// Makes the outbox of a mailbox. Of what was taken out before nothing is left.
    pub fn new(alloc: Global, mailbox: Mailbox) -> Outbox
        ensures { result ≡ record { name = name_of mailbox; taken = map text_of_out (taken mailbox); left = [] } }
    {
        Outbox {
            mailbox,
            message: None,
            buffer: Buffer::new(alloc),
        }
    }

    /// Returns what wakes the thread that takes messages out.
    pub fn bell(&self) -> &Bell {
        self.mailbox.bell()
    }

    /// Returns whether something was taken out that isn't written yet.
    pub fn has_left(&self) -> bool
        ensures { result ≡ not (length self.now.left == 0) }
    {
        !self.buffer.is_empty() || !is_moved(&self.message)
    }

    /// Writes what is left, and then the messages that the mailbox gives, in order: until it gives none, which is true, or
    /// for a turn of some 1 MiB. An error is the writer's (also `WouldBlock`), or says that the writer took nothing or that
    /// memory was refused; whatever comes, nothing is lost or written twice. O(what is written).
    pub fn write_to<W: Write>(&mut self, writer: &mut W) -> io::Result<bool>
        ensures moves { Moves self.old self.new (W.contents writer.old) (W.contents writer.new) }
        ensures done { IfOk result (λ done. done ≡ true → self.new.left ≡ []) }
        ensures some { IfOk result (λ done. done ≡ false → MovesSome self.old self.new (W.contents writer.old) (W.contents writer.new)) }
        ensures err { OnErr result (self.new.left ≢ []) }
    {
        for _ in 0..TURN {
            if !self.write_piece(writer)? {
                return Ok(true);
            }
        }
        Ok(false)
    }

    /// Adds the request by which the peer is probed, whether it is there, unless a message is in the midst: false. [P
    /// 15.2]
    pub fn probe(&mut self) -> Result<bool, AllocError>
        ensures ok { IfOk result (λ probed. ProbesBy probed self.old self.new) }
        ensures err { OnErr result (self.new ≡ self.old) }
    {
        let is_whole = is_moved(&self.message);
        if !is_whole {
            return Ok(false);
        }
        self.buffer.put(PROBE)?;
        Ok(true)
    }

    /// Adds a message that didn't come out of the mailbox, to be written whole after what is left, unless a message is in
    /// the midst: then it comes back. It takes no memory. O(1). [P 15.3]
    pub fn put(&mut self, out: Out) -> Result<(), Out>
        ensures ok { OnOk result (self.new ≡ record { name = self.old.name; taken = self.old.taken; left = self.old.left ++ text_of_out out }) }
        ensures err { OnErr result ((self.old.left ≢ []) × (self.new ≡ self.old)) }
        ensures back { IfErr result (λ back. back ≡ out) }
    {
        let is_between = is_moved(&self.message);
        if !is_between {
            return Err(out);
        }
        let left = MessageLeft::new(out);
        self.message = Some(left);
        Ok(())
    }

    /// Writes a piece of what is left. False: nothing is left, and the mailbox gave nothing.
    fn write_piece<W: Write>(&mut self, writer: &mut W) -> io::Result<bool>
        ensures moves { Moves self.old self.new (W.contents writer.old) (W.contents writer.new) }
        ensures done { IfOk result (λ wrote. wrote ≡ false → self.new.left ≡ []) }
        ensures some { IfOk result (λ wrote. wrote ≡ true → MovesSome self.old self.new (W.contents writer.old) (W.contents writer.new)) }
        ensures err { OnErr result (self.new.left ≢ []) }
    {
        if !self.fill()? {
            return Ok(false);
        }
        self.write_buffer(writer)?;
        Ok(true)
    }

    /// Writes a beginning of the buffer.
    fn write_buffer<W: Write>(&mut self, writer: &mut W) -> io::Result<()>
        ensures ok { OnOk result (MovesSome self.old self.new (W.contents writer.old) (W.contents writer.new)) }
        ensures err { OnErr result ((self.new ≡ self.old) × Keeps (W.contents writer.old) (W.contents writer.new)) }
    {
        self.buffer.write_some(writer)
    }

    /// Takes messages out, as many as a buffer of some 16 KiB has room for. False: there are none, and nothing is left. O(bytes
    /// moved).
    pub fn fill(&mut self) -> Result<bool, AllocError>
        ensures takes { Takes self.old self.new }
        ensures ok { IfOk result (λ some. some ≡ not (length self.new.left == 0)) }
        ensures err { OnErr result (self.new.left ≢ []) }
    {
        for _ in 0..PIECE {
            if !self.has_next() {
                return Ok(self.give_back_if_empty());
            }
            self.move_message()?;
        }
        Ok(self.give_back_if_empty())
    }

    /// Returns whether there is a text to move and room for it. It takes the next message out where none is in the
    /// midst.
    fn has_next(&mut self) -> bool
        ensures { Takes self.old self.new }
    {
        if self.buffer.is_full() {
            return false;
        }
        if !is_moved(&self.message) {
            return true;
        }
        let Some(out) = self.mailbox.next() else {
            return false;
        };
        self.message = Some(MessageLeft::new(out));
        true
    }

    /// Moves a piece of the message in the midst.
    fn move_message(&mut self) -> Result<(), AllocError>
        ensures same { self.new ≡ self.old }
        ensures err { OnErr result (self.new.left ≢ []) }
    {
        let Some(mut left) = self.message.take() else {
            return Ok(());
        };
        let moved = left.move_to(&mut self.buffer);
        self.message = left.unless_empty();
        moved
    }

    /// Returns whether something is left. Where nothing is, the buffer's room is given back.
    fn give_back_if_empty(&mut self) -> bool
        ensures same { self.new ≡ self.old }
        ensures some { result ≡ not (length self.new.left == 0) }
    {
        if self.has_left() {
            return true;
        }
        self.buffer.give_back();
        false
    }
}

/// Returns whether no message is in the midst.
fn is_moved(message: &Option<MessageLeft>) -> bool
    ensures { result ≡ (length (bytes_of message.now) == 0) }
{
    match message {
        Some(left) => left.is_empty(),
        None => true,
    }
}

// Written, and not derived, so that each end of a scope is one call to prove.
impl Drop for Outbox {
    fn drop(self) {
        let Outbox {
            mailbox: _,
            message: _,
            buffer: _,
        } = self;
    }
}
