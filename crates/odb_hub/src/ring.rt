//! The ring of a session.
ghost use Rattle.std.specs.Prelude.{◌≡◌, [], Some, None, IfErr, IfOk, OnErr, OnOk, is_some};
ghost use Rattle.odb_sessions.specs.Represented.Out.{text_of_out};
ghost use Rattle.odb_hub.specs.Room as room;
ghost use Rattle.odb_waking.specs.Loop as loops;

use crate::bell::Bell;
use crate::load::{ROOM, RingLoad};
use crate::mailbox::Mailbox;
use odb_core::Out;
use odb_waking::GiverStage;
use rtrb::{Producer, RingBuffer};
use std::alloc::{AllocError, Global};
use std::marker::Model;
use std::sync::Arc;

/// The messages of a session that were sent into its ring, and the one that is held back where the ring had no room.
pub(crate) struct Ring {
    producer: Producer<Out>,
    waiting: RingLoad,
    held: Option<Out>,
    bell: Arc<Bell>,
}

impl Model for Ring {
    ghost use Rattle.std.specs.Prelude.{◌≤◌, ◌+◌, length, map, option_map};
    ghost use Rattle.rtrb.specs.Ring.{known_free, sent};
    ghost use Rattle.odb_sessions.specs.Represented.Out.{text_of_out};
    ghost use Rattle.odb_hub.specs.Represented.Ends.{producer_name};
    ghost use Rattle.odb_hub.specs.Rings as model;

    ghost Value = { model.Ring };

    ghost coded = { model.ring_code };

    ghost view = { λ r. record { name = producer_name r.producer; sent = map text_of_out (sent r.producer); waiting = r.waiting; held = option_map text_of_out r.held } };

    ghost invariant = { λ r. 64 ≤ length r.waiting + known_free r.producer };
}

impl Ring {
    ghost use Rattle.odb_hub.specs.Represented.Mailbox.{name_of, taken};
    ghost use Rattle.odb_hub.specs.Rings.{IsFlushed, IsLookedAt, IsPut, IsUnsent, fresh_ring};
    ghost use Rattle.odb_hub.specs.Room.{has_room};

    /// Makes a ring that nothing was sent into, which rings this bell, and the mailbox where it comes out.
    pub(crate) fn new(alloc: Global, bell: Bell) -> Result<(Ring, Mailbox), AllocError>
        ensures ring { IfOk result (λ ends. ends.0 ≡ fresh_ring (name_of ends.1)) }
        ensures mailbox { IfOk result (λ ends. taken ends.1 ≡ []) }
    {
        let (producer, consumer) = RingBuffer::new(alloc, ROOM)?;
        let bell = Arc::new(alloc, bell)?;
        let also = Arc::try_clone(&bell)?;
        let ring = Ring {
            producer,
            waiting: RingLoad::new(alloc)?,
            held: None,
            bell,
        };
        let mailbox = Mailbox {
            consumer,
            bell: also,
        };
        Ok((ring, mailbox))
    }

    /// Returns whether a message is held back.
    pub(crate) fn holds(&self) -> bool
        ensures { result ≡ is_some self.now.held }
    {
        self.held.is_some()
    }

    /// Returns by what the thread that serves the session is called, and is known when the session was given something.
    /// O(1).
    pub(crate) fn bell(&self) -> &Bell {
        &*self.bell
    }

    /// Sends the message that is held back, if the ring has room for it now.
    pub(crate) fn flush(&mut self)
        ensures { IsFlushed self.old self.new }
    {
        let Some(out) = self.held.take() else {
            return;
        };
        self.put(out);
    }

    /// Sends a message, or holds it back where the ring has no room, and calls the thread that serves the session: the steps
    /// of the thread that has the lock, in the loop of `odb_waking`. Steps: `puts`, `giver_goes_on`.
    pub(crate) fn put(&mut self, out: Out)
        requires { self.old.held ≡ None }
        ensures { IsPut (text_of_out out) self.old self.new }
    {
        let mut stage = GiverStage::of_a_message();
        match self.send(out) {
            Ok(()) => {
                stage.sent();
                self.bell.let_go(stage);
            }
            Err(out) => self.put_again(out, stage),
        }
    }

    /// Tells the thread that takes messages out that one is held back. It may have made room before, so the ring is tried again.
    fn put_again(&mut self, out: Out, stage: GiverStage)
        requires held { self.old.held ≡ None }
        requires stage { stage ≡ loops.idle }
        ensures { IsPut (text_of_out out) self.old self.new }
    {
        let mut stage = stage;
        stage.was_refused();
        self.bell.hold(&mut stage);
        match self.send(out) {
            Ok(()) => {
                stage.sent_again();
                self.bell.let_go(stage);
            }
            Err(out) => self.hold_back(out, stage),
        }
    }

    /// Holds a message back, of which it is said that one is held back, and calls the thread.
    fn hold_back(&mut self, out: Out, stage: GiverStage)
        requires { stage ≡ loops.marked }
        ensures { self.new ≡ record (self.old) { held = Some (text_of_out out) } }
    {
        let mut stage = stage;
        self.held = Some(out);
        stage.held();
        self.bell.ring(stage);
    }

    /// Sends a message, if the ring has room for it; else it comes back.
    fn send(&mut self, out: Out) -> Result<(), Out>
        requires { self.old.held ≡ None }
        ensures ok { OnOk result (IsPut (text_of_out out) self.old self.new) }
        ensures err { OnErr result (IsUnsent (text_of_out out) self.old self.new) }
        ensures back { IfErr result (λ back. back ≡ out) }
    {
        let size = size_of(&out);
        if !self.makes_room(size) {
            return Err(out);
        }
        self.producer.push_reserved(out);
        self.waiting.push(size);
        Ok(())
    }

    /// Returns whether there is room for a message of so many bytes; where there isn't as far as is known, it learns
    /// what was taken out.
    fn makes_room(&mut self, size: usize) -> bool
        ensures looked { IsLookedAt self.old self.new }
        ensures room { result ≡ has_room self.new.waiting size }
    {
        if self.waiting.has_room(size) {
            return true;
        }
        self.look();
        self.waiting.has_room(size)
    }

    /// Learns what was taken out of the ring.
    fn look(&mut self)
        ensures { IsLookedAt self.old self.new }
    {
        let free = self.producer.slots();
        self.waiting.cut(ROOM.saturating_sub(free));
    }
}

/// Returns how many bytes the text of a message has.
fn size_of(out: &Out) -> usize
    ensures { result ≡ room.size_of (text_of_out out.now) }
{
    let body = match &out.body {
        Some(body) => body.len(),
        None => 0,
    };
    out.before
        .len()
        .saturating_add(body)
        .saturating_add(out.after.len())
}

// Written, and not derived, so that each end of a scope is one call to prove.
impl Drop for Ring {
    fn drop(self) {
        let Ring {
            producer: _,
            waiting: _,
            held: _,
            bell: _,
        } = self;
    }
}
