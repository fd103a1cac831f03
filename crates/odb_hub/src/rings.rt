//! The rings of all sessions.
ghost use Rattle.std.specs.Prelude.{◌≡◌, ◌==◌, ◌&&◌, ℕ, false, [], ◌∷◌, Some, None, OnErr, IfOk, map, nat_le, slice_get, take};
ghost use Rattle.odb_sessions.specs.Represented.Out.{sent_in, text_of_out};

use crate::bell::Bell;
use crate::mailbox::Mailbox;
use crate::ring::Ring;
use odb_core::{Out, SessionId};
use std::alloc::{AllocError, Global};
use std::collections::{BTreeMap, BTreeSet};
use std::marker::Model;
use std::mem;

/// The sessions that a round lists, and the first that it leaves out.
#[derive(Drop)]
pub(crate) struct ReadySessions {
    pub(crate) listed: Vec<SessionId>,
    pub(crate) next: Option<SessionId>,
}

/// The rings of the open sessions by their numbers, and the sessions for which a message may be held back.
pub(crate) struct Rings {
    alloc: Global,
    rings: BTreeMap<SessionId, Ring>,
    holding: Vec<SessionId>,
    moment: u64,
}

impl Model for Rings {
    ghost use Rattle.odb_hub.specs.Rings as model;
    ghost use Rattle.odb_hub.specs.Rings.{AreShort};
    ghost use Rattle.odb_hub.specs.Represented.Rings.{rings_in};

    ghost Value = { model.Rings };

    ghost coded = { model.rings_code };

    ghost view = { λ r. rings_in r.rings };

    ghost invariant = { λ r. AreShort (rings_in r.rings) };
}

impl Rings {
    ghost use Rattle.odb_atoms.specs.FinMap.{empty, get, insert, remove};
    ghost use Rattle.odb_hub.specs.Represented.Mailbox.{name_of, taken};
    ghost use Rattle.odb_hub.specs.Rings.{AreShort, HandsOver, IsFlushedAt, HasRoom, IsPutAt, fresh_ring, is_free_at, ready_among, texts_to};

    /// Makes rings, of which no session has one.
    pub(crate) fn new(alloc: Global) -> Rings
        ensures { result ≡ empty }
    {
        Rings {
            alloc,
            rings: BTreeMap::new(alloc),
            holding: Vec::new(alloc),
            moment: 0,
        }
    }

    /// Remembers the moment, in milliseconds, at which sessions are given what they are given from now on.
    pub(crate) fn set_moment(&mut self, now: u64)
        ensures { self.new ≡ self.old }
    {
        self.moment = now;
    }

    /// Returns whether half of these sessions, or more, have rested. O(k log n) for k of them. No contract speaks of
    /// it.
    pub(crate) fn have_rested(&self, owed: &BTreeSet<SessionId>) -> bool {
        let mut rested: usize = 0;
        for session in owed.iter() {
            if self.has_rested(*session) {
                rested = rested.saturating_add(1);
            }
        }
        rested.saturating_mul(2) >= owed.len()
    }

    /// Returns whether the session was given nothing in the last milliseconds.
    fn has_rested(&self, session: SessionId) -> bool {
        match self.rings.get(&session) {
            Some(ring) => ring.bell().has_rested(self.moment),
            None => false,
        }
    }

    /// Records that memory was refused at this moment, in milliseconds, for what the session is owed. O(log n). No contract
    /// speaks of it.
    pub(crate) fn record_refusal(&self, session: SessionId, now: u64) {
        if let Some(ring) = self.rings.get(&session) {
            ring.bell().record_refusal(now);
        }
    }

    /// States that each ring which holds a message back has no room for it. O(1).
    pub(crate) fn short(&self)
        ensures { AreShort self.now }
    {
        let _opened = &self.rings;
    }

    /// Adds a ring for a session, and returns the mailbox where it comes out. O(log n).
    pub(crate) fn add(&mut self, session: SessionId, bell: Bell) -> Result<Mailbox, AllocError>
        ensures ok { IfOk result (λ mailbox. self.new ≡ insert self.old session (fresh_ring (name_of mailbox))) }
        ensures mailbox { IfOk result (λ mailbox. taken mailbox ≡ []) }
        ensures err { OnErr result (self.new ≡ self.old) }
    {
        let (ring, mailbox) = Ring::new(self.alloc, bell)?;
        drop(self.rings.insert(session, ring)?);
        Ok(mailbox)
    }

    /// Removes the ring of a session, with what is held back. O(log n).
    pub(crate) fn remove(&mut self, session: SessionId)
        ensures { self.new ≡ remove self.old session }
    {
        drop(self.rings.remove(&session));
    }

    /// Sends what is held back where there is room now, and lists the first `most` of those of `owed`, from this number on, for
    /// which nothing is held back then, ascending. O(k) where k sessions are in `owed` or have a message held back, and O(log n)
    /// for each of the latter and of those that are looked at up to the first that is left out.
    pub(crate) fn ready(
        &mut self,
        owed: &BTreeSet<SessionId>,
        from: SessionId,
        most: usize,
    ) -> Result<ReadySessions, AllocError>
        ensures flushed { (s : ℕ) → IsFlushedAt (get self.old s) (get self.new s) }
        ensures listed { IfOk result (λ ready. ready.listed.items ≡ take most (ready_among owed.now from self.new)) }
        ensures next { IfOk result (λ ready. ready.next ≡ slice_get (ready_among owed.now from self.new) most) }
    {
        self.flush(owed.len())?;
        self.free_among(owed, from, most)
    }

    /// Sends what is held back where there is room now, and makes room for `more` sessions that hold one back.
    fn flush(&mut self, more: usize) -> Result<(), AllocError>
        ensures { (s : ℕ) → IsFlushedAt (get self.old s) (get self.new s) }
    {
        let room = Vec::with_capacity(self.alloc, self.holding.len().saturating_add(more))?;
        let holding = mem::replace(&mut self.holding, room);
        for session in holding {
            self.flush_at(session);
            self.add_if_holding(session);
        }
        Ok(())
    }

    /// Sends what is held back for the session, if its ring has room now, and says whether nothing is held back then; it
    /// makes room for the session among those that hold one back. O(log n), and O(k) where that is sent and k sessions
    /// have a message held back.
    pub(crate) fn ready_for(&mut self, session: SessionId) -> Result<bool, AllocError>
        ensures flushed { (s : ℕ) → IsFlushedAt (get self.old s) (get self.new s) }
        ensures others { (s : ℕ) → (session == s) ≡ false → get self.new s ≡ get self.old s }
        ensures ready { IfOk result (λ ready. ready ≡ is_free_at (get self.new session)) }
    {
        self.holding.reserve(1)?;
        if self.is_free(session) {
            return Ok(true);
        }
        self.flush_at(session);
        self.remove_holding(session);
        self.add_if_holding(session);
        Ok(self.is_free(session))
    }

    /// Removes the session from those for which a message may be held back.
    fn remove_holding(&mut self, session: SessionId)
        ensures { self.new ≡ self.old }
    {
        self.holding.retain(|holding| *holding != session);
    }

    fn flush_at(&mut self, session: SessionId)
        ensures flushed { (s : ℕ) → IsFlushedAt (get self.old s) (get self.new s) }
        ensures others { (s : ℕ) → (session == s) ≡ false → get self.new s ≡ get self.old s }
    {
        let Some(ring) = self.rings.get_mut(&session) else {
            return;
        };
        ring.flush();
    }

    /// Adds the session to those for which a message is held back, if one is. `flush` made room for each.
    fn add_if_holding(&mut self, session: SessionId)
        ensures { self.new ≡ self.old }
    {
        let holds = match self.rings.get(&session) {
            Some(ring) => ring.holds(),
            None => false,
        };
        if holds && self.holding.len() < self.holding.capacity() {
            self.holding.push_reserved(session);
        }
    }

    /// Returns how many sessions have a message held back. O(1).
    pub(crate) fn held(&self) -> usize {
        self.holding.len()
    }

    /// Lists the first `most` of those of `owed`, from this number on, for which nothing is held back, ascending.
    fn free_among(
        &self,
        owed: &BTreeSet<SessionId>,
        from: SessionId,
        most: usize,
    ) -> Result<ReadySessions, AllocError>
        ensures listed { IfOk result (λ ready. ready.listed.items ≡ take most (ready_among owed.now from self.now)) }
        ensures next { IfOk result (λ ready. ready.next ≡ slice_get (ready_among owed.now from self.now) most) }
    {
        let mut listed = Vec::with_capacity(self.alloc, owed.len().min(most))?;
        for session in owed.iter() {
            if self.is_free_from(from, *session) {
                if listed.len() >= most {
                    return Ok(ReadySessions {
                        listed,
                        next: Some(*session),
                    });
                }
                listed.push(*session)?;
            }
        }
        Ok(ReadySessions { listed, next: None })
    }

    /// Returns whether the session has this number or one above, a ring, and nothing held back for it. O(log n).
    fn is_free_from(&self, from: SessionId, session: SessionId) -> bool
        ensures { result ≡ (nat_le from session && is_free_at (get self.now session)) }
    {
        from <= session && self.is_free(session)
    }

    /// Returns whether the session has a ring, and nothing is held back for it. O(log n).
    pub(crate) fn is_free(&self, session: SessionId) -> bool
        ensures { result ≡ is_free_at (get self.now session) }
    {
        match self.rings.get(&session) {
            Some(ring) => !ring.holds(),
            None => false,
        }
    }

    /// Sends each message to its session's ring, or holds it back where the ring is full. O(log n)
    /// for each.
    pub(crate) fn hand_over(&mut self, outs: Vec<Out>)
        requires { (s : ℕ) → HasRoom (get self.old s) (texts_to s (map sent_in outs.items)) }
        ensures { (s : ℕ) → HandsOver (get self.old s) (texts_to s (map sent_in outs.items)) (get self.new s) }
    {
        for out in outs {
            let session = out.session;
            self.put(out);
            self.add_if_holding(session);
        }
    }

    fn put(&mut self, out: Out)
        requires { HasRoom (get self.old out.session) (text_of_out out ∷ []) }
        ensures { (s : ℕ) → IsPutAt (out.session == s) (text_of_out out) (get self.old s) (get self.new s) }
    {
        let Some(ring) = self.rings.get_mut(&out.session) else {
            return;
        };
        ring.bell().set_given_at(self.moment);
        ring.put(out);
    }
}

// Written, and not derived, so that each end of a scope is one call to prove.
impl Drop for Rings {
    fn drop(self) {
        let Rings {
            alloc: _,
            rings: _,
            holding: _,
            moment: _,
        } = self;
    }
}
