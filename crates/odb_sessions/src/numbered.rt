//! The open sessions by their numbers.
ghost use Rattle.std.specs.Prelude.{◌≡◌, ◌≤◌, ℕ, true, map, is_some, option_and_then, option_map, Some, IfErr, IfOk, IfSome, OnErr, OnOk};
ghost use Rattle.std.specs.Borrow.{sem};
ghost use Rattle.std.specs.Option.{option_copied, option_copied_mut};
ghost use Rattle.odb_atoms.specs.FinMap as finite;
ghost use Rattle.odb_queue.specs.Represented.Item.{item_of};
ghost use Rattle.odb_queue.specs.Represented.Post.{post_of};
ghost use Rattle.odb_sessions.specs.Carried.{IsCarriedOut, IsReady, last_finished};
ghost use Rattle.odb_chain.specs.Chains.{Chains};
ghost use Rattle.odb_sessions.specs.Marked.{MarkedSession, all_seen, marks_of, seen};
ghost use Rattle.odb_sessions.specs.Represented.LentSession.{lends_session};
ghost use Rattle.odb_sessions.specs.Posts.{all_marked_posted, at_number, marked_unposted, newest_at, with_item, with_items, without_newest};
ghost use Rattle.odb_sessions.specs.Represented.Item.{marked_item_of};
ghost use Rattle.odb_sessions.specs.Tied.{IsTied, all_marks};
ghost use Rattle.odb_sessions.specs.Watches.{AreAlike, IsWatchFor, Joins, with_watch};

use crate::item::Item;
use crate::past::Past;
use crate::session::Session;
use crate::watch::{Watch, share_each};
use odb_chain::Mark;
use odb_locks::SessionId;
use odb_queue::{Finished, Post};
use odb_request::Request;
use slab::Slab;
use std::alloc::{AllocError, AllocFailed, Global};
use std::collections::{BTreeMap, VecDeque};
use std::marker::Model;

/// The open sessions by their numbers.
#[derive(Drop)]
pub struct Numbered {
    /// The key of each open session in `sessions`.
    keys: BTreeMap<SessionId, usize>,
    sessions: Slab<Session>,
}

impl Model for Numbered {
    ghost use Rattle.odb_sessions.specs.Marked as model;
    ghost use Rattle.odb_sessions.specs.Represented.Keyed.{IsKeyed, sessions_under};
    ghost use Rattle.odb_sessions.specs.Represented.Codes.{sessions_code};

    ghost Value = { model.Sessions };

    ghost coded = { sessions_code };

    ghost view = { λ s. sessions_under s.keys.entries s.sessions.slots };

    ghost invariant = { λ s. IsKeyed s.keys.entries s.sessions.slots };
}

impl Numbered {
    /// Makes sessions, of which none is open.
    pub(crate) fn new(alloc: Global) -> Numbered
        ensures { result ≡ finite.empty }
    {
        Numbered {
            keys: BTreeMap::new(alloc),
            sessions: Slab::new(alloc),
        }
    }

    /// Returns how many are open.
    pub(crate) fn len(&self) -> usize
        ensures { result ≡ finite.len self.now }
    {
        self.keys.len()
    }

    /// Puts a session in.
    pub(crate) fn insert(&mut self, number: SessionId, session: Session) -> Result<(), AllocError>
        ensures ok { OnOk result (self.new ≡ finite.insert self.old number session) }
        ensures err { OnErr result (self.new ≡ self.old) }
    {
        if let Some(place) = self.get_mut(number) {
            *place = session;
            return Ok(());
        }
        self.sessions.reserve(1)?;
        self.keys.insert(number, self.sessions.vacant_key())?;
        self.sessions.insert_reserved(session);
        Ok(())
    }

    /// Takes a session out, if it is open.
    pub(crate) fn remove(&mut self, number: SessionId) -> Option<Session>
        ensures session { result ≡ finite.get self.old number }
        ensures sessions { self.new ≡ finite.remove self.old number }
    {
        let key = self.keys.remove(&number)?;
        self.sessions.try_remove(key)
    }

    /// Returns a session, if it is open. O(log n) for n sessions.
    pub fn get(&self, number: SessionId) -> Option<&Session>
        ensures { option_copied result ≡ finite.get self.now number }
    {
        let key = self.keys.get(&number)?;
        self.sessions.get(*key)
    }

    /// Returns a session for writing, if it is open.
    fn get_mut(&mut self, number: SessionId) -> Option<&mut Session>
        ensures* writes_back { sem 𝓛 (lends_session self.entry number result) }
        ensures value { option_copied_mut result ≡ finite.get self.old number }
    {
        match self.keys.get(&number).copied() {
            Some(key) => self.sessions.get_mut(key),
            None => None,
        }
    }

    /// Returns how many monitors a session has; none where it isn't open.
    pub(crate) fn monitors(&self, number: SessionId) -> usize {
        match self.get(number) {
            Some(session) => session.monitors.len(),
            None => 0,
        }
    }

    /// Returns whether a session isn't open, or the clients of its monitors were brought to now since the last change. `false`
    /// says nothing, and no contract speaks of it. O(log n) for n sessions.
    pub(crate) fn is_brought(&self, number: SessionId, past: &Past) -> bool {
        match self.get(number) {
            Some(session) => session.is_brought(past),
            None => true,
        }
    }

    /// Returns those of these sessions that are open, and of which not all clients were brought to now since the last change. No
    /// contract speaks of it. O(log n) for each, and n sessions.
    pub(crate) fn late_among(
        &self,
        alloc: Global,
        listed: &[SessionId],
        past: &Past,
    ) -> Result<Vec<SessionId>, AllocError> {
        let mut late = Vec::new(alloc);
        for session in listed {
            if !self.is_brought(*session, past) {
                late.push(*session)?;
            }
        }
        Ok(late)
    }

    /// Returns the first open session from this number on, and how many monitors it has. O(log n).
    pub(crate) fn first_from(&self, number: SessionId) -> Option<(SessionId, usize)>
        ensures { IfSome result (λ found. number ≤ found.0) }
    {
        let (found, _) = self.keys.range(number..).next()?;
        Some((*found, self.monitors(*found)))
    }

    /// Posts each item to its session, and returns the sessions for which one was queued.
    pub(crate) fn post_all(
        &mut self,
        alloc: Global,
        posts: Vec<Post>,
    ) -> Result<Vec<SessionId>, AllocError>
        ensures ok { IfOk result (λ posted_to. self.new ≡ all_marked_posted self.old (map post_of posts.items)) }
        ensures back { IfOk result (λ posted_to. marked_unposted posted_to.items self.new ≡ self.old) }
        ensures err { OnErr result (self.new ≡ self.old) }
    {
        let mut posted_to = Vec::new(alloc);
        for post in posts {
            if let Err(refused) = self.post(&mut posted_to, post.session, Item::Say(post.item)) {
                self.unpost(posted_to);
                return Err(refused);
            }
        }
        Ok(posted_to)
    }

    /// Posts the items to one session, and returns it once for each that was queued.
    pub(crate) fn post_each(
        &mut self,
        alloc: Global,
        session: SessionId,
        items: Vec<Item>,
    ) -> Result<Vec<SessionId>, AllocError>
        ensures ok { IfOk result (λ posted_to. self.new ≡ at_number (with_items (map marked_item_of items.items)) self.old session) }
        ensures back { IfOk result (λ posted_to. marked_unposted posted_to.items self.new ≡ self.old) }
        ensures err { OnErr result (self.new ≡ self.old) }
    {
        let mut posted_to = Vec::new(alloc);
        for item in items {
            if let Err(refused) = self.post(&mut posted_to, session, item) {
                self.unpost(posted_to);
                return Err(refused);
            }
        }
        Ok(posted_to)
    }

    /// Queues an item for a session, if it is open, and then adds the session to `posted_to`.
    fn post(
        &mut self,
        posted_to: &mut Vec<SessionId>,
        session: SessionId,
        item: Item,
    ) -> Result<(), AllocError>
        ensures ok { OnOk result (self.new ≡ at_number (with_item (marked_item_of item)) self.old session) }
        ensures back { OnOk result (marked_unposted posted_to.new.items self.new ≡ marked_unposted posted_to.old.items self.old) }
        ensures err { OnErr result (self.new ≡ self.old) }
        ensures posted_to { OnErr result (posted_to.new.items ≡ posted_to.old.items) }
    {
        posted_to.reserve(1)?;
        let Some(to) = self.get_mut(session) else {
            return Ok(());
        };
        to.push(item)?;
        posted_to.push_reserved(session);
        Ok(())
    }

    /// Queues an item for a session. Where that isn't open, or memory is refused, the item comes back.
    pub(crate) fn hand(&mut self, session: SessionId, item: Item) -> Result<(), AllocFailed<Item>>
        ensures ok { OnOk result (self.new ≡ at_number (with_item (marked_item_of item)) self.old session) }
        ensures is_open { OnOk result (is_some (finite.get self.old session) ≡ true) }
        ensures err { OnErr result (self.new ≡ self.old) }
        ensures handed_back { IfErr result (λ refused. refused.value ≡ item) }
    {
        let Some(to) = self.get_mut(session) else {
            return Err(AllocFailed { value: item });
        };
        to.push(item)
    }

    /// Drops the newest item of each of these sessions' queues, that of the last session first.
    pub(crate) fn unpost(&mut self, posted_to: Vec<SessionId>)
        ensures { self.new ≡ marked_unposted posted_to.items self.old }
    {
        let mut posted_to = posted_to;
        while let Some(session) = posted_to.pop() {
            drop(self.take_newest(session));
        }
    }

    /// Takes the newest item of a session's queue out, if the session is open and has one.
    pub(crate) fn take_newest(&mut self, session: SessionId) -> Option<Item>
        ensures sessions { self.new ≡ at_number without_newest self.old session }
        ensures item { option_map marked_item_of result ≡ newest_at self.old session }
    {
        let Some(of) = self.get_mut(session) else {
            return None;
        };
        of.take_newest()
    }

    /// Carries a taking of a session out, if that is open, as `Session::carry_out` does.
    pub(crate) fn carry_out(
        &mut self,
        session: SessionId,
        items: usize,
        monitors: usize,
        past: &mut Past,
    ) -> Option<Finished>
        requires { (x : MarkedSession) → finite.get self.old session ≡ Some x → IsReady past.old (marks_of x) }
        ensures carried { IsCarriedOut past.old past.new self.old self.new session items monitors }
        ensures text { option_map item_of result ≡ option_and_then (λ x. last_finished items (seen x).queue) (finite.get self.old session) }
    {
        let Some(of) = self.get_mut(session) else {
            return None;
        };
        of.carry_out(items, monitors, past)
    }

    /// Gives what a session's monitors ask a number, where it is open and they have none: that of a session whose monitors
    /// ask the same, with which it is kept once from then on, or else one that no session has. O(n) for n sessions, O(n) for
    /// n tables, and a comparison of what is asked for each session of which the digest is the same.
    pub(crate) fn recognise(&mut self, alloc: Global, session: SessionId)
        requires { AreAlike self.old }
        ensures seen { all_seen self.new ≡ all_seen self.old }
        ensures tied { (k : Chains) → IsTied k self.old → IsTied k self.new }
    {
        let Some(watch) = self.watch_for(session) else {
            return;
        };
        self.share(alloc, session, watch.number);
        self.set_watch(session, watch);
    }

    /// Has what a session's monitors ask kept once with another whose monitors have this number and ask the same, if there is
    /// one, and memory for it.
    fn share(&mut self, alloc: Global, session: SessionId, number: u64)
        ensures { self.new ≡ self.old }
    {
        let Ok(mut requests) = self.requests(alloc, number) else {
            return;
        };
        let Some(of) = self.get_mut(session) else {
            return;
        };
        share_each(&mut of.monitors, &mut requests);
    }

    /// Returns what the monitors of the first session with this number ask; nothing where none has it. No contract speaks of it.
    fn requests(&self, alloc: Global, number: u64) -> Result<VecDeque<Request>, AllocError> {
        for (_, key) in self.keys.iter() {
            if let Some(session) = self.sessions.get(*key) {
                if session.watch_number() == number {
                    return session.requests(alloc);
                }
            }
        }
        Ok(VecDeque::new(alloc))
    }

    /// Gives what a session's monitors ask this number, if it is open.
    fn set_watch(&mut self, session: SessionId, watch: Watch)
        ensures { self.new ≡ at_number (with_watch watch.number) self.old session }
    {
        let Some(of) = self.get_mut(session) else {
            return;
        };
        of.watch = Some(watch);
    }

    /// Returns a number for what a session's monitors ask, where it is open and they have none: that of a session whose monitors
    /// ask the same, or else one that no session has.
    fn watch_for(&self, session: SessionId) -> Option<Watch>
        requires { AreAlike self.now }
        ensures { IfSome result (λ w. IsWatchFor self.now session w.number) }
    {
        let Some(of) = self.get(session) else {
            return None;
        };
        if of.watch.is_some() {
            return None;
        }
        let digest = of.digest();
        if let Some(number) = self.watch_like(of, digest) {
            return Some(Watch { number, digest });
        }
        let number = self.greatest_watch().checked_add(1)?;
        Some(Watch { number, digest })
    }

    /// Returns the number of a session with this digest whose monitors ask what those of this one do, if there is one.
    fn watch_like(&self, of: &Session, digest: u64) -> Option<u64>
        requires { AreAlike self.now }
        ensures { IfSome result (λ n. Joins self.now (with_watch n of.now)) }
    {
        for (_, key) in self.keys.iter() {
            if let Some(number) = self.watch_if_like(*key, of, digest) {
                return Some(number);
            }
        }
        None
    }

    /// Returns the number of the session with this key, where it has the digest, and its monitors ask what those of the other
    /// do.
    fn watch_if_like(&self, key: usize, of: &Session, digest: u64) -> Option<u64>
        requires { AreAlike self.now }
        ensures { IfSome result (λ n. Joins self.now (with_watch n of.now)) }
    {
        let Some(other) = self.sessions.get(key) else {
            return None;
        };
        other.watch_if_like(of, digest)
    }

    /// Returns the greatest of the numbers that sessions have; 0 where there is none.
    fn greatest_watch(&self) -> u64
        ensures { (s n : ℕ) (x : MarkedSession) → finite.get self.now s ≡ Some x → x.watch ≡ Some n → n ≤ result }
    {
        let mut greatest = 0;
        for (_, key) in self.keys.iter() {
            if let Some(session) = self.sessions.get(*key) {
                greatest = greater(session.watch_number(), greatest);
            }
        }
        greatest
    }

    /// Lends the marks of all sessions, by the sessions' numbers.
    pub(crate) fn marks(&self, alloc: Global) -> Result<Vec<&Mark>, AllocError>
        ensures { IfOk result (λ marks. map (λ m. m.now) marks.items ≡ all_marks self.now) }
    {
        let mut marks = Vec::new(alloc);
        for (_, key) in self.keys.iter() {
            if let Some(session) = self.sessions.get(*key) {
                session.lend(&mut marks)?;
            }
        }
        Ok(marks)
    }
}

/// Returns the greater of two numbers.
fn greater(number: u64, other: u64) -> u64
    ensures number { number ≤ result }
    ensures other { other ≤ result }
{
    if number < other {
        return other;
    }
    number
}
