//! The database with its past and its last commits, and the open sessions. [P 9.1, 9.5, 9.6, 10.1, 10.2, 10.3]
ghost use Rattle.std.specs.Prelude.{◌≡◌, ◌+◌, ◌&&◌, [], List, false, is_some, not, nat_lt, map, option_and_then, option_map, None, IfOk, IfSome, OnErr, OnOk};
ghost use Rattle.odb_atoms.specs.FinMap as finite;
ghost use Rattle.odb_queue.specs.Represented.Answer.{call_at};
ghost use Rattle.odb_queue.specs.Represented.Item.{item_of};
ghost use Rattle.odb_sessions.specs.Newest.{without_last};
ghost use Rattle.odb_queue.specs.Represented.Post.{post_of};
ghost use Rattle.odb_rpc.specs.Message.{has_reply};
ghost use Rattle.odb_rpc.specs.Represented.Printable.{printable_data};
ghost use Rattle.odb_schema.specs.Schema.{Schema};
ghost use Rattle.odb_service.specs.Run.{max_owed};
ghost use Rattle.odb_service.specs.Server.{served_by};
ghost use Rattle.odb_service.specs.Session.{replies_in};
ghost use Rattle.odb_service.specs.World.{asked_of, watched};
ghost use Rattle.odb_sessions.specs.Asked.{ended_in};
ghost use Rattle.odb_sessions.specs.Book.{book_of, book_with, fresh_session};
ghost use Rattle.odb_sessions.specs.Carried.{last_finished, used_by, UsesUp};
ghost use Rattle.odb_sessions.specs.Committed.{all_ended, all_left, each_changed_with, ended_with, posted_with, without_posts, AreChangesFrom, ComeTo};
ghost use Rattle.odb_sessions.specs.FirstTexts.{AreFirstTexts, IsFirstText};
ghost use Rattle.odb_sessions.specs.Represented.Ended.{ending_of};
ghost use Rattle.odb_tables.specs.Change.{Changes, all_changed_by};
ghost use Rattle.odb_sessions.specs.Named.{named};
ghost use Rattle.odb_sessions.specs.Owed.{AreAdded, AreOwed, addressed};
ghost use Rattle.odb_sessions.specs.Posts.{all_posted, at_number, posted, unposted};
ghost use Rattle.odb_sessions.specs.Started.{AreApart, AreOfTables, started};
ghost use Rattle.odb_sessions.specs.Stopped.{changed_in, stopped_in};
ghost use Rattle.odb_sessions.specs.Tied.{IsTied};
ghost use Rattle.odb_sessions.specs.Told.{IsToldOf};
ghost use Rattle.odb_tables.specs.Installing.{IsChangeOf};
ghost use Rattle.odb_wire.specs.Message.{has_left_out, id_of};
ghost use Rattle.odb_wire.specs.Shown.{request_data};

use crate::asked::{ending, has};
use crate::changing::Changing;
use crate::ended::Ended;
use crate::ending::stopping;
use crate::ends::push_commits;
use crate::first_texts::{FirstText, FirstTexts};
use crate::id::Id;
use crate::interest::forget_owed;
use crate::item::Item;
use crate::named::{Named, first_of};
use crate::numbered::Numbered;
use crate::past::Past;
use crate::refreshing::{Refreshing, refresh_each};
use crate::session::Session;
use crate::starting::Starting;
use crate::told::ToldMarks;
use odb_interest::Interest;
use odb_locks::SessionId;
use odb_queue::{Finished, Post};
use odb_recent::{Recent, Undo};
use odb_rpc::Printable;
use odb_tables::{ChangeSet, Db};
use odb_wire::Request;
use std::alloc::{AllocError, Global};
use std::collections::BTreeSet;
use std::hash::RandomState;
use std::marker::Model;

/// The database, its last commits, the open sessions with what is kept of the past for these, which of them may be owed
/// something, and what the others ask of tables. Contracts see the database, how many commits there were, what can be
/// found of earlier contents, and the machine's sessions (`specs/Book.antt`).
pub struct Sessions {
    pub(crate) alloc: Global,
    pub(crate) past: Past,
    pub(crate) recent: Recent,
    pub(crate) sessions: Numbered,
    pub(crate) owed: BTreeSet<SessionId>,
    pub(crate) interest: Interest,
    pub(crate) refreshing: Refreshing,
}

impl Model for Sessions {
    ghost use Rattle.odb_sessions.specs.Book.{Book, book_with};
    ghost use Rattle.odb_sessions.specs.Represented.Codes.{book_code};
    ghost use Rattle.odb_sessions.specs.Marked.{all_seen};
    ghost use Rattle.odb_sessions.specs.Owed.{HangTogether};

    ghost Value = { Book };

    ghost coded = { book_code };

    ghost view = { λ s. book_with s.past.db s.recent (all_seen s.sessions) };

    ghost invariant = { λ s. HangTogether s.past s.sessions s.owed s.interest };
}

impl Sessions {
    /// Makes sessions over the database, of which none is open, with no commit, in a run with this word, of which so
    /// many contents can be found. O(tables), and O(`most`) in memory.
    pub fn new(
        alloc: Global,
        db: Db,
        hashing: RandomState,
        run: u64,
        most: usize,
    ) -> Result<Sessions, AllocError>
        ensures { IfOk result (λ sessions. sessions ≡ book_of run most db) }
    {
        Ok(Sessions {
            alloc,
            past: Past::new(alloc, db, hashing)?,
            recent: Recent::new(alloc, run, most, hashing)?,
            sessions: Numbered::new(alloc),
            owed: BTreeSet::new(alloc),
            interest: Interest::new(alloc),
            refreshing: Refreshing::new(),
        })
    }

    /// Returns the database. O(1).
    pub fn db(&self) -> &Db
        ensures { result.now ≡ self.now.db }
    {
        self.past.chains().db()
    }

    /// Returns how many commits there were. O(1).
    pub fn commits(&self) -> u64
        ensures { result ≡ self.now.commits }
    {
        self.recent.commits()
    }

    /// Returns the last commits. O(1).
    pub fn recent(&self) -> &Recent
        ensures { book_with self.now.db result.now self.now.sessions ≡ self.now }
    {
        &self.recent
    }

    /// Returns the texts of first replies that are kept. O(1).
    pub fn firsts(&self) -> &FirstTexts
        ensures { AreFirstTexts self.now.db result.now }
    {
        self.past.firsts()
    }

    /// Lends what clients were told, as it is kept. O(1).
    pub fn told(&self) -> ToldMarks<'_>
        ensures of { IsToldOf self.now result }
        ensures tied { IsTied result.chains result.sessions }
    {
        ToldMarks::new(self.past.chains(), &self.sessions)
    }

    /// Returns the allocator with which they were made. O(1).
    pub fn alloc(&self) -> Global {
        self.alloc
    }

    /// Returns how many sessions are open. O(1).
    pub fn len(&self) -> usize
        ensures { result ≡ finite.len self.now.sessions }
    {
        self.sessions.len()
    }

    /// Returns whether a session is open. O(log n) for n sessions.
    pub fn has(&self, session: SessionId) -> bool
        ensures { result ≡ is_some (finite.get self.now.sessions session) }
    {
        self.sessions.get(session).is_some()
    }

    /// Returns which sessions may be owed something: a taking of any other gives nothing and changes nothing. O(1).
    pub fn owed(&self) -> &BTreeSet<SessionId>
        ensures { AreOwed result.now self.now }
    {
        &self.owed
    }

    /// Opens a session, for which nothing is queued and which has no monitors. O(log n) for n sessions.
    pub fn open(&mut self, session: SessionId) -> Result<(), AllocError>
        requires { finite.get self.old.sessions session ≡ None }
        ensures ok { OnOk result (self.new ≡ record (self.old) { sessions = finite.insert self.old.sessions session fresh_session }) }
        ensures err { OnErr result (self.new ≡ self.old) }
    {
        self.sessions.insert(session, Session::new(self.alloc))
    }

    /// Returns whether to refuse the request as Busy: it has a reply, and the session is owed as many as it may be,
    /// `waiting` of them by its transactions that wait. `None` where no such session is open. O(log n) for n
    /// sessions.
    pub fn owes_too_many(
        &self,
        session: SessionId,
        request: &Request,
        waiting: usize,
    ) -> Option<bool>
        ensures { (schema : Schema) → result ≡ option_map (λ x. has_reply (call_at schema (request_data request.now)) && not (nat_lt (replies_in x.queue + waiting) max_owed)) (finite.get self.now.sessions session) }
    {
        let of = self.sessions.get(session)?;
        Some(of.owes_too_many(request, waiting))
    }

    /// Posts each item to its session, and returns the sessions for which one was queued, by which
    /// `take_back` undoes it. O(log n) for each.
    pub fn post_all(&mut self, posts: Vec<Post>) -> Result<Vec<SessionId>, AllocError>
        ensures ok { IfOk result (λ posted_to. self.new ≡ record (self.old) { sessions = all_posted self.old.sessions (map post_of posts.items) }) }
        ensures back { IfOk result (λ posted_to. unposted posted_to.items self.new.sessions ≡ self.old.sessions) }
        ensures err { OnErr result (self.new ≡ self.old) }
    {
        add_addressed(&mut self.owed, posts.as_slice())?;
        self.sessions.post_all(self.alloc, posts)
    }

    /// Drops the newest item of each of these sessions' queues, that of the last session first.
    /// O(log n) for each.
    pub fn take_back(&mut self, posted_to: Vec<SessionId>)
        ensures { self.new ≡ record (self.old) { sessions = unposted posted_to.items self.old.sessions } }
    {
        let mut posted_to = posted_to;
        while let Some(session) = posted_to.pop() {
            self.take_newest_back(session);
        }
    }

    /// Drops the newest item of a session's queue, with what was kept for it.
    fn take_newest_back(&mut self, session: SessionId)
        ensures { self.new ≡ record (self.old) { sessions = at_number without_last self.old.sessions session } }
    {
        let Some(item) = self.sessions.take_newest(session) else {
            return;
        };
        item.release(&mut self.past);
    }

    /// Queues the first reply of a monitor for a session, if it is open; what the client will lack after it is
    /// kept from now on. Where memory is refused nothing changed; so it is after 2^64 - 2 tables were watched.
    /// O(tables asked + log n) for n sessions, and O(n) for the members and atoms of the filters, with their bytes.
    pub fn start(&mut self, session: SessionId, starting: Starting) -> Result<(), AllocError>
        requires tables { AreOfTables self.old.db starting.watch.requests }
        requires apart { AreApart starting.watch.requests }
        ensures ok { OnOk result (self.new ≡ record (self.old) { sessions = posted self.old.sessions (session, started starting) }) }
        ensures err { OnErr result (self.new ≡ self.old) }
    {
        let Some(_) = self.sessions.get(session) else {
            return Ok(());
        };
        self.owed.insert(session)?;
        let start = starting.begin(self.alloc, &mut self.past)?;
        match self.sessions.hand(session, Item::Start(start)) {
            Ok(()) => Ok(()),
            Err(refused) => {
                refused.value.release(&mut self.past);
                Err(AllocError)
            }
        }
    }

    /// Returns whether the id is that of a monitor of the session as asked: of one that there will be once all that is
    /// queued is taken [P 10.2]. No session that isn't open has one. Where memory is refused nothing is said.
    /// O(log n) for n sessions, and O(monitors + items queued), each with its id.
    pub fn asked(&self, session: SessionId, id: &Id) -> Result<bool, AllocError>
        ensures { IfOk result (λ found. (schema : Schema) → found ≡ is_some (watched (served_by schema) id.now (asked_of (served_by schema) (finite.get self.now.sessions session)))) }
    {
        let Some(of) = self.sessions.get(session) else {
            return Ok(false);
        };
        let ids = of.asked(self.alloc)?;
        Ok(has(ids.as_slice(), id))
    }

    /// Returns the monitor of the session as asked that has this id, without its filters; `None` where there is none.
    /// Where memory is refused nothing is said. It costs what `asked` does.
    pub fn asked_watch(&self, session: SessionId, id: &Id) -> Result<Option<Named<'_>>, AllocError>
        ensures { IfOk result (λ found. (schema : Schema) → found ≡ option_map named (watched (served_by schema) id.now (asked_of (served_by schema) (finite.get self.now.sessions session)))) }
    {
        let Some(of) = self.sessions.get(session) else {
            return Ok(None);
        };
        let named = of.named(self.alloc)?;
        Ok(first_of(named, id))
    }

    /// Makes a change of the database, posts the reply of the transaction that made it, after a sync for each of
    /// its session's monitors as asked, if that session is open, and then these posts; or does nothing, where memory
    /// is refused. What `asked` costs, O(log n) for each post, for n sessions, and what `odb_chain::Chains::absorb`
    /// and `odb_interest::Interest::touched` do: sessions that the change doesn't concern cost nothing.
    pub fn commit(
        &mut self,
        session: SessionId,
        reply: Finished,
        posts: Vec<Post>,
        change: ChangeSet,
    ) -> Result<(), AllocError>
        requires { IsChangeOf self.old.db change }
        ensures ok { OnOk result ((schema : Schema) → self.new ≡ ended_with schema session (item_of reply) (map post_of posts.items) change self.old) }
        ensures err { OnErr result (self.new ≡ self.old) }
    {
        let posted_to = self.post_end(session, reply)?;
        match self.post_and_install(posts, change) {
            Ok(()) => Ok(()),
            Err(_) => {
                self.take_back(posted_to);
                Err(AllocError)
            }
        }
    }

    /// Lets these transactions end, one after another: each as `commit` does where it changes the database, and else its
    /// reply is posted. The one change has what all of theirs come to. Where memory is refused nothing was done.
    pub fn end_all(&mut self, ended: Vec<Ended>, change: ChangeSet) -> Result<(), AllocError>
        requires each { AreChangesFrom self.old.db (map ending_of ended.items) }
        requires whole { IsChangeOf self.old.db change }
        requires leads_to { all_changed_by self.old.db change ≡ all_left self.old.db (map ending_of ended.items) }
        ensures ok { OnOk result ((schema : Schema) → self.new ≡ all_ended schema self.old (map ending_of ended.items)) }
        ensures err { OnErr result (self.new ≡ self.old) }
    {
        let undos = self.prepare_all(ended.as_slice())?;
        let posted_to = self.post_ends(ended)?;
        self.install_after(posted_to, change, undos)
    }

    /// Makes a change of the database and posts each item to its session, or does nothing.
    fn post_and_install(&mut self, posts: Vec<Post>, change: ChangeSet) -> Result<(), AllocError>
        requires { IsChangeOf self.old.db change }
        ensures ok { OnOk result (self.new ≡ posted_with (map post_of posts.items) change self.old) }
        ensures err { OnErr result (self.new ≡ self.old) }
    {
        let mut undos = Vec::new(self.alloc);
        self.prepare(&mut undos, Some(&change))?;
        let queued_for = self.post_all(posts)?;
        self.install_after(queued_for, change, undos)
    }

    /// Posts the reply of a transaction that ended with a commit, after a sync for each of the session's
    /// monitors as asked, if the session is open. It returns what `post_all` does.
    pub(crate) fn post_end(
        &mut self,
        session: SessionId,
        reply: Finished,
    ) -> Result<Vec<SessionId>, AllocError>
        ensures ok { IfOk result (λ posted_to. (schema : Schema) → self.new ≡ record (self.old) { sessions = at_number (ended_in schema (item_of reply)) self.old.sessions session }) }
        ensures back { IfOk result (λ posted_to. unposted posted_to.items self.new.sessions ≡ self.old.sessions) }
        ensures err { OnErr result (self.new ≡ self.old) }
    {
        let Some(of) = self.sessions.get(session) else {
            return Ok(Vec::new(self.alloc));
        };
        let ids = of.asked(self.alloc)?;
        let items = ending(self.alloc, ids, reply)?;
        self.owed.insert(session)?;
        self.sessions.post_each(self.alloc, session, items)
    }

    /// Queues for a session, if it is open, a sync of the monitor with this id, and then the reply to the request
    /// for its cancel [P 9.6]; the monitor goes with the reply. It is for an id that `asked` says the session has.
    /// Where memory is refused nothing was queued. O(log n) for n sessions, and O(n) for ids of n bytes.
    pub fn stop(
        &mut self,
        session: SessionId,
        request: &Request,
        id: Printable<'_>,
    ) -> Result<(), AllocError>
        requires { has_left_out (id_of (request_data request.now)) ≡ false }
        ensures ok { OnOk result (self.new ≡ record (self.old) { sessions = at_number (stopped_in (request_data request.now) (printable_data id.entry)) self.old.sessions session }) }
        ensures err { OnErr result (self.new ≡ self.old) }
    {
        let items = stopping(self.alloc, request, id)?;
        self.owed.insert(session)?;
        drop(self.sessions.post_each(self.alloc, session, items)?);
        Ok(())
    }

    /// Queues for a session, if it is open, what the client lacks under the new filters, and then the reply to the
    /// request for the change [P 9.5]; the id and the filters change with the reply. It is for an old id that
    /// `asked` says the session has. Where memory is refused nothing was queued. O(log n) for n sessions.
    pub fn change(&mut self, session: SessionId, changing: Changing) -> Result<(), AllocError>
        ensures ok { OnOk result (self.new ≡ record (self.old) { sessions = at_number (changed_in changing) self.old.sessions session }) }
        ensures err { OnErr result (self.new ≡ self.old) }
    {
        let items = changing.items(self.alloc)?;
        self.owed.insert(session)?;
        drop(self.sessions.post_each(self.alloc, session, items)?);
        Ok(())
    }

    /// Does what `install` does after these posts, or takes them back.
    fn install_after(
        &mut self,
        queued_for: Vec<SessionId>,
        change: ChangeSet,
        undos: Vec<Undo>,
    ) -> Result<(), AllocError>
        requires { IsChangeOf self.old.db change }
        ensures ok { OnOk result ((css : List (List Changes)) → ComeTo self.old undos.items change css → self.new ≡ each_changed_with css self.old) }
        ensures err { OnErr result (self.new ≡ without_posts queued_for.items self.old) }
    {
        match self.install(change, undos) {
            Ok(()) => Ok(()),
            Err(_) => {
                self.take_back(queued_for);
                Err(AllocError)
            }
        }
    }

    /// Makes the whole change of the database, as one commit more for each of those that it comes to, which replaced
    /// these, or none; what clients have stays. Where memory is refused nothing changed; so it does where there would
    /// be 2^64 commits, or after as many changes of one table. Marks of sessions to which nothing was owed move to now:
    /// those of the sessions that the change concerns before it, so that what they will be owed is this change alone,
    /// and those of a few others after it.
    fn install(&mut self, change: ChangeSet, undos: Vec<Undo>) -> Result<(), AllocError>
        requires { IsChangeOf self.old.db change }
        ensures ok { OnOk result ((css : List (List Changes)) → ComeTo self.old undos.items change css → self.new ≡ each_changed_with css self.old) }
        ensures err { OnErr result (self.new ≡ self.old) }
    {
        let Some(_) = self.recent.commits().checked_add(undos.len() as u64) else {
            return Err(AllocError);
        };
        let touched = self.interest.touched(&change)?;
        let concerned = touched.as_slice();
        let late = self.sessions.late_among(self.alloc, concerned, &self.past)?;
        forget_owed(&mut self.interest, &self.owed, late.as_slice());
        refresh_each(
            &mut self.sessions,
            &mut self.past,
            &self.owed,
            late.as_slice(),
        );
        add_each(&mut self.owed, concerned)?;
        self.past.absorb(change)?;
        push_commits(&mut self.recent, undos);
        self.refreshing
            .go_on(&mut self.sessions, &mut self.past, &self.owed);
        Ok(())
    }

    /// Ends a session, if it is open: its queue and its monitors go, and what was kept for them alone. O(log n)
    /// for n sessions, and for each table of a monitor what `odb_chain::Chains::release` costs, and
    /// `odb_interest::Interest::forget`.
    pub fn close(&mut self, session: SessionId)
        ensures { self.new ≡ record (self.old) { sessions = finite.remove self.old.sessions session } }
    {
        self.owed.remove(&session);
        self.interest.forget(session);
        let Some(closed) = self.sessions.remove(session) else {
            return;
        };
        closed.release(&mut self.past);
    }

    /// Adds the text of a first reply, if there is one, to those that are kept until the database changes: who asks the same
    /// is told the same by it. Where memory is refused it isn't kept. O(1), and what letting eight texts go costs.
    pub fn add_first_text(&mut self, first: Option<FirstText>)
        requires { IfSome first (IsFirstText self.old.db) }
        ensures { self.new ≡ self.old }
    {
        if let Some(first) = first {
            self.past.add_first_text(first);
        }
    }

    /// Carries a taking of a session out, if that is open: this many items of its queue are used up, and then the
    /// clients of this many of its monitors have what their tables are now. It returns the text that stands in
    /// the last of the items, if one does. It can't be refused. O(log n) for n sessions, for each table of a
    /// monitor that is reached what `odb_chain::Chains::advance` costs, and for each filter that a monitor asks
    /// from then on O(n) for its members and atoms, with their bytes.
    pub fn carry_out(
        &mut self,
        session: SessionId,
        items: usize,
        monitors: usize,
    ) -> Option<Finished>
        requires { UsesUp self.old session items monitors }
        ensures book { (s : Schema) → self.new ≡ record (self.old) { sessions = at_number (used_by (served_by s) self.old.db items monitors) self.old.sessions session } }
        ensures text { option_map item_of result ≡ option_and_then (λ x. last_finished items x.queue) (finite.get self.old.sessions session) }
    {
        self.sessions
            .carry_out(session, items, monitors, &mut self.past)
    }
}

/// Adds the sessions of these posts to those that may be owed something. Where memory is refused some of them are added.
fn add_addressed(owed: &mut BTreeSet<SessionId>, posts: &[Post]) -> Result<(), AllocError>
    ensures kept { AreAdded owed.old owed.new [] }
    ensures added { OnOk result (AreAdded owed.old owed.new (addressed (map post_of posts.now))) }
{
    for post in posts {
        owed.insert(post.session)?;
    }
    Ok(())
}

/// Adds these sessions to those that may be owed something. Where memory is refused some of them are added.
fn add_each(owed: &mut BTreeSet<SessionId>, sessions: &[SessionId]) -> Result<(), AllocError>
    ensures kept { AreAdded owed.old owed.new [] }
    ensures added { OnOk result (AreAdded owed.old owed.new sessions.now) }
{
    for session in sessions {
        owed.insert(*session)?;
    }
    Ok(())
}

// Written, and not derived, so that each end of a scope is one call to prove.
impl Drop for Sessions {
    fn drop(self) {
        let Sessions {
            alloc: _,
            past: _,
            recent: _,
            sessions: _,
            owed: _,
            interest: _,
            refreshing: _,
        } = self;
    }
}
