//! Transactions that end at once: what they post, and what their changes replace. [P 9.8, 12.1]
ghost use Rattle.std.specs.Prelude.{◌≡◌, ◌+◌, ◌++◌, ◌<◌, ◌^◌, length, map, option_to_list, IfOk, OnErr, OnOk};
ghost use Rattle.std.specs.Option.{option_copied};
ghost use Rattle.odb_queue.specs.Represented.Item.{item_of};
ghost use Rattle.odb_recent.specs.Recent.{kept_undo};
ghost use Rattle.odb_schema.specs.Schema.{Schema};
ghost use Rattle.odb_sessions.specs.Committed.{all_noted, changes_of, end_posted, ends_posted, without_posts};
ghost use Rattle.odb_sessions.specs.Posts.{posted, unposted};
ghost use Rattle.odb_sessions.specs.Represented.Ended.{ending_of};

use crate::ended::Ended;
use crate::sessions::Sessions;
use odb_locks::SessionId;
use odb_queue::{Finished, Post};
use odb_recent::{Recent, Undo};
use odb_tables::ChangeSet;
use std::alloc::AllocError;

impl Sessions {
    /// Adds what the change replaces, if there is one, to what those before it do. It is refused where there were
    /// 2^64 - 1 commits, or memory is. O(tables) and O(rows changed).
    pub(crate) fn prepare(
        &self,
        undos: &mut Vec<Undo>,
        change: Option<&ChangeSet>,
    ) -> Result<(), AllocError>
        ensures { OnOk result (undos.new.items ≡ undos.old.items ++ map (kept_undo self.now.earlier.most) (option_to_list (option_copied change.entry))) }
    {
        let Some(change) = change else {
            return Ok(());
        };
        undos.reserve(1)?;
        let Ok(undo) = self.recent.prepare(change) else {
            return Err(AllocError);
        };
        undos.push_reserved(undo);
        Ok(())
    }

    /// Returns what the changes of transactions that ended replace, in their order. What `prepare` costs for each.
    pub(crate) fn prepare_all(&self, ended: &[Ended]) -> Result<Vec<Undo>, AllocError>
        ensures { IfOk result (λ undos. undos.items ≡ map (kept_undo self.now.earlier.most) (changes_of (map ending_of ended.now))) }
    {
        let mut undos = Vec::new(self.alloc);
        for one in ended {
            self.prepare(&mut undos, one.change.as_ref())?;
        }
        Ok(undos)
    }

    /// Posts what transactions that ended post, one after another, and returns what `post_all` does. What
    /// `post_end` costs for each.
    pub(crate) fn post_ends(&mut self, ended: Vec<Ended>) -> Result<Vec<SessionId>, AllocError>
        ensures ok { IfOk result (λ posted_to. (schema : Schema) → self.new ≡ ends_posted schema (map ending_of ended.items) self.old) }
        ensures back { IfOk result (λ posted_to. without_posts posted_to.items self.new ≡ self.old) }
        ensures err { OnErr result (self.new ≡ self.old) }
    {
        let mut posted_to = Vec::new(self.alloc);
        for one in ended {
            if let Err(refused) = self.post_next(&mut posted_to, one) {
                self.take_back(posted_to);
                return Err(refused);
            }
        }
        Ok(posted_to)
    }

    /// Posts what one that ended posts, and adds the sessions for which an item was queued.
    fn post_next(&mut self, posted_to: &mut Vec<SessionId>, ended: Ended) -> Result<(), AllocError>
        ensures ok { OnOk result ((schema : Schema) → self.new ≡ record (self.old) { sessions = end_posted schema self.old.sessions (ending_of ended) }) }
        ensures back { OnOk result (without_posts posted_to.new.items self.new ≡ without_posts posted_to.old.items self.old) }
        ensures err { OnErr result (self.new ≡ self.old) }
        ensures posted_to { OnErr result (posted_to.new.items ≡ posted_to.old.items) }
    {
        let more = self.post_ended(ended)?;
        match posted_to.extend_from_slice(more.as_slice()) {
            Ok(()) => Ok(()),
            Err(_) => {
                self.take_back(more);
                Err(AllocError)
            }
        }
    }

    /// Posts what one that ended posts. It returns what `post_all` does.
    fn post_ended(&mut self, ended: Ended) -> Result<Vec<SessionId>, AllocError>
        ensures ok { IfOk result (λ posted_to. (schema : Schema) → self.new ≡ record (self.old) { sessions = end_posted schema self.old.sessions (ending_of ended) }) }
        ensures back { IfOk result (λ posted_to. unposted posted_to.items self.new.sessions ≡ self.old.sessions) }
        ensures err { OnErr result (self.new ≡ self.old) }
    {
        let (session, reply, has_changed) = ended.into_parts();
        if has_changed {
            return self.post_end(session, reply);
        }
        self.post_reply(session, reply)
    }

    /// Posts a reply alone. It returns what `post_all` does.
    fn post_reply(
        &mut self,
        session: SessionId,
        reply: Finished,
    ) -> Result<Vec<SessionId>, AllocError>
        ensures ok { IfOk result (λ posted_to. self.new ≡ record (self.old) { sessions = posted self.old.sessions (session, item_of reply) }) }
        ensures back { IfOk result (λ posted_to. unposted posted_to.items self.new.sessions ≡ self.old.sessions) }
        ensures err { OnErr result (self.new ≡ self.old) }
    {
        let mut posts = Vec::with_capacity(self.alloc, 1)?;
        posts.push_reserved(Post {
            session,
            item: reply,
        });
        self.post_all(posts)
    }
}

/// Pushes as many commits, which replaced these. It can't be refused. What `odb_recent::Recent::push` costs for each.
pub(crate) fn push_commits(recent: &mut Recent, undos: Vec<Undo>)
    requires { recent.old.commits + length undos.items < 2 ^ 64 }
    ensures { recent.new ≡ all_noted undos.items recent.old }
{
    for undo in undos {
        recent.push(undo);
    }
}
