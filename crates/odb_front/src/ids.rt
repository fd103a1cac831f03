//! The ids of a connection's monitors and requests, in each database. [P 15.3, 15.4]
ghost use Rattle.std.specs.Prelude.{◌≡◌, [], bytes_eq, not, IfOk, OnErr, OnOk};
ghost use Rattle.std.specs.List.{filter, list_any};
ghost use Rattle.serde_json.specs.Written.{compact_text};
ghost use Rattle.odb_rpc.specs.Represented.Printable.{printable_data};
ghost use Rattle.odb_front.specs.Front as front;
ghost use Rattle.odb_front.specs.Locks as locks;

use crate::destination::Destination;
use crate::naming::Naming;
use crate::writes::has_end;
use odb_rpc::Printable;
use std::alloc::{AllocError, Global};
use std::marker::Model;

/// The id of a monitor or of a request, as its compact text.
pub struct IdText {
    text: Vec<u8>,
}

impl Model for IdText {
    ghost use Rattle.std.specs.Prelude.{ℕ, List};
    ghost use Rattle.std.specs.Coded.{coded_list, coded_ℕ};

    ghost Value = { List ℕ };

    ghost coded = { coded_list coded_ℕ };

    ghost view = { λ t. t.text.items };
}

impl IdText {
    /// Makes that of an id. O(n) for a text of n bytes.
    pub fn new(alloc: Global, id: Printable<'_>) -> Result<IdText, AllocError>
        ensures { IfOk result (λ made. made ≡ compact_text (printable_data id.entry)) }
    {
        Ok(IdText {
            text: id.to_vec(alloc)?,
        })
    }

    /// Returns whether it is among these. O(bytes of the texts).
    pub fn is_among(&self, ids: &[IdText]) -> bool
        ensures { result ≡ list_any (bytes_eq self.now) ids.now }
    {
        ids.iter().any(|id| self.is_same(id))
    }

    pub(crate) fn is_same(&self, other: &IdText) -> bool
        ensures { result ≡ bytes_eq self.now other.now }
    {
        self.text.as_slice() == other.text.as_slice()
    }

    /// Returns whether a text is the reply of a success to the request of this id. O(bytes of the id).
    pub fn is_answered_by(&self, reply: &[u8]) -> bool
        ensures { result ≡ front.is_reply_to reply.now self.now }
    {
        let rest = after(reply, BEGIN.len());
        begins_with(reply, BEGIN)
            && begins_with(rest, self.text.as_slice())
            && begins_with(after(rest, self.text.len()), RESULT)
    }

    /// Returns whether a text is the reply of a failure to the request of this id. O(bytes of the id).
    fn is_refused_by(&self, reply: &[u8]) -> bool
        ensures { result ≡ front.is_failure_of reply.now self.now }
    {
        let rest = before(reply, FAILURE.len());
        has_end(reply, FAILURE)
            && has_end(rest, self.text.as_slice())
            && has_end(before(rest, self.text.len()), ID)
    }

    /// Returns whether a text is a reply to the request of this id. O(bytes of the id).
    pub fn has_answer(&self, reply: &[u8]) -> bool
        ensures { result ≡ front.is_answer_to reply.now self.now }
    {
        self.is_answered_by(reply) || self.is_refused_by(reply)
    }

    /// Returns whether a message of the second database comes of a request about locks, which has this id there: the first
    /// answers it. O(bytes of the id).
    pub fn is_of_locks(&self, text: &[u8]) -> bool
        ensures { result ≡ locks.is_of_locks text.now self.now }
    {
        self.has_answer(text) || is_notice(text)
    }

    /// Takes it out from among these.
    pub(crate) fn leave(&self, ids: &mut Vec<IdText>)
        ensures { ids.new.items ≡ front.without self.now ids.old.items }
    {
        ids.retain(|other| !self.is_same(other));
    }
}

// Written, and not derived, so that each end of a scope is one call to prove.
impl Drop for IdText {
    fn drop(self) {
        let IdText { text: _ } = self;
    }
}

/// How the reply of a success begins, and what comes after its id (RFC 7047, section 4).
const BEGIN: &[u8] = b"{\"error\":null,\"id\":";

const RESULT: &[u8] = b",\"result\":";

/// What comes before the id in that of a failure, and how it ends.
const ID: &[u8] = b",\"id\":";

const FAILURE: &[u8] = b",\"result\":null}";

/// How the notifications begin that tell of locks (RFC 7047, 4.1.9, 4.1.10).
const LOCKED: &[u8] = b"{\"id\":null,\"method\":\"locked\"";

const STOLEN: &[u8] = b"{\"id\":null,\"method\":\"stolen\"";

/// Returns what comes after the first `count` bytes.
fn after(text: &[u8], count: usize) -> &[u8]
    ensures { result.now ≡ front.after count text.now }
{
    &text[count.min(text.len())..]
}

/// Returns what comes before the last `count` bytes.
fn before(text: &[u8], count: usize) -> &[u8]
    ensures { result.now ≡ front.before count text.now }
{
    &text[..text.len().saturating_sub(count)]
}

/// Returns whether a text is a notification that tells of a lock.
fn is_notice(text: &[u8]) -> bool
    ensures { result ≡ locks.is_notice text.now }
{
    begins_with(text, LOCKED) || begins_with(text, STOLEN)
}

fn begins_with(text: &[u8], begin: &[u8]) -> bool
    ensures { result ≡ front.begins_with text.now begin.now }
{
    let end = begin.len().min(text.len());
    &text[..end] == begin
}

/// The ids by which a connection names its monitors in each database, its requests that wait in `_Server`, and its requests in
/// the second database that have no reply yet. They take memory for each of these alone.
pub struct Ids {
    first: Vec<IdText>,
    second: Vec<IdText>,
    server: Vec<IdText>,
    waiting: Vec<IdText>,
    unanswered: Vec<IdText>,
}

impl Model for Ids {
    ghost use Rattle.odb_front.specs.Front as front;

    ghost Value = { front.Ids };

    ghost coded = { front.ids_code };

    ghost view = { λ i. record { first = i.first.items; second = i.second.items; server = i.server.items; waiting = i.waiting.items; unanswered = i.unanswered.items } };
}

impl Ids {
    /// Makes those of a connection that has named nothing.
    pub fn new(alloc: Global) -> Ids
        ensures { result ≡ record { first = []; second = []; server = []; waiting = []; unanswered = [] } }
    {
        Ids {
            first: Vec::new(alloc),
            second: Vec::new(alloc),
            server: Vec::new(alloc),
            waiting: Vec::new(alloc),
            unanswered: Vec::new(alloc),
        }
    }

    /// Returns the ids of monitors of the first database. O(1).
    pub fn first(&self) -> &[IdText]
        ensures { result.now ≡ self.now.first }
    {
        self.first.as_slice()
    }

    /// Returns the ids of monitors of the second database. O(1).
    pub fn second(&self) -> &[IdText]
        ensures { result.now ≡ self.now.second }
    {
        self.second.as_slice()
    }

    /// Returns the ids of monitors of `_Server`. O(1).
    pub fn server(&self) -> &[IdText]
        ensures { result.now ≡ self.now.server }
    {
        self.server.as_slice()
    }

    /// Returns the ids of requests that wait in `_Server`. O(1).
    pub fn waiting(&self) -> &[IdText]
        ensures { result.now ≡ self.now.waiting }
    {
        self.waiting.as_slice()
    }

    /// Returns the ids of requests in the second database that have no reply yet. O(1).
    pub fn unanswered(&self) -> &[IdText]
        ensures { result.now ≡ self.now.unanswered }
    {
        self.unanswered.as_slice()
    }

    /// Records how a request that went to a database names monitors from then on. O(bytes of the ids).
    pub fn record_naming(
        &mut self,
        destination: Destination,
        naming: Naming,
    ) -> Result<(), AllocError>
        ensures ok { OnOk result (self.new ≡ front.with_naming destination naming self.old) }
        ensures err { OnErr result (self.new ≡ self.old) }
    {
        match destination {
            Destination::First => naming.put_into(&mut self.first),
            Destination::Second => naming.put_into(&mut self.second),
            Destination::Server => naming.put_into(&mut self.server),
            Destination::Both => {
                drop(naming);
                Ok(())
            }
            Destination::Front => {
                drop(naming);
                Ok(())
            }
        }
    }

    /// Notes that a request of this id waits in `_Server`. O(1).
    pub fn wait(&mut self, id: IdText) -> Result<(), AllocError>
        ensures ok { OnOk result (self.new ≡ front.with_waiting id self.old) }
        ensures err { OnErr result (self.new ≡ self.old) }
    {
        match self.waiting.push(id) {
            Ok(()) => Ok(()),
            Err(_) => Err(AllocError),
        }
    }

    /// Notes that a reply was given: those that it answers, as a success, wait no more. O(bytes of the ids).
    pub fn note_reply(&mut self, reply: &[u8])
        ensures { self.new ≡ front.answered reply.now self.old }
    {
        self.waiting.retain(|id| !id.is_answered_by(reply));
    }

    /// Notes that a request of this id was submitted to the second database. O(1).
    pub fn ask_second(&mut self, id: IdText) -> Result<(), AllocError>
        ensures ok { OnOk result (self.new ≡ front.with_unanswered id self.old) }
        ensures err { OnErr result (self.new ≡ self.old) }
    {
        match self.unanswered.push(id) {
            Ok(()) => Ok(()),
            Err(_) => Err(AllocError),
        }
    }

    /// Notes a message of the second database: those that it answers have their reply. O(bytes of the ids).
    pub fn hear_second(&mut self, text: &[u8])
        ensures { self.new ≡ front.answered_there text.now self.old }
    {
        self.unanswered.retain(|id| !id.has_answer(text));
    }

    /// Notes that no request of this id waits in `_Server`. O(bytes of the ids).
    pub fn end(&mut self, id: &IdText)
        ensures { self.new ≡ front.without_waiting id.now self.old }
    {
        id.leave(&mut self.waiting);
    }
}

// Written, and not derived, so that each end of a scope is one call to prove.
impl Drop for Ids {
    fn drop(self) {
        let Ids {
            first: _,
            second: _,
            server: _,
            waiting: _,
            unanswered: _,
        } = self;
    }
}
