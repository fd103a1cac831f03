//! Where the requests of a session's client come in, and wait until they are submitted. [P 7.1, 15.2]
ghost use Rattle.std.specs.Prelude.{◌≡◌, ◌+◌, ◌-◌, ◌++◌, ◌∷◌, ◌≤◌, ◌&&◌, [], All, get_or, is_none, length, map, not, true, false, option_map, option_to_list, IfNone, IfOk, IfSome, OnErr, OnOk};
ghost use Rattle.serde_json.specs.Data.{null};
ghost use Rattle.odb_wire.specs.Feeding.{fault_of};
ghost use Rattle.odb_wire.specs.Shown.{IsOfItsKind, message_data, request_data};
ghost use Rattle.odb_wire.specs.Stream.{messages};
ghost use Rattle.odb_hub.specs.Represented.Inbox.{pending_in, pending_of};
ghost use Rattle.odb_hub.specs.Inbox.{messages_of, requests_in};

use crate::counted::{BatchOutcome, Counted};
use crate::seat::Seat;
use crate::submission::Submission;
use crate::submitted::{BatchStep, SubmittedRequests};
use odb_rpc::inserts;
use odb_wire::{Framer, Message, Request, WireFault};
use std::alloc::{AllocError, Global};
use std::marker::Model;
use std::mem;
use std::snapshot::Snapshot;
use std::sync::ledger::Ledger;
use std::thread::Threads;
use std::time::Clock;
use uuid::Uuid;

/// A source of identifiers for the rows that are inserted.
pub trait Identifiers {
    /// Returns the next one. No contract speaks of it: they are to be random (RFC 4122, 4.4).
    fn next(&mut self) -> Uuid;
}

/// What was read of the stream of a session's client (RFC 7047, section 4), and the requests of it that aren't submitted
/// yet. What is always so (`IsInOrder`): those that were submitted, and then those that are pending, are the requests and
/// notifications of all bytes that were read, in their order, each once. Only where the rest was given up are some left out
/// after them.
pub struct Inbox {
    alloc: Global,
    framer: Framer,
    fault: Option<WireFault>,
    /// The requests that are pending, the first of them last.
    batch: Vec<Submission>,
    submitted: SubmittedRequests,
    is_stopped: bool,
}

impl Model for Inbox {
    ghost use Rattle.std.specs.Prelude.{◌≡◌};
    ghost use Rattle.odb_wire.specs.Feeding.{fault_of};
    ghost use Rattle.odb_wire.specs.Stream.{messages};
    ghost use Rattle.odb_hub.specs.Inbox as model;
    ghost use Rattle.odb_hub.specs.Inbox.{IsInOrder};
    ghost use Rattle.odb_hub.specs.Represented.Inbox.{pending_of};

    ghost Value = { model.Inbox };

    ghost coded = { model.inbox_code };

    ghost view = { λ i. record { most = i.framer.most; bytes = i.framer.bytes; submitted = i.submitted.requests; pending = pending_of i.batch.items; is_stopped = i.is_stopped } };

    ghost invariant = { λ i. IsInOrder (record { most = i.framer.most; bytes = i.framer.bytes; submitted = i.submitted.requests; pending = pending_of i.batch.items; is_stopped = i.is_stopped })
        × (i.fault ≡ fault_of (messages i.framer.most i.framer.bytes).1) };
}

impl Inbox {
    ghost use Rattle.odb_core.specs.Deadlines.{earliest};
    ghost use Rattle.odb_hub.specs.Batch.{IsSome, IsTurn, is_sooner};
    ghost use Rattle.odb_hub.specs.Inbox.{HandsOn, IsInOrder, MovesOn, Stops, SubmitsFrom, SubmitsRun, TakesIn};
    ghost use Rattle.odb_hub.specs.Guarded.{IsQuiet};
    ghost use Rattle.odb_hub.specs.Own.{IsGiven};

    /// Makes that of a stream of which nothing was read, whose messages have at most `most` bytes.
    pub fn new(alloc: Global, most: usize) -> Inbox
        ensures { result ≡ record { most = most; bytes = []; submitted = []; pending = []; is_stopped = false } }
    {
        Inbox {
            alloc,
            framer: Framer::new(alloc, most),
            fault: None,
            batch: Vec::new(alloc),
            submitted: SubmittedRequests::none(),
            is_stopped: false,
        }
    }

    /// Returns how many requests are pending, and what is always so of the stream. O(1).
    pub fn pending(&self) -> usize
        ensures count { result ≡ length self.now.pending }
        ensures order { IsInOrder self.now }
    {
        self.batch.len()
    }

    /// Returns the fault that the stream stands at, if it does: no request comes of it any more. O(1).
    pub fn fault(&self) -> Option<WireFault>
        ensures { result ≡ fault_of (messages self.now.most self.now.bytes).1 }
    {
        self.fault
    }

    /// Returns whether more may come of the stream: it is at no fault, and its rest wasn't given up. O(1).
    pub fn is_open(&self) -> bool
        ensures { result ≡ (not self.now.is_stopped && is_none (fault_of (messages self.now.most self.now.bytes).1)) }
    {
        !self.is_stopped && self.fault.is_none()
    }

    /// Takes in a piece that was read; the requests that are whole with it are pending after the others, each with
    /// identifiers for its inserts. Where the rest was given up nothing happens. Where memory is refused it is given up.
    /// O(bytes of the piece and of the messages that it makes whole), and O(requests pending).
    pub fn take_in<I: Identifiers>(
        &mut self,
        piece: &[u8],
        identifiers: &mut I,
    ) -> Result<(), AllocError>
        ensures ok { OnOk result (TakesIn piece.now self.old self.new) }
        ensures err { OnErr result (Stops self.old self.new) }
    {
        if self.is_stopped {
            return Ok(());
        }
        let Ok(fed) = self.framer.feed(piece) else {
            self.stop();
            return Err(AllocError);
        };
        self.fault = fed.fault;
        let mut batch = mem::replace(&mut self.batch, Vec::new(self.alloc));
        match submissions_of(self.alloc, fed.messages, &mut batch, identifiers) {
            Ok(batch) => {
                self.batch = batch;
                Ok(())
            }
            Err(refused) => {
                self.is_stopped = true;
                Err(refused)
            }
        }
    }

    /// Gives up what is pending, and the rest of the stream. O(requests pending).
    pub fn stop(&mut self)
        ensures { self.new ≡ record self.old { pending = []; is_stopped = true } }
    {
        self.batch.clear();
        self.is_stopped = true;
    }

    /// Returns the request at a place among those that are pending, of which the first is at 0. O(1).
    pub fn request(&self, place: usize) -> Option<&Request>
        ensures some { IfSome result (λ request. request_data request.now ≡ get_or (messages_of self.now.pending) place null) }
        ensures none { IfNone result (length self.now.pending ≤ place) }
    {
        request_from_end(self.batch.as_slice(), place)
    }

    /// Takes the first request that is pending, which goes on elsewhere: it counts as submitted. O(1).
    pub fn take(&mut self) -> Option<Submission>
        ensures some { IfSome result (λ first. HandsOn (pending_in first) self.old self.new) }
        ensures none { IfNone result ((self.old.pending ≡ []) × (self.new ≡ self.old)) }
    {
        let before = Snapshot::of(&self.batch);
        let Some(first) = self.batch.pop() else {
            return None;
        };
        let left = Snapshot::of(&self.batch);
        let step = BatchStep { before, left };
        self.submitted = self.submitted.after(&step);
        Some(first)
    }

    /// Submits a turn of the first `most` that are pending, as `submit_turn` does of all, and of the others none. Where
    /// memory is refused for keeping these apart nothing happens. O(`most`) where others are pending.
    pub fn submit_run<L: Ledger, R: Threads + Clock + Sync>(
        &mut self,
        rt: &R,
        hub: &mut Counted<L>,
        seat: &mut Seat<L>,
        now: u64,
        most: usize,
    ) -> Result<BatchOutcome, AllocError>
        ensures order { OnOk result (MovesOn self.old self.new) }
        ensures submits { IfOk result (λ outcome. SubmitsRun outcome.owes seat.old.session now most self.old self.new hub.old.guarded hub.new.guarded) }
        ensures given { IfOk result (λ outcome. OnOk outcome.given (IsGiven seat.old.session hub.new.guarded)) }
        ensures quiet { IfOk result (λ outcome. IfOk outcome.owes (λ owes. owes ≡ false → IsQuiet hub.new.guarded.server)) }
        ensures seat { seat.new ≡ record { session = seat.old.session; answered = seat.old.answered + (length self.old.pending - length self.new.pending) } }
        ensures answered { hub.new.answered ≡ hub.old.answered + (length self.old.pending - length self.new.pending) }
        ensures before_base { hub.new.before_base ≡ hub.old.before_base }
        ensures err { OnErr result ((self.new ≡ self.old) × (hub.new ≡ hub.old)) }
    {
        let others = self.batch.len().saturating_sub(most);
        if others == 0 {
            return Ok(self.submit_turn(rt, hub, seat, now));
        }
        let before = Snapshot::of(&self.batch);
        let mut run = self.batch.split_off(others)?;
        let outcome = hub.submit_turn(rt, seat, &mut run, now);
        let Ok(()) = self.batch.append(&mut run) else {
            unreachable!();
        };
        let left = Snapshot::of(&self.batch);
        let step = BatchStep { before, left };
        self.submitted = self.submitted.after(&step);
        Ok(outcome)
    }

    /// Submits a turn of what is pending, from the first, as [`Counted::submit_turn`] does.
    pub fn submit_turn<L: Ledger, R: Threads + Clock + Sync>(
        &mut self,
        rt: &R,
        hub: &mut Counted<L>,
        seat: &mut Seat<L>,
        now: u64,
    ) -> BatchOutcome
        ensures order { MovesOn self.old self.new }
        ensures submits { SubmitsFrom result.owes seat.old.session now self.old self.new hub.old.guarded hub.new.guarded }
        ensures most { IsTurn (length self.old.pending) (length self.new.pending) }
        ensures some { OnOk result.owes (IsSome (length self.old.pending) (length self.new.pending)) }
        ensures given { OnOk result.given (IsGiven seat.old.session hub.new.guarded) }
        ensures quiet { IfOk result.owes (λ owes. owes ≡ false → IsQuiet hub.new.guarded.server) }
        ensures sooner { result.due_sooner ≡ is_sooner (earliest hub.new.guarded.server.world.waiting) (earliest hub.old.guarded.server.world.waiting) }
        ensures seat { seat.new ≡ record { session = seat.old.session; answered = seat.old.answered + (length self.old.pending - length self.new.pending) } }
        ensures answered { hub.new.answered ≡ hub.old.answered + (length self.old.pending - length self.new.pending) }
        ensures before_base { hub.new.before_base ≡ hub.old.before_base }
    {
        let before = Snapshot::of(&self.batch);
        let outcome = hub.submit_turn(rt, seat, &mut self.batch, now);
        let step = BatchStep {
            before,
            left: Snapshot::of(&self.batch),
        };
        self.submitted = self.submitted.after(&step);
        outcome
    }
}

/// Returns the request at a place from the end of a batch, at which the first is.
fn request_from_end(batch: &[Submission], place: usize) -> Option<&Request>
    ensures some { IfSome result (λ request. request_data request.now ≡ get_or (messages_of (pending_of batch.now)) place null) }
    ensures none { IfNone result (length (pending_of batch.now) ≤ place) }
{
    if place >= batch.len() {
        return None;
    }
    let submission = &batch[batch.len() - 1 - place];
    Some(&submission.request)
}

/// Returns the requests among the messages, and after them, at its end, what was pending, the first of all last.
fn submissions_of<I: Identifiers>(
    alloc: Global,
    messages: Vec<Message>,
    pending: &mut Vec<Submission>,
    identifiers: &mut I,
) -> Result<Vec<Submission>, AllocError>
    requires { All IsOfItsKind messages.items }
    ensures { IfOk result (λ all. messages_of (pending_of all.items)
        ≡ messages_of (pending_of pending.old.items) ++ requests_in (map message_data messages.items)) }
{
    let mut all = Vec::with_capacity(alloc, messages.len())?;
    for message in messages {
        if let Some(request) = request_in(message) {
            all.push(submission_of(alloc, request, identifiers)?)?;
        }
    }
    all.reverse();
    all.append(pending)?;
    Ok(all)
}

/// Returns the request or the notification that a message is, if it is one.
fn request_in(message: Message) -> Option<Request>
    requires { IsOfItsKind message }
    ensures { option_to_list (option_map request_data result) ≡ requests_in (message_data message ∷ []) }
{
    match message {
        Message::Request(request) => Some(request),
        Message::Notification(request) => Some(request),
        Message::Response(response) => {
            drop(response);
            None
        }
    }
}

/// Returns what is submitted for a request: it, with an identifier for each of its inserts. O(operations).
pub fn submission_of<I: Identifiers>(
    alloc: Global,
    request: Request,
    identifiers: &mut I,
) -> Result<Submission, AllocError>
    ensures { IfOk result (λ submission. submission.request ≡ request) }
{
    let count = inserts(&request);
    let mut fresh = Vec::with_capacity(alloc, count)?;
    for made in 0..count {
        fresh.push(identifiers.next())?;
    }
    Ok(Submission::new(request, fresh))
}

// Written, and not derived, so that each end of a scope is one call to prove.
impl Drop for Inbox {
    fn drop(self) {
        let Inbox {
            alloc: _,
            framer: _,
            fault: _,
            batch: _,
            submitted: _,
            is_stopped: _,
        } = self;
    }
}
