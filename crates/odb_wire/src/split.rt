//! The whole messages at the front of a stream, and what is left of it. [P 7.1, 14]
ghost use Rattle.std.specs.Prelude.{◌≡◌, ℕ, List, ◌+◌, ◌<◌, ◌++◌, length, take, map, All, IfOk, IfErr, OnErr, vec_len, [], IsTrue, Some, None, if◌then◌else◌};
ghost use Rattle.odb_wire.specs.Stream.{is_blank, skip_blanks, front_of, whole, messages};
ghost use Rattle.odb_wire.specs.Feeding.{fault_of};
ghost use Rattle.odb_wire.specs.Shown.{message_data, IsOfItsKind};
ghost use Rattle.odb_wire.specs.declared.split.StreamState.TheVariants as state;
ghost use Rattle.odb_wire.specs.Standing.{IsStanding, IsRest, IsFront, ReadsOn, TakesIn, IsAsBefore, ending_of, messages_after};

use crate::fault::WireFault;
use crate::message::Message;
use crate::scan::Scan;
use std::alloc::{AllocError, Global};

/// What stands between whole messages: the text of an object so far, or nothing.
#[derive(Drop)]
pub(crate) struct Unfinished {
    text: Vec<u8>,
    scan: Scan,
}

/// How a stream stands after the messages that were returned.
pub(crate) enum StreamState {
    Going(Unfinished),
    Stopped(WireFault),
}

/// The messages that became whole, and how the stream stands after them.
#[derive(Drop)]
pub(crate) struct Step {
    pub(crate) messages: Vec<Message>,
    pub(crate) state: StreamState,
}

/// What stands at the front of bytes that don't begin with a blank.
enum Front {
    Whole(usize),
    Incomplete(Scan),
    TooLong,
    Bad,
}

impl Step {
    fn stopped(messages: Vec<Message>, fault: WireFault) -> Step
        ensures { result ≡ record { messages = messages; state = state.Stopped fault } }
    {
        Step {
            messages,
            state: StreamState::Stopped(fault),
        }
    }

    fn going(messages: Vec<Message>, rest: Unfinished) -> Step
        ensures { result ≡ record { messages = messages; state = state.Going rest } }
    {
        Step {
            messages,
            state: StreamState::Going(rest),
        }
    }
}

impl StreamState {
    /// Makes the state before the first byte, or between two messages, whatever the limit.
    pub(crate) fn between(alloc: Global) -> StreamState
        ensures stands { (most : ℕ) → IsStanding most result }
        ensures fresh { (most : ℕ) (more : List ℕ) → messages_after most result more ≡ messages most more }
    {
        StreamState::Going(Unfinished {
            text: Vec::new(alloc),
            scan: Scan::begun(),
        })
    }

    /// Returns the fault that the stream stands at.
    pub(crate) fn fault(&self) -> Option<WireFault>
        ensures { (most : ℕ) → IsStanding most self.now → result ≡ fault_of (messages_after most self.now []).1 }
    {
        match self {
            StreamState::Stopped(fault) => Some(*fault),
            StreamState::Going(_) => None,
        }
    }

    /// Takes a piece in, where a message has `most` bytes at most. For want of memory it gives back what it was.
    pub(crate) fn advance(
        self,
        alloc: Global,
        most: usize,
        piece: &[u8],
    ) -> Result<Step, StreamState>
        requires { IsStanding most self }
        ensures ok { IfOk result (λ step. TakesIn most self piece.now (map message_data step.messages.items) step.state) }
        ensures kinds { IfOk result (λ step. All IsOfItsKind step.messages.items) }
        ensures err { IfErr result (IsAsBefore most self) }
        ensures only_going { OnErr result (fault_of (messages_after most self []).1 ≡ None) }
    {
        match self {
            StreamState::Stopped(fault) => Ok(Step::stopped(Vec::new(alloc), fault)),
            StreamState::Going(rest) => match rest.advance(alloc, most, piece) {
                Ok(step) => Ok(step),
                Err(rest) => Err(StreamState::Going(rest)),
            },
        }
    }
}

impl Unfinished {
    fn advance(self, alloc: Global, most: usize, piece: &[u8]) -> Result<Step, Unfinished>
        requires { IsRest most self.text.items self.scan }
        ensures ok { IfOk result (λ step. ReadsOn most [] (self.text.items ++ piece.now)
            (map message_data step.messages.items) step.state) }
        ensures kinds { IfOk result (λ step. All IsOfItsKind step.messages.items) }
        ensures text { IfErr result (λ rest. rest.text.items ≡ self.text.items) }
        ensures scan { IfErr result (λ rest. rest.scan ≡ self.scan) }
    {
        let Unfinished { mut text, scan } = self;
        if text.is_empty() {
            return match split(alloc, most, Vec::new(alloc), piece) {
                Ok(step) => Ok(step),
                Err(_) => Err(Unfinished { text, scan }),
            };
        }
        let kept = text.len();
        let room = most - kept;
        let mut further = scan;
        let Some(end) = further.end_in(&piece[..piece.len().min(room)]) else {
            if piece.len() >= room {
                return Ok(Step::stopped(Vec::new(alloc), WireFault::TooLong));
            }
            if text.extend_from_slice(piece).is_err() {
                return Err(Unfinished { text, scan });
            }
            let scan = further;
            return Ok(Step::going(Vec::new(alloc), Unfinished { text, scan }));
        };
        let (last, later) = piece.split_at(end);
        match complete(alloc, most, &mut text, last, later) {
            Ok(step) => Ok(step),
            Err(_) => {
                text.truncate(kept);
                Err(Unfinished { text, scan })
            }
        }
    }
}

/// Completes the unfinished message with its last bytes, and splits the messages after it.
fn complete(
    alloc: Global,
    most: usize,
    text: &mut Vec<u8>,
    last: &[u8],
    later: &[u8],
) -> Result<Step, AllocError>
    requires { front_of most (text.old.items ++ last.now) ≡ whole (text.old.items ++ last.now) }
    ensures ok { IfOk result (λ step. ReadsOn most [] ((text.old.items ++ last.now) ++ later.now)
        (map message_data step.messages.items) step.state) }
    ensures kinds { IfOk result (λ step. All IsOfItsKind step.messages.items) }
    ensures err { take (vec_len text.old) text.new.items ≡ text.old.items }
{
    text.extend_from_slice(last)?;
    let mut messages = Vec::new(alloc);
    match Message::read(alloc, text.as_slice())? {
        Some(message) => {
            messages.push(message)?;
            split(alloc, most, messages, later)
        }
        None => Ok(Step::stopped(messages, WireFault::BadStream)),
    }
}

/// Splits off the messages at the front of the bytes, each of `most` bytes at most, adds them to those given, and
/// returns how the bytes stand after them.
fn split(
    alloc: Global,
    most: usize,
    mut messages: Vec<Message>,
    bytes: &[u8],
) -> Result<Step, AllocError>
    ensures ok { IfOk result (λ step. ReadsOn most (map message_data messages.items) bytes.now
        (map message_data step.messages.items) step.state) }
    ensures kinds { All IsOfItsKind messages.items
        → IfOk result (λ step. All IsOfItsKind step.messages.items) }
{
    let mut left = skip_blanks(bytes);
    while !left.is_empty() {
        match front_at(most, left) {
            Front::Whole(end) => {
                let (text, later) = left.split_at(end);
                match Message::read(alloc, text)? {
                    Some(message) => messages.push(message)?,
                    None => return Ok(Step::stopped(messages, WireFault::BadStream)),
                }
                left = skip_blanks(later);
            }
            Front::Incomplete(scan) => {
                let text = Vec::from_slice(alloc, left)?;
                return Ok(Step::going(messages, Unfinished { text, scan }));
            }
            Front::TooLong => return Ok(Step::stopped(messages, WireFault::TooLong)),
            Front::Bad => return Ok(Step::stopped(messages, WireFault::BadStream)),
        }
    }
    Ok(Step {
        messages,
        state: StreamState::between(alloc),
    })
}

/// Returns the bytes from the first one on that is no blank.
fn skip_blanks(bytes: &[u8]) -> &[u8]
    ensures rest { result.now ≡ skip_blanks bytes.now }
    ensures no_more { skip_blanks result.now ≡ result.now }
{
    for (i, byte) in bytes.iter().enumerate() {
        if !is_blank(*byte) {
            return &bytes[i..];
        }
    }
    &[]
}

fn is_blank(byte: u8) -> bool
    ensures { result ≡ is_blank byte }
{
    matches!(byte, b' ' | b'\t' | b'\n' | b'\r')
}

fn front_at(most: usize, bytes: &[u8]) -> Front
    requires { 0 < length bytes.now }
    ensures { IsFront most bytes.now result }
{
    let Some((b'{', later)) = bytes.split_first() else {
        return Front::Bad;
    };
    let mut scan = Scan::begun();
    match scan.end_in(&later[..later.len().min(most.saturating_sub(1))]) {
        Some(end) => Front::Whole(end + 1),
        None => if bytes.len() < most {
            Front::Incomplete(scan)
        } else {
            Front::TooLong
        },
    }
}

// Written, and not derived, so that each end of a scope is one call to prove.
impl Drop for StreamState {
    fn drop(self) {
        match self {
            StreamState::Going(_) => {}
            StreamState::Stopped(_) => {}
        }
    }
}
