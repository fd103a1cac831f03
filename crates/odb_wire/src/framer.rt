//! The framer: pieces of a stream go in, and messages come out. [P 7.1]
ghost use Rattle.std.specs.Prelude.{◌≡◌, [], map, All, IfOk, IfSome, OnErr, None};
ghost use Rattle.std.specs.List.{flat_map};
ghost use Rattle.odb_wire.specs.Stream.{max_message, messages};
ghost use Rattle.odb_wire.specs.Feeding.{fault_of, Adds, StaysAt};
ghost use Rattle.odb_wire.specs.Shown.{message_data, IsOfItsKind};

use crate::fault::WireFault;
use crate::history::FedBytes;
use crate::message::Message;
use crate::split::{Step, StreamState};
use std::alloc::{AllocError, Global};
use std::marker::Model;
use std::mem;

/// The most bytes of one message, where nobody asks for another limit.
pub const MAX_MESSAGE: usize = 16_777_216;

/// Takes a stream of messages in, piece by piece, and returns each message once it is whole.
/// Contracts see a framer as its limit and the list of all bytes that it has taken in, so each call's promise is
/// about the whole stream so far, and it doesn't matter how the stream was cut.
///
/// The limit is the most bytes of one message, from its first brace to its last: a message of exactly as many is taken,
/// and one that has no end in them is a fault, `WireFault::TooLong`. An object has two bytes or more, so at a limit of 0
/// or 1 each is too long. The limit is of this framer alone, and stays what it was when the framer was made.
///
/// It keeps the text of the message that isn't whole yet, which is shorter than the limit, and nothing between messages.
pub struct Framer {
    alloc: Global,
    most: usize,
    state: StreamState,
    history: FedBytes,
}

impl Model for Framer {
    ghost use Rattle.odb_wire.specs.Framed.{Framed, framed_code};
    ghost use Rattle.odb_wire.specs.Standing.{Follows};

    ghost Value = { Framed };

    ghost coded = { framed_code };

    ghost view = { λ f. record { most = f.most; bytes = f.history.bytes } };

    ghost invariant = { λ f. Follows f.most f.history.bytes f.state };
}

/// What a piece of a stream completed: the messages that it made whole, and the fault that the stream stands at after
/// them, if it does.
#[derive(Drop)]
pub struct Fed {
    pub messages: Vec<Message>,
    pub fault: Option<WireFault>,
}

impl Framer {
    /// Makes a framer that has taken in nothing, and takes messages of at most `most` bytes.
    pub fn new(alloc: Global, most: usize) -> Framer
        ensures { result ≡ record { most = most; bytes = [] } }
    {
        Framer {
            alloc,
            most,
            state: StreamState::between(alloc),
            history: FedBytes::new(),
        }
    }

    /// Makes a framer that has taken in nothing, and takes messages of at most `MAX_MESSAGE` bytes.
    pub fn with_default_limit(alloc: Global) -> Framer
        ensures { result ≡ record { most = max_message; bytes = [] } }
    {
        Framer::new(alloc, MAX_MESSAGE)
    }

    /// Takes the next piece in, and returns the messages that are whole with it, and the fault that the stream stands
    /// at after them, if it does; from then on each call returns that fault, and no message. Where memory is refused
    /// nothing was taken in, and the same piece can be fed again.
    ///
    /// Each byte is looked at once to find where messages end, and each message is read once, so a call costs what its
    /// piece and the messages that it makes whole are long. What an unfinished message grows into is given back with
    /// the message: after it only the bytes that follow it are kept, in a buffer of their own.
    pub fn feed(&mut self, piece: &[u8]) -> Result<Fed, AllocError>
        ensures limit { self.new.most ≡ self.old.most }
        ensures ok { IfOk result (λ fed. Adds self.old.most self.old.bytes piece.now self.new.bytes
            (map message_data fed.messages.items)) }
        ensures kinds { IfOk result (λ fed. All IsOfItsKind fed.messages.items) }
        ensures fault { IfOk result (λ fed. fed.fault ≡ fault_of (messages self.new.most self.new.bytes).1) }
        ensures err { OnErr result (self.new ≡ self.old) }
        ensures for_good { IfSome (fault_of (messages self.old.most self.old.bytes).1) (StaysAt result) }
    {
        let state = mem::replace(&mut self.state, StreamState::between(self.alloc));
        match state.advance(self.alloc, self.most, piece) {
            Ok(Step { messages, state }) => {
                let fault = state.fault();
                self.state = state;
                self.history.add(piece);
                Ok(Fed { messages, fault })
            }
            Err(state) => {
                self.state = state;
                Err(AllocError)
            }
        }
    }
}

/// Reads the messages of a stream that comes in these pieces, each of at most `most` bytes, and the fault that it stands
/// at after them. They are those of the pieces joined together: two ways to cut one stream give the same.
pub fn read_pieces(alloc: Global, most: usize, pieces: &[&[u8]]) -> Result<Fed, AllocError>
    ensures messages { IfOk result (λ read. map message_data read.messages.items
        ≡ (messages most (flat_map (λ piece. piece.now) pieces.now)).0) }
    ensures kinds { IfOk result (λ read. All IsOfItsKind read.messages.items) }
    ensures fault { IfOk result (λ read. read.fault
        ≡ fault_of (messages most (flat_map (λ piece. piece.now) pieces.now)).1) }
{
    let mut framer = Framer::new(alloc, most);
    let mut messages = Vec::new(alloc);
    let mut fault = None;
    for piece in pieces {
        let mut fed = framer.feed(*piece)?;
        messages.append(&mut fed.messages)?;
        fault = fed.fault;
    }
    Ok(Fed { messages, fault })
}

// Written, and not derived, so that each end of a scope is one call to prove.
impl Drop for Framer {
    fn drop(self) {
        let Framer {
            alloc: _,
            most: _,
            state: _,
            history: _,
        } = self;
    }
}
