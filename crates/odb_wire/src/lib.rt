//! Streams of JSON-RPC messages (RFC 7047, section 4): framing, requests, notifications and
//! responses.
//!
//! A stream is a row of JSON objects with blanks between them. `specs/Stream.antt` says which messages a list of bytes
//! has and how it ends, and `specs/Message.antt` what a request, a notification and a response are. A `Framer` takes a
//! stream in by pieces.
//!
//! Where memory is refused a call returns `AllocError`, and what it was given is as it was, unless its own page says
//! otherwise. A call whose result has no such error takes no memory.
#![tactic(auto)]

mod fault;
mod framer;
mod history;
mod left_out;
mod message;
mod scan;
mod split;

pub use fault::WireFault;
pub use framer::{Fed, Framer, MAX_MESSAGE, read_pieces};
pub use left_out::has_left_out_number;
pub use message::{Message, Request, Response};
