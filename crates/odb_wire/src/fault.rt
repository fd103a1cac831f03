//! Why a stream can't be read on.
use thiserror::Error;

/// The fault at which a stream of messages stands. No message comes of it any more.
#[derive(Clone, Copy, Debug, Drop, PartialEq, Eq, Error)]
pub enum WireFault {
    /// A message has no end in as many of its bytes as the limit says.
    #[error("a message is too long")]
    TooLong,
    /// A byte between messages is no blank, or an object is no message: no JSON in UTF-8, nested deeper than 127, with a
    /// number past what is read, or neither a request, a notification nor a response.
    #[error("the stream is no row of messages")]
    BadStream,
}
