//! Why a script stops.
use thiserror::Error;

/// Why a script isn't run to its end.
#[derive(Clone, Copy, Debug, Drop, PartialEq, Eq, Error)]
pub enum RunFault {
    /// The line of this number, from 1, is no command. The lines before it were carried out, and what they print was
    /// written.
    #[error("line {0}: bad command")]
    BadCommand(u64),
    /// Memory was refused, or the input has 2^64 lines.
    #[error("out of memory")]
    Memory,
    /// The input can't be read on.
    #[error("read failed")]
    Read,
    /// The output can't be written on.
    #[error("write failed")]
    Write,
}
