//! Why the program ends with status 1. [P 15.1, 15.2]

use odb_schema::SchemaFault;
use odb_script::RunFault;
use std::alloc::AllocError;
use std::io;
use thiserror::Error as ErrorText;

/// Which of the databases that are served.
#[derive(Clone, Copy, Debug)]
pub(crate) enum Which {
    First,
    Second,
}

/// Why the program ends with status 1.
#[derive(Debug, ErrorText)]
pub(crate) enum ProgramFault {
    /// The file of a schema can't be read.
    #[error("schema: cannot read")]
    SchemaUnread(Which, io::Error),
    /// The file holds no schema; the fault's number is 1 to 7.
    #[error("schema: fault {}", .1.number())]
    Schema(Which, SchemaFault),
    /// Both databases have one name.
    #[error("schema: the name of another database")]
    SameName,
    /// The file of messages can't be read.
    #[error("load: cannot read")]
    LoadUnread(io::Error),
    /// The message of this number, from 1, of the file of messages didn't go through.
    #[error("load: message {0}: {1}")]
    Load(u64, LoadFault),
    /// The address can't be listened on.
    #[error("cannot listen")]
    NotListening(io::Error),
    /// The script wasn't run to its end, or the daemon ended.
    #[error("{0}")]
    Run(RunFault),
}

/// Why a message of a file didn't go through.
#[derive(Debug, ErrorText)]
pub(crate) enum LoadFault {
    /// The file ends in the middle of it.
    #[error("the file ends in its midst")]
    Cut,
    /// It has more bytes than a message may have.
    #[error("it is longer than a message may be (--max-message)")]
    TooLong,
    /// It isn't JSON, or no message.
    #[error("it is no message")]
    Malformed,
    /// It is a notification or a response, to which no reply comes.
    #[error("it is no request")]
    NoRequest,
    /// There is no reply to it yet: it waits.
    #[error("it waits")]
    Waits,
    /// The reply has this error.
    #[error("{0}")]
    Refused(String),
}

impl From<AllocError> for ProgramFault {
    ghost use Rattle.std.specs.Prelude.{◌≡◌};
    ghost use Rattle.odb_script.specs.declared.fault.RunFault.TheVariants as run;
    ghost use Rattle.ovsdbd.specs.declared.fault.ProgramFault.TheVariants as fault;

    ghost from_gives = { λ _ e. e ≡ fault.Run run.Memory };

    fn from(_refused: AllocError) -> ProgramFault {
        ProgramFault::Run(RunFault::Memory)
    }
}

// Written, and not derived, so that each end of a scope is one call to prove.
impl Drop for ProgramFault {
    fn drop(self) {
        match self {
            ProgramFault::SchemaUnread(_, _) => {}
            ProgramFault::Schema(_, _) => {}
            ProgramFault::SameName => {}
            ProgramFault::LoadUnread(_) => {}
            ProgramFault::Load(_, _) => {}
            ProgramFault::NotListening(_) => {}
            ProgramFault::Run(_) => {}
        }
    }
}

// Written, and not derived, so that each end of a scope is one call to prove.
impl Drop for LoadFault {
    fn drop(self) {
        match self {
            LoadFault::Cut => {}
            LoadFault::TooLong => {}
            LoadFault::Malformed => {}
            LoadFault::NoRequest => {}
            LoadFault::Waits => {}
            LoadFault::Refused(_) => {}
        }
    }
}
