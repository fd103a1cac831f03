//! Why an operation, or a part of one, isn't read.

use std::alloc::{AllocError, AllocFailed};
use thiserror::Error;

/// Why an operation, or a part of one, isn't read (RFC 7047, section 5.2): the first fault in the
/// order of the reading.
#[derive(Clone, Copy, Debug, Error)]
pub enum OpFault {
    /// Memory was refused.
    #[error("out of memory")]
    Memory,
    /// The operation fails, with this error.
    #[error("{0}")]
    Failed(odb_atoms::Error),
}

impl From<AllocError> for OpFault {
    ghost use Rattle.std.specs.Prelude.{◌≡◌};
    ghost use Rattle.odb_json.specs.declared.fault.OpFault.TheVariants.{Memory};

    ghost from_gives = { λ _ e. e ≡ Memory };

    fn from(_refused: AllocError) -> OpFault {
        OpFault::Memory
    }
}

impl<T: Drop> From<AllocFailed<T>> for OpFault {
    ghost use Rattle.std.specs.Prelude.{◌≡◌};
    ghost use Rattle.odb_json.specs.declared.fault.OpFault.TheVariants.{Memory};

    ghost from_gives = { λ _ e. e ≡ Memory };

    fn from(_refused: AllocFailed<T>) -> OpFault {
        OpFault::Memory
    }
}
