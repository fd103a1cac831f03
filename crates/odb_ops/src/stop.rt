//! Why an operation doesn't go through.

use odb_atoms::Error;
use odb_json::OpFault;
use std::alloc::AllocError;

/// Why an operation doesn't go through.
#[derive(Clone, Copy)]
pub enum Stop {
    /// Memory was refused.
    Memory,
    /// It fails, with this error.
    Fails(Error),
    /// It is a `wait` that isn't met, and has time until this moment, in milliseconds, or for ever.
    MustWait(Option<u64>),
}

impl From<AllocError> for Stop {
    ghost use Rattle.std.specs.Prelude.{◌≡◌};
    ghost use Rattle.odb_ops.specs.declared.stop.Stop.TheVariants.{Memory};

    ghost from_gives = { λ _ s. s ≡ Memory };

    fn from(_refused: AllocError) -> Stop {
        Stop::Memory
    }
}

impl From<OpFault> for Stop {
    ghost use Rattle.odb_ops.specs.Represented.Stop.{IsOfFault};

    ghost from_gives = { λ f s. IsOfFault f s };

    fn from(fault: OpFault) -> Stop {
        match fault {
            OpFault::Memory => Stop::Memory,
            OpFault::Failed(error) => Stop::Fails(error),
        }
    }
}
