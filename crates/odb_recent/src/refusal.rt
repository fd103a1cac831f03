//! Why a commit can't be kept.
ghost use Rattle.std.specs.Prelude.{◌≡◌};
ghost use Rattle.odb_recent.specs.declared.refusal.Refusal.TheVariants.{Memory};

use std::alloc::AllocError;
use thiserror::Error;

/// Why [`Recent::prepare`](crate::Recent::prepare) gave nothing.
#[derive(Clone, Copy, Debug, Error)]
pub enum Refusal {
    /// Memory was refused.
    #[error("out of memory")]
    Memory,
    /// There were 2^64 - 1 commits, and no number is left for another one.
    #[error("too many commits")]
    TooMany,
}

impl From<AllocError> for Refusal {
    ghost from_gives = { λ _ refusal. refusal ≡ Memory };

    fn from(_refused: AllocError) -> Refusal {
        Refusal::Memory
    }
}
