//! Transactions that failed, which can be asked for their causes. [P 15.2]

ghost use Rattle.std.specs.Prelude.{◌≡◌};

use crate::waiting::Waiting;
use odb_locks::SessionId;
use std::marker::Model;

/// A transaction that failed, as it was submitted. Contracts see it as one that waits.
#[derive(Drop)]
pub struct Failed {
    pub(crate) transaction: Waiting,
}

impl Model for Failed {
    ghost use Rattle.odb_service.specs.World as model;
    ghost use Rattle.odb_service.specs.WorldCode.{waiting_code};

    ghost Value = { model.Waiting };

    ghost coded = { waiting_code };

    ghost view = { λ f. f.transaction };
}

impl Failed {
    /// Makes that of this transaction. O(1).
    pub(crate) fn new(transaction: Waiting) -> Failed
        ensures { result ≡ transaction }
    {
        Failed { transaction }
    }

    /// Returns the session that asked for it. O(1).
    pub fn session(&self) -> SessionId
        ensures { result ≡ self.now.session }
    {
        self.transaction.submitted().session
    }
}
