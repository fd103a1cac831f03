//! The right to submit for a session.
ghost use Rattle.std.specs.Prelude.{◌≡◌};

use odb_core::SessionId;
use std::marker::Model;
use std::sync::ledger::{Ledger, Share};

/// The right to submit for a session, and how many submits it was answered. It can't be copied or dropped:
/// `Counted::leave` takes it.
pub struct Seat<L: Ledger> {
    pub(crate) session: SessionId,
    pub(crate) share: Share<L>,
}

impl<L: Ledger> Model for Seat<L> {
    ghost use Rattle.std.specs.Prelude.{◌<◌};
    ghost use Rattle.odb_hub.specs.Counted as model;

    ghost Value = { model.Seat };

    ghost coded = { model.seat_code };

    ghost view = { λ s. record { session = s.session; answered = s.share.amount } };

    ghost invariant = { λ s. 0 < s.share.parts };
}

impl<L: Ledger> Seat<L> {
    /// Returns the session.
    pub fn session(&self) -> SessionId
        ensures { result ≡ self.now.session }
    {
        self.session
    }
}
