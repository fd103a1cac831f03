//! What clients were told, as it is kept: marks, and the chains that keep what they stand for. [P 10.1, 10.3]
ghost use Rattle.std.specs.Prelude.{◌≡◌, IfOk, map};
ghost use Rattle.odb_chain.specs.Marks.{AreAllMarks};
ghost use Rattle.odb_sessions.specs.Tied.{IsTied, all_marks};

use crate::numbered::Numbered;
use odb_chain::{Chains, Mark};
use std::alloc::{AllocError, Global};
use std::marker::Model;

/// What clients were told, as it is kept: of each table of a monitor a mark, and the chains that keep what marks stand for.
/// The chains count these marks and no others.
#[derive(Drop)]
pub struct ToldMarks<'a> {
    chains: &'a Chains,
    sessions: &'a Numbered,
}

impl<'a> Model for ToldMarks<'a> {
    ghost use Rattle.odb_chain.specs.Marks.{AreAllMarks};
    ghost use Rattle.odb_sessions.specs.Represented.Codes.{told_code};
    ghost use Rattle.odb_sessions.specs.Tied.{all_marks};
    ghost use Rattle.odb_sessions.specs.Told as model;

    ghost Value = { model.ToldMarks };

    ghost coded = { told_code };

    ghost view = { λ t. record { chains = t.chains.now; sessions = t.sessions.now } };

    ghost invariant = { λ t. AreAllMarks t.chains.now (all_marks t.sessions.now) };
}

impl<'a> ToldMarks<'a> {
    /// Lends the chains, and the sessions whose marks they count. O(1).
    pub(crate) fn new(chains: &'a Chains, sessions: &'a Numbered) -> ToldMarks<'a>
        requires { IsTied chains.now sessions.now }
        ensures { result ≡ record { chains = chains.now; sessions = sessions.now } }
    {
        ToldMarks { chains, sessions }
    }

    /// Returns the database with its past: what marks stand for. O(1).
    pub fn chains(&self) -> &'a Chains
        ensures { result.now ≡ self.now.chains }
    {
        self.chains
    }

    /// Returns the sessions whose marks these are. O(1).
    pub fn sessions(&self) -> &'a Numbered
        ensures { result.now ≡ self.now.sessions }
    {
        self.sessions
    }

    /// Lends the marks of all monitors, in the order of their sessions' numbers, those of monitors whose first reply is due
    /// among them: each is live, and the chains count no other. O(n) for n marks and sessions.
    pub fn marks(&self, alloc: Global) -> Result<Vec<&'a Mark>, AllocError>
        ensures marks { IfOk result (λ marks. map (λ m. m.now) marks.items ≡ all_marks self.now.sessions) }
        ensures all { IfOk result (λ marks. AreAllMarks self.now.chains (map (λ m. m.now) marks.items)) }
    {
        let sessions = self.sessions;
        sessions.marks(alloc)
    }
}
