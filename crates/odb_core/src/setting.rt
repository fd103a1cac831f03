//! What transactions are tried with. [P 6.3, 12.1]

ghost use Rattle.std.specs.Prelude.{◌≡◌, None, IfOk, IfSome, map};
ghost use Rattle.odb_atoms.specs.Represented.Atom.{uuid_of};
ghost use Rattle.odb_commit.specs.Represented.Outcome.{Answers};
ghost use Rattle.odb_commit.specs.Sound.{IsSound};
ghost use Rattle.odb_core.specs.Causes.{FailsWith};
ghost use Rattle.odb_core.specs.Represented.Waiting.{outcome_with, waiting_as};
ghost use Rattle.odb_tables.specs.Draft.{draft_of};

use crate::submitted::Submitted;
use odb_cause::{Cause, explain};
use odb_commit::{Outcome, transact};
use odb_locks::Locks;
use odb_ops::Context;
use odb_schema::Schema;
use odb_tables::Draft;
use std::alloc::{AllocError, Global};

/// The rows that a database may have.
pub(crate) const MAX_ROWS: usize = 1_000_000;

/// What transactions are tried with: the schema, the locks and the moment, in milliseconds.
#[derive(Clone, Copy)]
pub(crate) struct TransactionSetting<'a> {
    pub(crate) alloc: Global,
    pub(crate) schema: &'a Schema,
    pub(crate) locks: &'a Locks,
    pub(crate) now: u64,
}

impl TransactionSetting<'_> {
    /// Returns what a transaction comes to on the database of the draft, in which nothing is changed yet, after so many
    /// commits.
    pub(crate) fn outcome(
        &self,
        draft: Draft<'_>,
        asked: &Submitted,
        commits: u64,
    ) -> Result<Outcome, AllocError>
        requires fresh { draft ≡ draft_of draft.old }
        requires sound { IsSound self.now.schema.now draft.old }
        ensures { IfOk result (λ outcome. Answers self.entry.now.schema.now draft.entry.old outcome
            (outcome_with self.entry.now.schema.now self.entry.now.locks.now self.entry.now.now commits draft.entry.old asked.now)) }
    {
        let owned = self.locks.owned(self.alloc, asked.session)?;
        let context = Context {
            fresh: asked.fresh.as_slice(),
            arrival: asked.arrival,
            now: self.now,
            owned: owned.as_slice(),
        };
        let number = commits.checked_add(1).ok_or(AllocError)?;
        transact(
            self.alloc,
            draft,
            self.schema,
            asked.operations(),
            number,
            MAX_ROWS,
            &context,
        )
    }

    /// Returns why a transaction fails on the database of the draft, in which nothing is changed yet; nothing where it goes
    /// through or waits.
    pub(crate) fn cause(
        &self,
        draft: Draft<'_>,
        asked: &Submitted,
    ) -> Result<Option<Cause>, AllocError>
        requires fresh { draft ≡ draft_of draft.old }
        requires sound { IsSound self.now.schema.now draft.old }
        ensures { IfOk result (λ cause. IfSome cause
            (FailsWith self.entry.now.schema.now self.entry.now.locks.now self.entry.now.now draft.entry.old (waiting_as asked.now None 0))) }
    {
        let (session, arrival) = (asked.session, asked.arrival);
        let owned = self.locks.owned(self.alloc, session)?;
        let context = Context {
            fresh: asked.fresh.as_slice(),
            arrival,
            now: self.now,
            owned: owned.as_slice(),
        };
        explain(
            self.alloc,
            draft,
            self.schema,
            asked.operations(),
            MAX_ROWS,
            &context,
        )
    }
}
