//! The versions of one table that have marks, and its old rows.
ghost use Rattle.std.specs.Prelude.{◌≡◌, ◌||◌, ℕ, ◌+◌, ◌-◌, ◌^◌, ◌<◌, [], ◌∷◌, true, length, nat_eq, nat_le, slice_get, option_map, Some, IfNone, IfOk, IfSome, OnOk};
ghost use Rattle.std.specs.List.{position};
ghost use Rattle.odb_atoms.specs.FinMap as finite;
ghost use Rattle.odb_atoms.specs.Uuid as model_uuid;
ghost use Rattle.odb_chain.specs.OldRows.{content_at};
ghost use Rattle.odb_chain.specs.Represented.Chain.{AreRising, HasForgotten, IsChainOf, IsForgotten, IsOf, IsReadyFor, StandsAsBefore, earliest, fewer, here, is_roomy, marked_versions, nothing_kept};
ghost use Rattle.odb_chain.specs.Represented.MarkedVersions.{has_label, is_kept, is_marked};
ghost use Rattle.odb_tables.specs.Change.{change};
ghost use Rattle.odb_tables.specs.Database as model_tables;

use crate::marked_versions::{MarkedVersion, MarkedVersions};
use crate::old_rows::OldRows;
use odb_tables::{Table, TableChange};
use std::alloc::{AllocError, Global};
use std::hash::RandomState;
use std::marker::Model;

/// How many changes the table had, which is its version, which versions before that have marks, how many marks
/// stand for what the table is now, and what rows were.
pub(crate) struct Chain {
    version: u64,
    live: Vec<MarkedVersion>,
    fresh: usize,
    old_rows: OldRows,
}

impl Model for Chain {
    ghost use Rattle.std.specs.Prelude.{nat_lt, vec_capacity, vec_len};
    ghost use Rattle.odb_chain.specs.Represented.Chain as model;
    ghost use Rattle.odb_chain.specs.Represented.Chain.{AreRising};
    ghost use Rattle.odb_chain.specs.Represented.Codes.{chain_code};

    ghost Value = { model.Chain };

    ghost coded = { chain_code };

    ghost view = { λ c. record {
      version = c.version;
      live = c.live.items;
      fresh = c.fresh;
      rows = c.old_rows.rows;
      log = c.old_rows.log;
      room = nat_lt (vec_len c.live) (vec_capacity c.live);
    } };

    ghost invariant = { λ c. AreRising c.version c.live.items };
}

impl Chain {
    /// Makes a chain of which no change was made, without marks and old rows.
    pub(crate) fn new(alloc: Global, hashing: RandomState) -> Chain
        ensures { result ≡ nothing_kept }
    {
        Chain {
            version: 0,
            live: Vec::new(alloc),
            fresh: 0,
            old_rows: OldRows::new(alloc, hashing),
        }
    }

    /// Returns how many changes the table had.
    #[inline(always)]
    pub(crate) fn version(&self) -> u64
        ensures { result ≡ self.now.version }
    {
        self.version
    }

    /// Returns how many versions have marks.
    pub(crate) fn len(&self) -> usize
        ensures { result ≡ length (marked_versions self.now) }
    {
        if self.fresh > 0 {
            self.live.len() + 1
        } else {
            self.live.len()
        }
    }

    /// Returns how many of them are before the version that the table has now.
    pub(crate) fn earlier(&self) -> usize
        ensures { result ≡ length self.now.live }
    {
        self.live.len()
    }

    /// Counts one mark more for what the table is now.
    pub(crate) fn mark(&mut self)
        requires { self.old.fresh + 1 < 2 ^ 64 }
        ensures { self.new ≡ record (self.old) { fresh = self.old.fresh + 1 } }
    {
        self.fresh += 1;
    }

    /// Counts one mark less at the version. Where that was the earliest one with marks and has none left, all entries
    /// of the log before the next one go, with the old rows of rows that didn't change since it; after the last one
    /// all goes.
    pub(crate) fn release(&mut self, version: u64)
        requires { is_marked version (marked_versions self.old) ≡ true }
        ensures version { self.new.version ≡ self.old.version }
        ensures marked_versions { marked_versions self.new ≡ fewer version (marked_versions self.old) }
        ensures contents { (t : model_tables.Table) (p : ℕ) → is_marked p (marked_versions self.new) ≡ true → content_at p t self.new.rows ≡ content_at p t self.old.rows }
        ensures past { (t : model_tables.Table) → IsChainOf t self.old → IsChainOf t self.new }
        ensures rising { AreRising self.new.version self.new.live }
        ensures forgotten { HasForgotten self.old self.new }
    {
        let oldest = self.oldest();
        self.take(version);
        if self.oldest() != oldest {
            self.forget();
        }
    }

    fn take(&mut self, version: u64)
        requires { is_marked version (marked_versions self.old) ≡ true }
        ensures version { self.new.version ≡ self.old.version }
        ensures marked_versions { marked_versions self.new ≡ fewer version (marked_versions self.old) }
        ensures rows { self.new.rows ≡ self.old.rows }
        ensures log { self.new.log ≡ self.old.log }
        ensures rising { AreRising self.new.version self.new.live }
    {
        if version == self.version {
            self.fresh -= 1;
        } else {
            take_in(&mut self.live, version);
        }
    }

    /// Leaves out what rows were that no marked version needs.
    fn forget(&mut self)
        ensures version { self.new.version ≡ self.old.version }
        ensures marked_versions { marked_versions self.new ≡ marked_versions self.old }
        ensures contents { (t : model_tables.Table) (p : ℕ) → is_marked p (marked_versions self.old) ≡ true → content_at p t self.new.rows ≡ content_at p t self.old.rows }
        ensures past { (t : model_tables.Table) → IsChainOf t self.old → IsChainOf t self.new }
        ensures rising { AreRising self.new.version self.new.live }
        ensures forgotten { IsForgotten (earliest (marked_versions self.new)) self.new.rows self.new.log }
    {
        match self.oldest() {
            Some(version) => self.old_rows.forget_before(version),
            None => self.old_rows.clear(),
        }
    }

    /// Returns the earliest marked version.
    fn oldest(&self) -> Option<u64>
        ensures none { IfNone result (marked_versions self.now ≡ []) }
        ensures some { IfSome result (λ oldest. (p : ℕ) → is_marked p (marked_versions self.now) ≡ true → nat_le oldest p ≡ true) }
        ensures earliest { result ≡ earliest (marked_versions self.now) }
    {
        match self.live.first() {
            Some(live) => Some(live.version),
            None => self.here(),
        }
    }

    /// Returns the latest marked version.
    fn newest(&self) -> Option<u64>
        ensures none { IfNone result (marked_versions self.now ≡ []) }
        ensures some { IfSome result (λ newest. (p : ℕ) → is_marked p (marked_versions self.now) ≡ true → (nat_le p newest ≡ true) × (is_kept newest self.now.live p ≡ true)) }
        ensures past { IfSome result (λ newest. nat_le newest self.now.version ≡ true) }
        ensures marked { IfSome result (λ newest. is_marked newest (marked_versions self.now) ≡ true) }
    {
        match self.here() {
            Some(version) => Some(version),
            None => last_version(self.live.as_slice()),
        }
    }

    /// Returns the version that the table has now, where marks stand for that.
    fn here(&self) -> Option<u64>
        ensures none { IfNone result (self.now.fresh ≡ 0) }
        ensures some { IfSome result (λ version. (version ≡ self.now.version) × (0 < self.now.fresh)) }
    {
        if self.fresh > 0 {
            Some(self.version)
        } else {
            None
        }
    }

    /// Makes ready for a change of the table: records what the rows that it names are now, up to a marked version,
    /// and finds room for one marked version more. Where memory is refused, all marks stand for what they did.
    /// O(rows changed).
    pub(crate) fn prepare(&mut self, change: &TableChange) -> Result<(), AllocError>
        ensures ok { OnOk result (IsReadyFor change.now self.new) }
        ensures stands { (t : model_tables.Table) → IsOf t change.now → StandsAsBefore t self.old self.new }
        ensures labels { (q : ℕ) (u : model_uuid.Uuid) → has_label q (finite.get self.new.rows u) ≡ true → (has_label q (finite.get self.old.rows u) || is_marked q (marked_versions self.old)) ≡ true }
    {
        if change.is_empty() {
            return Ok(());
        }
        self.make_room()?;
        let Some(newest) = self.newest() else {
            return Ok(());
        };
        let marked_versions = MarkedVersions::of(self.live.as_slice());
        self.old_rows.record_all(newest, &marked_versions, change)
    }

    /// Finds room for one marked version more, and sees that the version has a next one.
    fn make_room(&mut self) -> Result<(), AllocError>
        ensures ok { OnOk result ((is_roomy self.new.fresh self.new.room ≡ true) × (self.new.version < 2 ^ 64 - 1)) }
        ensures version { self.new.version ≡ self.old.version }
        ensures live { self.new.live ≡ self.old.live }
        ensures fresh { self.new.fresh ≡ self.old.fresh }
        ensures rows { self.new.rows ≡ self.old.rows }
    {
        if self.version == u64::MAX {
            return Err(AllocError);
        }
        if self.fresh > 0 {
            self.live.reserve(1)?;
        }
        Ok(())
    }

    /// Counts a change that was made.
    pub(crate) fn step(&mut self)
        requires roomy { is_roomy self.old.fresh self.old.room ≡ true }
        requires low { self.old.version < 2 ^ 64 - 1 }
        ensures version { self.new.version ≡ self.old.version + 1 }
        ensures marked_versions { marked_versions self.new ≡ marked_versions self.old }
        ensures rows { self.new.rows ≡ self.old.rows }
        ensures rising { AreRising self.new.version self.new.live }
    {
        if self.fresh == 0 {
            self.version += 1;
            return;
        }
        self.live.push_reserved(MarkedVersion {
            version: self.version,
            marks: self.fresh,
        });
        self.fresh = 0;
        self.version += 1;
    }

    /// Returns what leads from the table at the version to the table now. O(old rows).
    pub(crate) fn since(&self, table: &Table, version: u64) -> Result<TableChange, AllocError>
        ensures { IfOk result (λ made. made ≡ change (content_at version table.now self.now.rows) table.now) }
    {
        self.old_rows.since(table, version)
    }
}

/// Counts one mark less at the version.
fn take_in(live: &mut Vec<MarkedVersion>, version: u64)
    ensures { live.new.items ≡ fewer version live.old.items }
{
    let Some(index) = position(live.as_slice(), version) else {
        return;
    };
    let MarkedVersion { version, marks } = live[index];
    if marks > 1 {
        live[index] = MarkedVersion {
            version,
            marks: marks - 1,
        };
    } else {
        drop(live.remove(index));
    }
}

fn position(live: &[MarkedVersion], version: u64) -> Option<usize>
    ensures { result ≡ position (λ l. nat_eq version l.0) live.now }
{
    live.iter().position(|live| version == live.version)
}

fn last_version(live: &[MarkedVersion]) -> Option<u64>
    ensures none { IfNone result (live.now ≡ []) }
    ensures some { IfSome result (λ version. option_map (λ l. l.0) (slice_get live.now (length live.now - 1)) ≡ Some version) }
{
    let last = live.last()?;
    Some(last.version)
}

// Written, and not derived, so that each end of a scope is one call to prove.
impl Drop for Chain {
    fn drop(self) {
        let Chain {
            version: _,
            live: _,
            fresh: _,
            old_rows: _,
        } = self;
    }
}
