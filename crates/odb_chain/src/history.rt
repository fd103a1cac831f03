//! What one row was.
ghost use Rattle.std.specs.Prelude.{◌≡◌, ◌⊎◌, ℕ, ◌+◌, ◌*◌, ◌<◌, ◌≤◌, length, true, false, [], ◌∷◌, nat_eq, nat_le, ◌||◌, vec_capacity, vec_len, IfOk, OnOk, Option};
ghost use Rattle.std.specs.Option.{option_copied};
ghost use Rattle.odb_atoms.specs.Row as model_row;
ghost use Rattle.odb_chain.specs.OldRows.{at, reaches};
ghost use Rattle.odb_chain.specs.Represented.Log.{passes};
ghost use Rattle.odb_chain.specs.Represented.MarkedVersions.{Past, cleaned, is_kept, is_label};
ghost use Rattle.odb_tables.specs.Represented.Overlay.{row_of};

use crate::marked_versions::MarkedVersions;
use odb_atoms::Row;
use std::alloc::{AllocError, Global};
use std::marker::Model;
use std::sync::Arc;

/// What a row was up to a version of its table, or that there was none.
#[derive(Drop)]
pub(crate) struct Old {
    pub(crate) version: u64,
    pub(crate) row: Option<Arc<Row>>,
}

impl Model for Old {
    ghost use Rattle.std.specs.Prelude.{ℕ, Option};
    ghost use Rattle.odb_atoms.specs.Row.{Row};
    ghost use Rattle.odb_tables.specs.Represented.Overlay.{row_of};
    ghost use Rattle.odb_chain.specs.Represented.Codes.{old_code};

    ghost Value = { ℕ × Option Row };

    ghost coded = { old_code };

    ghost view = { λ o. (o.version, row_of o.row) };
}

/// What a row was, the earliest first, each up to its version. The first lies here itself, so that one old row, which
/// is what most rows have, takes no memory. Once there are as many as the limit it is looked whether each is needed, at
/// O(log n) each for n marked versions; the limit is then twice those that are left. So a push costs O(log n) for this
/// on the average.
pub(crate) struct History {
    first: Old,
    more: Vec<Old>,
    latest: u64,
    limit: usize,
}

impl Model for History {
    ghost use Rattle.std.specs.Prelude.{◌∷◌};
    ghost use Rattle.odb_chain.specs.OldRows as model;
    ghost use Rattle.odb_chain.specs.Represented.Codes.{history_code};
    ghost use Rattle.odb_chain.specs.Represented.Log.{IsLast};

    ghost Value = { model.History };

    ghost coded = { history_code };

    ghost view = { λ h. h.first ∷ h.more.items };

    ghost invariant = { λ h. IsLast h.latest (h.first ∷ h.more.items) };
}

impl History {
    /// Makes a history of one old row. O(1); it takes no memory.
    pub(crate) fn of(alloc: Global, old: Old) -> History
        ensures { result ≡ old ∷ [] }
    {
        History {
            latest: old.version,
            first: old,
            more: Vec::new(alloc),
            limit: 4,
        }
    }

    /// Returns whether it is kept what the row was at the version. O(1).
    pub(crate) fn reaches(&self, version: u64) -> bool
        ensures { result ≡ reaches version self.now }
    {
        version <= self.latest
    }

    /// Returns whether it is kept what the row was up to a later version. O(1).
    pub(crate) fn passes(&self, version: u64) -> bool
        ensures { result ≡ passes version self.now }
    {
        version < self.latest
    }

    /// Returns what the row was at the version, where it is this now. O(old rows).
    pub(crate) fn row_at<'a>(
        &'a self,
        version: u64,
        now: Option<&'a Arc<Row>>,
    ) -> Option<&'a Arc<Row>>
        ensures { row_of (option_copied result) ≡ at version (row_of (option_copied now.entry)) self.now }
    {
        if version <= self.first.version {
            return self.first.row.as_ref();
        }
        row_among(&self.more, version, now)
    }

    /// Adds what the row is now, up to the newest marked version. Where memory is refused nothing changed.
    pub(crate) fn push(&mut self, old: Old, live: &MarkedVersions<'_>) -> Result<(), AllocError>
        requires { reaches old.0 self.old ≡ false }
        ensures ok { OnOk result (reaches old.0 self.new ≡ true) }
        ensures same { (p : ℕ) → is_kept old.0 live.now p ≡ true → at p old.1 self.new ≡ at p old.1 self.old }
        ensures past { (v : ℕ) → nat_le old.0 v ≡ true → Past v old.1 self.old → Past v old.1 self.new }
        ensures labels { (q : ℕ) → is_label q self.new ≡ true → (is_label q self.old || nat_eq q old.0) ≡ true }
    {
        self.more.reserve(1)?;
        tidy(&mut self.more, &mut self.limit, live);
        self.latest = old.version;
        self.more.push_reserved(old);
        Ok(())
    }
}

/// Returns what the row was at the version by these, where it is this now.
fn row_among<'a>(olds: &'a [Old], version: u64, now: Option<&'a Arc<Row>>) -> Option<&'a Arc<Row>>
    ensures { row_of (option_copied result) ≡ at version (row_of (option_copied now.entry)) olds.now }
{
    for old in olds {
        if version <= old.version {
            return old.row.as_ref();
        }
    }
    now
}

/// Leaves out what no marked version needs, once there is as much as the limit.
fn tidy(olds: &mut Vec<Old>, limit: &mut usize, live: &MarkedVersions<'_>)
    ensures same { (n p : ℕ) (r : Option model_row.Row) → reaches n olds.old.items ≡ false → is_kept n live.now p ≡ true → at p r olds.new.items ≡ at p r olds.old.items }
    ensures past { (v : ℕ) (r : Option model_row.Row) → Past v r olds.old.items → Past v r olds.new.items }
    ensures labels { (q : ℕ) → is_label q olds.new.items ≡ true → is_label q olds.old.items ≡ true }
    ensures bound { vec_len olds.new ≤ vec_len olds.old }
    ensures capacity { vec_capacity olds.new ≡ vec_capacity olds.old }
    ensures tidied { (length olds.old.items < limit.old) ⊎ (olds.new.items ≡ cleaned live.now olds.old.items) }
    ensures limit { (limit.new ≡ limit.old) ⊎ (limit.new ≤ 2 * length olds.new.items + 2) }
{
    if olds.len() < *limit {
        return;
    }
    clean(olds, live);
    *limit = twice(olds.len());
}

/// Leaves out what no marked version needs: where two old rows have none between them, the later one. O(log n) each for
/// n of them.
fn clean(olds: &mut Vec<Old>, live: &MarkedVersions<'_>)
    ensures olds { olds.new.items ≡ cleaned live.now olds.old.items }
    ensures bound { vec_len olds.new ≤ vec_len olds.old }
    ensures capacity { vec_capacity olds.new ≡ vec_capacity olds.old }
{
    olds.dedup_by(|later, earlier| !live.is_between(earlier.version, later.version));
}

// Written, and not derived, so that each end of a scope is one call to prove.
impl Drop for History {
    fn drop(self) {
        let History {
            first: _,
            more: _,
            latest: _,
            limit: _,
        } = self;
    }
}

/// Returns twice the number and two more, or the greatest number.
fn twice(number: usize) -> usize
    ensures { result ≤ 2 * number + 2 }
{
    if number < usize::MAX / 2 {
        number * 2 + 2
    } else {
        usize::MAX
    }
}

/// Returns the same row once more.
pub(crate) fn share(row: Option<&Arc<Row>>) -> Result<Option<Arc<Row>>, AllocError>
    ensures { IfOk result (λ shared. row_of shared ≡ row_of (option_copied row.entry)) }
{
    match row {
        Some(row) => Ok(Some(row.clone()?)),
        None => Ok(None),
    }
}
