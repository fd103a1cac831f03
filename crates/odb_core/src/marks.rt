//! Tables that are known to be as they were, while changes are put over a database.

ghost use Rattle.std.specs.Prelude.{◌≡◌, ◌<◌, ℕ, true, length};
ghost use Rattle.odb_atoms.specs.FinMap as finite;
ghost use Rattle.odb_core.specs.Marked as marked;
ghost use Rattle.odb_core.specs.Marked.{AreLeft};

use odb_schema::TableId;
use odb_tables::{ChangeSet, TableChange};

/// Returns whether the table is marked. O(1).
pub(crate) fn is_marked(marks: &[bool], table: TableId) -> bool
    ensures { result ≡ marked.is_marked marks.now table }
{
    match marks.get(table.place()) {
        Some(mark) => *mark,
        None => false,
    }
}

/// Unmarks each table of which the change has a row. O(tables).
pub(crate) fn unmark(marks: &mut Vec<bool>, change: &ChangeSet)
    ensures { AreLeft marks.old.items marks.new.items change.now }
{
    for place in 0..marks.len() {
        unmark_at(marks, place, change.tables());
    }
}

/// Unmarks the table at the place, if the change has a row of it.
fn unmark_at(marks: &mut Vec<bool>, place: usize, changes: &[TableChange])
    requires { place < length marks.old.items }
    ensures left { (t : ℕ) → marked.is_marked marks.new.items t ≡ true → (marked.is_marked marks.old.items t ≡ true)
        × (t ≡ place → marked.change_at changes.now t ≡ finite.empty) }
    ensures as_many { length marks.new.items ≡ length marks.old.items }
{
    let Some(change) = changes.get(place) else {
        return;
    };
    if change.is_empty() {
        return;
    }
    marks[place] = false;
}
