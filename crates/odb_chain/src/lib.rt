//! A database with its past: for each mark, the content of a table for which it stands.
//!
//! Where memory is refused a call returns `AllocError`, and what it was given is as it was,
//! unless its own page says otherwise. A call whose result has no such error takes no memory.
#![tactic(auto)]

ghost use Rattle.odb_chain.specs.Segments.{SegmentsJoin, UndoneToMarks};

mod chain;
mod chains;
mod content;
mod history;
mod log;
mod mark;
mod marked_versions;
mod old_rows;

pub use chains::Chains;
pub use mark::Mark;

/// States what segments are, of all chains: the changes between neighbouring contents that are kept. The call does
/// nothing.
pub fn law()
    // Undoing from now the segments after a mark gives the content for which it stands.
    ensures undone { UndoneToMarks }
    // Where a mark between them goes, two segments become one, whose old rows are those of the first.
    ensures joined { SegmentsJoin }
{}
