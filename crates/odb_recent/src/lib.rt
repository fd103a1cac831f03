//! What the last commits replaced, so that a client can name one of them and be told what changed since.
//!
//! Where memory is refused a call returns `AllocError`, and what it was given is as it was,
//! unless its own page says otherwise. A call whose result has no such error takes no memory.
#![tactic(auto)]

ghost use Rattle.odb_recent.specs.Findable.{ContentsAreFindable, ContentsAreThere, TablesAreThoseOfContents, UndoLeadsBack};

mod merged;
mod old_row;
mod recent;
mod refusal;
mod table_undo;
mod undo;

pub use recent::Recent;
pub use refusal::Refusal;
pub use undo::Undo;

/// States what old rows are good for, and does nothing.
pub fn law()
    // What a change replaced leads back from the database after it to the one before it.
    ensures back { UndoLeadsBack }
    // After a commit the content that it made comes before those that were findable, of which the earliest goes.
    ensures findable { ContentsAreFindable }
    // What `Recent::find` gives is the place of a content that is findable.
    ensures there { ContentsAreThere }
    // What `Recent::since` calls a table that many commits ago is the table of that content.
    ensures tables { TablesAreThoseOfContents }
{}
