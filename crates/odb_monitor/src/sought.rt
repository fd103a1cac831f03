//! The search for the rows on which it rests what is shown of a part.
ghost use Rattle.std.specs.Prelude.{◌≡◌, IfOk};
ghost use Rattle.odb_monitor.specs.Represented.Seeking.{part_sought};

use crate::part::Part;
use crate::search::{Search, look_for};
use crate::walk::Walk;
use std::alloc::{AllocError, Global};

/// A part in which rows are looked for.
pub enum Sought<'a> {
    /// The part, where nothing is to be tested beforehand.
    Known(Part<'a>),
    /// The part, with rows that are to be tested.
    Walked(Walk<'a>),
}

impl<'a> Part<'a> {
    /// Hands the rows of the table out to be tested, where those on which it rests what is shown, beside those that were
    /// changed, aren't found but by a test of each, and that makes at least so many tests of a member of a filter. Else
    /// the part stays as it is.
    ///
    /// It costs what `Filter::difference` does, where another filter was told, what `odb_tables::Rows::is_walked` does,
    /// and O(rows of the table) where these are handed out.
    pub fn seek(self, alloc: Global, least: usize) -> Result<Sought<'a>, AllocError>
        ensures { IfOk result (λ sought. part_sought sought ≡ self.entry) }
    {
        let bare = self.into_bare();
        let search = look_for(alloc, bare.told, bare.request, &bare.rows, least)?;
        match search {
            Search::Nothing => Ok(Sought::Known(Part::without(bare))),
            Search::Walk(filter, rows) => Ok(Sought::Walked(Walk::new(bare, filter, rows))),
        }
    }
}
