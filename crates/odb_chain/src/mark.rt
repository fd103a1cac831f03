//! Marks: contents of tables that are kept.
ghost use Rattle.std.specs.Prelude.{◌≡◌};

use crate::content::Content;
use odb_schema::TableId;
use std::marker::Model;

/// A content of a table that is kept until the mark is released. A mark can't be copied, since it is counted;
/// one that is dropped and not released keeps its content as long as there are chains.
#[derive(Drop)]
pub struct Mark {
    pub(crate) table: TableId,
    pub(crate) version: u64,
    pub(crate) content: Content,
}

impl Model for Mark {
    ghost use Rattle.odb_chain.specs.Chains as model;
    ghost use Rattle.odb_chain.specs.Represented.Codes.{mark_code};

    ghost Value = { model.Mark };

    ghost coded = { mark_code };

    ghost view = { λ m. record { table = m.table; version = m.version; content = m.content.table } };
}

impl Mark {
    /// Returns the table whose content it stands for. O(1).
    #[inline(always)]
    pub fn table(&self) -> TableId
        ensures { result ≡ self.now.table }
    {
        self.table
    }

    /// Returns the version of the table for which it stands: how many changes the table had when the mark was made,
    /// which tells it apart from marks for other contents of this table. O(1).
    #[inline(always)]
    pub fn version(&self) -> u64
        ensures { result ≡ self.now.version }
    {
        self.version
    }
}
