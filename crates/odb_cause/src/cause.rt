//! Causes: where a transaction failed, and why. [P 15.2]

use odb_atoms::Error;

/// Where in a transaction it failed.
#[derive(Clone, Copy)]
pub enum Stage {
    /// In the operation at this place of the request, from 0.
    Operation(usize),
    /// In the commit, after all operations went through.
    Commit,
}

/// What of a table it failed for.
#[derive(Clone, Copy)]
pub enum Detail {
    /// Nothing that is smaller than the table, or nothing that could be told.
    Whole,
    /// The declared column at this place, in the order of the columns' names, from 0.
    Column(usize),
    /// The index at this place, in the order of the schema, from 0.
    Index(usize),
}

/// Why a transaction failed. It names places of the schema and of the request, and has nothing of a row, so that it may be
/// told to whoever knows the schema.
#[derive(Clone, Copy)]
pub struct Cause {
    /// Where it failed.
    pub stage: Stage,
    /// The place of the table for which it failed, in the order of the tables' names, from 0, if it was for one.
    pub table: Option<usize>,
    /// What of the table it failed for.
    pub detail: Detail,
    /// The error (RFC 7047, section 3.1).
    pub error: Error,
}

/// What a commit failed for.
#[derive(Clone, Copy)]
pub(crate) struct Found {
    pub(crate) table: Option<usize>,
    pub(crate) detail: Detail,
}

impl Found {
    /// Makes what has no table.
    pub(crate) fn nothing() -> Found {
        Found {
            table: None,
            detail: Detail::Whole,
        }
    }

    /// Makes what is of this table.
    pub(crate) fn of(table: usize, detail: Detail) -> Found {
        Found {
            table: Some(table),
            detail,
        }
    }
}
