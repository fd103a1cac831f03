//! What becomes of rows, by the rows themselves.

use odb_atoms::Row;
use uuid::Uuid;

/// What becomes of a row, between what was told and what is asked.
#[derive(Clone, Copy)]
pub enum Change<'a> {
    /// It comes in.
    ComesIn(&'a Row),
    /// It goes out.
    GoesOut(&'a Row),
    /// It was the first, and is the second.
    Differs(&'a Row, &'a Row),
}

/// What becomes of the row with an identifier.
#[derive(Clone, Copy)]
pub struct Line<'a> {
    /// The row's identifier.
    pub uuid: Uuid,
    /// What becomes of it.
    pub change: Change<'a>,
}
