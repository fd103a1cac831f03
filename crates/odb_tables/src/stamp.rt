//! What a commit gives the rows that it changes.
use crate::changed_columns::ChangedColumns;
use std::alloc::Global;
use uuid::Uuid;

/// The version that a commit gives the rows of a table that it changes (RFC 7047, section 3.2, `_version`), and the columns in
/// which these most likely differ from what they were, which are compared first.
#[derive(Clone, Copy)]
pub(crate) struct Stamp<'a> {
    pub(crate) alloc: Global,
    pub(crate) version: Uuid,
    pub(crate) changed: &'a ChangedColumns,
}
