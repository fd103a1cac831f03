//! What a part is made of.

use crate::told::Told;
use odb_request::Request;
use odb_tables::{Rows, TableChange};
use std::sync::Arc;

/// A part without what was found in it.
#[derive(Drop)]
pub(crate) struct Bare<'a> {
    /// What is asked of the table.
    pub(crate) request: &'a Request,
    /// What the client was told of it.
    pub(crate) told: Told<'a>,
    /// Its rows as they are now.
    pub(crate) rows: Rows<'a>,
    /// How they have changed since.
    pub(crate) changes: Option<Arc<TableChange>>,
}
