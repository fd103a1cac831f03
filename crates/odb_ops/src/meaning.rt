//! What a result's text says, which proofs alone read. It takes no memory, and its calls do nothing at run time.
ghost use Rattle.std.specs.Prelude.{◌≡◌};
ghost use Rattle.std.specs.Borrow.{ftrue};
ghost use Rattle.serde_json.specs.Data.{Data};
ghost use Rattle.serde_json.specs.View.{view};
ghost use Rattle.odb_ops.specs.Represented.Results.{rows_of};
ghost use Rattle.odb_schema.specs.JsonCode.{data_code};

use odb_json::Select;
use odb_schema::{Column, TableId};
use odb_tables::Draft;
use serde_json::Value;
use std::marker::Model;

/// What is asked of the rows of a table with these columns, as a draft has them.
#[derive(Drop)]
pub(crate) struct SelectedRows<'a> {
    pub declared: &'a [Column],
    pub table: TableId,
    pub draft: &'a Draft<'a>,
    pub asked: &'a Select,
}

/// The data of which a text is the compact text.
#[derive(Drop)]
pub(crate) struct Meaning {
    pub(crate) ghost said: { Data } by { data_code },
}

impl Model for Meaning {
    ghost also_owns = { λ _. ftrue };
}

// It owns nothing.
unsafe impl Send for Meaning {}

impl Meaning {
    /// Returns what is said by the text of a value.
    pub(crate) fn of(_value: &Value) -> Meaning
        ensures { result.said ≡ view _value.now }
    {
        Meaning {}
    }

    /// Returns what is said by the text of rows.
    pub(crate) fn of_rows(_rows: &SelectedRows<'_>) -> Meaning
        ensures { result.said ≡ rows_of _rows.entry.now }
    {
        Meaning {}
    }
}
