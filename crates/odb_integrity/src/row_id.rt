//! Rows by their tables and identifiers.
ghost use Rattle.std.specs.Prelude.{◌≡◌, refl, Some};
ghost use Rattle.std.specs.Ordering.{eq_by_cmp};
ghost use Rattle.odb_atoms.specs.Represented.Atom.{uuid_of};
ghost use Rattle.odb_integrity.specs.Represented.RowId.{row_id_cmp, row_ids_equivalent, row_ids_partial};
ghost use Rattle.odb_integrity.specs.Represented.RowId.{row_ids_partially_equivalent, row_ids_total};

use odb_atoms::number_of;
use odb_schema::TableId;
use std::cmp::Ordering;
use std::marker::Model;
use uuid::Uuid;

/// A row of a database: its table, and its identifier as a number. They are ordered by tables.
#[derive(Clone, Copy)]
pub(crate) struct RowId {
    table: TableId,
    number: u128,
}

impl Model for RowId {
    ghost use Rattle.std.specs.Prelude.{◌^◌, nat_lt, T};
    ghost use Rattle.odb_atoms.specs.Uuid.{uuid_from};
    ghost use Rattle.odb_tables.specs.Represented.Key.{number-uuid_from};
    ghost use Rattle.odb_integrity.specs.Settlement as model;
    ghost use Rattle.odb_integrity.specs.Represented.RowId.{row_id_code};

    ghost Value = { model.RowId };

    ghost coded = { row_id_code };

    ghost view = { λ x. (x.table, uuid_from x.number) };

    ghost invariant = { λ x. T (nat_lt x.number (2 ^ 128)) };

    ghost inverse = { λ x. record { table = x.0; number = x.1.number } };

    ghost inverse_ok = { λ x h. λ i. record { table = x.table; number = number-uuid_from x.number h i } };
}

impl RowId {
    /// Makes the row of the table with the identifier. O(1).
    pub(crate) fn new(table: TableId, uuid: Uuid) -> RowId
        ensures { result ≡ (table, uuid_of uuid) }
    {
        RowId {
            table,
            number: number_of(uuid),
        }
    }

    /// Returns its table. O(1).
    pub(crate) fn table(self) -> TableId
        ensures { result ≡ self.0 }
    {
        self.table
    }

    /// Returns its identifier. O(1).
    pub(crate) fn uuid(self) -> Uuid
        ensures { uuid_of result ≡ self.1 }
    {
        Uuid::from_u128(self.number)
    }
}

impl Ord for RowId {
    ghost cmp = { row_id_cmp };

    ghost total = { row_ids_total };

    ghost matches_partial_cmp = { λ _ _. refl };

    ghost matches_eq = { λ _ _. refl };

    fn cmp(&self, other: &RowId) -> Ordering {
        self.table
            .cmp(&other.table)
            .then(self.number.cmp(&other.number))
    }
}

impl PartialOrd for RowId {
    ghost partial_cmp = { λ x y. Some (row_id_cmp x y) };

    ghost laws = { row_ids_partial };

    fn partial_cmp(&self, other: &RowId) -> Option<Ordering> {
        Some(self.cmp(other))
    }
}

impl PartialEq for RowId {
    ghost eq = { eq_by_cmp row_id_cmp };

    ghost laws = { row_ids_partially_equivalent };

    fn eq(&self, other: &RowId) -> bool {
        self.cmp(other) == Ordering::Equal
    }
}

impl Eq for RowId {
    ghost laws = { row_ids_equivalent };
}
