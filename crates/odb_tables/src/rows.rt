//! The rows of a table with the database's row indexes of them. [P 9.2]
ghost use Rattle.std.specs.Prelude.{◌≡◌, true, IfOk, IfSome, OnOk, map};
ghost use Rattle.std.specs.List.{IsDistinct, list_any};
ghost use Rattle.std.specs.Map.{keys_of};
ghost use Rattle.std.specs.Option.{option_copied};
ghost use Rattle.std.specs.Ordering.{eq_by_cmp};
ghost use Rattle.odb_atoms.specs.FinMap as finite;
ghost use Rattle.odb_atoms.specs.Represented.Atom.{uuid_of};
ghost use Rattle.odb_atoms.specs.Uuid.{uuid_cmp};
ghost use Rattle.odb_cond.specs.Condition.{holds};
ghost use Rattle.odb_cond.specs.Filter.{member_holds, selects};
ghost use Rattle.odb_cond.specs.Represented.Filter.{member_of};
ghost use Rattle.odb_cond.specs.Represented.Prepared.{some_holds};
ghost use Rattle.odb_tables.specs.Database.{table_at};
ghost use Rattle.odb_tables.specs.Matching.{selected};
ghost use Rattle.odb_tables.specs.Represented.RowIndex.{Covers, KeepsKeys};
ghost use Rattle.odb_tables.specs.Represented.Table.{listed};

use crate::database::Db;
use crate::key::Key;
use crate::row_test::named_by;
use odb_atoms::Row;
use odb_cond::{Clause, Filter, Member};
use odb_schema::TableId;
use std::alloc::{AllocError, Global};
use std::collections::BTreeSet;
use std::marker::Model;
use uuid::Uuid;

/// The rows of a table of a database, with its row indexes of them, by which some are found without a walk.
#[derive(Drop)]
pub struct Rows<'a> {
    db: &'a Db,
    table: TableId,
}

impl<'a> Model for Rows<'a> {
    ghost use Rattle.odb_tables.specs.Database as model;
    ghost use Rattle.odb_tables.specs.Database.{table_at, table_code};

    ghost Value = { model.Table };

    ghost coded = { table_code };

    ghost view = { λ r. table_at r.db.now r.table };
}

impl Db {
    /// Returns the rows of a table; none, where the database doesn't have it. O(1).
    pub fn rows(&self, table: TableId) -> Rows<'_>
        ensures { result ≡ table_at self.entry.now table }
    {
        Rows { db: self, table }
    }
}

impl<'a> Rows<'a> {
    /// Returns the row of an identifier, if there is one. O(1).
    pub fn get(&self, uuid: Uuid) -> Option<&'a Row>
        ensures { option_copied result ≡ finite.get self.now (uuid_of uuid) }
    {
        self.db.get(self.table, uuid)
    }

    /// Returns how many rows there are. O(1).
    pub fn len(&self) -> usize
        ensures { result ≡ finite.len self.now }
    {
        match self.db.table(self.table) {
            Some(table) => table.len(),
            None => 0,
        }
    }

    /// Returns each of the rows once, with its identifier, in no order that is told. O(rows of the table).
    pub fn list(&self, alloc: Global) -> Result<Vec<(Uuid, &'a Row)>, AllocError>
        ensures rows { IfOk result (λ rows. finite.from_entries (map listed rows.items) ≡ self.entry.now) }
        ensures distinct { IfOk result (λ rows. IsDistinct (eq_by_cmp uuid_cmp) (keys_of (map listed rows.items))) }
    {
        let Some(table) = self.db.table(self.table) else {
            return Ok(Vec::new(alloc));
        };
        table.list(alloc)
    }

    /// Returns whether `selected` tests each row of the table, whatever the rows are: there are no members, or no
    /// row index of the database tells the rows of one of them. O(members of the filter), for each row index. No
    /// contract speaks of it.
    pub fn is_walked(&self, filter: &Filter) -> bool {
        if filter.members().is_empty() {
            return true;
        }
        for member in filter.members() {
            if !self.tells(member) {
                return true;
            }
        }
        false
    }

    /// Returns whether something tells the rows of which the member holds.
    fn tells(&self, member: &Member) -> bool {
        match member {
            Member::Always(always) => !*always,
            Member::When(condition) => {
                named_by(condition).is_some() || self.db.tells(self.table, condition)
            }
        }
    }

    /// Returns each of the rows that the filter selects once, with its identifier, in no order that is told.
    ///
    /// Rows are found by the database's row indexes (`Db::for_schema`) where each member of the filter is `false`, or
    /// a condition that asks an identifier of `_uuid` or of a column of references by `==` or `includes`, or a value of a
    /// column that alone is one of the `indexes` by `==`. That costs O(the row indexes) and O(log p) for each member and
    /// the p pairs of a row index, O(k log k) for the k rows that the members find together, and what `Filter::holds`
    /// costs for each of these. Else, and where there are no members, it tests each row once: O(rows of the table). So
    /// it does where k is more than the n rows of the table, after O(n log n).
    pub fn selected(
        &self,
        alloc: Global,
        filter: &Filter,
    ) -> Result<Vec<(Uuid, &'a Row)>, AllocError>
        ensures rows { IfOk result (λ rows. finite.from_entries (map listed rows.items) ≡ selected filter.entry.now self.entry.now) }
        ensures distinct { IfOk result (λ rows. IsDistinct (eq_by_cmp uuid_cmp) (keys_of (map listed rows.items))) }
    {
        let Some(table) = self.db.table(self.table) else {
            return Ok(Vec::new(alloc));
        };
        match self.candidates(alloc, filter, table.len())? {
            Some(keys) => table.select_among(alloc, &keys, filter),
            None => table.select(alloc, filter),
        }
    }

    /// Returns keys among which is that of each row that the filter selects, if each member tells some, and these are no more
    /// than `most` together.
    fn candidates(
        &self,
        alloc: Global,
        filter: &Filter,
        most: usize,
    ) -> Result<Option<BTreeSet<Key>>, AllocError>
        ensures { IfOk result (λ found. IfSome found (λ keys. Covers keys.keys (selects filter.now) self.now)) }
    {
        let members = filter.members();
        if members.is_empty() {
            return Ok(None);
        }
        self.candidates_of(alloc, members, most)
    }

    /// Returns keys among which is that of each row of which a member holds, if each member tells some, and these are no more
    /// than `most` together.
    fn candidates_of(
        &self,
        alloc: Global,
        members: &[Member],
        most: usize,
    ) -> Result<Option<BTreeSet<Key>>, AllocError>
        ensures { IfOk result (λ found. IfSome found (λ keys. Covers keys.keys (λ u r. some_holds u r members.now) self.now)) }
    {
        let mut keys = BTreeSet::new(alloc);
        let mut left = most;
        for member in members {
            let Some(found) = self.add_candidates(alloc, member, &mut keys)? else {
                return Ok(None);
            };
            if found > left {
                return Ok(None);
            }
            left -= found;
        }
        Ok(Some(keys))
    }

    /// Puts in the keys of the rows of which the member may hold, and returns how many they are, if it tells them.
    fn add_candidates(
        &self,
        alloc: Global,
        member: &Member,
        keys: &mut BTreeSet<Key>,
    ) -> Result<Option<usize>, AllocError>
        ensures keeps { KeepsKeys keys.old.keys keys.new.keys }
        ensures ok { IfOk result (λ found. IfSome found (λ _.
            Covers keys.new.keys (λ u r. member_holds u r (member_of member.now)) self.now)) }
    {
        match member {
            Member::Always(true) => Ok(None),
            Member::Always(false) => Ok(Some(0)),
            Member::When(condition) => self.add_found(alloc, condition, keys),
        }
    }

    /// Puts in the keys of the rows of which the condition may hold, and returns how many they are, if something tells them.
    fn add_found(
        &self,
        alloc: Global,
        condition: &Clause,
        keys: &mut BTreeSet<Key>,
    ) -> Result<Option<usize>, AllocError>
        ensures keeps { KeepsKeys keys.old.keys keys.new.keys }
        ensures ok { IfOk result (λ found. IfSome found (λ _. Covers keys.new.keys (holds condition.now) self.now)) }
    {
        if let Some(key) = named_by(condition) {
            add(keys, key)?;
            return Ok(Some(1));
        }
        match self.db.candidates(alloc, self.table, condition)? {
            Some(found) => {
                add_all(keys, found.as_slice())?;
                Ok(Some(found.len()))
            }
            None => Ok(None),
        }
    }
}

/// Puts the keys in. O(log n) for each of them and n keys.
fn add_all(keys: &mut BTreeSet<Key>, found: &[Key]) -> Result<(), AllocError>
    ensures keeps { KeepsKeys keys.old.keys keys.new.keys }
    ensures ok { OnOk result (KeepsKeys found.now keys.new.keys) }
{
    for key in found {
        add(keys, *key)?;
    }
    Ok(())
}

/// Puts the key in. O(log n) for n keys.
fn add(keys: &mut BTreeSet<Key>, key: Key) -> Result<(), AllocError>
    ensures keeps { KeepsKeys keys.old.keys keys.new.keys }
    ensures ok { OnOk result (list_any (eq_by_cmp uuid_cmp key) keys.new.keys ≡ true) }
{
    match keys.insert(key) {
        Ok(_) => Ok(()),
        Err(_) => Err(AllocError),
    }
}
