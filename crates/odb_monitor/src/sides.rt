//! Rows as they were when the client was told, and as they are now.
ghost use Rattle.std.specs.Prelude.{◌≡◌, ◌++◌, IfOk, OnOk, map};
ghost use Rattle.std.specs.BTreeSet.{contains};
ghost use Rattle.odb_atoms.specs.Represented.Atom.{uuid_of};
ghost use Rattle.odb_atoms.specs.Uuid as model_uuid;
ghost use Rattle.odb_atoms.specs.Uuid.{uuid_cmp};
ghost use Rattle.odb_monitor.specs.Represented.Candidates.{changed_in, fresh_in, is_changed, others, stayed_in};
ghost use Rattle.odb_monitor.specs.Represented.Sides.{sides_in};
ghost use Rattle.odb_tables.specs.Represented.Table.{listed};

use odb_atoms::Row;
use odb_tables::{Key, RowChange, Rows};
use std::alloc::{AllocError, Global};
use std::collections::BTreeSet;
use uuid::Uuid;

/// A row as it was when the client was told, and as it is now.
#[derive(Clone, Copy)]
pub struct Sides<'a> {
    /// Its identifier, as a key: that is made once, and compared often.
    pub key: Key,
    /// The row as it was.
    pub old: Option<&'a Row>,
    /// The row as it is.
    pub new: Option<&'a Row>,
}

/// Returns the rows, as ones that come in.
pub fn fresh<'a>(alloc: Global, rows: &[(Uuid, &'a Row)]) -> Result<Vec<Sides<'a>>, AllocError>
    ensures { IfOk result (λ sides. map sides_in sides.items ≡ map fresh_in (map listed rows.now)) }
{
    let mut all = Vec::with_capacity(alloc, rows.len())?;
    for row in rows {
        let sides = coming(row);
        if all.push(sides).is_err() {
            return Err(AllocError);
        }
    }
    Ok(all)
}

/// Returns the rows that were changed, each as it was and as it is now.
pub fn changed<'a>(
    alloc: Global,
    changes: &'a [RowChange],
    rows: &'a Rows<'a>,
) -> Result<Vec<Sides<'a>>, AllocError>
    ensures { IfOk result (λ sides. map sides_in sides.items ≡ map (changed_in rows.now) changes.now) }
{
    let mut all = Vec::with_capacity(alloc, changes.len())?;
    for change in changes {
        let sides = Sides {
            key: Key::of(change.uuid()),
            old: change.old(),
            new: rows.get(change.uuid()),
        };
        if all.push(sides).is_err() {
            return Err(AllocError);
        }
    }
    Ok(all)
}

/// Returns the keys of the rows that were changed.
pub fn keys_of(alloc: Global, changes: &[RowChange]) -> Result<BTreeSet<Key>, AllocError>
    ensures { IfOk result (λ keys. (u : model_uuid.Uuid) → contains uuid_cmp keys u ≡ is_changed changes.now u) }
{
    let mut keys = BTreeSet::new(alloc);
    for change in changes {
        keys.insert(Key::of(change.uuid()))?;
    }
    Ok(keys)
}

/// Appends the rows whose key isn't among these, as ones that stayed.
pub fn add_others<'a>(
    rows: &[(Uuid, &'a Row)],
    keys: &BTreeSet<Key>,
    all: &mut Vec<Sides<'a>>,
) -> Result<(), AllocError>
    ensures { OnOk result (map sides_in all.new.items
        ≡ map sides_in all.old.items ++ map stayed_in (others keys.now (map listed rows.now))) }
{
    for row in rows {
        if is_among(keys, row.0) {
            continue;
        }
        let sides = staying(row);
        if all.push(sides).is_err() {
            return Err(AllocError);
        }
    }
    Ok(())
}

fn is_among(keys: &BTreeSet<Key>, uuid: Uuid) -> bool
    ensures { result ≡ contains uuid_cmp keys.now (uuid_of uuid) }
{
    keys.contains(&Key::of(uuid))
}

/// Returns the row as one that comes in.
fn coming<'a>(row: &(Uuid, &'a Row)) -> Sides<'a>
    ensures { sides_in result ≡ fresh_in (listed row.now) }
{
    Sides {
        key: Key::of(row.0),
        old: None,
        new: Some(row.1),
    }
}

/// Returns the row as one that stays.
fn staying<'a>(row: &(Uuid, &'a Row)) -> Sides<'a>
    ensures { sides_in result ≡ stayed_in (listed row.now) }
{
    Sides {
        key: Key::of(row.0),
        old: Some(row.1),
        new: Some(row.1),
    }
}
