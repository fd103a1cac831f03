//! Pairs of a tag and a row's key, as which an index has rows under their tags.
ghost use Rattle.std.specs.Prelude.{◌≡◌, ◌⊎◌, true, IfOk, OnOk};
ghost use Rattle.std.specs.List.{IsDistinct, list_any};
ghost use Rattle.std.specs.Ordering.{eq_by_cmp};
ghost use Rattle.odb_atoms.specs.Uuid as model_uuid;
ghost use Rattle.odb_atoms.specs.Uuid.{uuid_cmp};
ghost use Rattle.odb_tables.specs.Represented.Pairs.{Grows, has};

use crate::key::Key;
use std::alloc::{AllocError, Global};
use std::collections::BTreeSet;

/// Puts the pair in. O(log n) for n pairs.
pub(crate) fn add(pairs: &mut BTreeSet<(Key, Key)>, tag: Key, key: Key) -> Result<(), AllocError>
    ensures grows { Grows pairs.old pairs.new }
    ensures ok { OnOk result (has pairs.new tag key ≡ true) }
{
    match pairs.insert((tag, key)) {
        Ok(_) => Ok(()),
        Err(_) => Err(AllocError),
    }
}

/// Takes the pair out, if it is there. O(log n) for n pairs.
pub(crate) fn remove(pairs: &mut BTreeSet<(Key, Key)>, tag: Key, key: Key)
    ensures { (t v : model_uuid.Uuid) → has pairs.old t v ≡ true
        → (has pairs.new t v ≡ true) ⊎ ((t ≡ tag) × (v ≡ key)) }
{
    pairs.remove(&(tag, key));
}

/// Returns the keys that stand under the tag, each of them once. O(log n) for n pairs, and O(the keys).
pub(crate) fn under(
    alloc: Global,
    pairs: &BTreeSet<(Key, Key)>,
    tag: Key,
) -> Result<Vec<Key>, AllocError>
    ensures all { IfOk result (λ keys. (u : model_uuid.Uuid) → has pairs.now tag u ≡ true
        → list_any (eq_by_cmp uuid_cmp u) keys.items ≡ true) }
    ensures distinct { IfOk result (λ keys. IsDistinct (eq_by_cmp uuid_cmp) keys.items) }
{
    let mut keys = Vec::new(alloc);
    for pair in pairs.range((tag, Key::least())..=(tag, Key::greatest())) {
        keys.push(pair.1)?;
    }
    Ok(keys)
}
