//! Rows in an index by the identifiers that they mention.
ghost use Rattle.std.specs.Prelude.{◌≡◌, ◌⊎◌, true, OnOk, Some};
ghost use Rattle.std.specs.List.{list_any};
ghost use Rattle.std.specs.Option.{option_copied};
ghost use Rattle.odb_atoms.specs.Uuid as model_uuid;
ghost use Rattle.odb_tables.specs.Indexed as indexed;
ghost use Rattle.odb_tables.specs.Represented.Entry.{mentions_now};
ghost use Rattle.odb_tables.specs.Represented.Pairs.{Grows, has};

use crate::entry::{Entry, elements_of, pairs_of, pass_common};
use crate::key::Key;
use crate::pairs;
use crate::went::Went;
use odb_atoms::{Entries, Value};
use odb_chunks::Items;
use std::alloc::AllocError;
use std::cmp::Ordering;
use std::collections::BTreeSet;

/// Adds the key under each identifier that the value mentions, but for those of entries that the value before had,
/// too, and lists the identifiers of entries that this one alone had. O(the values compared), and O(log n) for each
/// entry that came and n pairs.
pub(crate) fn add_gained(
    pairs: &mut BTreeSet<(Key, Key)>,
    went: &mut Went,
    key: Key,
    before: Option<&Value>,
    value: &Value,
) -> Result<(), AllocError>
    ensures grows { Grows pairs.old pairs.new }
    ensures ok { OnOk result ((tag : model_uuid.Uuid) → indexed.mentions tag value.now ≡ true
        → (mentions_now tag (option_copied before.entry) ≡ true) ⊎ (has pairs.new tag key ≡ true)) }
{
    match value.entries() {
        Entries::Set(elements) => add_entries(pairs, went, key, &elements_of(before), &elements),
        Entries::Map(entries) => add_entries(pairs, went, key, &pairs_of(before), &entries),
    }
}

/// Adds the key under what the entries mention, but for those that stand among the ones before, too, and lists what
/// those mention that stand among the ones before alone. One pass over both.
fn add_entries<E: Entry + Drop>(
    pairs: &mut BTreeSet<(Key, Key)>,
    went: &mut Went,
    key: Key,
    before: &Items<'_, E>,
    entries: &Items<'_, E>,
) -> Result<(), AllocError>
    ensures grows { Grows pairs.old pairs.new }
    ensures ok { OnOk result ((tag : model_uuid.Uuid) → list_any (E.mentions tag) entries.now ≡ true
        → (list_any (E.mentions tag) before.now ≡ true) ⊎ (has pairs.new tag key ≡ true)) }
{
    let mut old_left = before.iter();
    let mut new_left = entries.iter();
    while let Some(next) = new_left.first() {
        let Some(first) = old_left.first() else {
            return add_each(pairs, key, &new_left);
        };
        match first.cmp(next) {
            Ordering::Less => {
                push_entry(went, first)?;
                old_left.pass(1);
            }
            Ordering::Greater => {
                add_entry(pairs, key, next)?;
                new_left.pass(1);
            }
            Ordering::Equal => {
                old_left.pass(1);
                new_left.pass(1);
                pass_common(&mut old_left, &mut new_left);
            }
        }
    }
    push_each(went, &old_left)
}

/// Adds the key under what each of the entries mentions.
fn add_each<E: Entry + Drop>(
    pairs: &mut BTreeSet<(Key, Key)>,
    key: Key,
    entries: &Items<'_, E>,
) -> Result<(), AllocError>
    ensures grows { Grows pairs.old pairs.new }
    ensures ok { OnOk result ((tag : model_uuid.Uuid) → list_any (E.mentions tag) entries.now ≡ true
        → has pairs.new tag key ≡ true) }
{
    for entry in entries.iter() {
        add_entry(pairs, key, entry)?;
    }
    Ok(())
}

/// Appends what each of the entries mentions.
fn push_each<E: Entry + Drop>(went: &mut Went, entries: &Items<'_, E>) -> Result<(), AllocError> {
    for entry in entries.iter() {
        push_entry(went, entry)?;
    }
    Ok(())
}

/// Appends what the entry mentions.
fn push_entry<E: Entry>(went: &mut Went, entry: &E) -> Result<(), AllocError> {
    let (first, second) = entry.tags();
    went.push(first)?;
    went.push(second)
}

/// Adds the key under what the entry mentions.
fn add_entry<E: Entry>(
    pairs: &mut BTreeSet<(Key, Key)>,
    key: Key,
    entry: &E,
) -> Result<(), AllocError>
    ensures grows { Grows pairs.old pairs.new }
    ensures ok { OnOk result ((tag : model_uuid.Uuid) → E.mentions tag entry.now ≡ true → has pairs.new tag key ≡ true) }
{
    let (first, second) = entry.tags();
    add_tag(pairs, first, key)?;
    add_tag(pairs, second, key)
}

/// Adds the key under the tag, if there is one.
fn add_tag(pairs: &mut BTreeSet<(Key, Key)>, tag: Option<Key>, key: Key) -> Result<(), AllocError>
    ensures grows { Grows pairs.old pairs.new }
    ensures ok { OnOk result ((u : model_uuid.Uuid) → tag ≡ Some u → has pairs.new u key ≡ true) }
{
    match tag {
        Some(tag) => pairs::add(pairs, tag, key),
        None => Ok(()),
    }
}
