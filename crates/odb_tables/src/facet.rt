//! Facets of rows: by what an index finds them without a walk.
ghost use Rattle.std.specs.Prelude.{◌≡◌, ◌⊎◌, true, IsTrue, OnOk};
ghost use Rattle.std.specs.Option.{option_copied};
ghost use Rattle.odb_atoms.specs.Uuid as model_uuid;
ghost use Rattle.odb_tables.specs.Represented.Entry.{mentions_now};
ghost use Rattle.odb_tables.specs.Represented.Facet.{Cuts, is_tag, is_tag_now};
ghost use Rattle.odb_tables.specs.Represented.Pairs.{Grows, has};
ghost use Rattle.odb_tables.specs.declared.facet.Facet.TheVariants as facets;

use crate::key::Key;
use crate::row_test::{have_same, have_same_at, refers};
use crate::staying::Staying;
use crate::went::Went;
use crate::{digest, mentioned, pairs};
use odb_atoms::{Row, Value};
use std::alloc::AllocError;
use std::collections::BTreeSet;
use std::hash::RandomState;

/// By what an index finds rows: under each tag that it gives a row, the row is found.
pub(crate) enum Facet {
    /// The values in the columns at the places (RFC 7047, section 3.2, `indexes`). The tag is their digest.
    Values(RandomState, Vec<usize>),
    /// The identifiers that the value in the column at the place mentions. Each of them is a tag.
    Mentions(usize),
}

impl Facet {
    /// Returns whether the tag is one of the row's. O(the bytes of the values), or a search in the value.
    pub(crate) fn has_tag(&self, tag: Key, row: &Row) -> bool
        ensures { result ≡ is_tag self.now tag row.now }
    {
        match self {
            Facet::Values(hashing, places) => {
                tag == digest::of_row(*hashing, places.as_slice(), row)
            }
            Facet::Mentions(place) => refers(row, *place, tag.uuid()),
        }
    }

    /// Returns whether there is a row, and the tag is one of its. O(the bytes of the values), or a search in the value.
    pub(crate) fn has_tag_now(&self, tag: Key, row: Option<&Row>) -> bool
        ensures { result ≡ is_tag_now self.now tag (option_copied row.entry) }
    {
        match row {
            Some(row) => self.has_tag(tag, row),
            None => false,
        }
    }

    /// Returns whether it is certain that the rows have the same tags, since both are there and have the same
    /// values. O(the values compared).
    pub(crate) fn is_same(&self, one: Option<&Row>, other: &Row) -> bool
        ensures { IsTrue result → (tag : model_uuid.Uuid)
            → is_tag_now self.now tag (option_copied one.entry) ≡ is_tag self.now tag other.now }
    {
        match one {
            Some(one) => self.has_same(one, other),
            None => false,
        }
    }

    fn has_same(&self, one: &Row, other: &Row) -> bool
        ensures { IsTrue result → (tag : model_uuid.Uuid)
            → is_tag self.now tag one.now ≡ is_tag self.now tag other.now }
    {
        match self {
            Facet::Values(_, places) => have_same(places.as_slice(), one, other),
            Facet::Mentions(place) => have_same_at(*place, one, other),
        }
    }

    /// Adds the row under each of its tags that it didn't have before, and lists the identifiers that it mentioned
    /// before alone. Where memory is refused some of that is done. O(the values compared), and O(log n) for each tag
    /// that came and n pairs.
    pub(crate) fn add_gained(
        &self,
        pairs: &mut BTreeSet<(Key, Key)>,
        went: &mut Went,
        key: Key,
        before: Option<&Row>,
        row: &Row,
    ) -> Result<(), AllocError>
        ensures grows { Grows pairs.old pairs.new }
        ensures ok { OnOk result ((tag : model_uuid.Uuid) → is_tag self.now tag row.now ≡ true
            → (is_tag_now self.now tag (option_copied before.entry) ≡ true) ⊎ (has pairs.new tag key ≡ true)) }
    {
        match self {
            Facet::Values(hashing, places) => {
                let tag = digest::of_row(*hashing, places.as_slice(), row);
                pairs::add(pairs, tag, key)
            }
            Facet::Mentions(place) => match row.get(*place) {
                Some(value) => {
                    mentioned::add_gained(pairs, went, key, value_at(before, *place), value)
                }
                None => Ok(()),
            },
        }
    }

    /// Returns whether `add_gained` lists the tags that a row loses which stays a row. O(1).
    pub(crate) fn lists_lost(&self) -> bool {
        match self {
            Facet::Values(_, _) => false,
            Facet::Mentions(_) => true,
        }
    }

    /// Takes the pairs of the row out, but for those under a tag that the row has now. O(the values compared), and
    /// for each tag that went a search in the value and O(log n) for n pairs.
    pub(crate) fn cut(
        &self,
        pairs: &mut BTreeSet<(Key, Key)>,
        key: Key,
        row: &Row,
        now: Option<&Row>,
    )
        ensures { Cuts self.now pairs.old pairs.new key (option_copied now.entry) }
    {
        let staying = Staying {
            facet: self,
            key,
            row: now,
        };
        match self {
            Facet::Values(hashing, places) => {
                staying.cut_tag(pairs, digest::of_row(*hashing, places.as_slice(), row));
            }
            Facet::Mentions(place) => match row.get(*place) {
                Some(value) => staying.cut_lost(pairs, value, value_at(now, *place)),
                None => {}
            },
        }
    }
}

/// Returns what the row has in the column at the place, if there is a row.
fn value_at(row: Option<&Row>, place: usize) -> Option<&Value>
    ensures { (tag : model_uuid.Uuid) → mentions_now tag (option_copied result) ≡ true
        → is_tag_now (facets.Mentions place) tag (option_copied row.entry) ≡ true }
{
    match row {
        Some(row) => row.get(place),
        None => None,
    }
}

// Written, and not derived, so that each end of a scope is one call to prove.
impl Drop for Facet {
    fn drop(self) {
        match self {
            Facet::Values(_, _) => {}
            Facet::Mentions(_) => {}
        }
    }
}
