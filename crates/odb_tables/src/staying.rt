//! What stays of a row, as its pairs are taken out of an index.
ghost use Rattle.std.specs.Option.{option_copied};
ghost use Rattle.odb_tables.specs.Represented.Facet.{Cuts};

use crate::entry::{Entry, elements_of, pairs_of, pass_over};
use crate::facet::Facet;
use crate::key::Key;
use crate::pairs;
use odb_atoms::{Entries, Row, Value};
use odb_chunks::Items;
use std::collections::BTreeSet;

/// What stays of a row, so that it is still found by its facet.
#[derive(Clone, Copy)]
pub(crate) struct Staying<'a> {
    /// By what it is found.
    pub(crate) facet: &'a Facet,
    /// Its key.
    pub(crate) key: Key,
    /// The row that stays, if there is one.
    pub(crate) row: Option<&'a Row>,
}

impl Staying<'_> {
    /// Takes out the pairs of the identifiers that a value mentions, but for those of entries that the value that
    /// stays has, too, and for tags of the row that stays. O(the values compared), and for each other entry a
    /// search in the value and O(log n) for n pairs.
    pub(crate) fn cut_lost(
        &self,
        pairs: &mut BTreeSet<(Key, Key)>,
        lost: &Value,
        stays: Option<&Value>,
    )
        ensures { Cuts self.now.facet.now pairs.old pairs.new self.now.key (option_copied self.now.row) }
    {
        match lost.entries() {
            Entries::Set(elements) => self.cut_entries(pairs, &elements, &elements_of(stays)),
            Entries::Map(entries) => self.cut_entries(pairs, &entries, &pairs_of(stays)),
        }
    }

    /// Takes out the pairs of what the entries mention, but for those that stay, too. One pass over both.
    fn cut_entries<E: Entry + Drop>(
        &self,
        pairs: &mut BTreeSet<(Key, Key)>,
        lost: &Items<'_, E>,
        stays: &Items<'_, E>,
    )
        ensures { Cuts self.now.facet.now pairs.old pairs.new self.now.key (option_copied self.now.row) }
    {
        let mut left = stays.iter();
        for entry in lost.iter() {
            if pass_over(&mut left, entry) {
                continue;
            }
            self.cut_entry(pairs, entry);
        }
    }

    /// Takes out the pairs of what the entry mentions, but for tags of the row that stays.
    fn cut_entry<E: Entry>(&self, pairs: &mut BTreeSet<(Key, Key)>, lost: &E)
        ensures { Cuts self.now.facet.now pairs.old pairs.new self.now.key (option_copied self.now.row) }
    {
        let (first, second) = lost.tags();
        self.cut_if_some(pairs, first);
        self.cut_if_some(pairs, second);
    }

    /// Takes the pair out, if there is a tag, unless the row that stays has it.
    fn cut_if_some(&self, pairs: &mut BTreeSet<(Key, Key)>, tag: Option<Key>)
        ensures { Cuts self.now.facet.now pairs.old pairs.new self.now.key (option_copied self.now.row) }
    {
        match tag {
            Some(tag) => self.cut_tag(pairs, tag),
            None => {}
        }
    }

    /// Takes the pair out, unless the row that stays has the tag.
    pub(crate) fn cut_tag(&self, pairs: &mut BTreeSet<(Key, Key)>, tag: Key)
        ensures { Cuts self.now.facet.now pairs.old pairs.new self.now.key (option_copied self.now.row) }
    {
        if self.facet.has_tag_now(tag, self.row) {
            return;
        }
        pairs::remove(pairs, tag, self.key);
    }
}
