//! Indexes of the rows of tables, by which some rows are found without a walk.
ghost use Rattle.std.specs.Prelude.{◌≡◌, IfOk, IfSome, OnOk, Some};
ghost use Rattle.std.specs.Option.{option_copied};
ghost use Rattle.odb_atoms.specs.FinMap as finite;
ghost use Rattle.odb_tables.specs.Database as model;
ghost use Rattle.odb_tables.specs.Represented.Facet.{Cuts, HasTagsNow};
ghost use Rattle.odb_tables.specs.Represented.RowIndex as spec;
ghost use Rattle.odb_tables.specs.Represented.RowIndex.{CutsAll, IsOfSame, LacksNothing, AddsNewTags, AddsNewTagsOf, Suffices};
ghost use Rattle.odb_tables.specs.Represented.Pairs.{Grows};
ghost use Rattle.odb_tables.specs.declared.row_index.Side.TheVariants.{Old};

use crate::facet::Facet;
use crate::key::Key;
use crate::pairs;
use crate::row_change::RowChange;
use crate::row_test::Test;
use crate::staying::Staying;
use crate::table_change::TableChange;
use crate::went::Went;
use odb_atoms::Row;
use std::alloc::{AllocError, Global};
use std::collections::BTreeSet;

/// A side of a change of a row.
#[derive(Clone, Copy)]
pub(crate) enum Side {
    /// The row before.
    Old,
    /// The row after.
    New,
}

/// An index of the rows of a table by one facet. No row lacks a pair; a pair too many does no harm, since each row that
/// is found so is tested.
pub(crate) struct RowIndex {
    /// The place of the table.
    pub(crate) table: usize,
    /// By what the rows are found.
    pub(crate) facet: Facet,
    /// The tags of each row, with its key.
    pub(crate) pairs: BTreeSet<(Key, Key)>,
    /// The tags that rows lose by the change whose new tags were added, till it is made or taken back.
    pub(crate) went: Went,
}

impl RowIndex {
    /// Makes one of a table without rows. O(1).
    pub(crate) fn new(alloc: Global, table: usize, facet: Facet) -> RowIndex
        ensures { LacksNothing result finite.empty }
    {
        RowIndex {
            table,
            facet,
            pairs: BTreeSet::new(alloc),
            went: Went::new(alloc),
        }
    }

    /// Adds the tags that rows gain by the change, those of new rows among them, and lists the identifiers that the
    /// changed ones mention no more. Where memory is refused some of that is done. O(the values compared), and
    /// O(log n) for each tag that came and n pairs.
    pub(crate) fn add_new_tags(&mut self, change: &TableChange) -> Result<(), AllocError>
        ensures same { IsOfSame self.old self.new }
        ensures grows { Grows self.old.pairs self.new.pairs }
        ensures ok { OnOk result (AddsNewTags self.old.facet self.old.pairs self.new.pairs change.now) }
    {
        add_new_tags(&self.facet, &mut self.pairs, &mut self.went, change)
    }

    /// Adds the row under each of its tags. Where memory is refused it is under some of them. O(log n) for each
    /// tag and n pairs.
    pub(crate) fn add(&mut self, key: Key, row: &Row) -> Result<(), AllocError>
        ensures same { IsOfSame self.old self.new }
        ensures grows { Grows self.old.pairs self.new.pairs }
        ensures ok { OnOk result (HasTagsNow self.old.facet self.new.pairs key (Some row.now)) }
    {
        self.facet
            .add_gained(&mut self.pairs, &mut self.went, key, None, row)
    }

    /// Takes out the pairs of the side that goes, but for those of the other side. Which identifiers a changed row
    /// mentions no more was listed: its values aren't compared once more. O(the other values compared), and for each
    /// tag that went a search in the value and O(log n) for n pairs.
    pub(crate) fn cut(&mut self, change: &TableChange, side: Side)
        ensures same { IsOfSame self.old self.new }
        ensures cuts { CutsAll self.old.facet self.old.pairs self.new.pairs side change.now }
    {
        cut(&self.facet, &mut self.pairs, change, side);
        cut_went(&self.facet, &mut self.pairs, self.went.take(), change, side);
    }

    /// Returns whether the facet tells the rows that may pass the test. O(1).
    pub(crate) fn tells<T: Test>(&self, test: &T) -> bool {
        test.tag(&self.facet).is_some()
    }

    /// Returns the keys of the rows that may pass the test, each of them once, if the facet tells them. O(log n) for n
    /// pairs, and O(the keys).
    pub(crate) fn candidates<T: Test>(
        &self,
        alloc: Global,
        test: &T,
    ) -> Result<Option<Vec<Key>>, AllocError>
        ensures { IfOk result (λ found. IfSome found (λ keys. (t : model.Table) → LacksNothing self.now t
            → Suffices keys.items (T.passes test.now) t)) }
    {
        match test.tag(&self.facet) {
            Some(tag) => Ok(Some(pairs::under(alloc, &self.pairs, tag)?)),
            None => Ok(None),
        }
    }
}

fn add_new_tags(
    facet: &Facet,
    pairs: &mut BTreeSet<(Key, Key)>,
    went: &mut Went,
    change: &TableChange,
) -> Result<(), AllocError>
    ensures grows { Grows pairs.old pairs.new }
    ensures ok { OnOk result (AddsNewTags facet.now pairs.old pairs.new change.now) }
{
    for row in change.rows() {
        add_new_tags_of(facet, pairs, went, row)?;
        went.go_on();
    }
    Ok(())
}

fn add_new_tags_of(
    facet: &Facet,
    pairs: &mut BTreeSet<(Key, Key)>,
    went: &mut Went,
    change: &RowChange,
) -> Result<(), AllocError>
    ensures grows { Grows pairs.old pairs.new }
    ensures ok { OnOk result (AddsNewTagsOf facet.now pairs.old pairs.new change.now.0 change.now.1) }
{
    let Some(new) = change.new() else {
        return Ok(());
    };
    if facet.is_same(change.old(), new) {
        return Ok(());
    }
    facet.add_gained(pairs, went, Key::of(change.uuid()), change.old(), new)
}

fn cut(facet: &Facet, pairs: &mut BTreeSet<(Key, Key)>, change: &TableChange, side: Side)
    ensures { CutsAll facet.now pairs.old pairs.new side change.now }
{
    for row in change.rows() {
        cut_row(facet, pairs, row, side);
    }
}

fn cut_row(facet: &Facet, pairs: &mut BTreeSet<(Key, Key)>, change: &RowChange, side: Side)
    ensures { Cuts facet.now pairs.old pairs.new change.now.0 (spec.stays side change.now.1) }
{
    let Some(row) = gone(change, side) else {
        return;
    };
    let now = stays(change, side);
    if is_listed(facet, side, now) {
        return;
    }
    if facet.is_same(now, row) {
        return;
    }
    facet.cut(pairs, Key::of(change.uuid()), row, now);
}

/// Returns whether `add_new_tags` listed the tags that go of a row, of which this stays.
fn is_listed(facet: &Facet, side: Side, stays: Option<&Row>) -> bool {
    match side {
        Side::Old => facet.lists_lost() && stays.is_some(),
        Side::New => false,
    }
}

/// Takes out the pairs of the tags that rows lost, each with the place of its row's change. Of a change that is taken
/// back none went.
fn cut_went(
    facet: &Facet,
    pairs: &mut BTreeSet<(Key, Key)>,
    went: Vec<(usize, Key)>,
    change: &TableChange,
    side: Side,
)
    ensures { CutsAll facet.now pairs.old pairs.new side change.now }
{
    match side {
        Side::Old => cut_tags(facet, pairs, went, change),
        Side::New => {}
    }
}

fn cut_tags(
    facet: &Facet,
    pairs: &mut BTreeSet<(Key, Key)>,
    went: Vec<(usize, Key)>,
    change: &TableChange,
)
    ensures { CutsAll facet.now pairs.old pairs.new Old change.now }
{
    for (place, tag) in went {
        cut_tag(facet, pairs, change, place, tag);
    }
}

/// Takes out the pair of the tag and the row of the change at the place, unless the row has the tag after it.
fn cut_tag(
    facet: &Facet,
    pairs: &mut BTreeSet<(Key, Key)>,
    change: &TableChange,
    place: usize,
    tag: Key,
)
    ensures { CutsAll facet.now pairs.old pairs.new Old change.now }
{
    let rows = change.rows();
    if place >= rows.len() {
        return;
    }
    cut_tag_of(facet, pairs, &rows[place], tag);
}

fn cut_tag_of(facet: &Facet, pairs: &mut BTreeSet<(Key, Key)>, change: &RowChange, tag: Key)
    ensures { Cuts facet.now pairs.old pairs.new change.now.0 change.now.1.1 }
{
    let staying = Staying {
        facet,
        key: Key::of(change.uuid()),
        row: change.new(),
    };
    staying.cut_tag(pairs, tag);
}

/// Returns the side that goes.
fn gone(change: &RowChange, side: Side) -> Option<&Row>
    ensures { option_copied result ≡ spec.gone side change.now.1 }
{
    match side {
        Side::Old => change.old(),
        Side::New => change.new(),
    }
}

/// Returns the side that stays.
fn stays(change: &RowChange, side: Side) -> Option<&Row>
    ensures { option_copied result ≡ spec.stays side change.now.1 }
{
    match side {
        Side::Old => change.new(),
        Side::New => change.old(),
    }
}

// Written, and not derived, so that each end of a scope is one call to prove.
impl Drop for RowIndex {
    fn drop(self) {
        let RowIndex {
            table: _,
            facet: _,
            pairs: _,
            went: _,
        } = self;
    }
}
