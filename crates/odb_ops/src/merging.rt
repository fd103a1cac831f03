//! Mutations that stand next to each other, and one that is made in place of several. [P 4.2]
ghost use Rattle.std.specs.Prelude.{◌≡◌, ◌++◌, ◌∷◌, ◌<◌, [], IfNone, IfOk, IfSome, None, Ok, OnOk, length, true};
ghost use Rattle.odb_atoms.specs.Atom.{uuids};
ghost use Rattle.odb_atoms.specs.ColType.{scalar};
ghost use Rattle.odb_atoms.specs.Represented.Atom.{kind_in};
ghost use Rattle.odb_atoms.specs.Represented.ColType.{type_of};
ghost use Rattle.odb_json.specs.Suited.{are_taken};
ghost use Rattle.odb_mutate.specs.Mutation as model;
ghost use Rattle.odb_mutate.specs.MutationTyping.{takes};
ghost use Rattle.odb_ops.specs.Represented.Merged as merged;
ghost use Rattle.odb_ops.specs.Represented.Merged.{Inserts, MayStandFor, Replaces, all_of, all_take, are_at};
ghost use Rattle.odb_schema.specs.Schema as schema;

use odb_atoms::{Base, ColType, Kind, Value};
use odb_mutate::{Mutation, Mutator};
use odb_schema::Column;
use std::alloc::{AllocError, Global};
use std::marker::Model;

/// Returns the type of a column, and that of identifiers for a column past the table's.
pub fn type_at<'a>(columns: &'a [Column], place: usize, uuid: &'a ColType) -> &'a ColType
    requires { type_of uuid.now ≡ scalar uuids }
    ensures { type_of result.now ≡ schema.column_type columns.now place }
{
    match columns.get(place) {
        Some(column) => column.column_type(),
        None => uuid,
    }
}

/// Mutations that stand next to each other, and perhaps one that does what they do one after another.
/// Contracts see the mutations.
#[derive(Drop)]
pub struct Run<'a> {
    mutations: &'a [Mutation],
    merged: Option<Mutation>,
}

impl<'a> Model for Run<'a> {
    ghost use Rattle.std.specs.Prelude.{List};
    ghost use Rattle.odb_mutate.specs.Mutation as model;
    ghost use Rattle.odb_ops.specs.Represented.Merged.{MayStandFor};

    ghost Value = { List model.Mutation };

    ghost view = { λ r. r.mutations.now };

    ghost invariant = { λ r. MayStandFor r.merged r.mutations.now };
}

impl<'a> Run<'a> {
    fn new(mutations: &'a [Mutation], merged: Option<Mutation>) -> Run<'a>
        requires { MayStandFor merged mutations.now }
        ensures { result ≡ mutations.now }
    {
        Run { mutations, merged }
    }

    /// Returns the mutations. O(1).
    pub fn mutations(&self) -> &[Mutation]
        ensures { result.now ≡ self.now }
    {
        self.mutations
    }

    /// Returns one mutation that may be made in place of all of them, where it has no fault. O(1).
    pub fn merged(&self, columns: &[Column]) -> Option<&Mutation>
        requires { are_taken columns.now self.now ≡ true }
        ensures { IfSome result (λ m. Replaces columns.now m.now self.now) }
    {
        let Some(mutation) = &self.merged else {
            return None;
        };
        if !needs_one_at_most(columns, mutation.column()) {
            return None;
        }
        Some(mutation)
    }
}

/// Returns whether the column never has to have more than one element.
fn needs_one_at_most(columns: &[Column], place: usize) -> bool
    ensures { result ≡ merged.needs_one_at_most columns.now place }
{
    let uuid = ColType::scalar(Kind::Uuid);
    let one_at_most = type_at(columns, place, &uuid).min <= 1;
    drop(uuid);
    one_at_most
}

/// Returns the mutations in runs, of which each is as long as can be found by halves: insertions of sets into one
/// column are one run, unless they insert more than 65,536 elements.
///
/// O(m log m) for m mutations of which no two that stand next to each other are of one column; where they
/// are, O(n log^2 n) comparisons of atoms more for n elements of their operands, and the bytes copied.
pub fn runs_of<'a>(
    alloc: Global,
    columns: &[Column],
    mutations: &'a [Mutation],
) -> Result<Vec<Run<'a>>, AllocError>
    requires { are_taken columns.now mutations.now ≡ true }
    ensures { IfOk result (λ runs. all_of runs.items ≡ mutations.now) }
{
    let mut runs = Vec::new(alloc);
    add_runs(alloc, columns, mutations, &mut runs)?;
    Ok(runs)
}

/// Adds the mutations in runs.
fn add_runs<'a>(
    alloc: Global,
    columns: &[Column],
    mutations: &'a [Mutation],
    runs: &mut Vec<Run<'a>>,
) -> Result<(), AllocError>
    requires { are_taken columns.now mutations.now ≡ true }
    ensures { OnOk result (all_of runs.new.items ≡ all_of runs.old.items ++ mutations.now) }
{
    match one_run(alloc, columns, mutations)? {
        Some(run) => {
            runs.push(run)?;
            Ok(())
        }
        None => {
            let (front, back) = halves(mutations);
            add_runs(alloc, columns, front, runs)?;
            add_runs(alloc, columns, back, runs)
        }
    }
}

/// Returns the mutations as one run, if they are fewer than two, or one can be made of them.
///
/// O(n log^2 n) comparisons of atoms for n elements of the operands of mutations of one column, and the
/// bytes copied; else O(m) for m mutations.
pub fn one_run<'a>(
    alloc: Global,
    columns: &[Column],
    mutations: &'a [Mutation],
) -> Result<Option<Run<'a>>, AllocError>
    requires { are_taken columns.now mutations.now ≡ true }
    ensures run { IfOk result (λ run. IfSome run (λ r. r ≡ mutations.now)) }
    ensures several { IfOk result (λ run. IfNone run (1 < length mutations.now)) }
{
    if mutations.len() < 2 {
        return Ok(Some(Run::new(mutations, None)));
    }
    match merged(alloc, columns, mutations)? {
        Some(mutation) => Ok(Some(Run::new(mutations, Some(mutation)))),
        None => Ok(None),
    }
}

/// Returns the first and the last half, of which neither is empty. O(1).
pub fn halves(mutations: &[Mutation]) -> (&[Mutation], &[Mutation])
    requires { 1 < length mutations.now }
    ensures whole { result.0.now ++ result.1.now ≡ mutations.now }
    ensures front { 0 < length result.0.now }
    ensures back { 0 < length result.1.now }
{
    mutations.split_at(mutations.len() / 2)
}

/// Returns one mutation that stands for all of these, where they insert sets into one column.
fn merged(
    alloc: Global,
    columns: &[Column],
    mutations: &[Mutation],
) -> Result<Option<Mutation>, AllocError>
    requires { are_taken columns.now mutations.now ≡ true }
    ensures { IfOk result (λ found. MayStandFor found mutations.now) }
{
    let Some(place) = one_column(mutations) else {
        return Ok(None);
    };
    let Some(kind) = element_kind(columns, place) else {
        return Ok(None);
    };
    let sets = sets_of(kind);
    let found = inserted(alloc, &sets, mutations);
    drop(sets);
    let Some(value) = found? else {
        return Ok(None);
    };
    Ok(Some(Mutation::new(place, Mutator::Insert, value)))
}

/// Returns the column that all of these are of.
fn one_column(mutations: &[Mutation]) -> Option<usize>
    ensures { IfSome result (λ place. are_at place mutations.now ≡ true) }
{
    let [first, ..] = mutations else {
        return None;
    };
    let place = first.column();
    if !are_at(place, mutations) {
        return None;
    }
    Some(place)
}

/// Returns whether all are of this column.
fn are_at(place: usize, mutations: &[Mutation]) -> bool
    ensures { result ≡ are_at place mutations.now }
{
    mutations.iter().all(|mutation| mutation.column() == place)
}

/// Returns the kind of the elements of a column that isn't of maps.
fn element_kind(columns: &[Column], place: usize) -> Option<Kind>
    ensures set { IfSome result (λ _. (schema.column_type columns.now place).value ≡ None) }
    ensures kind { IfSome result (λ k. (schema.column_type columns.now place).key.kind ≡ kind_in k) }
{
    let uuid = ColType::scalar(Kind::Uuid);
    let column_type = type_at(columns, place, &uuid);
    let kind = match column_type.value {
        Some(_) => None,
        None => Some(column_type.key.kind),
    };
    drop(uuid);
    kind
}

/// Returns the type of the sets of any number of atoms of the kind.
fn sets_of(kind: Kind) -> ColType
    ensures { type_of result ≡ merged.sets_of (kind_in kind) }
{
    ColType {
        key: Base::plain(kind),
        value: None,
        min: 0,
        max: None,
    }
}

/// Returns what these mutations insert together, if each inserts elements, and it is at most 65,536 elements.
fn inserted(
    alloc: Global,
    sets: &ColType,
    mutations: &[Mutation],
) -> Result<Option<Value>, AllocError>
    requires flat { (type_of sets.now).value ≡ None }
    requires taken { all_take (type_of sets.now) mutations.now ≡ true }
    ensures { IfOk result (λ found. IfSome found (Inserts (type_of sets.now) mutations.now)) }
{
    if mutations.len() < 2 {
        return inserted_alone(alloc, sets, mutations);
    }
    let (front, back) = halves(mutations);
    let Some(left) = inserted(alloc, sets, front)? else {
        return Ok(None);
    };
    let Some(right) = inserted(alloc, sets, back)? else {
        return Ok(None);
    };
    united(alloc, sets, &left, right)
}

/// Returns what the one mutation inserts.
fn inserted_alone(
    alloc: Global,
    sets: &ColType,
    mutations: &[Mutation],
) -> Result<Option<Value>, AllocError>
    requires flat { (type_of sets.now).value ≡ None }
    requires taken { all_take (type_of sets.now) mutations.now ≡ true }
    ensures { IfOk result (λ found. IfSome found (Inserts (type_of sets.now) mutations.now)) }
{
    let [mutation] = mutations else {
        return Ok(None);
    };
    operand(alloc, sets, mutation)
}

/// Returns the elements of the operand, where the mutation inserts them: what it makes of the empty set.
fn operand(alloc: Global, sets: &ColType, mutation: &Mutation) -> Result<Option<Value>, AllocError>
    requires flat { (type_of sets.now).value ≡ None }
    requires taken { takes (type_of sets.now) mutation.now.mutator mutation.now.value ≡ true }
    ensures { IfOk result (λ found. IfSome found (Inserts (type_of sets.now) (mutation.now ∷ []))) }
{
    let nothing = Value::empty_set(alloc);
    let Ok(value) = mutation.on(alloc, &nothing, sets)? else {
        return Ok(None);
    };
    if value.is_empty() {
        return Ok(None);
    }
    Ok(Some(value))
}

/// Returns the elements of both sets, if they are at most 65,536.
fn united(
    alloc: Global,
    sets: &ColType,
    left: &Value,
    right: Value,
) -> Result<Option<Value>, AllocError>
    requires left { takes (type_of sets.now) model.insert left.now ≡ true }
    requires right { takes (type_of sets.now) model.insert right ≡ true }
    ensures { IfOk result (λ found. IfSome found (λ v. model.mutate model.insert right (type_of sets.now) left.now
        ≡ Ok v)) }
{
    let insertion = Mutation::new(0, Mutator::Insert, right);
    match insertion.on(alloc, left, sets)? {
        Ok(value) => Ok(Some(value)),
        Err(_) => Ok(None),
    }
}
