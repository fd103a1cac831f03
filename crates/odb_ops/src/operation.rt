//! Operations (RFC 7047, section 5.2), carried out on a draft. [P 4.2]
ghost use Rattle.std.specs.Prelude.{◌≡◌, ◌<◌, ◌++◌, List, OnOk, Some, length, map, option_map, string_bytes, unwrap_or, ℕ};
ghost use Rattle.std.specs.List.{list_any};
ghost use Rattle.odb_atoms.specs.Represented.Atom.{uuid_of};
ghost use Rattle.odb_atoms.specs.Text.{same_text};
ghost use Rattle.odb_atoms.specs.Uuid as model_uuid;
ghost use Rattle.odb_json.specs.Represented.Fault.{Reads};
ghost use Rattle.odb_json.specs.Represented.Operation.{op_of};
ghost use Rattle.odb_json.specs.Suited.{IsFor};
ghost use Rattle.odb_json.specs.declared.op.Op.TheVariants as op;
ghost use Rattle.odb_ops.specs.Execution as model;
ghost use Rattle.odb_ops.specs.Represented.Context.{context_of, is_named};
ghost use Rattle.odb_ops.specs.Represented.Draft.{naming};
ghost use Rattle.odb_ops.specs.Represented.Parts.{AreTaken};
ghost use Rattle.odb_ops.specs.Represented.Stop.{Performs, named_after, stop_of};
ghost use Rattle.odb_tables.specs.Typed.{IsTyped};

use crate::context::{Context, Setting};
use crate::deadline::unmet;
use crate::delete::delete;
use crate::insert::insert;
use crate::mutate::mutate;
use crate::names::claim;
use crate::results::{self, OperationResult};
use crate::select::select;
use crate::stop::Stop;
use crate::update::update;
use crate::wait::{has_rows, is_reached};
use odb_atoms::Error;
use odb_json::{Insert, Names, Op, OpFault, Wait};
use odb_tables::Draft;
use std::alloc::Global;
use uuid::Uuid;

/// Returns the result of an operation that goes on where a test holds.
fn empty_result_if(alloc: Global, holds: bool, stop: Stop) -> Result<OperationResult, Stop>
    ensures { (d : model.Draft) (s : model.Stop) → stop_of stop ≡ Some s
        → Performs (λ v. (d, v)) result (model.go_on holds d s) }
{
    if holds {
        Ok(results::nothing(alloc)?)
    } else {
        Err(stop)
    }
}

/// Carries out `insert`, whose name is taken first, under its own identifier or the one that is handed in.
fn insert_named(
    setting: &Setting<'_>,
    draft: &mut Draft,
    taken: &mut Names,
    uuid: Uuid,
    new: Insert,
) -> Result<OperationResult, OpFault>
    requires inside { new.table < length draft.old.old }
    requires in_schema { new.table < length setting.now.schema.now.tables }
    ensures ran { (named : List (List ℕ)) → AreTaken taken.old named
        → Reads (λ v. (
          naming (model.name_list (option_map string_bytes new.name) ++ named) draft.new,
          v,
        )) result
        (model.inserted setting.entry.now.schema.now (naming named draft.old)
        (unwrap_or (option_map uuid_of new.uuid) (uuid_of uuid)) new.table new.row.items
        (option_map string_bytes new.name)) }
    ensures taken { OnOk result ((named : List (List ℕ)) → AreTaken taken.old named
        → AreTaken taken.new (model.name_list (option_map string_bytes new.name) ++ named)) }
    ensures base { draft.new.old ≡ draft.old.old }
{
    let Insert {
        table,
        row,
        name,
        uuid: own,
    } = new;
    let uuid = own.unwrap_or(uuid);
    claim(taken, name, uuid)?;
    insert(&setting.target(table), draft, uuid, row)
}

/// Returns the result of a `wait` that is met or isn't.
fn wait_or_go_on(
    alloc: Global,
    context: &Context,
    reached: bool,
    timeout: Option<u64>,
) -> Result<OperationResult, Stop>
    ensures { (d : model.Draft) → Performs (λ v. (d, v)) result
        (model.go_on reached d (model.unmet (context_of context.entry.now)
        (model.deadline (context_of context.entry.now) timeout))) }
{
    empty_result_if(alloc, reached, unmet(context, timeout))
}

/// Carries out `wait`, which goes on where the rows are as it wants them.
#[tactic(auto, unfolding(crate::specs::Execution::perform))]
fn wait(setting: &Setting<'_>, draft: &Draft, asked: &Wait) -> Result<OperationResult, Stop>
    requires in_schema { asked.now.table < length setting.now.schema.now.tables }
    ensures { (u : model_uuid.Uuid) (named : List (List ℕ)) → Performs (λ v. (naming named draft.now, v)) result
        (model.perform setting.entry.now.schema.now (context_of setting.entry.now.context.now) u
        (naming named draft.now) (op_of (op.Wait asked.now))) }
{
    let same = has_rows(&setting.target(asked.table), draft, asked)?;
    wait_or_go_on(
        setting.alloc,
        setting.context,
        is_reached(asked.until, same),
        asked.timeout,
    )
}

/// Returns whether the name is among them.
pub(crate) fn is_among(names: &[&str], name: &str) -> bool
    ensures { result ≡ list_any (λ other. same_text name.now other.now) names.now }
{
    names.iter().any(|other| name == *other)
}

/// Returns whether the session owns the lock.
fn owns(context: &Context, lock: &str) -> bool
    ensures { result ≡ (context_of context.entry.now).owns lock.now }
{
    is_among(context.owned, lock)
}

/// Carries an operation out on the draft; its result. An insert has its own identifier or `uuid`, and
/// its name may not be among those `taken`, to which it is added.
#[tactic(auto, unfolding(crate::specs::Execution::perform))]
pub fn perform(
    setting: &Setting<'_>,
    draft: &mut Draft,
    taken: &mut Names,
    uuid: Uuid,
    op: Op,
) -> Result<OperationResult, Stop>
    requires tables { length draft.old.old ≡ length setting.now.schema.now.tables }
    requires typed { IsTyped setting.now.schema.now draft.old.now }
    requires suits { IsFor setting.now.schema.now (op_of op) }
    ensures ran { (named : List (List ℕ)) → AreTaken taken.old named
        → Performs (λ v. (naming (named_after (op_of op) named) draft.new, v)) result
        (model.perform setting.entry.now.schema.now (context_of setting.entry.now.context.now) (uuid_of uuid)
        (naming named draft.old) (op_of op)) }
    ensures taken { OnOk result ((named : List (List ℕ)) → AreTaken taken.old named
        → AreTaken taken.new (named_after (op_of op) named)) }
    ensures base { draft.new.old ≡ draft.old.old }
{
    let alloc = setting.alloc;
    match op {
        Op::Insert(new) => Ok(insert_named(setting, draft, taken, uuid, new)?),
        Op::Select(asked) => Ok(select(&setting.target(asked.table), draft, &asked)?),
        Op::Update(asked) => Ok(update(alloc, draft, &asked)?),
        Op::Mutate(asked) => Ok(mutate(&setting.target(asked.table), draft, &asked)?),
        Op::Delete(asked) => Ok(delete(alloc, draft, &asked)?),
        Op::Wait(asked) => wait(setting, draft, &asked),
        Op::Commit { durable } => empty_result_if(
            alloc,
            !durable,
            Stop::Fails(Error::NotSupported),
        ),
        Op::Abort => Err(Stop::Fails(Error::Aborted)),
        Op::Comment => Ok(results::nothing(alloc)?),
        Op::Assert { lock } => {
            let owns = owns(setting.context, lock.as_str());
            empty_result_if(alloc, owns, Stop::Fails(Error::NotOwner))
        }
    }
}
