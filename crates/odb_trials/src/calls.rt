//! Calls that no program makes and that may say that there is no memory: a body that always says so would meet their contracts.
//! Each is made once, and what it answers is looked at.

use odb_atoms::{Admit, Atom, ColType, Row, Value};
use odb_cond::{Clause, Filter, Function, Member, Selector};
use odb_locks::{LockFault, Locks};
use odb_schema::{Schema, TableId};
use odb_tables::{Db, Draft};
use odb_wire::{MAX_MESSAGE, read_pieces};
use std::alloc::{AllocError, Global};
use std::hash::RandomState;
use std::test::Fail;
use uuid::Uuid;

/// Schemas as they are printed: with an enum, a map and a reference, and with sets of two integers of at most 5.
const PRINTED: &str =
    r#"{"name":"net","tables":{"T":{"columns":{"e":{"type":{"key":{"enum":["set",["a","b"]],"type":"string"}}},"m":{"type":{"key":"string","max":"unlimited","min":0,"value":{"refTable":"T","type":"uuid"}}},"s":{"type":{"key":{"maxInteger":5,"type":"integer"},"max":2,"min":0}}}}},"version":"1.0.0"}"#;

fn schema(alloc: Global) -> Result<Schema, AllocError> {
    match Schema::read(alloc, PRINTED.as_bytes()) {
        Ok(schema) => Ok(schema),
        Err(_) => Err(AllocError),
    }
}

/// Returns the type of the schema's sets.
fn type_of_sets(schema: &Schema) -> Result<&ColType, AllocError> {
    match schema.tables() {
        [table] => match table.columns() {
            [_, _, column] => Ok(column.column_type()),
            _ => Err(AllocError),
        },
        _ => Err(AllocError),
    }
}

fn set(alloc: Global, numbers: &[i64]) -> Result<Value, AllocError> {
    let mut elements = Vec::with_capacity(alloc, numbers.len())?;
    for number in numbers {
        elements.push(Atom::Integer(*number))?;
    }
    match Value::set(elements) {
        Ok(set) => Ok(set),
        Err(_) => Err(AllocError),
    }
}

/// Tries that a copy of a schema prints what it was read from.
fn copies_and_writes_a_schema(alloc: Global) -> Result<bool, AllocError> {
    let copy = schema(alloc)?.try_copy(alloc)?;
    let text = copy.to_json(alloc)?;
    Ok(text.as_slice() == PRINTED.as_bytes())
}

/// Tries that what leads from {1, 2} to {2, 3} is {1, 3}, and leads there.
fn applies_a_difference(alloc: Global) -> Result<bool, AllocError> {
    let schema = schema(alloc)?;
    let kind = type_of_sets(&schema)?;
    let new = set(alloc, &[1, 2])?.apply(alloc, &set(alloc, &[1, 3])?, kind)?;
    Ok(new == set(alloc, &[2, 3])?)
}

/// Tries that a set is refused for the number of its elements, before one of them is for its size.
fn admits_for_its_number_first(alloc: Global) -> Result<bool, AllocError> {
    let schema = schema(alloc)?;
    let kind = type_of_sets(&schema)?;
    Ok(
        matches!(set(alloc, &[7, 8, 9])?.admit(kind), Err(Admit::TooMany))
            && matches!(set(alloc, &[4, 7])?.admit(kind), Err(Admit::Constraint))
            && matches!(set(alloc, &[4, 5])?.admit(kind), Ok(())),
    )
}

/// Tries that a thief that ends gives the lock back.
fn locks_steals_and_drops(alloc: Global) -> Result<bool, LockFault> {
    let mut locks = Locks::new(alloc);
    let owner = locks.lock(1, "L")?;
    let thief = locks.steal(2, "L")?;
    let is_robbed = !locks.owns(1, "L");
    let told = locks.drop_session(2)?;
    Ok(owner.owns && thief.owns && is_robbed && told.len() == 1 && locks.owns(1, "L"))
}

/// Tries a message that comes in two pieces, and a fault after it.
fn reads_pieces(alloc: Global) -> Result<bool, AllocError> {
    let fed = read_pieces(
        alloc,
        MAX_MESSAGE,
        &[b"{\"result\"".as_slice(), b":1}]".as_slice()],
    )?;
    Ok(fed.messages.len() == 1 && fed.fault.is_some())
}

fn copies_a_filter(alloc: Global) -> Result<bool, AllocError> {
    let mut members = Vec::with_capacity(alloc, 2)?;
    members.push(Member::Always(false))?;
    let clause = Clause::new(Selector::Declared(2), Function::Equal, set(alloc, &[1])?);
    members.push(Member::When(clause))?;
    let filter = Filter::new(alloc, members)?;
    Ok(filter.try_copy(alloc)?.same(&filter))
}

/// Tries that what a draft changed is installed.
fn changes_a_database(alloc: Global, hashing: RandomState) -> Result<bool, AllocError> {
    let mut db = Db::new(alloc, 1, hashing)?;
    let table = TableId::at(0);
    let mut draft = Draft::new(alloc, &db)?;
    draft.put(table, Uuid::nil(), Row::new(Uuid::nil(), Vec::new(alloc)))?;
    let changes = draft.changes()?;
    db.install(changes)?;
    Ok(db.get(table, Uuid::nil()).is_some())
}

#[test]
fn calls_that_no_program_makes(rt: HostRuntime) -> Result<(), Fail> {
    let alloc = rt.alloc();
    assert!(rt;
        matches!(copies_and_writes_a_schema(alloc), Ok(true)),
        "schema"
    );
    assert!(rt;
        matches!(applies_a_difference(alloc), Ok(true)),
        "difference"
    );
    assert!(rt;
        matches!(admits_for_its_number_first(alloc), Ok(true)),
        "number"
    );
    assert!(rt; matches!(locks_steals_and_drops(alloc), Ok(true)), "locks");
    assert!(rt; matches!(reads_pieces(alloc), Ok(true)), "pieces");
    assert!(rt; matches!(copies_a_filter(alloc), Ok(true)), "filter");
    assert!(rt;
        matches!(changes_a_database(alloc, RandomState::new(&rt)?), Ok(true)),
        "database"
    );
    Ok(())
}
