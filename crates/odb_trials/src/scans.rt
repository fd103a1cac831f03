//! Rounds for which several threads test the rows of a table: the text is that which one thread composes.

use crate::requests::{NET, core};
use crate::sharing::submitter;
use odb_par::{Open, compose_all, pick};
use std::alloc::{AllocError, Global};
use std::hash::RandomState;
use std::sync::Arc;
use std::test::Fail;

/// How many rows there are: from 2,048 on several threads test and print them, and from 4,096 on put them in order.
const ROWS: usize = 4_200;

/// A monitor of the first rows and of the last, by so many conditions that 16,384 tests are made and more.
const ASKS: &[u8] =
    br#"{"id":2,"method":"monitor_cond","params":["net",null,{"T":[{"columns":["k"],"where":[["k","<",1001],["k","<",1002],["k","<",1003],["k","<",1004],["k",">",5195],["k",">",5196],["k",">",5197],["k",">",5198]]}]}]}"#;

/// Returns a request that inserts the rows, whose numbers are 1,000 and up.
fn inserts(alloc: Global) -> Result<Vec<u8>, AllocError> {
    let mut text = Vec::new(alloc);
    text.extend_from_slice(br#"{"id":1,"method":"transact","params":["net""#)?;
    for place in 0..ROWS {
        put_insert(&mut text, 1_000 + place)?;
    }
    text.extend_from_slice(b"]}")?;
    Ok(text)
}

/// Writes the insert of the row with this number, which is its identifier's too.
fn put_insert(text: &mut Vec<u8>, number: usize) -> Result<(), AllocError> {
    text.extend_from_slice(
        br#",{"op":"insert","table":"T","uuid":"00000000-0000-0000-0000-00000000"#,
    )?;
    put_number(text, number)?;
    text.extend_from_slice(br#"","row":{"k":"#)?;
    put_number(text, number)?;
    text.extend_from_slice(b"}}")
}

/// Writes the last four digits of the number.
fn put_number(text: &mut Vec<u8>, number: usize) -> Result<(), AllocError> {
    put_digit(text, number / 1_000)?;
    put_digit(text, number / 100)?;
    put_digit(text, number / 10)?;
    put_digit(text, number)
}

/// Writes the last digit of the number.
fn put_digit(text: &mut Vec<u8>, number: usize) -> Result<(), AllocError> {
    text.push(b"0123456789"[number % 10])?;
    Ok(())
}

/// Returns how many bytes the body has.
fn length_of(body: &Option<Arc<Vec<u8>>>) -> usize {
    match body {
        Some(text) => text.len(),
        None => 0,
    }
}

#[test]
fn several_threads_test_the_rows_of_a_table(rt: HostRuntime) -> Result<(), Fail> {
    let alloc = rt.alloc();
    let mut core = core(alloc, RandomState::new(&rt)?, NET)?;
    submitter(alloc, &mut core, &inserts(alloc)?)?;
    let session = submitter(alloc, &mut core, ASKS)?;
    let jobs = core.jobs(&[session])?;
    let alone = jobs.compose()?;
    let beside = compose_all(&rt, alloc, jobs.list(), 2, &Open)?;
    assert!(rt; beside == alone);
    assert_eq!(rt; jobs.list().len(), 1);
    for job in jobs.list() {
        let body = pick(&rt, alloc, job)?.compose(alloc)?;
        assert_eq!(rt; length_of(&body), 503, "eight rows");
    }
    Ok(())
}

/// A monitor of all rows, by so many conditions, that each row meets, that 16,384 tests are made and more.
const ASKS_ALL: &[u8] =
    br#"{"id":2,"method":"monitor_cond","params":["net",null,{"T":[{"columns":["k"],"where":[["k","<",4001],["k","<",4002],["k","<",4003],["k","<",4004],["k",">",1],["k",">",2],["k",">",3],["k",">",4]]}]}]}"#;

#[test]
fn several_threads_print_pieces_of_a_table(rt: HostRuntime) -> Result<(), Fail> {
    let alloc = rt.alloc();
    let mut core = core(alloc, RandomState::new(&rt)?, NET)?;
    submitter(alloc, &mut core, &inserts(alloc)?)?;
    let session = submitter(alloc, &mut core, ASKS_ALL)?;
    let jobs = core.jobs(&[session])?;
    let alone = jobs.compose()?;
    let by_two = compose_all(&rt, alloc, jobs.list(), 2, &Open)?;
    let by_three = compose_all(&rt, alloc, jobs.list(), 3, &Open)?;
    assert!(rt; by_two == alone);
    assert!(rt; by_three == alone);
    for body in &alone {
        assert!(rt; length_of(body) > ROWS * 60, "all rows");
    }
    Ok(())
}
