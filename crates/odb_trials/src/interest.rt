//! A thousand sessions, each of which watches the rows of one name: whom a commit concerns, and what is composed for all
//! of them.

use crate::requests::{core, request};
use odb_core::{Core, SessionId};
use odb_hub::Submission;
use std::alloc::{AllocError, Global};
use std::hash::RandomState;
use std::test::Fail;

/// A schema with a table whose rows have names, and another.
const NAMES: &[u8] =
    b"{\"name\":\"net\",\"version\":\"1.0.0\",\"tables\":{\"T\":{\"isRoot\":true,\"columns\":{\"name\":{\"type\":\"string\"}}},\"U\":{\"isRoot\":true,\"columns\":{\"name\":{\"type\":\"string\"}}}}}";

const WATCHERS: usize = 1_000;

const DIGITS: &[u8; 10] = b"0123456789";

/// What was found after a row was renamed from the name of the session 1 to that of the session 2.
#[derive(Clone, Copy, Debug, PartialEq, Eq)]
struct RenameOutcome {
    /// How many sessions may be owed something after rounds gave all; after a row of another table was inserted; and after
    /// the row was renamed.
    owed: [usize; 3],
    /// Whether these are the sessions 1 and 2, and the one that is owed its reply.
    are_concerned: bool,
    /// The compositions for a round of all sessions that watch.
    jobs: usize,
}

/// Adds the name that the session of this number watches: `s` and three digits.
fn add_name(text: &mut Vec<u8>, number: usize) -> Result<(), AllocError> {
    text.push(b's')?;
    text.push(DIGITS[number / 100 % 10])?;
    text.push(DIGITS[number / 10 % 10])?;
    text.push(DIGITS[number % 10])?;
    Ok(())
}

/// Returns the text of a request for a monitor of the rows of this name.
fn watch(alloc: Global, number: usize) -> Result<Vec<u8>, AllocError> {
    let mut text = Vec::new(alloc);
    text.extend_from_slice(
        b"{\"id\":1,\"method\":\"monitor_cond\",\"params\":[\"net\",null,{\"T\":[{\"where\":[[\"name\",\"==\",\"",
    )?;
    add_name(&mut text, number)?;
    text.extend_from_slice(b"\"]]}]}]}")?;
    Ok(text)
}

fn submit(
    alloc: Global,
    core: &mut Core,
    session: SessionId,
    text: &[u8],
) -> Result<(), AllocError> {
    let Submission { request, fresh } = request(alloc, text)?;
    match core.submit(session, request, fresh.as_slice(), 0) {
        Ok(()) => Ok(()),
        Err(_) => Err(AllocError),
    }
}

fn open(core: &mut Core) -> Result<SessionId, AllocError> {
    match core.open() {
        Ok(session) => Ok(session),
        Err(_) => Err(AllocError),
    }
}

/// Opens the sessions that watch, and returns their numbers.
fn watchers(alloc: Global, core: &mut Core) -> Result<Vec<SessionId>, AllocError> {
    let mut listed = Vec::new(alloc);
    for number in 0..WATCHERS {
        let session = open(core)?;
        submit(alloc, core, session, watch(alloc, number)?.as_slice())?;
        listed.push(session)?;
    }
    Ok(listed)
}

/// Gives these sessions what they are owed: three messages each at most.
fn take_all(core: &mut Core, listed: &[SessionId]) -> Result<(), AllocError> {
    for _ in 0..3 {
        drop(core.round(listed)?);
    }
    Ok(())
}

/// Returns whether the sessions 1 and 2 and this one may be owed something, and no other.
fn are_concerned(core: &Core, writer: SessionId) -> bool {
    let owed = core.owed();
    owed.len() == 3 && owed.contains(&1) && owed.contains(&2) && owed.contains(&writer)
}

const INSERT: &[u8] =
    b"{\"id\":1,\"method\":\"transact\",\"params\":[\"net\",{\"op\":\"insert\",\"table\":\"T\",\"row\":{\"name\":\"s001\"}}]}";

const INSERT_ELSEWHERE: &[u8] =
    b"{\"id\":1,\"method\":\"transact\",\"params\":[\"net\",{\"op\":\"insert\",\"table\":\"U\",\"uuid\":\"00000000-0000-4000-8000-000000000001\",\"row\":{\"name\":\"s001\"}}]}";

const RENAME: &[u8] =
    b"{\"id\":1,\"method\":\"transact\",\"params\":[\"net\",{\"op\":\"update\",\"table\":\"T\",\"where\":[[\"name\",\"==\",\"s001\"]],\"row\":{\"name\":\"s002\"}}]}";

fn trial(alloc: Global, core: &mut Core) -> Result<RenameOutcome, AllocError> {
    let listed = watchers(alloc, core)?;
    let writer = open(core)?;
    submit(alloc, core, writer, INSERT)?;
    take_all(core, listed.as_slice())?;
    take_all(core, &[writer])?;
    let before = core.owed().len();
    submit(alloc, core, writer, INSERT_ELSEWHERE)?;
    let elsewhere = core.owed().len();
    take_all(core, &[writer])?;
    submit(alloc, core, writer, RENAME)?;
    Ok(RenameOutcome {
        owed: [before, elsewhere, core.owed().len()],
        are_concerned: are_concerned(core, writer),
        jobs: core.jobs(listed.as_slice())?.list().len(),
    })
}

#[test]
fn a_row_that_is_renamed_concerns_two_of_a_thousand(rt: HostRuntime) -> Result<(), Fail> {
    let mut core = core(rt.alloc(), RandomState::new(&rt)?, NAMES)?;
    let found = trial(rt.alloc(), &mut core)?;
    let wanted = RenameOutcome {
        owed: [0, 1, 3],
        are_concerned: true,
        jobs: 2,
    };
    assert_eq!(rt; found, wanted);
    Ok(())
}

/// Returns how many sessions may be owed something before and after one is closed that watches and wasn't given its reply.
fn close_one(alloc: Global, core: &mut Core) -> Result<[usize; 2], AllocError> {
    let session = open(core)?;
    submit(alloc, core, session, watch(alloc, 1)?.as_slice())?;
    let before = core.owed().len();
    match core.close(session) {
        Ok(()) => Ok([before, core.owed().len()]),
        Err(_) => Err(AllocError),
    }
}

#[test]
fn a_session_that_is_closed_is_owed_nothing(rt: HostRuntime) -> Result<(), Fail> {
    let mut core = core(rt.alloc(), RandomState::new(&rt)?, NAMES)?;
    let found = close_one(rt.alloc(), &mut core)?;
    assert_eq!(rt; found, [1, 0]);
    Ok(())
}
