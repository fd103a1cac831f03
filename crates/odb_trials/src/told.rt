//! What a core keeps of what clients were told: a mark for each, and merged changes that slow clients share, however many commits
//! there are.

use crate::requests::{NET, core};
use crate::sharing::submitter;
use odb_core::{Core, SessionId};
use odb_schema::TableId;
use std::alloc::{AllocError, Global};
use std::hash::RandomState;
use std::test::Fail;

const MONITOR: &[u8] =
    b"{\"id\":1,\"method\":\"monitor_cond\",\"params\":[\"net\",\"m\",{\"T\":{}}]}";

const INSERT: &[u8] =
    b"{\"id\":1,\"method\":\"transact\",\"params\":[\"net\",{\"op\":\"insert\",\"table\":\"T\",\"row\":{\"k\":1}}]}";

/// How many clients subscribe.
const CLIENTS: usize = 64;

/// How many commits there are then, of which nobody is told.
const COMMITS: usize = 50;

/// How much is kept of a table.
#[derive(Clone, Copy, Debug, PartialEq, Eq)]
struct KeptCounts {
    marks: usize,
    contents: usize,
    /// Whether there are as many segments as contents, or fewer.
    are_few: bool,
}

/// Returns so many marks and contents, and few segments.
fn few(marks: usize, contents: usize) -> KeptCounts {
    KeptCounts {
        marks,
        contents,
        are_few: true,
    }
}

/// Returns what is kept of the first table.
fn kept_by(alloc: Global, core: &Core) -> Result<KeptCounts, AllocError> {
    let told = core.told();
    let marks = told.marks(alloc)?.len();
    let chains = told.chains();
    if chains.db().len() == 0 {
        return Err(AllocError);
    }
    let contents = chains.distinct_marks(TableId::at(0));
    let segments = chains.segments(TableId::at(0));
    Ok(KeptCounts {
        marks,
        contents,
        are_few: segments <= contents,
    })
}

/// Opens sessions that subscribe, and gives them their first replies.
fn subscribers(alloc: Global, core: &mut Core) -> Result<Vec<SessionId>, AllocError> {
    let mut sessions = Vec::new(alloc);
    for _ in 0..CLIENTS {
        sessions.push(submitter(alloc, core, MONITOR)?)?;
    }
    drop(core.round(&sessions)?);
    Ok(sessions)
}

fn insert_some(alloc: Global, core: &mut Core) -> Result<(), AllocError> {
    for _ in 0..COMMITS {
        submitter(alloc, core, INSERT)?;
    }
    Ok(())
}

/// Closes these sessions.
fn close_all(core: &mut Core, sessions: &[SessionId]) -> Result<(), AllocError> {
    for session in sessions {
        if core.close(*session).is_err() {
            return Err(AllocError);
        }
    }
    Ok(())
}

/// Returns what is kept while nobody is told of the commits, once one client is told of half of them, and once all are gone.
fn trial(alloc: Global, hashing: RandomState) -> Result<[KeptCounts; 3], AllocError> {
    let mut core = core(alloc, hashing, NET)?;
    let sessions = subscribers(alloc, &mut core)?;
    insert_some(alloc, &mut core)?;
    let slow = kept_by(alloc, &core)?;
    drop(core.round(&[0])?);
    insert_some(alloc, &mut core)?;
    let apart = kept_by(alloc, &core)?;
    close_all(&mut core, &sessions)?;
    Ok([slow, apart, kept_by(alloc, &core)?])
}

#[test]
fn slow_clients_share_what_changed(rt: HostRuntime) -> Result<(), Fail> {
    let found = trial(rt.alloc(), RandomState::new(&rt)?)?;
    assert_eq!(rt; found, [few(CLIENTS, 1), few(CLIENTS, 2), few(0, 0)]);
    Ok(())
}
