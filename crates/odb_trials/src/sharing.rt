//! Clients that subscribe alike are sent one text, which is stored once.

use crate::requests::{NET, add_message, core, request};
use odb_core::{Core, Out, SessionId};
use odb_hub::Submission;
use std::alloc::{AllocError, Global};
use std::hash::RandomState;
use std::sync::Arc;
use std::test::Fail;

const MONITOR: &[u8] =
    b"{\"id\":1,\"method\":\"monitor_cond\",\"params\":[\"net\",\"m\",{\"T\":{}}]}";

/// The same of all rows but those of this number, which none has.
const FILTERED: &[u8] =
    b"{\"id\":1,\"method\":\"monitor_cond\",\"params\":[\"net\",\"m\",{\"T\":{\"where\":[[\"k\",\"!=\",-1]]}}]}";

const INSERT: &[u8] =
    b"{\"id\":1,\"method\":\"transact\",\"params\":[\"net\",{\"op\":\"insert\",\"table\":\"T\",\"row\":{\"k\":1}}]}";

/// How many clients subscribe.
const CLIENTS: usize = 64;

/// Returns a session that submits the request of this text.
pub(crate) fn submitter(
    alloc: Global,
    core: &mut Core,
    text: &[u8],
) -> Result<SessionId, AllocError> {
    let Ok(session) = core.open() else {
        return Err(AllocError);
    };
    let submission = request(alloc, text)?;
    submit(core, session, submission)?;
    Ok(session)
}

fn submit(core: &mut Core, session: SessionId, submission: Submission) -> Result<(), AllocError> {
    let Submission { request, fresh } = submission;
    match core.submit(session, request, fresh.as_slice(), 0) {
        Ok(()) => Ok(()),
        Err(_) => Err(AllocError),
    }
}

/// What a round of all clients is made of.
#[derive(Clone, Copy, Debug, PartialEq, Eq)]
struct Made {
    /// How many compositions it needs.
    jobs: usize,
    /// How many clients are sent the text that the first one is sent.
    alike: usize,
}

/// Adds so many sessions that subscribe by the request of this text.
fn subscribe(
    alloc: Global,
    core: &mut Core,
    text: &[u8],
    count: usize,
    sessions: &mut Vec<SessionId>,
) -> Result<(), AllocError> {
    for _ in 0..count {
        sessions.push(submitter(alloc, core, text)?)?;
    }
    Ok(())
}

/// Sessions that subscribe, and were sent their first replies: so many of all rows, the others by a filter.
fn subscribers(
    alloc: Global,
    core: &mut Core,
    unfiltered: usize,
) -> Result<Vec<SessionId>, AllocError> {
    let mut sessions = Vec::new(alloc);
    subscribe(alloc, core, MONITOR, unfiltered, &mut sessions)?;
    let filtered = CLIENTS.saturating_sub(unfiltered);
    subscribe(alloc, core, FILTERED, filtered, &mut sessions)?;
    drop(core.round(&sessions)?);
    Ok(sessions)
}

fn text_of(alloc: Global, out: &Out) -> Result<Vec<u8>, AllocError> {
    let mut text = Vec::new(alloc);
    add_message(&mut text, out)?;
    Ok(text)
}

/// Returns how many of the messages have the text of the first.
fn like_first(alloc: Global, outs: &[Out]) -> Result<usize, AllocError> {
    let Some(first) = outs.first() else {
        return Ok(0);
    };
    let text = text_of(alloc, first)?;
    let mut count: usize = 0;
    for out in outs {
        if text_of(alloc, out)?.as_slice() == text.as_slice() {
            count = count.saturating_add(1);
        }
    }
    Ok(count)
}

/// Returns what a round is made of that tells all clients of one update, where so many of them asked without a filter.
fn round_of_all(
    alloc: Global,
    hashing: RandomState,
    unfiltered: usize,
) -> Result<Made, AllocError> {
    let mut core = core(alloc, hashing, NET)?;
    let sessions = subscribers(alloc, &mut core, unfiltered)?;
    submitter(alloc, &mut core, INSERT)?;
    let jobs = core.jobs(&sessions)?.list().len();
    let outs = core.round(&sessions)?;
    let alike = like_first(alloc, &outs)?;
    Ok(Made { jobs, alike })
}

/// Returns how many of the messages have a body that so many messages share.
fn sharing(outs: &[Out], messages: usize) -> usize {
    let mut count: usize = 0;
    for out in outs {
        if is_shared_by(out, messages) {
            count = count.saturating_add(1);
        }
    }
    count
}

fn is_shared_by(out: &Out, messages: usize) -> bool {
    match &out.body {
        Some(body) => Arc::strong_count(body) == messages,
        None => false,
    }
}

/// Returns how many clients are sent the text of one update that all of them share.
fn trial(alloc: Global, hashing: RandomState) -> Result<usize, AllocError> {
    let mut core = core(alloc, hashing, NET)?;
    let sessions = subscribers(alloc, &mut core, CLIENTS)?;
    submitter(alloc, &mut core, INSERT)?;
    let outs = core.round(&sessions)?;
    Ok(sharing(&outs, CLIENTS))
}

#[test]
fn like_clients_share_one_text(rt: HostRuntime) -> Result<(), Fail> {
    let found = trial(rt.alloc(), RandomState::new(&rt)?)?;
    assert_eq!(rt; found, CLIENTS);
    Ok(())
}

#[test]
fn like_clients_are_one_job(rt: HostRuntime) -> Result<(), Fail> {
    let found = round_of_all(rt.alloc(), RandomState::new(&rt)?, CLIENTS)?;
    assert_eq!(rt;
        found,
        Made {
            jobs: 1,
            alike: CLIENTS
        }
    );
    Ok(())
}

#[test]
fn two_groups_are_two_jobs(rt: HostRuntime) -> Result<(), Fail> {
    let found = round_of_all(rt.alloc(), RandomState::new(&rt)?, CLIENTS / 2)?;
    assert_eq!(rt;
        found,
        Made {
            jobs: 2,
            alike: CLIENTS
        }
    );
    Ok(())
}
