//! First replies: who asks what another asked is told it by the same text, of which a few are kept.

use crate::requests::core;
use crate::sharing::submitter;
use odb_core::Core;
use std::alloc::{AllocError, Global};
use std::hash::RandomState;
use std::sync::Arc;
use std::test::Fail;

/// A schema with a table whose rows have names.
const NAMES: &[u8] =
    br#"{"name":"net","version":"1.0.0","tables":{"T":{"isRoot":true,"columns":{"name":{"type":"string"}}}}}"#;

/// How many letters the name of the row has: a shorter text isn't kept.
const LETTERS: usize = 5_000;

/// How many clients ask, each by another filter: more than there are texts kept.
const ASKERS: u8 = 20;

/// How many texts are kept at most.
const MOST_KEPT: usize = 8;

/// Returns a request that inserts a row with a long name.
fn insert(alloc: Global) -> Result<Vec<u8>, AllocError> {
    let mut text = Vec::new(alloc);
    text.extend_from_slice(
        br#"{"id":1,"method":"transact","params":["net",{"op":"insert","table":"T","row":{"name":""#,
    )?;
    for _ in 0..LETTERS {
        text.push(b'n')?;
    }
    text.extend_from_slice(br#""}}]}"#)?;
    Ok(text)
}

/// Returns a request for a monitor of the rows that aren't named by this letter, counted from `A`.
fn monitor(alloc: Global, letter: u8) -> Result<Vec<u8>, AllocError> {
    let mut text = Vec::new(alloc);
    text.extend_from_slice(
        br#"{"id":1,"method":"monitor_cond","params":["net",null,{"T":[{"where":[["name","!=",""#,
    )?;
    text.push(b'A'.saturating_add(letter))?;
    text.extend_from_slice(br#""]]}]}]}"#)?;
    Ok(text)
}

/// Gives each of the clients its first reply, one after the other.
fn tell_each(alloc: Global, core: &mut Core) -> Result<(), AllocError> {
    for letter in 0..ASKERS {
        let session = submitter(alloc, core, monitor(alloc, letter)?.as_slice())?;
        drop(core.round(&[session])?);
    }
    Ok(())
}

/// Returns whether the text that comes to a new client which asks by this filter is one that is kept.
fn is_kept(alloc: Global, core: &mut Core, letter: u8) -> Result<bool, AllocError> {
    let session = submitter(alloc, core, monitor(alloc, letter)?.as_slice())?;
    for body in core.jobs(&[session])?.compose()? {
        if let Some(text) = body {
            return Ok(Arc::strong_count(&text) > 1);
        }
    }
    Err(AllocError)
}

/// Returns how many texts are kept once all clients were told.
fn count_kept(alloc: Global, core: &mut Core) -> Result<usize, AllocError> {
    submitter(alloc, core, insert(alloc)?.as_slice())?;
    tell_each(alloc, core)?;
    let mut count: usize = 0;
    for letter in 0..ASKERS {
        if is_kept(alloc, core, letter)? {
            count = count.saturating_add(1);
        }
    }
    Ok(count)
}

#[test]
fn a_few_first_replies_are_kept(rt: HostRuntime) -> Result<(), Fail> {
    let mut core = core(rt.alloc(), RandomState::new(&rt)?, NAMES)?;
    let count = count_kept(rt.alloc(), &mut core)?;
    assert!(rt; count > 0);
    assert!(rt; count <= MOST_KEPT, "{count} texts");
    Ok(())
}
