//! Scripts that are played to a core, to a hub and to `run_script`, again and again: each time one request for memory is
//! refused, the first, the second and so on, where `tests/refusals` plays this. Else none is, and each is played once. A
//! call for which memory is refused is made once more, with what came back, and all that is sent has to be what is sent where
//! nothing is refused.

mod made;
mod on_core;
mod on_hub;
mod on_script;
mod refusing;
mod scripts;
mod sent;

use made::core;
use odb_script::RunFault;
use on_core::play_to_core;
use on_hub::play_to_hub;
use on_script::{input, lines_of, play_to_script};
use refusing::{refuse, was_refused};
use scripts::{DELETED, MERGED, RESUMED, SHIFTED, WAITS, WEAK, flood};
use sent::Sent;
use std::alloc::{AllocError, Global};
use std::hash::RandomState;
use std::marker::Brand;
use std::sync::Wait;
use std::sync::ledger::Blank;
use std::test::Fail;
use std::thread::Threads;
use std::time::Clock;

/// More requests for memory than any script makes.
const MOST: usize = 1_000_000;

/// To what a script is played.
#[derive(Clone, Copy, PartialEq, Eq)]
enum PlayTarget {
    /// To a core, by `round`.
    Core,
    /// To a core, by `jobs`, `compose`, `finish` and `accept`.
    Jobs,
    /// To a hub.
    Hub,
}

fn play<R: Threads + Wait + Clock + Sync>(
    rt: &R,
    alloc: Global,
    hashing: RandomState,
    way: PlayTarget,
    script: &[&str],
) -> Result<Sent, AllocError> {
    let core = core(alloc, hashing)?;
    match way {
        PlayTarget::Hub => play_to_hub::<Brand, R>(rt, alloc, core, Blank::new(3), script),
        _ => play_to_core(alloc, core, script, way),
    }
}

/// Returns the number of the first request for memory that makes a difference where it is refused, if one does; 0 where
/// memory is refused though nobody refuses any.
fn first_wrong<R: Threads + Wait + Clock + Sync>(
    rt: &R,
    alloc: Global,
    hashing: RandomState,
    way: PlayTarget,
    script: &[&str],
) -> Result<Option<usize>, AllocError> {
    let Ok(wanted) = play(rt, alloc, hashing, way, script) else {
        return Ok(Some(0));
    };
    for number in 1..MOST {
        refuse(alloc, number)?;
        let sent = play(rt, alloc, hashing, way, script);
        let refused = was_refused(alloc);
        if !is_sent(&sent, &wanted) {
            return Ok(Some(number));
        }
        if !refused {
            return Ok(None);
        }
    }
    Ok(Some(MOST))
}

fn is_sent(sent: &Result<Sent, AllocError>, wanted: &Sent) -> bool {
    match sent {
        Ok(sent) => sent.is_as(wanted),
        Err(_) => false,
    }
}

/// Returns the number of the first request for memory whose refusal lets `run_script` print anything but a beginning of
/// what it prints without, or end otherwise than in the fault `Memory` or with all of it, if there is one.
fn first_wrong_run(
    alloc: Global,
    hashing: RandomState,
    script: &[&str],
) -> Result<Option<usize>, AllocError> {
    let input = input(alloc, script)?;
    let (wanted, _) = play_to_script(alloc, hashing, input.as_slice())?;
    for number in 1..MOST {
        refuse(alloc, number)?;
        let ran = play_to_script(alloc, hashing, input.as_slice());
        let refused = was_refused(alloc);
        let (printed, ended) = ran?;
        let is_right = match ended {
            Ok(()) => printed == wanted,
            Err(RunFault::Memory) => refused && wanted.starts_with(printed.as_slice()),
            Err(_) => false,
        };
        if !is_right {
            return Ok(Some(number));
        }
        if !refused {
            return Ok(None);
        }
    }
    Ok(Some(MOST))
}

/// Returns whether a core sends just what the script prints.
fn are_sent(alloc: Global, hashing: RandomState, script: &[&str]) -> Result<bool, AllocError> {
    let sent = play_to_core(alloc, core(alloc, hashing)?, script, PlayTarget::Core)?;
    let input = input(alloc, script)?;
    let (printed, _) = play_to_script(alloc, hashing, input.as_slice())?;
    Ok(
        sent.first == lines_of(alloc, printed.as_slice(), b'A')?
            && sent.second == lines_of(alloc, printed.as_slice(), b'B')?,
    )
}

#[test]
fn each_request_for_memory_is_refused(rt: HostRuntime) -> Result<(), Fail> {
    let alloc = rt.alloc();
    let flood = flood(alloc)?;
    let scripts: [&[&str]; 7] = [
        &DELETED,
        &WEAK,
        &MERGED,
        &SHIFTED,
        &RESUMED,
        &WAITS,
        flood.as_slice(),
    ];
    let hashing = RandomState::new(&rt)?;
    for (place, script) in scripts.iter().enumerate() {
        assert!(rt;
            matches!(are_sent(alloc, hashing, script), Ok(true)),
            "script {place}"
        );
        for (number, way) in [PlayTarget::Core, PlayTarget::Jobs, PlayTarget::Hub]
            .iter()
            .enumerate()
        {
            let wrong = first_wrong(&rt, alloc, hashing, *way, script)?;
            assert_eq!(rt; wrong, None, "script {place}, way {number}");
        }
        assert_eq!(rt;
            first_wrong_run(alloc, hashing, script)?,
            None,
            "script {place}"
        );
    }
    Ok(())
}
