//! Rounds whose jobs two workers compose, where neither may go on before the other has begun: they run side by side, and the
//! texts are those that one worker composes.
ghost use Rattle.odb_hub.specs.Guarded.{IsNew};

use crate::mailboxes::bell;
use crate::requests::{NET, add_message, core, request};
use crate::sharing::submitter;
use odb_core::Core;
use odb_hub::{HubState, Mailbox};
use odb_par::{Gate, Open, Workers, compose_all};
use std::alloc::{AllocError, Global};
use std::hash::RandomState;
use std::sync::atomic::{AtomicU64, Ordering};
use std::test::Fail;
use std::thread;
use std::thread::Threads;
use std::time::{Clock, Duration};

/// For how many milliseconds a worker waits for the other.
const PATIENCE: usize = 10_000;

/// A row, and monitors of the rows whose number is 1 and of those whose number isn't.
const REQUESTS: [&[u8]; 3] = [
    br#"{"id":1,"method":"transact","params":["net",{"op":"insert","table":"T","row":{"k":1}}]}"#,
    br#"{"id":2,"method":"monitor_cond","params":["net",null,{"T":[{"where":[["k","==",1]]}]}]}"#,
    br#"{"id":3,"method":"monitor_cond","params":["net",null,{"T":[{"where":[["k","!=",1]]}]}]}"#,
];

/// A gate that lets the jobs 0 and 1 be composed side by side alone: each waits until the other has begun.
#[derive(Drop)]
struct Meeting<'a, R: Clock> {
    rt: &'a R,
    first: AtomicU64,
    second: AtomicU64,
    missed: AtomicU64,
}

impl<'a, R: Clock> Meeting<'a, R> {
    /// Makes a gate where nobody has come.
    fn new(rt: &'a R) -> Meeting<'a, R> {
        Meeting {
            rt,
            first: AtomicU64::new(0),
            second: AtomicU64::new(0),
            missed: AtomicU64::new(0),
        }
    }

    /// Waits until a job has begun.
    fn wait(&self, begun: &AtomicU64) {
        for _ in 0..PATIENCE {
            if begun.load(Ordering::SeqCst) != 0 {
                return;
            }
            thread::sleep(self.rt, Duration::from_millis(1));
        }
        self.missed.store(1, Ordering::SeqCst);
    }

    /// Returns whether both jobs began, and neither waited in vain.
    fn has_met(&self) -> bool {
        self.first.load(Ordering::SeqCst) != 0
            && self.second.load(Ordering::SeqCst) != 0
            && self.missed.load(Ordering::SeqCst) == 0
    }
}

impl<'a, R: Clock> Gate for Meeting<'a, R> {
    fn enter(&self, job: usize) {
        match job {
            0 => {
                self.first.store(1, Ordering::SeqCst);
                self.wait(&self.second);
            }
            1 => {
                self.second.store(1, Ordering::SeqCst);
                self.wait(&self.first);
            }
            _ => {}
        }
    }

    fn leave(&self, _job: usize) {}
}

/// Opens a session, which submits the request of this text, and returns where its messages come out.
fn asks(alloc: Global, state: &mut HubState, text: &[u8]) -> Result<Mailbox, AllocError> {
    let Ok((session, mailbox)) = state.open(bell(alloc)?) else {
        return Err(AllocError);
    };
    match state.submit(session, request(alloc, text)?, 0) {
        Ok(()) => Ok(mailbox),
        Err(_) => Err(AllocError),
    }
}

/// Returns what one round gives three sessions, of which two are to be sent what two jobs come to.
fn sent<R: Threads + Sync, G: Gate + Sync>(
    rt: &R,
    alloc: Global,
    core: Core,
    workers: Workers,
    gate: &G,
) -> Result<Vec<u8>, AllocError>
    requires { IsNew core }
{
    let mut state = HubState::new(alloc, core, workers);
    let mut mailboxes = Vec::new(alloc);
    for text in REQUESTS {
        mailboxes.push(asks(alloc, &mut state, text)?)?;
    }
    state.round(rt, 0, usize::MAX, gate)?;
    let mut text = Vec::new(alloc);
    for mailbox in &mut mailboxes {
        let Some(out) = mailbox.next() else {
            return Err(AllocError);
        };
        add_message(&mut text, &out)?;
    }
    Ok(text)
}

/// Returns whether the workers compose what one composes.
fn compose_alike<R: Threads + Sync, G: Gate + Sync>(
    rt: &R,
    alloc: Global,
    core: &mut Core,
    workers: Workers,
    gate: &G,
) -> Result<bool, AllocError> {
    let mut ready = Vec::new(alloc);
    for text in REQUESTS {
        ready.push(submitter(alloc, core, text)?)?;
    }
    let jobs = core.jobs(&ready)?;
    let count = workers.for_weight(jobs.weight());
    let bodies = compose_all(rt, alloc, jobs.list(), count, gate)?;
    Ok(bodies == jobs.compose()?)
}

#[test]
fn workers_compose_side_by_side(rt: HostRuntime) -> Result<(), Fail> {
    let alloc = rt.alloc();
    let hashing = RandomState::new(&rt)?;
    let one = Workers::new(1, 0);
    let alone = sent(&rt, alloc, core(alloc, hashing, NET)?, one, &Open)?;
    let gate = Meeting::new(&rt);
    let two = Workers::new(2, 0);
    let beside = sent(&rt, alloc, core(alloc, hashing, NET)?, two, &gate)?;
    assert!(rt; gate.has_met());
    assert!(rt; beside == alone);
    for count in [2, 64] {
        let mut core = core(alloc, hashing, NET)?;
        let gate = Meeting::new(&rt);
        let workers = Workers::new(count, 0);
        assert!(rt; compose_alike(&rt, alloc, &mut core, workers, &gate)?);
        assert!(rt; gate.has_met(), "{count} workers");
    }
    Ok(())
}
