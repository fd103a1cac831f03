//! A session whose messages nobody takes: how many submits its seat is answered, what its ring gives then, what it still gives
//! once the session has ended, and what another session is sent meanwhile.
ghost use Rattle.std.specs.Prelude.{◌≡◌};
ghost use Rattle.odb_hub.specs.Guarded.{IsNew};

use crate::requests::{NET, add_message, core, request};
use odb_core::{Core, EventRefusal, Out};
use odb_hub::{Bell, Hub, Mailbox, Seat, Wakes};
use odb_par::{Open, Workers};
use std::alloc::{AllocError, Global};
use std::hash::RandomState;
use std::marker::Brand;
use std::sync::ledger::{Blank, Ledger};
use std::sync::{Arc, Wait};
use std::test::Fail;
use std::thread::Threads;
use std::time::Clock;

/// More than any count here comes to.
const MOST: usize = 1_000;

/// What another session asks.
const OTHER: [&str; 4] = [
    r#"{"method":"lock","params":["L"],"id":1}"#,
    r#"{"method":"monitor","params":["net",null,{"T":{"columns":["k"]}}],"id":2}"#,
    r#"{"method":"transact","params":["net",{"op":"insert","table":"T","row":{"k":1}}],"id":3}"#,
    r#"{"method":"echo","params":["}"],"id":4}"#,
];

/// What was counted of a session that takes nothing.
#[derive(Clone, Copy, Debug, PartialEq, Eq)]
struct EchoCounts {
    /// The echoes that were taken before one met Busy.
    taken: usize,
    /// How many of the replies to these the ring gave then, in order from the first.
    given: usize,
    /// How many it gave, in order from the next, when the session had ended.
    left: usize,
}

/// What was counted of a session, and what another was sent.
#[derive(Drop)]
struct SessionsFound {
    counts: EchoCounts,
    other: Vec<u8>,
}

/// Makes a bell that calls nobody who hears.
pub(crate) fn bell(alloc: Global) -> Result<Bell, AllocError> {
    Ok(Bell::new(Arc::new(alloc, Wakes::new(alloc)?)?, 0))
}

/// Opens a session; an error says that none can be opened.
pub(crate) fn open<L: Ledger, R: Wait>(
    rt: &R,
    alloc: Global,
    hub: &Hub<L>,
) -> Result<(Seat<L>, Mailbox), AllocError> {
    let bell = bell(alloc)?;
    let opened = hub.enter(rt).open(bell);
    match opened {
        Ok(ends) => Ok(ends),
        Err(_) => Err(AllocError),
    }
}

/// Submits a request of this text. It returns whether it was taken, or met Busy.
pub(crate) fn submit<L: Ledger, R: Threads + Wait + Clock + Sync>(
    rt: &R,
    alloc: Global,
    hub: &Hub<L>,
    seat: &mut Seat<L>,
    text: &[u8],
) -> Result<bool, AllocError> {
    let mut batch = Vec::new(alloc);
    batch.push(request(alloc, text)?)?;
    let outcome = hub.enter(rt).submit_turn(rt, seat, &mut batch, 0);
    match outcome.owes {
        Ok(_) => Ok(true),
        Err(EventRefusal::Busy) => Ok(false),
        Err(_) => Err(AllocError),
    }
}

/// Returns how many echoes the hub takes before it is Busy. Their ids are 1, 2, 3 and so on.
fn taken<L: Ledger, R: Threads + Wait + Clock + Sync>(
    rt: &R,
    alloc: Global,
    hub: &Hub<L>,
    seat: &mut Seat<L>,
) -> Result<usize, AllocError> {
    for count in 0..MOST {
        let id = count + 1;
        let echo = format!(in alloc; r#"{{"id":{id},"method":"echo","params":[]}}"#)?;
        if !submit(rt, alloc, hub, seat, echo.as_bytes())? {
            return Ok(count);
        }
    }
    Ok(MOST)
}

/// Returns how many replies the mailbox gives, to echoes of these ids in order, before it gives nothing, or something
/// else.
fn replies(alloc: Global, mailbox: &mut Mailbox, first: usize) -> Result<usize, AllocError> {
    for count in 0..MOST {
        let id = first.saturating_add(count);
        let reply = format!(in alloc; r#"{{"error":null,"id":{id},"result":[]}}"#)?;
        match mailbox.next() {
            Some(out) if is_whole(&out, reply.as_bytes()) => {}
            _ => return Ok(count),
        }
    }
    Ok(MOST)
}

fn is_whole(out: &Out, text: &[u8]) -> bool {
    out.before.as_slice() == text && out.body.is_none() && out.after.is_empty()
}

/// Writes down what the mailbox gives.
fn take(mailbox: &mut Mailbox, text: &mut Vec<u8>) -> Result<(), AllocError> {
    for _ in 0..MOST {
        match mailbox.next() {
            Some(out) => add_message(text, &out)?,
            None => break,
        }
    }
    Ok(())
}

/// Rounds until one gives nothing.
fn run_rounds<L: Ledger, R: Threads + Wait + Clock + Sync>(
    rt: &R,
    hub: &Hub<L>,
) -> Result<(), AllocError> {
    for _ in 0..MOST {
        let round = hub.enter(rt).round(rt, 0, usize::MAX, &Open)?;
        if round.given == 0 {
            break;
        }
    }
    Ok(())
}

/// Ends the session. Where memory is refused it is tried again.
pub(crate) fn leave<L: Ledger, R: Wait>(rt: &R, hub: &Hub<L>, seat: Seat<L>) {
    let mut seat = seat;
    for _ in rt.forever() {
        let outcome = hub.enter(rt).leave(seat);
        match outcome {
            Ok(()) => return,
            Err(back) => seat = back,
        }
    }
    unreachable!()
}

/// Returns what another session is sent.
fn other<L: Ledger, R: Threads + Wait + Clock + Sync>(
    rt: &R,
    alloc: Global,
    hub: &Hub<L>,
) -> Result<Vec<u8>, AllocError> {
    let (mut seat, mut mailbox) = open(rt, alloc, hub)?;
    let sent = ask_all(rt, alloc, hub, &mut seat);
    leave(rt, hub, seat);
    sent?;
    let mut text = Vec::new(alloc);
    take(&mut mailbox, &mut text)?;
    Ok(text)
}

fn ask_all<L: Ledger, R: Threads + Wait + Clock + Sync>(
    rt: &R,
    alloc: Global,
    hub: &Hub<L>,
    seat: &mut Seat<L>,
) -> Result<(), AllocError> {
    for text in OTHER {
        if !submit(rt, alloc, hub, seat, text.as_bytes())? {
            return Err(AllocError);
        }
        run_rounds(rt, hub)?;
    }
    Ok(())
}

/// Returns what is counted of a session that takes nothing until it is Busy, and then, where it is asked, what its ring
/// has.
fn find<L: Ledger, R: Threads + Wait + Clock + Sync>(
    rt: &R,
    alloc: Global,
    hub: &Hub<L>,
    is_asked: bool,
) -> Result<SessionsFound, AllocError> {
    let (mut seat, mut mailbox) = open(rt, alloc, hub)?;
    let taken = taken(rt, alloc, hub, &mut seat);
    let other = other(rt, alloc, hub);
    let given = if is_asked {
        replies(alloc, &mut mailbox, 1)
    } else {
        Ok(0)
    };
    let rounds = run_rounds(rt, hub);
    leave(rt, hub, seat);
    rounds?;
    let given = given?;
    let left = replies(alloc, &mut mailbox, given.saturating_add(1))?;
    Ok(SessionsFound {
        counts: EchoCounts {
            taken: taken?,
            given,
            left,
        },
        other: other?,
    })
}

/// Returns what is found, and how many events two new journals ended with at once after that, and one after another
/// session came and went.
fn trial<L: Ledger, R: Threads + Wait + Clock + Sync>(
    rt: &R,
    alloc: Global,
    core: Core,
    blank: Blank,
    is_asked: bool,
) -> Result<(SessionsFound, [u64; 3]), AllocError>
    requires core { IsNew core }
    requires ledger { (blank.name ≡ L.name) × (blank.parts ≡ L.parts) }
    requires parts { blank.parts ≡ 3 }
{
    let hub: Hub<L> = Hub::new(alloc, core, blank, 2, Workers::new(1, 0));
    let found = find(rt, alloc, &hub, is_asked)?;
    let first = hub.enter(rt).begin_journal_anew();
    let second = hub.enter(rt).begin_journal_anew();
    come_and_go(rt, alloc, &hub)?;
    let third = hub.enter(rt).begin_journal_anew();
    Ok((found, [first, second, third]))
}

/// Has a session open, ask for an echo, and end.
fn come_and_go<L: Ledger, R: Threads + Wait + Clock + Sync>(
    rt: &R,
    alloc: Global,
    hub: &Hub<L>,
) -> Result<(), AllocError> {
    let (mut seat, mailbox) = open(rt, alloc, hub)?;
    let taken = submit(rt, alloc, hub, &mut seat, OTHER[3].as_bytes());
    leave(rt, hub, seat);
    drop(mailbox);
    taken?;
    Ok(())
}

/// Returns what another session is sent that is alone.
fn alone<L: Ledger, R: Threads + Wait + Clock + Sync>(
    rt: &R,
    alloc: Global,
    core: Core,
    blank: Blank,
) -> Result<Vec<u8>, AllocError>
    requires core { IsNew core }
    requires ledger { (blank.name ≡ L.name) × (blank.parts ≡ L.parts) }
    requires parts { blank.parts ≡ 3 }
{
    let hub: Hub<L> = Hub::new(alloc, core, blank, 2, Workers::new(1, 0));
    other(rt, alloc, &hub)
}

#[test]
fn a_mailbox_that_nobody_empties(rt: HostRuntime) -> Result<(), Fail> {
    let hashing = RandomState::new(&rt)?;
    let alone = alone::<Brand, _>(
        &rt,
        rt.alloc(),
        core(rt.alloc(), hashing, NET)?,
        Blank::new(3),
    )?;
    assert!(rt; !alone.is_empty());
    for is_asked in [false, true] {
        let core = core(rt.alloc(), hashing, NET)?;
        let (found, events) = trial::<Brand, _>(&rt, rt.alloc(), core, Blank::new(3), is_asked)?;
        let wanted = EchoCounts {
            taken: 321,
            given: if is_asked { 64 } else { 0 },
            left: 64,
        };
        assert_eq!(rt; found.counts, wanted);
        assert!(rt; found.other == alone);
        assert!(rt; events[0] > 0);
        assert_eq!(rt; events[1], 0);
        assert_eq!(rt; events[2], 4);
    }
    Ok(())
}
