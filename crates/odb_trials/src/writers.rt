//! Writers that take a byte a call and, at each place in turn of what an outbox gives, fail, or take none; and good ones, to
//! which it is written on.
ghost use Rattle.std.specs.Prelude.{◌≡◌};
ghost use Rattle.odb_hub.specs.Guarded.{IsNew};

use crate::mailboxes::{leave, open, submit};
use crate::requests::{add_message, core};
use crate::streams::{FailingWriter, Taken};
use odb_core::Core;
use odb_hub::{Hub, Mailbox, Outbox, Seat};
use odb_par::Workers;
use std::alloc::{AllocError, Global};
use std::hash::RandomState;
use std::io::ErrorKind;
use std::marker::Brand;
use std::sync::Wait;
use std::sync::ledger::{Blank, Ledger};
use std::test::Fail;
use std::thread::Threads;
use std::time::Clock;

/// A schema with one table of one column.
const TEXTS: &[u8] =
    b"{\"name\":\"net\",\"version\":\"1.0.0\",\"tables\":{\"T\":{\"isRoot\":true,\"columns\":{\"s\":{\"type\":\"string\"}}}}}";

/// What inserts a row, around its text.
const INSERT: [&str; 2] = [
    r#"{"method":"transact","params":["net",{"op":"insert","table":"T","row":{"s":""#,
    r#""}}],"id":0}"#,
];

/// What is asked for each place anew: the first reply of a monitor, which has a body, comes between two others.
const ASKED: [&str; 3] = [
    r#"{"method":"echo","params":["}"],"id":1}"#,
    r#"{"method":"monitor_cond","params":["net","m",{"T":{}}],"id":2}"#,
    r#"{"method":"monitor_cancel","params":["m"],"id":3}"#,
];

/// The request by which a peer is probed, whether it is there.
const PROBE: &str = r#"{"id":"echo","method":"echo","params":[]}"#;

/// How many bytes an outbox has ready at most.
const PIECE: usize = 16_384;

/// How long the row's text is, and how far apart the places are at which a writer stops.
#[derive(Clone, Copy)]
struct Sizes {
    text: usize,
    step: usize,
}

/// A session of a hub, whose messages are written.
#[derive(Drop)]
struct WrittenSession<'a, L: Ledger, R> {
    rt: &'a R,
    alloc: Global,
    hub: &'a Hub<L>,
    outbox: &'a mut Outbox,
}

/// Where a writer stops, and whether it fails there, or takes none.
#[derive(Clone, Copy)]
struct WriterStop {
    most: usize,
    fails: bool,
}

impl WriterStop {
    /// Returns what a writer that stops so says of a text, if it isn't written whole.
    fn fault_in(self, whole: &[u8]) -> Option<ErrorKind> {
        if self.most >= whole.len() {
            return None;
        }
        if self.fails {
            return Some(ErrorKind::BrokenPipe);
        }
        Some(ErrorKind::WriteZero)
    }

    /// Returns whether a message is in the midst then, which isn't ready whole.
    fn is_midway(self, whole: &[u8]) -> bool {
        self.most < PIECE && PIECE < whole.len()
    }
}

impl<'a, L: Ledger, R: Threads + Wait + Clock + Sync> WrittenSession<'a, L, R> {
    /// Returns whether a writer that stops so was written just what comes before, whether the peer may be probed then,
    /// and whether a good writer is written the rest, each byte once.
    fn writes(
        &mut self,
        seat: &mut Seat<L>,
        whole: &[u8],
        stop: WriterStop,
    ) -> Result<bool, AllocError> {
        ask(self.rt, self.alloc, self.hub, seat)?;
        let mut taken = Taken::new(self.alloc);
        let fault = write_on(self.outbox, &mut taken, stop);
        if fault != stop.fault_in(whole)
            || self.outbox.has_left() != fault.is_some()
            || whole.get(..stop.most) != Some(taken.text.as_slice())
        {
            return Ok(false);
        }
        let probed = self.outbox.probe()?;
        let good = WriterStop {
            most: usize::MAX,
            fails: true,
        };
        let fault = write_on(self.outbox, &mut taken, good);
        let is_done = fault.is_none() && !self.outbox.has_left();
        Ok(is_done && probed != stop.is_midway(whole) && is_all(&taken.text, whole, probed))
    }
}

/// Writes until all is written, or the writer stops. It returns what it said then.
fn write_on(outbox: &mut Outbox, taken: &mut Taken, stop: WriterStop) -> Option<ErrorKind> {
    let mut writer = FailingWriter {
        taken,
        most: stop.most,
        fails: stop.fails,
        failing: 0,
    };
    for _ in 0..u64::MAX {
        match outbox.write_to(&mut writer) {
            Ok(true) => return None,
            Ok(false) => {}
            Err(error) => return Some(error.kind()),
        }
    }
    None
}

/// Returns whether this is the whole, and the request after it where the peer was probed.
fn is_all(text: &Vec<u8>, whole: &[u8], probed: bool) -> bool {
    let after = if probed { PROBE } else { "" };
    text.get(..whole.len()) == Some(whole) && text.get(whole.len()..) == Some(after.as_bytes())
}

fn ask<L: Ledger, R: Threads + Wait + Clock + Sync>(
    rt: &R,
    alloc: Global,
    hub: &Hub<L>,
    seat: &mut Seat<L>,
) -> Result<(), AllocError> {
    for text in ASKED {
        submit(rt, alloc, hub, seat, text.as_bytes())?;
    }
    Ok(())
}

/// Inserts a row.
fn insert<L: Ledger, R: Threads + Wait + Clock + Sync>(
    rt: &R,
    alloc: Global,
    hub: &Hub<L>,
    seat: &mut Seat<L>,
    length: usize,
) -> Result<(), AllocError> {
    let mut text = Vec::new(alloc);
    text.resize(length, b'x')?;
    let mut request = Vec::new(alloc);
    request.extend_from_slice(INSERT[0].as_bytes())?;
    request.extend_from_slice(text.as_slice())?;
    request.extend_from_slice(INSERT[1].as_bytes())?;
    submit(rt, alloc, hub, seat, request.as_slice())?;
    Ok(())
}

/// Returns what the mailbox gives, one message after another.
fn take(alloc: Global, mailbox: &mut Mailbox) -> Result<Vec<u8>, AllocError> {
    let mut text = Vec::new(alloc);
    for _ in ASKED {
        match mailbox.next() {
            Some(out) => add_message(&mut text, &out)?,
            None => return Err(AllocError),
        }
    }
    Ok(text)
}

/// Inserts a row, and returns what a session is sent that asks.
fn whole<L: Ledger, R: Threads + Wait + Clock + Sync>(
    rt: &R,
    alloc: Global,
    hub: &Hub<L>,
    length: usize,
) -> Result<Vec<u8>, AllocError> {
    let (mut seat, mut mailbox) = open(rt, alloc, hub)?;
    let inserted = insert(rt, alloc, hub, &mut seat, length);
    drop(mailbox.next());
    let asked = ask(rt, alloc, hub, &mut seat);
    leave(rt, hub, seat);
    inserted?;
    asked?;
    take(alloc, &mut mailbox)
}

/// Returns the number of bytes at which a writer that stops isn't written just these, and then the rest, if there is
/// one.
fn first_wrong<L: Ledger, R: Threads + Wait + Clock + Sync>(
    session: &mut WrittenSession<'_, L, R>,
    seat: &mut Seat<L>,
    whole: &[u8],
    step: usize,
) -> Result<Option<usize>, AllocError> {
    for most in 0..=whole.len() {
        if most < whole.len() && most.checked_rem(step) != Some(0) {
            continue;
        }
        for fails in [true, false] {
            if !session.writes(seat, whole, WriterStop { most, fails })? {
                return Ok(Some(most));
            }
        }
    }
    Ok(None)
}

fn trial<L: Ledger, R: Threads + Wait + Clock + Sync>(
    rt: &R,
    alloc: Global,
    core: Core,
    blank: Blank,
    sizes: Sizes,
) -> Result<Option<usize>, AllocError>
    requires core { IsNew core }
    requires ledger { (blank.name ≡ L.name) × (blank.parts ≡ L.parts) }
    requires parts { blank.parts ≡ 3 }
{
    let hub: Hub<L> = Hub::new(alloc, core, blank, 2, Workers::new(1, 0));
    let whole = whole(rt, alloc, &hub, sizes.text)?;
    let (mut seat, mailbox) = open(rt, alloc, &hub)?;
    let mut outbox = Outbox::new(alloc, mailbox);
    let mut session = WrittenSession {
        rt,
        alloc,
        hub: &hub,
        outbox: &mut outbox,
    };
    let found = first_wrong(&mut session, &mut seat, whole.as_slice(), sizes.step);
    drop(session);
    leave(rt, &hub, seat);
    found
}

#[test]
fn writers_that_are_short_or_fail(rt: HostRuntime) -> Result<(), Fail> {
    for (text, step) in [(1, 1), (20_000, 1_024)] {
        let core = core(rt.alloc(), RandomState::new(&rt)?, TEXTS)?;
        let sizes = Sizes { text, step };
        let found = trial::<Brand, _>(&rt, rt.alloc(), core, Blank::new(3), sizes)?;
        assert_eq!(rt; found, None);
    }
    Ok(())
}
