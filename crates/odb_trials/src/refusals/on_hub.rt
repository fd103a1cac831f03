//! Scripts that are played to a hub. What a session is sent while it is held isn't taken out of its mailbox.
ghost use Rattle.std.specs.Prelude.{◌≡◌};
ghost use Rattle.odb_hub.specs.Guarded.{IsNew};

use crate::mailboxes::open;
use crate::refusals::made::submission;
use crate::refusals::scripts::MOMENT;
use crate::refusals::sent::Sent;
use crate::requests::add_message;
use odb_core::{Core, EventRefusal};
use odb_hub::{Hub, Mailbox, Round, Seat};
use odb_par::{Open, Workers};
use std::alloc::{AllocError, Global};
use std::sync::Wait;
use std::sync::ledger::{Blank, Ledger};
use std::thread::Threads;
use std::time::Clock;

/// More rounds, and more messages, than any script has.
const MOST: usize = 1_000;

/// The ends of a session: where its requests go in, and where its messages come out.
struct Ends<L: Ledger> {
    seat: Seat<L>,
    mailbox: Mailbox,
}

/// Two sessions that play a script.
struct Players<L: Ledger> {
    first: Ends<L>,
    second: Ends<L>,
    inserts: usize,
    /// Whether the first session is held.
    is_held: bool,
    sent: Sent,
}

impl<L: Ledger> Players<L> {
    /// Writes down what the mailboxes give, and returns how many messages that were.
    fn take(&mut self) -> Result<usize, AllocError> {
        let first = if self.is_held {
            0
        } else {
            take(&mut self.first.mailbox, &mut self.sent.first)?
        };
        let second = take(&mut self.second.mailbox, &mut self.sent.second)?;
        Ok(first.saturating_add(second))
    }
}

/// A hub to which scripts are played. A call for which memory is refused is made once more.
#[derive(Drop)]
struct TrialHub<'a, L: Ledger, R> {
    rt: &'a R,
    alloc: Global,
    hub: &'a Hub<L>,
}

impl<'a, L: Ledger, R: Threads + Wait + Clock + Sync> TrialHub<'a, L, R> {
    fn play(&self, script: &[&str]) -> Result<Sent, AllocError> {
        let sent = Sent::new(self.alloc)?;
        let first = self.open()?;
        let second = match self.open() {
            Ok(second) => second,
            Err(refused) => {
                let Ends { seat, mailbox: _ } = first;
                self.leave(seat);
                return Err(refused);
            }
        };
        let mut players = Players {
            first,
            second,
            inserts: 0,
            is_held: false,
            sent,
        };
        let played = self.lines(&mut players, script);
        let sent = self.close(players);
        played?;
        sent
    }

    fn open(&self) -> Result<Ends<L>, AllocError> {
        match self.open_once() {
            Ok(opened) => Ok(opened),
            Err(_) => self.open_once(),
        }
    }

    fn open_once(&self) -> Result<Ends<L>, AllocError> {
        let (seat, mailbox) = open(self.rt, self.alloc, self.hub)?;
        Ok(Ends { seat, mailbox })
    }

    fn lines(&self, players: &mut Players<L>, script: &[&str]) -> Result<(), AllocError> {
        for line in script {
            self.line(players, line.as_bytes())?;
        }
        Ok(())
    }

    fn line(&self, players: &mut Players<L>, line: &[u8]) -> Result<(), AllocError> {
        let inserts = players.inserts;
        let made = match line {
            [b'A', b' ', text @ ..] => self.submit(&mut players.first.seat, text, inserts)?,
            [b'B', b' ', text @ ..] => self.submit(&mut players.second.seat, text, inserts)?,
            [b'!', b't', b'i', ..] => self.tick()?,
            [b'!', word, ..] => {
                players.is_held = *word == b'h';
                0
            }
            _ => return Err(AllocError),
        };
        players.inserts = inserts.saturating_add(made);
        self.give(players)
    }

    /// Submits a request, which is still in the batch where memory is refused, and returns how many inserts it has.
    fn submit(&self, seat: &mut Seat<L>, text: &[u8], inserts: usize) -> Result<usize, AllocError> {
        let mut batch = Vec::new(self.alloc);
        if batch.reserve(1).is_err() {
            batch.reserve(1)?;
        }
        let submission = submission(self.alloc, text, inserts)?;
        let made = submission.fresh.len();
        batch.push(submission)?;
        for _ in 0..2 {
            let outcome = self
                .hub
                .enter(self.rt)
                .submit_turn(self.rt, seat, &mut batch, 0);
            match outcome.owes {
                Ok(_) => return Ok(made),
                Err(EventRefusal::Memory) => {}
                Err(_) => return Err(AllocError),
            }
        }
        Err(AllocError)
    }

    fn tick(&self) -> Result<usize, AllocError> {
        let ticked = self.hub.enter(self.rt).tick(MOMENT);
        if ticked.is_err() {
            self.hub.enter(self.rt).tick(MOMENT)?;
        }
        Ok(0)
    }

    /// Takes out and rounds, until there is nothing to be taken and a round gives nothing.
    fn give(&self, players: &mut Players<L>) -> Result<(), AllocError> {
        for _ in 0..MOST {
            let taken = players.take()?;
            let round = self.round()?;
            if taken == 0 && round.given == 0 {
                return Ok(());
            }
        }
        Err(AllocError)
    }

    /// Gives each session its next message. One worker composes them, so that memory is asked for in the same order each time.
    fn round(&self) -> Result<Round, AllocError> {
        let round = self.hub.enter(self.rt).round(self.rt, 0, usize::MAX, &Open);
        match round {
            Ok(round) => Ok(round),
            Err(_) => self.hub.enter(self.rt).round(self.rt, 0, usize::MAX, &Open),
        }
    }

    /// Returns the first ends, and then the second, with what it was given when the first ended.
    fn close(&self, players: Players<L>) -> Result<Sent, AllocError> {
        let Players {
            first,
            second,
            inserts: _,
            is_held: _,
            sent,
        } = players;
        let Ends { seat, mailbox: _ } = first;
        self.leave(seat);
        let given = self.round();
        let Ends { seat, mailbox } = second;
        self.leave(seat);
        given?;
        let mut sent = sent;
        let mut mailbox = mailbox;
        take(&mut mailbox, &mut sent.second)?;
        Ok(sent)
    }

    /// Ends a session, with the seat that came back where memory is refused.
    fn leave(&self, seat: Seat<L>) {
        let mut seat = seat;
        for _ in self.rt.forever() {
            let outcome = self.hub.enter(self.rt).leave(seat);
            match outcome {
                Ok(()) => return,
                Err(back) => seat = back,
            }
        }
        unreachable!()
    }
}

/// Writes down what a mailbox gives, and returns how many messages that were.
fn take(mailbox: &mut Mailbox, text: &mut Vec<u8>) -> Result<usize, AllocError> {
    for count in 0..MOST {
        match mailbox.next() {
            Some(out) => add_message(text, &out)?,
            None => return Ok(count),
        }
    }
    Err(AllocError)
}

/// Returns what is sent for a script.
pub(crate) fn play_to_hub<L: Ledger, R: Threads + Wait + Clock + Sync>(
    rt: &R,
    alloc: Global,
    core: Core,
    blank: Blank,
    script: &[&str],
) -> Result<Sent, AllocError>
    requires core { IsNew core }
    requires ledger { (blank.name ≡ L.name) × (blank.parts ≡ L.parts) }
    requires parts { blank.parts ≡ 3 }
{
    let hub: Hub<L> = Hub::new(alloc, core, blank, 2, Workers::new(1, 0));
    let trial = TrialHub {
        rt,
        alloc,
        hub: &hub,
    };
    trial.play(script)
}
