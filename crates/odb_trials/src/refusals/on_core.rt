//! Scripts that are played to a core.

use crate::refusals::PlayTarget;
use crate::refusals::made::submission;
use crate::refusals::scripts::MOMENT;
use crate::refusals::sent::Sent;
use crate::requests::add_message;
use odb_core::{Core, EventRefusal, Out, SessionId};
use odb_hub::Submission;
use std::alloc::{AllocError, Global};

/// A script that is played to a core.
#[derive(Drop)]
struct Play {
    alloc: Global,
    core: Core,
    first: SessionId,
    second: SessionId,
    inserts: usize,
    /// Whether the first session is held.
    is_held: bool,
    way: PlayTarget,
    sent: Sent,
}

impl Play {
    fn new(alloc: Global, core: Core, way: PlayTarget) -> Result<Play, AllocError> {
        let mut core = core;
        let first = open(&mut core)?;
        let second = open(&mut core)?;
        Ok(Play {
            alloc,
            core,
            first,
            second,
            inserts: 0,
            is_held: false,
            way,
            sent: Sent::new(alloc)?,
        })
    }

    fn line(&mut self, line: &[u8]) -> Result<(), AllocError> {
        match line {
            [b'!', b't', b'i', ..] => tick(&mut self.core)?,
            [b'!', b'h', ..] => self.is_held = true,
            [b'!', b't', b'a', ..] => self.is_held = false,
            [b'A', b' ', text @ ..] => self.submit(self.first, text)?,
            [b'B', b' ', text @ ..] => self.submit(self.second, text)?,
            _ => return Err(AllocError),
        }
        self.give()
    }

    fn submit(&mut self, session: SessionId, text: &[u8]) -> Result<(), AllocError> {
        let Submission { request, fresh } = submission(self.alloc, text, self.inserts)?;
        self.inserts = self.inserts.saturating_add(fresh.len());
        let request = match self.core.submit(session, request, fresh.as_slice(), 0) {
            Err((request, EventRefusal::Memory)) => request,
            Err(_) => return Err(AllocError),
            Ok(()) => return Ok(()),
        };
        match self.core.submit(session, request, fresh.as_slice(), 0) {
            Ok(()) => Ok(()),
            Err(_) => Err(AllocError),
        }
    }

    /// Rounds until one gives nothing.
    fn give(&mut self) -> Result<(), AllocError> {
        for _ in 0..MOST {
            let outs = self.round_twice()?;
            if outs.is_empty() {
                return Ok(());
            }
            self.note_all(&outs)?;
        }
        Err(AllocError)
    }

    fn round_twice(&mut self) -> Result<Vec<Out>, AllocError> {
        match self.round() {
            Ok(outs) => Ok(outs),
            Err(_) => self.round(),
        }
    }

    fn round(&mut self) -> Result<Vec<Out>, AllocError> {
        let both = [self.second, self.first];
        let count = if self.is_held { 1 } else { 2 };
        if self.way == PlayTarget::Jobs {
            round_by_jobs(&mut self.core, &both[..count])
        } else {
            self.core.round(&both[..count])
        }
    }

    fn note_all(&mut self, outs: &[Out]) -> Result<(), AllocError> {
        for out in outs {
            let text = if out.session == self.first {
                &mut self.sent.first
            } else {
                &mut self.sent.second
            };
            add_message(text, out)?;
        }
        Ok(())
    }

    fn close(&mut self, session: SessionId) -> Result<(), AllocError> {
        match self.core.close(session) {
            Err(EventRefusal::Memory) => {}
            Err(_) => return Err(AllocError),
            Ok(()) => return self.give(),
        }
        match self.core.close(session) {
            Ok(()) => self.give(),
            Err(_) => Err(AllocError),
        }
    }
}

fn open(core: &mut Core) -> Result<SessionId, AllocError> {
    if let Ok(session) = core.open() {
        return Ok(session);
    }
    match core.open() {
        Ok(session) => Ok(session),
        Err(_) => Err(AllocError),
    }
}

fn tick(core: &mut Core) -> Result<(), AllocError> {
    match core.tick(MOMENT) {
        Ok(()) => Ok(()),
        Err(_) => core.tick(MOMENT),
    }
}

fn round_by_jobs(core: &mut Core, ready: &[SessionId]) -> Result<Vec<Out>, AllocError> {
    let jobs = core.jobs(ready)?;
    let bodies = jobs.compose()?;
    let prepared = jobs.finish(&bodies)?;
    Ok(core.accept(prepared))
}

/// More rounds than any script takes.
const MOST: usize = 1_000;

/// Returns what is sent for a script, and when the first session closes after it, and the second.
pub(crate) fn play_to_core(
    alloc: Global,
    core: Core,
    script: &[&str],
    way: PlayTarget,
) -> Result<Sent, AllocError> {
    let mut play = Play::new(alloc, core, way)?;
    for line in script {
        play.line(line.as_bytes())?;
    }
    let first = play.first;
    let second = play.second;
    play.close(first)?;
    play.close(second)?;
    Ok(play.sent)
}
