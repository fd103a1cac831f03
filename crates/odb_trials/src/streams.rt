//! Readers that give a byte a call and fail at each of their calls in turn, and writers that take a byte a call and, at each
//! place in turn, fail, take none, or fail to flush.

use crate::requests::NET;
use odb_schema::Schema;
use odb_script::{FailureLatch, RunFault, run_script};
use std::alloc::{AllocError, Global};
use std::hash::RandomState;
use std::io::{BufReader, Error, ErrorKind, Read, Write};
use std::test::Fail;

/// Lines that print nothing, one message and several, bodies among them.
const INPUT: &str = r#"!open A
A {"method":"monitor_cond","params":["net","m",{"T":{}}],"id":1}
A {"method":"transact","params":["net",{"op":"insert","table":"T","row":{"k":1}}],"id":2}
A {"method":"echo","params":["}"],"id":3}{"method":"lock","params":["L"],"id":4}
!close B
!close A
"#;

/// Gives a byte a call, and fails at a call.
#[derive(Drop)]
struct FailingReader<'a> {
    text: &'a [u8],
    calls: usize,
    failing: usize,
}

impl<'a> Read for FailingReader<'a> {
    fn read(&mut self, buf: &mut [u8]) -> Result<usize, Error> {
        self.calls = self.calls.saturating_add(1);
        if self.calls == self.failing {
            return Err(Error::from(ErrorKind::BrokenPipe));
        }
        match (self.text, buf.first_mut()) {
            ([byte, rest @ ..], Some(place)) => {
                *place = *byte;
                self.text = rest;
                Ok(1)
            }
            _ => Ok(0),
        }
    }
}

/// What was written, and how often it was flushed.
#[derive(Drop)]
pub(crate) struct Taken {
    pub(crate) text: Vec<u8>,
    flushes: usize,
}

impl Taken {
    /// Makes one to which nothing was written yet.
    pub(crate) fn new(alloc: Global) -> Taken {
        Taken {
            text: Vec::new(alloc),
            flushes: 0,
        }
    }
}

/// Takes a byte a call. It fails, or takes none, once it has so many, and it fails at a flush.
#[derive(Drop)]
pub(crate) struct FailingWriter<'a> {
    pub(crate) taken: &'a mut Taken,
    pub(crate) most: usize,
    pub(crate) fails: bool,
    pub(crate) failing: usize,
}

impl<'a> Write for FailingWriter<'a> {
    fn write(&mut self, buf: &[u8]) -> Result<usize, Error> {
        match buf {
            [byte, ..] if self.taken.text.len() < self.most => {
                self.taken.text.push(*byte)?;
                Ok(1)
            }
            _ if self.fails => Err(Error::from(ErrorKind::BrokenPipe)),
            _ => Ok(0),
        }
    }

    fn flush(&mut self) -> Result<(), Error> {
        self.taken.flushes = self.taken.flushes.saturating_add(1);
        if self.taken.flushes == self.failing {
            return Err(Error::from(ErrorKind::BrokenPipe));
        }
        Ok(())
    }
}

/// What the two streams fail at: a call of the reader, a number of bytes, a flush. 0 calls is never.
#[derive(Clone, Copy)]
struct Limits {
    read: usize,
    most: usize,
    fails: bool,
    flush: usize,
}

const WELL: Limits = Limits {
    read: 0,
    most: usize::MAX,
    fails: true,
    flush: 0,
};

/// How a run has to end: its fault, how many bytes were written, and how often they were flushed.
#[derive(Clone, Copy)]
struct End {
    fault: Option<RunFault>,
    bytes: usize,
    flushes: usize,
}

/// What the whole input prints, and how much of it after each line.
#[derive(Drop)]
struct Whole {
    alloc: Global,
    hashing: RandomState,
    text: Vec<u8>,
    ends: Vec<usize>,
}

/// Returns how a run ended, and what was taken.
fn run(
    alloc: Global,
    hashing: RandomState,
    input: &[u8],
    limits: Limits,
) -> Result<(Result<(), RunFault>, Taken), AllocError> {
    let mut taken = Taken::new(alloc);
    let reader = FailureLatch::new(FailingReader {
        text: input,
        calls: 0,
        failing: limits.read,
    });
    let Ok(mut reader) = BufReader::new(alloc, reader) else {
        return Err(AllocError);
    };
    let mut writer = FailureLatch::new(FailingWriter {
        taken: &mut taken,
        most: limits.most,
        fails: limits.fails,
        failing: limits.flush,
    });
    let ended = match Schema::read(alloc, NET) {
        Ok(schema) => run_script(alloc, schema, hashing, &mut reader, &mut writer),
        Err(_) => return Err(AllocError),
    };
    drop(writer);
    Ok((ended, taken))
}

impl Whole {
    /// Runs each beginning of the input that ends with a line, through streams that don't fail.
    fn new(alloc: Global, hashing: RandomState) -> Result<Whole, AllocError> {
        let mut ends = Vec::new(alloc);
        let mut text = Vec::new(alloc);
        for (place, byte) in INPUT.as_bytes().iter().enumerate() {
            if *byte == b'\n' {
                let (_, taken) = run(alloc, hashing, &INPUT.as_bytes()[..=place], WELL)?;
                ends.push(taken.text.len())?;
                text = taken.text;
            }
        }
        Ok(Whole {
            alloc,
            hashing,
            text,
            ends,
        })
    }

    /// Returns whether the whole input's run ends so, where the streams fail so.
    fn goes(&self, limits: Limits, end: End) -> Result<bool, AllocError> {
        let (ended, taken) = run(self.alloc, self.hashing, INPUT.as_bytes(), limits)?;
        Ok(
            ended.err() == end.fault
                && self.text.get(..end.bytes) == Some(taken.text.as_slice())
                && taken.flushes == end.flushes,
        )
    }

    /// Returns how much so many lines print.
    fn printed_by(&self, lines: usize) -> usize {
        match lines.checked_sub(1) {
            Some(place) => self.ends.get(place).copied().unwrap_or(0),
            None => 0,
        }
    }

    /// Tries a reader whose call fails: what the lines before it print was written and flushed, and no other line is
    /// carried out.
    fn read_goes(&self, call: usize) -> Result<bool, AllocError> {
        let before = INPUT.as_bytes().iter().take(call.saturating_sub(1));
        let lines = before.filter(|byte| **byte == b'\n').count();
        let limits = Limits { read: call, ..WELL };
        let end = End {
            fault: Some(RunFault::Read),
            bytes: self.printed_by(lines),
            flushes: lines,
        };
        self.goes(limits, end)
    }

    /// Tries a writer that takes so many bytes: just those were written, also where it takes no more without an error.
    fn write_goes(&self, most: usize, fails: bool) -> Result<bool, AllocError> {
        let limits = Limits {
            most,
            fails,
            ..WELL
        };
        let end = End {
            fault: Some(RunFault::Write),
            bytes: most,
            flushes: self.ends.iter().filter(|end| **end <= most).count(),
        };
        self.goes(limits, end)
    }

    /// Tries a flush that fails: the run ends at its line.
    fn flush_goes(&self, flush: usize) -> Result<bool, AllocError> {
        let limits = Limits { flush, ..WELL };
        let end = End {
            fault: Some(RunFault::Write),
            bytes: self.printed_by(flush),
            flushes: flush,
        };
        self.goes(limits, end)
    }
}

#[test]
fn streams_that_are_short_or_fail(rt: HostRuntime) -> Result<(), Fail> {
    let whole = Whole::new(rt.alloc(), RandomState::new(&rt)?)?;
    let lines = whole.ends.len();
    assert_eq!(rt; lines, 6);
    let well = End {
        fault: None,
        bytes: whole.text.len(),
        flushes: lines,
    };
    assert!(rt; whole.goes(WELL, well)?);
    for call in 1..=INPUT.len() + 1 {
        assert!(rt; whole.read_goes(call)?, "read {call}");
    }
    for most in 0..whole.text.len() {
        assert!(rt;
            whole.write_goes(most, true)? && whole.write_goes(most, false)?,
            "byte {most}"
        );
    }
    for flush in 1..=lines {
        assert!(rt; whole.flush_goes(flush)?, "flush {flush}");
    }
    Ok(())
}
