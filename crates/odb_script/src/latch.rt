//! Readers and writers that keep whether a call of theirs failed.
ghost use Rattle.std.specs.Prelude.{◌≡◌, true, false, ◌||◌, is_err, OnErr, OnOk};
ghost use Rattle.std.specs.Io.{ReadsAtMost, WritesAtMost};
ghost use Rattle.std.specs.Io.KnownBytes.{Appends, Keeps, ReadConsumes, WriteAppends};
ghost use Rattle.odb_script.specs.Represented.Latch.{has_failed, inner_of, took_none};
ghost use Rattle.odb_script.specs.Represented.Run.{AppendsFront};

use std::io::{Error, ErrorKind, Read, Result, Write};

/// A reader or a writer, and whether a call of it failed. A script tells by it a failed read or
/// write from refused memory, which the calls of std that read and write whole lines return as an
/// error of the same kind.
#[derive(Drop)]
pub struct FailureLatch<T> {
    inner: T,
    has_failed: bool,
}

impl<T> FailureLatch<T> {
    /// Keeps whether a call of a reader or a writer fails from here on.
    pub fn new(inner: T) -> FailureLatch<T>
        ensures inner { inner_of result ≡ inner }
        ensures failed { has_failed result ≡ false }
    {
        FailureLatch {
            inner,
            has_failed: false,
        }
    }

    /// Returns whether a call failed since: one that returned an error, or a write that took none of some
    /// bytes.
    pub fn failed(&self) -> bool
        ensures { result ≡ has_failed self.now }
    {
        self.has_failed
    }
}

impl<R: Read> Read for FailureLatch<R> {
    ghost remaining = { λ w. R.remaining (inner_of w) };

    fn read(&mut self, buf: &mut [u8]) -> Result<usize>
        ensures bound { ReadsAtMost result buf.new }
        ensures bytes { ReadConsumes (R.remaining (inner_of self.old)) (R.remaining (inner_of self.new)) result buf.new }
        ensures failed { has_failed self.new ≡ (has_failed self.old || is_err result) }
    {
        let result = self.inner.read(buf);
        self.has_failed = self.has_failed || result.is_err();
        result
    }
}

impl<W: Write> Write for FailureLatch<W> {
    ghost contents = { λ w. W.contents (inner_of w) };

    fn write(&mut self, buf: &[u8]) -> Result<usize>
        ensures bound { WritesAtMost result buf.now }
        ensures bytes { WriteAppends (W.contents (inner_of self.old)) (W.contents (inner_of self.new)) result buf.now }
        ensures failed { has_failed self.new ≡ (has_failed self.old || took_none result buf.now) }
    {
        let result = self.inner.write(buf);
        let took = match &result {
            Ok(taken) => *taken > 0 || buf.is_empty(),
            Err(_) => false,
        };
        self.has_failed = self.has_failed || !took;
        result
    }

    /// Writes all of it, in as many calls as it takes. After an error a beginning of it is written.
    fn write_all(&mut self, buf: &[u8]) -> Result<()>
        ensures bytes { OnOk result (Appends (W.contents (inner_of self.old)) (W.contents (inner_of self.new)) buf.now) }
        ensures front { AppendsFront (W.contents (inner_of self.old)) (W.contents (inner_of self.new)) buf.now }
        ensures failed { OnErr result (has_failed self.new ≡ true) }
    {
        let mut rest = buf;
        for _ in 0..u64::MAX {
            if rest.is_empty() {
                return Ok(());
            }
            match self.write(rest) {
                Ok(0) => return Err(Error::from(ErrorKind::WriteZero)),
                Ok(taken) => rest = &rest[taken..],
                Err(error) => if error.kind() != ErrorKind::Interrupted {
                    return Err(error);
                },
            }
        }
        self.has_failed = true;
        Err(Error::from(ErrorKind::TimedOut))
    }

    fn flush(&mut self) -> Result<()>
        ensures bytes { Keeps (W.contents (inner_of self.old)) (W.contents (inner_of self.new)) }
        ensures failed { has_failed self.new ≡ (has_failed self.old || is_err result) }
    {
        let result = self.inner.flush();
        self.has_failed = self.has_failed || result.is_err();
        result
    }
}
