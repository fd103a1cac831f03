//! The bytes that are to be written next.
ghost use Rattle.std.specs.Prelude.{◌≡◌, ◌≢◌, ◌≤◌, ◌<◌, ◌==◌, ◌++◌, [], drop, take, length, IfOk, OnErr, OnOk};
ghost use Rattle.std.specs.Io.KnownBytes.{Appends, Keeps};
ghost use Rattle.odb_hub.specs.Outbox.{Sends};

use std::alloc::{AllocError, Global};
use std::io::{self, Error, ErrorKind, Write};
use std::marker::Model;

/// Up to how many bytes the buffer is filled.
pub(crate) const PIECE: usize = 16_384;

/// For how many bytes a buffer keeps room that has none.
const LEAST: usize = 1_024;

/// Bytes that are to be written, and before them those that were written already.
#[derive(Drop)]
pub(crate) struct Buffer {
    bytes: Vec<u8>,
    written: usize,
}

impl Model for Buffer {
    ghost use Rattle.std.specs.Prelude.{ℕ, List, ◌≤◌, drop, length};
    ghost use Rattle.std.specs.Coded.{coded_list, coded_ℕ};

    ghost Value = { List ℕ };

    ghost coded = { coded_list coded_ℕ };

    ghost view = { λ b. drop b.written b.bytes.items };

    ghost invariant = { λ b. b.written ≤ length b.bytes.items };
}

impl Buffer {
    /// Makes a buffer that has nothing.
    pub(crate) fn new(alloc: Global) -> Buffer
        ensures { result ≡ [] }
    {
        Buffer {
            bytes: Vec::new(alloc),
            written: 0,
        }
    }

    /// Returns whether nothing is to be written.
    pub(crate) fn is_empty(&self) -> bool
        ensures { result ≡ (length self.now == 0) }
    {
        self.written == self.bytes.len()
    }

    /// Returns whether nothing more is to be added until all is written.
    pub(crate) fn is_full(&self) -> bool {
        self.bytes.len() >= PIECE
    }

    /// Gives the room back that isn't needed.
    pub(crate) fn give_back(&mut self)
        ensures { self.new ≡ self.old }
    {
        if self.bytes.capacity() > LEAST {
            self.bytes.shrink_to_fit();
        }
    }

    /// Adds a whole text. O(its length).
    pub(crate) fn put(&mut self, text: &[u8]) -> Result<(), AllocError>
        ensures ok { OnOk result (self.new ≡ self.old ++ text.now) }
        ensures err { OnErr result (self.new ≡ self.old) }
        ensures some { OnErr result (text.now ≢ []) }
    {
        self.bytes.extend_from_slice(text)
    }

    /// Adds the next bytes of a part of which so many were moved, as many as there is room for. It returns how many are
    /// moved now.
    pub(crate) fn add(&mut self, part: &[u8], moved: usize) -> Result<usize, AllocError>
        requires { moved ≤ length part.now }
        ensures ok { IfOk result (λ now. (now ≤ length part.now) × (self.new ++ drop now part.now ≡ self.old ++ drop moved part.now)) }
        ensures err { OnErr result (self.new ≡ self.old) }
        ensures some { OnErr result (moved < length part.now) }
    {
        let room = PIECE.saturating_sub(self.bytes.len());
        let count = room.min(part.len() - moved);
        let now = moved + count;
        self.put(&part[moved..now])?;
        Ok(now)
    }

    /// Writes a beginning of them, and forgets those that were written, where these are all.
    pub(crate) fn write_some<W: Write>(&mut self, writer: &mut W) -> io::Result<()>
        ensures ok { OnOk result (Sends self.old self.new (W.contents writer.old) (W.contents writer.new)) }
        ensures err { OnErr result ((self.new ≡ self.old) × Keeps (W.contents writer.old) (W.contents writer.new)) }
    {
        let count = write_once(&self.bytes[self.written..], writer)?;
        self.written += count;
        self.forget_written();
        Ok(())
    }

    fn forget_written(&mut self)
        ensures { self.new ≡ self.old }
    {
        if self.written == self.bytes.len() {
            self.bytes.clear();
            self.written = 0;
        }
    }
}

/// Writes a beginning of them by one call, or one more where a call was interrupted. It returns how many were written.
fn write_once<W: Write>(bytes: &[u8], writer: &mut W) -> io::Result<usize>
    ensures ok { IfOk result (λ count. (count ≢ 0) × (count ≤ length bytes.now) × Appends (W.contents writer.old) (W.contents writer.new) (take count bytes.now)) }
    ensures err { OnErr result (Keeps (W.contents writer.old) (W.contents writer.new)) }
{
    for _ in 0..u64::MAX {
        match writer.write(bytes) {
            Ok(0) => return Err(Error::from(ErrorKind::WriteZero)),
            Ok(count) => return Ok(count),
            Err(error) => if error.kind() != ErrorKind::Interrupted {
                return Err(error);
            },
        }
    }
    Err(Error::from(ErrorKind::TimedOut))
}
