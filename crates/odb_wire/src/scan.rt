//! The byte machine that finds where the text of an object ends. [P 7.1]
ghost use Rattle.std.specs.Prelude.{◌≡◌, ◌+◌, ◌<◌, ◌≤◌, ◌^◌, length, IfSome, IfNone};
ghost use Rattle.odb_wire.specs.Stream.{outside, state_after, open_after};
ghost use Rattle.odb_wire.specs.Scanning.{state_of, IsEnd, GoesOn, PassesOver, StaysInside};

use memchr::memchr2;

/// Whether the next byte is outside a string, inside one, or after a backslash inside one.
#[derive(Clone, Copy)]
pub(crate) enum ScanState {
    Outside,
    Inside,
    Escaped,
}

/// How the text of an object stands after what was read of it.
#[derive(Clone, Copy)]
pub(crate) struct Scan {
    state: ScanState,
    /// how many braces stand open
    depth: usize,
    ghost within: { 0 < depth },
}

impl Scan {
    /// Begins after the brace that opens the object.
    pub(crate) fn begun() -> Scan
        ensures state { state_of result.state ≡ outside }
        ensures depth { result.depth ≡ 1 }
    {
        Scan {
            state: ScanState::Outside,
            depth: 1,
        }
    }

    /// Returns how many of the bytes belong to the object, where it ends in them. Each byte is looked at once; those inside
    /// strings are searched for the next quote or backslash.
    pub(crate) fn end_in(&mut self, bytes: &[u8]) -> Option<usize>
        requires { self.old.depth + length bytes.now < 2 ^ 64 }
        ensures end { IfSome result (IsEnd (state_of self.old.state) self.old.depth bytes.now) }
        ensures on { IfNone result (GoesOn (state_of self.old.state) self.old.depth bytes.now
            (state_of self.new.state) self.new.depth) }
        ensures bound { self.new.depth ≤ self.old.depth + length bytes.now }
    {
        let Scan {
            mut state,
            mut depth,
        } = *self;
        let mut next = telling(state, bytes, 0);
        while next < bytes.len() {
            let (further, open) = after(state, depth, bytes[next]);
            if open == 0 {
                return Some(next + 1);
            }
            state = further;
            depth = open;
            next = telling(state, bytes, next + 1);
        }
        *self = Scan { state, depth };
        None
    }
}

/// Returns the place of the first byte from this one on after which the scan may stand otherwise: inside a string that of
/// the next quote or backslash.
#[inline(always)]
fn telling(state: ScanState, bytes: &[u8], from: usize) -> usize
    requires within { from ≤ length bytes.now }
    ensures on { from ≤ result }
    ensures within { result ≤ length bytes.now }
    ensures passed { PassesOver (state_of state) bytes.now from result }
{
    match state {
        ScanState::Inside => from + plain(&bytes[from..]),
        ScanState::Outside => from,
        ScanState::Escaped => from,
    }
}

/// Returns how many bytes at the front are neither a quote nor a backslash.
fn plain(bytes: &[u8]) -> usize
    ensures within { result ≤ length bytes.now }
    ensures inside { StaysInside bytes.now result }
{
    memchr2(b'"', b'\\', bytes).unwrap_or(bytes.len())
}

/// Returns the state and the open braces after a byte.
#[inline(always)]
fn after(state: ScanState, depth: usize, byte: u8) -> (ScanState, usize)
    requires within { 0 < depth }
    requires room { depth + 1 < 2 ^ 64 }
    ensures state { state_of result.0 ≡ state_after (state_of state) byte }
    ensures depth { result.1 ≡ open_after (state_of state) byte depth }
{
    match state {
        ScanState::Outside => match byte {
            b'"' => (ScanState::Inside, depth),
            b'{' => (ScanState::Outside, depth + 1),
            b'}' => (ScanState::Outside, depth - 1),
            _ => (ScanState::Outside, depth),
        },
        ScanState::Inside => match byte {
            b'"' => (ScanState::Outside, depth),
            b'\\' => (ScanState::Escaped, depth),
            _ => (ScanState::Inside, depth),
        },
        ScanState::Escaped => (ScanState::Inside, depth),
    }
}
