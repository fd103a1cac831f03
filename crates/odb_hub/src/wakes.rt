//! At which sessions a thread is to look.
ghost use Rattle.std.specs.Prelude.{◌≡◌, if◌then◌else◌};
ghost use Rattle.odb_waking.specs.Loop as loops;

use odb_core::MAX_SESSIONS;
use odb_waking::{GiverStage, LoopStage};
use std::alloc::{AllocError, Global};
use std::sync::atomic::{AtomicU64, Ordering};

/// How many bits are in one word.
const WORD: usize = 64;

/// The bits that wake a thread: each has it look at one of its sessions, since something was given to that. Any thread
/// may call; the one whose sessions they are hears. What is done with it are steps of the loop of `odb_waking`, which
/// loses no call: contracts say before which step the loop is, and whoever calls.
#[derive(Drop)]
pub struct Wakes {
    any: AtomicU64,
    words: Vec<AtomicU64>,
}

impl Wakes {
    /// Makes bits of which none is set. An error says that memory was refused.
    pub fn new(alloc: Global) -> Result<Wakes, AllocError> {
        let mut words = Vec::with_capacity(alloc, MAX_SESSIONS / WORD)?;
        for _ in 0..MAX_SESSIONS / WORD {
            words.push(AtomicU64::new(0))?;
        }
        Ok(Wakes {
            any: AtomicU64::new(0),
            words,
        })
    }

    /// Returns whether a session may have a bit of this number: it is below 4,096.
    pub fn has_bit(bit: usize) -> bool {
        bit < MAX_SESSIONS
    }

    /// Calls for a look at the session that has this bit; where no session may have it nothing is called. O(1).
    pub(crate) fn call(&self, bit: usize, stage: GiverStage)
        requires { stage ≡ loops.calls }
    {
        let mut stage = stage;
        self.set(bit, &mut stage);
        self.tell(stage);
    }

    fn set(&self, bit: usize, stage: &mut GiverStage)
        requires { stage.old ≡ loops.calls }
        ensures { stage.new ≡ loops.tells }
    {
        if let Some(word) = self.words.get(bit / WORD) {
            set(word, 1u64 << (bit % WORD));
        }
        stage.called();
    }

    /// Tells the loop that a session was called.
    fn tell(&self, stage: GiverStage)
        requires { stage ≡ loops.tells }
    {
        self.any.store(1, Ordering::SeqCst);
        stage.signaled();
    }

    /// Returns whether the session that has this bit was called and not heard since. O(1).
    pub fn is_called(&self, bit: usize) -> bool {
        match self.words.get(bit / WORD) {
            Some(word) => word.load(Ordering::SeqCst) & 1u64 << (bit % WORD) != 0,
            None => false,
        }
    }

    /// Returns whether something was called that wasn't heard.
    pub fn is_any(&self) -> bool {
        self.any.load(Ordering::SeqCst) != 0
    }

    /// Returns whether something was called since the last time, which it forgets: then all words are to be heard.
    pub fn begin(&self, stage: &mut LoopStage) -> bool
        requires { stage.old ≡ loops.begins }
        ensures { stage.new ≡ (if result then loops.collects else loops.lies_down) }
    {
        let is_any = self.any.swap(0, Ordering::SeqCst) != 0;
        stage.began(is_any);
        is_any
    }

    /// Returns how many words there are to hear, each of 64 bits.
    pub fn words(&self) -> usize {
        self.words.len()
    }

    /// Hears what was called in a word since the last time: its bits, the first the lowest.
    pub fn hear(&self, word: usize, _stage: &LoopStage) -> u64
        requires { _stage.now ≡ loops.collects }
    {
        match self.words.get(word) {
            Some(word) if word.load(Ordering::SeqCst) != 0 => word.swap(0, Ordering::SeqCst),
            _ => 0,
        }
    }
}

/// Sets a bit of a word, whatever others set meanwhile.
fn set(word: &AtomicU64, mask: u64) {
    let mut seen = word.load(Ordering::SeqCst);
    for _ in 0..u64::MAX {
        if seen & mask != 0 {
            return;
        }
        match word.compare_exchange(seen, seen | mask, Ordering::SeqCst, Ordering::SeqCst) {
            Ok(_) => return,
            Err(now) => seen = now,
        }
    }
}
