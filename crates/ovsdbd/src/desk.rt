//! Where a thread that serves connections is given them, and called. [P 15.2]
ghost use Rattle.std.specs.Prelude.{◌≡◌, if◌then◌else◌, IfOk};
ghost use Rattle.odb_waking.specs.Loop as loops;
ghost use Rattle.odb_waking.specs.Teller.{ended, flags, rouses, swaps};

use mio::net::TcpStream;
use mio::{Poll, Token, Waker};
use odb_hub::Wakes;
use odb_waking::{LoopStage, RouserStage};
use std::alloc::{AllocError, Global};
use std::sync::atomic::{AtomicU64, Ordering};
use std::sync::{Arc, Mutex, Wait};
use std::{io, mem};

/// Under which token the poll of a thread tells that it was woken.
pub(crate) const WOKEN: Token = Token(usize::MAX);

/// What the others share with a thread that serves connections: it is given connections here, and called to look at those to
/// which something was given. It sleeps by its poll.
///
/// What is done with it are steps of the loop of `odb_waking`, which loses no call: contracts say before which step the thread
/// is, and whoever wakes it. Each atomic operation stands in a function of its own.
#[derive(Drop)]
pub(crate) struct Desk {
    alloc: Global,
    pub(crate) wakes: Arc<Wakes>,
    waker: Waker,
    asleep: AtomicU64,
    /// Whether connections came, or none will come any more, since it last looked.
    came: AtomicU64,
    /// How many connections it was given that go on.
    count: AtomicU64,
    given: Mutex<NewConnections>,
}

/// The connections that a thread was given and hasn't taken yet, and whether none will come any more.
#[derive(Drop)]
struct NewConnections {
    streams: Vec<TcpStream>,
    is_closed: bool,
}

impl Desk {
    /// Makes the desk of a thread that sleeps by this poll, and is awake.
    pub(crate) fn new(alloc: Global, poll: &Poll) -> io::Result<Desk> {
        Ok(Desk {
            alloc,
            wakes: Arc::new(alloc, Wakes::new(alloc)?)?,
            waker: Waker::new(poll.registry(), WOKEN)?,
            asleep: AtomicU64::new(0),
            came: AtomicU64::new(0),
            count: AtomicU64::new(0),
            given: Mutex::new(NewConnections {
                streams: Vec::new(alloc),
                is_closed: false,
            }),
        })
    }

    /// Returns how many connections the thread has.
    pub(crate) fn count(&self) -> u64 {
        self.count.load(Ordering::SeqCst)
    }

    /// Notes that a connection ended.
    pub(crate) fn let_go(&self) {
        self.count.fetch_sub(1, Ordering::SeqCst);
    }

    /// Gives the thread a connection, which is closed where memory is refused or the thread takes none.
    pub(crate) fn give<R: Wait>(&self, rt: &R, stream: TcpStream) -> Result<(), AllocError> {
        let stage = self.push(rt, stream)?;
        self.count.fetch_add(1, Ordering::SeqCst);
        self.tell(stage);
        Ok(())
    }

    fn push<R: Wait>(&self, rt: &R, stream: TcpStream) -> Result<RouserStage, AllocError>
        ensures { IfOk result (λ stage. stage ≡ flags) }
    {
        let mut given = self.given.lock(rt);
        if given.is_closed {
            return Err(AllocError);
        }
        given.streams.push(stream)?;
        Ok(RouserStage::of_what_came())
    }

    /// Says that something came, and wakes the thread if it sleeps.
    fn tell(&self, stage: RouserStage)
        requires { stage ≡ flags }
    {
        let mut stage = stage;
        self.flag(&mut stage);
        self.wake(stage);
    }

    fn flag(&self, stage: &mut RouserStage)
        requires { stage.old ≡ flags }
        ensures { stage.new ≡ swaps }
    {
        self.came.store(1, Ordering::SeqCst);
        stage.flagged();
    }

    /// Leaves the desk, where the thread can't begin: the connections that it was given are closed, and it is given none.
    pub(crate) fn leave<R: Wait>(&self, rt: &R) {
        self.close(rt);
        drop(self.take(rt));
        self.count.store(u64::MAX, Ordering::SeqCst);
    }

    /// Says that no connection will come any more.
    pub(crate) fn close<R: Wait>(&self, rt: &R) {
        self.given.lock(rt).is_closed = true;
        self.tell(RouserStage::of_what_came());
    }

    /// Takes the connections that were given, if something came since the last time; also whether none will come any more.
    pub(crate) fn take<R: Wait>(&self, rt: &R) -> Option<(Vec<TcpStream>, bool)> {
        if self.came.swap(0, Ordering::SeqCst) == 0 {
            return None;
        }
        let mut given = self.given.lock(rt);
        let streams = mem::replace(&mut given.streams, Vec::new(self.alloc));
        Some((streams, given.is_closed))
    }

    /// Wakes the thread, if it was called and sleeps: for whoever gave its sessions something, once the lock is free. Step:
    /// `giver_looks`.
    pub(crate) fn wake_if_called(&self) {
        if self.wakes.is_any() {
            self.wake(RouserStage::of_a_call());
        }
    }

    /// Wakes the thread if it sleeps.
    fn wake(&self, stage: RouserStage)
        requires { stage ≡ swaps }
    {
        let mut stage = stage;
        if self.finds_asleep(&mut stage) {
            self.rouse(&mut stage);
        }
        stage.end();
    }

    /// Returns whether the thread counts as asleep: then it doesn't any more. Step: `giver_swaps`.
    fn finds_asleep(&self, stage: &mut RouserStage) -> bool
        requires { stage.old ≡ swaps }
        ensures { stage.new ≡ (if result then rouses else ended) }
    {
        let is_asleep = self.asleep.swap(0, Ordering::SeqCst) != 0;
        stage.swapped(is_asleep);
        is_asleep
    }

    /// Wakes the thread. Step: `giver_wakes`.
    fn rouse(&self, stage: &mut RouserStage)
        requires { stage.old ≡ rouses }
        ensures { stage.new ≡ ended }
    {
        drop(self.waker.wake());
        stage.roused();
    }

    /// Counts the thread as asleep. False says that it is to look again first, and counts as awake: it was called, or
    /// connections came.
    pub(crate) fn lies_down(&self, stage: &mut LoopStage) -> bool
        requires { stage.old ≡ loops.lies_down }
        ensures { stage.new ≡ (if result then loops.sleeps else loops.rises) }
    {
        self.count_as_asleep(stage);
        if self.was_signaled(stage) {
            self.asleep.store(0, Ordering::SeqCst);
            return false;
        }
        true
    }

    fn count_as_asleep(&self, stage: &mut LoopStage)
        requires { stage.old ≡ loops.lies_down }
        ensures { stage.new ≡ loops.looks_again }
    {
        self.asleep.store(1, Ordering::SeqCst);
        stage.lay_down();
    }

    /// Returns whether the thread was called, or something came, since it last looked.
    fn was_signaled(&self, stage: &mut LoopStage) -> bool
        requires { stage.old ≡ loops.looks_again }
        ensures { stage.new ≡ (if result then loops.rises else loops.sleeps) }
    {
        let is_signaled = self.wakes.is_any() || self.came.load(Ordering::SeqCst) != 0;
        stage.looked(is_signaled);
        is_signaled
    }

    /// Counts the thread as awake.
    pub(crate) fn gets_up(&self, stage: &mut LoopStage)
        requires { stage.old ≡ loops.rises }
        ensures { stage.new ≡ loops.begins }
    {
        self.asleep.store(0, Ordering::SeqCst);
        stage.rose();
    }
}
