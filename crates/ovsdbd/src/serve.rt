//! The daemon: it listens, and serves the connections by a few threads, each many of them. [P 15.2]

ghost use Rattle.std.specs.Prelude.{◌≡◌, IfOk, IfSome};
ghost use Rattle.odb_hub.specs.Guarded.{IsNew};

use crate::clerk::serve_desk;
use crate::daemon::{Begun, Common, Daemon, Daemons, Patience};
use crate::desk::Desk;
use crate::fault::{ProgramFault, Which};
use crate::front::{FrontEnd, Schemas};
use crate::load::load_file;
use crate::notices::Notices;
use crate::second::Second;
use crate::tuning::{ACCEPT_PAUSE, STACK};
use mio::{Poll, net};
use odb_core::{Core, MAX_SESSIONS};
use odb_par::Workers;
use odb_schema::Schema;
use odb_script::RunFault;
use std::alloc::{AllocError, Global};
use std::hash::RandomState;
use std::io::{self, Eprint, Print};
use std::marker::Brand;
use std::net::{Net, TcpListener, TcpStream};
use std::random::RandomSource;
use std::rt::Files;
use std::sync::ledger::{Blank, Ledger};
use std::sync::{Arc, Wait};
use std::thread::{self, Builder, Scope, Threads};
use std::time::{Clock, Duration, Instant};
use uuid::Uuid;

/// How many parts a ledger has: one more than seats may be given at once.
const PARTS: u64 = MAX_SESSIONS as u64 + 2;

/// Whom the daemon serves.
#[derive(Clone, Copy)]
pub(crate) struct Terms {
    /// How many connections it serves before it ends; none: it goes on.
    pub(crate) sessions: Option<u64>,
    pub(crate) patience: Patience,
    /// The most bytes of a message.
    pub(crate) max_message: usize,
    /// Whether each connection that is opened or closed is logged.
    pub(crate) has_log: bool,
    /// How many threads serve connections.
    pub(crate) threads: usize,
    /// How many threads compose the jobs of a round.
    pub(crate) workers: Workers,
}

/// What the daemon begins with.
#[derive(Clone, Copy)]
pub(crate) struct StartOptions<'a> {
    /// Where it listens.
    pub(crate) address: &'a str,
    /// The file of messages that it submits before.
    pub(crate) file: Option<&'a str>,
}

/// What the daemon is made of.
#[derive(Drop)]
pub(crate) struct Beginning {
    pub(crate) first: Begun,
    pub(crate) second: Option<SecondBegun>,
    pub(crate) front: Option<FrontEnd>,
    /// The schemas by which it is told why transactions failed, where that is logged.
    pub(crate) names: Option<Schemas>,
}

/// What the second database is made of: its core, and the identifier under which it learns of locks.
#[derive(Drop)]
pub(crate) struct SecondBegun {
    pub(crate) begun: Begun,
    pub(crate) id: Uuid,
}

/// The ledgers of two databases, which aren't open yet.
#[derive(Drop)]
struct Blanks {
    first: Blank,
    second: Blank,
}

/// The last commits, by which clients that come back are known to have held the content that one made.
#[derive(Clone, Copy)]
pub(crate) struct LastCommits {
    /// The word of this run, which stands in its commits' identifiers.
    pub(crate) run: u64,
    /// Of how many of the last commits the contents can be found.
    pub(crate) kept: usize,
}

/// Makes a core for the schema, with empty tables. Moments are counted from the start.
pub(crate) fn begin(
    alloc: Global,
    schema: Schema,
    hashing: RandomState,
    commits: LastCommits,
    start: Instant,
) -> Result<Begun, RunFault>
    ensures { IfOk result (λ begun. IsNew begun.core) }
{
    let Ok(core) = Core::with_run(alloc, schema, hashing, commits.run, commits.kept) else {
        return Err(RunFault::Memory);
    };
    Ok(Begun { alloc, core, start })
}

/// Loads the file, listens, prints the address, and serves all that connect. With `terms.sessions` it accepts so many
/// connections and returns when they have ended.
pub(crate) fn serve_all<
    R: Files
        + Net<Listener = TcpListener, Stream = TcpStream>
        + Threads
        + Wait
        + Clock
        + RandomSource
        + Print
        + Eprint
        + Sync,
>(rt: &R, beginning: Beginning, start: StartOptions<'_>, terms: Terms) -> Result<(), ProgramFault>
    requires first { IsNew beginning.first.core }
    requires second { IfSome beginning.second (λ second. IsNew second.begun.core) }
{
    let blanks = Blanks {
        first: Blank::new(PARTS),
        second: Blank::new(PARTS),
    };
    serve_under::<Brand, Brand, R>(rt, beginning, blanks, start, terms)
}

/// Does what `serve_all` does, under the ledgers that the blanks name.
fn serve_under<
    L: Ledger + Send + Sync,
    M: Ledger + Send + Sync,
    R: Files
        + Net<Listener = TcpListener, Stream = TcpStream>
        + Threads
        + Wait
        + Clock
        + RandomSource
        + Print
        + Eprint
        + Sync,
>(
    rt: &R,
    beginning: Beginning,
    blanks: Blanks,
    start: StartOptions<'_>,
    terms: Terms,
) -> Result<(), ProgramFault>
    requires core { IsNew beginning.first.core }
    requires second_core { IfSome beginning.second (λ second. IsNew second.begun.core) }
    requires first { (blanks.first.name ≡ L.name) × (blanks.first.parts ≡ L.parts) × (blanks.first.parts ≡ 4098) }
    requires second { (blanks.second.name ≡ M.name) × (blanks.second.parts ≡ M.parts) × (blanks.second.parts ≡ 4098) }
{
    let Ok((desks, polls)) = open_desks(rt, beginning.first.alloc, terms.threads) else {
        return Err(ProgramFault::Run(RunFault::Memory));
    };
    let sessions = terms.sessions;
    let daemons: Daemons<L, M> = make_daemons(beginning, blanks, desks, &terms)?;
    let listener = begin_to_listen(rt, &daemons, start)?;
    serve_with(rt, &daemons, polls, &listener, sessions).map_err(ProgramFault::Run)
}

/// Makes the daemons of the databases.
fn make_daemons<L: Ledger, M: Ledger>(
    beginning: Beginning,
    blanks: Blanks,
    desks: Vec<Desk>,
    terms: &Terms,
) -> Result<Daemons<L, M>, AllocError>
    requires core { IsNew beginning.first.core }
    requires second_core { IfSome beginning.second (λ second. IsNew second.begun.core) }
    requires first { (blanks.first.name ≡ L.name) × (blanks.first.parts ≡ L.parts) × (blanks.first.parts ≡ 4098) }
    requires second { (blanks.second.name ≡ M.name) × (blanks.second.parts ≡ M.parts) × (blanks.second.parts ≡ 4098) }
{
    let Beginning {
        first,
        second,
        front,
        names,
    } = beginning;
    let Blanks {
        first: blank,
        second: other,
    } = blanks;
    let common = common_of(first.alloc, desks, names, terms)?;
    let second = second_of(second, other, &common, terms)?;
    Ok(Daemons {
        first: Daemon::new(first, Which::First, blank, common, terms),
        second,
        front,
    })
}

fn common_of(
    alloc: Global,
    desks: Vec<Desk>,
    names: Option<Schemas>,
    terms: &Terms,
) -> Result<Common, AllocError> {
    let notices = Notices::new(alloc, terms.max_message, MAX_SESSIONS, terms.has_log, names);
    Ok(Common {
        desks: Arc::new(alloc, desks)?,
        notices: Arc::new(alloc, notices)?,
    })
}

/// Makes the second database, if there is one.
fn second_of<M: Ledger>(
    second: Option<SecondBegun>,
    blank: Blank,
    common: &Common,
    terms: &Terms,
) -> Result<Option<Second<M>>, AllocError>
    requires core { IfSome second (λ second. IsNew second.begun.core) }
    requires ledger { (blank.name ≡ M.name) × (blank.parts ≡ M.parts) × (blank.parts ≡ 4098) }
{
    let Some(SecondBegun { begun, id }) = second else {
        return Ok(None);
    };
    let common = common.try_share()?;
    let daemon = Daemon::new(begun, Which::Second, blank, common, terms);
    Ok(Some(Second::new(daemon, id)?))
}

/// Loads the file, if there is one, then listens, and prints the address.
fn begin_to_listen<
    L: Ledger,
    M: Ledger,
    R: Files
        + Net<Listener = TcpListener, Stream = TcpStream>
        + Threads
        + Wait
        + Clock
        + RandomSource
        + Print
        + Sync,
>(rt: &R, daemons: &Daemons<L, M>, start: StartOptions<'_>) -> Result<TcpListener, ProgramFault> {
    if let Some(file) = start.file {
        load_file(rt, daemons, file)?;
    }
    let listener = TcpListener::bind(rt, start.address).map_err(ProgramFault::NotListening)?;
    let local = listener.local_addr().map_err(ProgramFault::NotListening)?;
    match println!(rt; "listening {local}") {
        Ok(()) => Ok(listener),
        Err(_) => Err(ProgramFault::Run(RunFault::Write)),
    }
}

/// Makes the desks of so many threads, and what each of them sleeps by.
fn open_desks<R: Net>(rt: &R, alloc: Global, threads: usize) -> io::Result<(Vec<Desk>, Vec<Poll>)> {
    let mut desks = Vec::with_capacity(alloc, threads)?;
    let mut polls = Vec::with_capacity(alloc, threads)?;
    for _ in 0..threads {
        let poll = Poll::new(rt)?;
        desks.push(Desk::new(alloc, &poll)?)?;
        polls.push(poll)?;
    }
    Ok((desks, polls))
}

/// Serves all that connect, while the pumps run, and a thread writes notices.
fn serve_with<
    L: Ledger + Send + Sync,
    M: Ledger + Send + Sync,
    R: Threads + Wait + Clock + RandomSource + Eprint + Sync,
>(
    rt: &R,
    daemons: &Daemons<L, M>,
    polls: Vec<Poll>,
    listener: &TcpListener,
    sessions: Option<u64>,
) -> Result<(), RunFault> {
    thread::scope(thread::scope_env(), rt, |scope| {
        let notices = Builder::new()
            .stack_size(STACK)
            .spawn_scoped(scope, move || daemons.first.notices.write_all(rt));
        let served = if start_pumps(rt, scope, daemons).is_ok() && notices.is_ok() {
            accept_and_wait(rt, daemons, polls, listener, sessions)
        } else {
            Err(RunFault::Memory)
        };
        daemons.end();
        served
    })
}

/// Starts the pump of each database.
fn start_pumps<
    's,
    E,
    L: Ledger + Send + Sync,
    M: Ledger + Send + Sync,
    R: Threads + Wait + Clock + Sync,
>(rt: &'s R, scope: &'s Scope<'s, E>, daemons: &'s Daemons<L, M>) -> io::Result<()> {
    start_pump(rt, scope, &daemons.first)?;
    if let Some(second) = &daemons.second {
        start_pump(rt, scope, &second.daemon)?;
    }
    Ok(())
}

fn start_pump<'s, E, L: Ledger + Send + Sync, R: Threads + Wait + Clock + Sync>(
    rt: &'s R,
    scope: &'s Scope<'s, E>,
    daemon: &'s Daemon<L>,
) -> io::Result<()> {
    drop(
        Builder::new()
            .stack_size(STACK)
            .spawn_scoped(scope, move || daemon.pump(rt))?,
    );
    Ok(())
}

/// Accepts connections, and returns when all that were accepted have ended.
fn accept_and_wait<
    L: Ledger + Send + Sync,
    M: Ledger + Send + Sync,
    R: Threads + Wait + Clock + RandomSource + Sync,
>(
    rt: &R,
    daemons: &Daemons<L, M>,
    polls: Vec<Poll>,
    listener: &TcpListener,
    sessions: Option<u64>,
) -> Result<(), RunFault> {
    thread::scope(thread::scope_env(), rt, |scope| {
        let started = start_clerks(rt, scope, daemons, polls);
        if started.is_ok() {
            accept_all(rt, &daemons.first, listener, sessions);
        }
        daemons.first.close(rt);
        started.map_err(|_| RunFault::Memory)
    })
}

/// Starts the threads that serve connections, one for each desk.
fn start_clerks<
    's,
    E,
    L: Ledger + Send + Sync,
    M: Ledger + Send + Sync,
    R: Threads + Wait + Clock + RandomSource + Sync,
>(
    rt: &'s R,
    scope: &'s Scope<'s, E>,
    daemons: &'s Daemons<L, M>,
    polls: Vec<Poll>,
) -> io::Result<()> {
    for (desk, poll) in daemons.first.desks.iter().zip(polls) {
        drop(
            Builder::new()
                .stack_size(STACK)
                .spawn_scoped(scope, move || {
                    if serve_desk(rt, daemons, desk, poll).is_err() {
                        desk.leave(rt);
                    }
                })?,
        );
    }
    Ok(())
}

fn accept_all<L: Ledger, R: Threads + Wait + Clock>(
    rt: &R,
    daemon: &Daemon<L>,
    listener: &TcpListener,
    sessions: Option<u64>,
) {
    let mut accepted: u64 = 0;
    for stream in listener.incoming() {
        match stream {
            Ok(stream) => {
                drop(give(rt, daemon, stream));
                accepted = accepted.saturating_add(1);
            }
            Err(error) => {
                daemon.notices.note_unaccepted(rt, error);
                thread::sleep(rt, Duration::from_millis(ACCEPT_PAUSE));
            }
        }
        if sessions == Some(accepted) {
            return;
        }
    }
}

/// Gives the connection to the thread that has the fewest; it is closed where that can't be.
fn give<L: Ledger, R: Wait>(rt: &R, daemon: &Daemon<L>, stream: TcpStream) -> io::Result<()> {
    stream.set_nonblocking(true)?;
    drop(stream.set_nodelay(true));
    let stream = net::TcpStream::from_std(stream);
    match daemon.desks.iter().min_by_key(|desk| desk.count()) {
        Some(desk) => Ok(desk.give(rt, stream)?),
        None => Ok(()),
    }
}
