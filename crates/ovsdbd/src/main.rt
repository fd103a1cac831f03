//! An OVSDB server (RFC 7047): `ovsdbd serve --schema F` serves the schema in the file F, with empty
//! tables, over TCP, and `ovsdbd script --schema F` runs a script from standard input on such a
//! server. [P 15.1]
//!
//! The exit status is 0 after a script that ran to its end, after as many connections as were asked
//! for and after help, 1 after a fault, which standard error names, and 2 where the words of the
//! command line are wrong.
#![tactic(auto)]

ghost use Rattle.std.specs.Prelude.{IfOk, IfSome};
ghost use Rattle.odb_hub.specs.Guarded.{IsNew};

mod cause_text;
mod clerk;
mod connection;
mod daemon;
mod desk;
mod fault;
mod front;
mod front_seat;
mod load;
mod log;
mod notices;
mod pace;
mod second;
mod serve;
mod server_database;
mod tuning;

use crate::daemon::{Begun, Patience};
use crate::fault::{ProgramFault, Which};
use crate::front::{FrontEnd, Schemas};
use crate::serve::{Beginning, LastCommits, SecondBegun, StartOptions, Terms, begin, serve_all};
use crate::tuning::HEAVY;
use clap::builder::ValueParser;
use clap::error::ErrorKind;
use clap::{Arg, ArgAction, ArgMatches, Command, Error};
use odb_par::Workers;
use odb_schema::{Schema, SchemaFault};
use odb_script::{FailureLatch, RunFault, run_script};
use odb_wire::MAX_MESSAGE;
use rand::make_rng;
use rand::rngs::StdRng;
use rand_core::Rng;
use std::alloc::Global;
use std::hash::RandomState;
use std::io::{self, BufReader, Eprint};
use std::net::{Net, SocketAddr, TcpListener, TcpStream};
use std::process::ExitCode;
use std::random::RandomSource;
use std::rt::Files;
use std::sync::Wait;
use std::thread::Threads;
use std::time::{Clock, Instant};
use std::{env, fs, thread};
use uuid::Uuid;

fn main(rt: HostRuntime) -> io::Result<ExitCode> {
    let words: Vec<String> = env::args(&rt)?.collect(rt.alloc())?;
    let matches = match read_words(rt.alloc(), words.as_slice()) {
        Ok(matches) => matches,
        Err(error) => return refuse(&rt, error),
    };
    let done = match matches.subcommand_matches("serve") {
        Some(words) => match read_schemas(&rt, words) {
            Ok(schemas) => serve_schemas(&rt, rt.alloc(), schemas, words),
            Err(failure) => Err(failure),
        },
        None => script(&rt, schema_file(&matches, Which::First)),
    };
    match done {
        Ok(()) => Ok(ExitCode::SUCCESS),
        Err(failure) => report(&rt, failure, &matches),
    }
}

/// Prints what ended the program: a line with the fault, and one with the file or the address, and the reason.
fn report(
    rt: &HostRuntime,
    failure: ProgramFault,
    matches: &ArgMatches<'_>,
) -> io::Result<ExitCode> {
    eprintln!(rt; "ovsdbd: {failure}")?;
    match &failure {
        ProgramFault::SchemaUnread(which, error) => {
            eprintln!(rt; "ovsdbd: {}: {error}", schema_file(matches, *which))?
        }
        ProgramFault::Schema(which, fault) => {
            eprintln!(rt;
                "ovsdbd: {}: {}",
                schema_file(matches, *which),
                meaning(*fault)
            )?
        }
        ProgramFault::SameName => {
            eprintln!(rt;
                "ovsdbd: {}: its name is that of the first",
                schema_file(matches, Which::Second)
            )?
        }
        ProgramFault::LoadUnread(error) => {
            eprintln!(rt; "ovsdbd: {}: {error}", serve_word(matches, "load", ""))?
        }
        ProgramFault::NotListening(error) => {
            eprintln!(rt; "ovsdbd: {}: {error}", listen_address(matches))?
        }
        ProgramFault::Load(_, _) => {}
        ProgramFault::Run(_) => {}
    }
    Ok(ExitCode::FAILURE)
}

/// Reads the words, or returns what is printed in their place.
fn read_words<'a>(alloc: Global, words: &'a [String]) -> Result<ArgMatches<'a>, Error> {
    let matches = command(alloc)?.try_get_matches_from(words)?;
    check_address(alloc, listen_address(&matches))?;
    check_schemas(alloc, &matches)?;
    Ok(matches)
}

/// Refuses a third schema.
fn check_schemas(alloc: Global, matches: &ArgMatches<'_>) -> Result<(), Error> {
    let Some(words) = matches.subcommand_matches("serve") else {
        return Ok(());
    };
    if schema_at(words, MOST_SCHEMAS).is_none() {
        return Ok(());
    }
    let mut command = command(alloc)?;
    Err(command.error(
        ErrorKind::TooManyValues,
        "the argument '--schema <F>' cannot be used more than twice",
    )?)
}

/// Refuses what isn't an address with a port.
fn check_address(alloc: Global, address: &str) -> Result<(), Error> {
    if is_address(address) {
        return Ok(());
    }
    let text = format!(in alloc;
        "invalid value '{address}' for '--listen <A>': not an address with a port, as {ADDRESS}"
    )?;
    let mut command = command(alloc)?;
    Err(command.error(ErrorKind::ValueValidation, text.as_str())?)
}

/// Says whether a text is an address with a port, or the name of a host with one.
fn is_address(text: &str) -> bool {
    if text.parse::<SocketAddr>().is_ok() {
        return true;
    }
    match text.rsplit_once(':') {
        Some((host, port)) => is_host(host.as_bytes()) && port.parse::<u16>().is_ok(),
        None => false,
    }
}

/// Says whether a host may have this name: of letters, a letter at least, digits, `-`, `_` and `.`.
fn is_host(name: &[u8]) -> bool {
    name.iter().any(|byte| byte.is_ascii_alphabetic())
        && name.iter().all(|byte| byte.is_ascii_alphanumeric()
            || matches!(*byte, b'-' | b'_' | b'.'))
}

/// Returns the value of a word that may be absent.
fn word<'a>(words: &ArgMatches<'a>, name: &str, absent: &'a str) -> &'a str {
    words.get_str(name).unwrap_or(absent)
}

/// Returns the value of a word of `serve` that may be absent.
fn serve_word<'a>(matches: &ArgMatches<'a>, name: &str, absent: &'a str) -> &'a str {
    match matches.subcommand_matches("serve") {
        Some(words) => word(words, name, absent),
        None => absent,
    }
}

/// Returns where the daemon is to listen.
fn listen_address<'a>(matches: &ArgMatches<'a>) -> &'a str {
    serve_word(matches, "listen", ADDRESS)
}

/// Returns the file of a schema.
fn schema_file<'a>(matches: &ArgMatches<'a>, which: Which) -> &'a str {
    if let Some(words) = matches.subcommand_matches("serve") {
        return match which {
            Which::First => schema_at(words, 0).unwrap_or(""),
            Which::Second => schema_at(words, 1).unwrap_or(""),
        };
    }
    match matches.subcommand_matches("script") {
        Some(words) => word(words, "schema", ""),
        None => "",
    }
}

/// Returns the file of the schema at this place among those of `serve`, if there is one.
fn schema_at<'a>(words: &ArgMatches<'a>, place: usize) -> Option<&'a str> {
    let files = words.get_strs("schema")?;
    match files.get(place) {
        Some(file) => Some(*file),
        None => None,
    }
}

/// Where the daemon listens if nothing else is asked for (RFC 7047, 6).
const ADDRESS: &str = "127.0.0.1:6640";

/// What the log has besides connections, where it is asked for.
const ERRORS: &str = "errors";

/// The word by which the database `_Server` is asked for.
const SERVER_DATABASE: &str = "server-database";

/// How many databases are served at most.
const MOST_SCHEMAS: usize = 2;

/// How many milliseconds a client may be waited for at most: a day.
const LONGEST: u64 = 86_400_000;

/// Of how many of the last commits the contents can be found if nothing else is asked for.
const KEPT: u64 = 100;

/// Of how many at most.
const MOST_KEPT: u64 = 1_000_000;

/// How many bytes a message may have at most, whatever is asked for.
const LONGEST_MESSAGE: u64 = 1_073_741_824;

/// How many threads may serve connections, and how many compose what clients are sent.
const MOST_THREADS: u64 = 64;

/// What the help ends with: an example, exit statuses, and the numbers of schema faults. [P 1.4, 15.1, 15.2]
const AFTER_HELP: &str = "Example:
  ovsdbd serve --schema net.json
  ovsdb-client list-dbs tcp:127.0.0.1:6640

The exit status is 0 after a script that ran to its end, after as many connections as were asked for,
and after help and the version; 1 after a fault, which standard error names; 2 where the words are wrong.

'schema: fault N' says why a file holds no schema (RFC 7047, 3.2):
  1  memory ran out
  2  it isn't JSON, a member is missing or of another kind, or the version is no version
  3  a name of the database, a table or a column isn't one
  4  a number or a text isn't allowed where it stands
  5  refTable names no table of the schema
  6  an index is empty, repeats a column, or names one that isn't there or is ephemeral
  7  more than 16,777,216 bytes, or more than 256 tables, or columns of a table";

/// What the help of `script` ends with. [P 15.1]
const AFTER_SCRIPT_HELP: &str = "Lines of a script (NAME is 1 to 16 letters or digits):
  !open NAME      opens a session
  NAME BYTES      gives the session these bytes, which are messages of OVSDB or parts of them
  !hold NAME      leaves what the session is owed in its queue
  !take NAME      prints all that the session is owed, and ends the hold
  !tick N         sets the clock to N milliseconds
  !close NAME     closes the session
What the sessions are sent is printed, a message a line, after the name of its session.

Example:
  $ printf '%s\\n' '!open A' 'A {\"id\":1,\"method\":\"list_dbs\",\"params\":[]}' | ovsdbd script --schema net.json
  A {\"error\":null,\"id\":1,\"result\":[\"net\"]}";

/// What the help of `serve` ends with. [P 15.2]
const AFTER_SERVE_HELP: &str =
    "The first line printed is 'listening ADDRESS', with the port that it listens on.
Each connection is a session. Rows are kept in memory alone, and are gone when it ends.
With --load it begins with what the requests of FILE make. Where one of them has an error or waits, or FILE ends in the midst of
one, it ends with status 1, and standard error has the request's number, from 1, and the error.

Example:
  $ ovsdbd serve --schema net.json --listen 127.0.0.1:0 --sessions 1
  listening 127.0.0.1:40123";

/// Makes the words that are understood.
fn command<'a>(alloc: Global) -> Result<Command<'a>, Error> {
    let command = Command::new(alloc, "ovsdbd")
        .about("An OVSDB server (RFC 7047) that begins with empty tables.")
        .version("0.2.0~")
        .after_help(AFTER_HELP)
        .subcommand_required(true)
        .subcommand(script_command(alloc)?)?
        .subcommand(serve_command(alloc)?)?;
    Ok(command)
}

/// Makes `script` and its words.
fn script_command<'a>(alloc: Global) -> Result<Command<'a>, Error> {
    let script = Command::new(alloc, "script")
        .about("Runs a script from standard input on a server of the schema")
        .after_help(AFTER_SCRIPT_HELP)
        .arg(schema_word(alloc))?;
    Ok(script)
}

/// Makes `serve` and its words.
fn serve_command<'a>(alloc: Global) -> Result<Command<'a>, Error> {
    let serve = Command::new(alloc, "serve")
        .about("Serves the schema over TCP")
        .after_help(AFTER_SERVE_HELP)
        .arg(schemas_word(alloc))?
        .arg(listen_word(alloc))?
        .arg(load_word(alloc))?
        .arg(log_word(alloc))?
        .arg(server_database_word(alloc))?
        .arg(sessions_word(alloc))?
        .arg(probe_word(alloc))?
        .arg(stall_word(alloc))?
        .arg(kept_word(alloc))?
        .arg(max_message_word(alloc))?
        .arg(threads_word(alloc))?
        .arg(workers_word(alloc))?;
    Ok(serve)
}

fn listen_word<'a>(alloc: Global) -> Arg<'a> {
    Arg::new(alloc, "listen")
        .long("listen")
        .value_name("A")
        .help(
            "The address and port to listen on, 127.0.0.1:6640 if absent; at port 0 the system chooses one",
        )
        .action(ArgAction::Set)
}

fn load_word<'a>(alloc: Global) -> Arg<'a> {
    Arg::new(alloc, "load")
        .long("load")
        .value_name("FILE")
        .help(
            "A file of requests that go through, one after the other, before it listens: dump-to-load and keep write such files",
        )
        .action(ArgAction::Set)
}

fn log_word<'a>(alloc: Global) -> Arg<'a> {
    Arg::new(alloc, "log")
        .long("log")
        .value_name("WHAT")
        .help(
            "Say on standard error which connections are opened and closed, and why; with --log=errors also which transactions fail, and for what",
        )
        .num_args(0..=1)
        .require_equals(true)
        .value_parser(ValueParser::Names(&[ERRORS]))
        .action(ArgAction::Set)
}

fn server_database_word<'a>(alloc: Global) -> Arg<'a> {
    Arg::new(alloc, SERVER_DATABASE)
        .long(SERVER_DATABASE)
        .help(
            "Serve the database _Server too, which says what is served: clients that ask it for that ask for the rest by conditions, and are told what changed when they come back",
        )
        .action(ArgAction::SetTrue)
}

fn sessions_word<'a>(alloc: Global) -> Arg<'a> {
    Arg::new(alloc, "sessions")
        .long("sessions")
        .value_name("N")
        .help("How many connections to serve before it ends")
        .value_parser(ValueParser::Unsigned(1, u64::MAX))
        .action(ArgAction::Set)
}

fn probe_word<'a>(alloc: Global) -> Arg<'a> {
    Arg::new(alloc, "probe")
        .long("probe")
        .value_name("MS")
        .help(
            "After so many milliseconds without a byte a client is asked whether it is there, and after as many again it is cut off; never if absent or 0",
        )
        .value_parser(ValueParser::Unsigned(0, LONGEST))
        .action(ArgAction::Set)
}

fn stall_word<'a>(alloc: Global) -> Arg<'a> {
    Arg::new(alloc, "stall")
        .long("stall")
        .value_name("MS")
        .help(
            "A client that takes nothing for so many milliseconds is cut off; never if absent or 0",
        )
        .value_parser(ValueParser::Unsigned(0, LONGEST))
        .action(ArgAction::Set)
}

fn kept_word<'a>(alloc: Global) -> Arg<'a> {
    Arg::new(alloc, "kept")
        .long("kept")
        .value_name("N")
        .help(
            "A client that comes back and names one of the last N commits is told what changed since; 100 if absent, none if 0",
        )
        .value_parser(ValueParser::Unsigned(0, MOST_KEPT))
        .action(ArgAction::Set)
}

fn max_message_word<'a>(alloc: Global) -> Arg<'a> {
    Arg::new(alloc, "max-message")
        .long("max-message")
        .value_name("BYTES")
        .help("The most bytes of one message, 1 to 1,073,741,824; 16,777,216 if absent")
        .value_parser(ValueParser::Unsigned(1, LONGEST_MESSAGE))
        .action(ArgAction::Set)
}

fn threads_word<'a>(alloc: Global) -> Arg<'a> {
    Arg::new(alloc, "threads")
        .long("threads")
        .value_name("N")
        .help("How many threads serve connections, 1 to 64; one for each processor if absent")
        .value_parser(ValueParser::Unsigned(1, MOST_THREADS))
        .action(ArgAction::Set)
}

fn workers_word<'a>(alloc: Global) -> Arg<'a> {
    Arg::new(alloc, "workers")
        .long("workers")
        .value_name("N")
        .help(
            "How many threads compose what clients are told where that is much, 1 to 64; one for each processor if absent",
        )
        .value_parser(ValueParser::Unsigned(1, MOST_THREADS))
        .action(ArgAction::Set)
}

fn schema_word<'a>(alloc: Global) -> Arg<'a> {
    Arg::new(alloc, "schema")
        .long("schema")
        .value_name("F")
        .help("The file of the schema (RFC 7047, 3.2)")
        .required(true)
        .action(ArgAction::Set)
}

fn schemas_word<'a>(alloc: Global) -> Arg<'a> {
    Arg::new(alloc, "schema")
        .long("schema")
        .value_name("F")
        .help(
            "The file of the schema (RFC 7047, 3.2); given twice, each is a database of its own, and requests go to the one that they name",
        )
        .required(true)
        .action(ArgAction::Append)
}

/// Prints help, on standard output, or what is wrong with the words, on standard error.
fn refuse(rt: &HostRuntime, error: Error) -> io::Result<ExitCode> {
    if error.use_stderr() {
        error.print(rt)?;
        return Ok(ExitCode::from(2));
    }
    if error.print(rt).is_err() {
        eprintln!(rt; "ovsdbd: {}", RunFault::Write)?;
        return Ok(ExitCode::FAILURE);
    }
    Ok(ExitCode::SUCCESS)
}

/// Runs the script on standard input.
fn script(rt: &HostRuntime, file: &str) -> Result<(), ProgramFault> {
    let schema = read_schema(rt, file, Which::First)?;
    let memory = |_| ProgramFault::Run(RunFault::Memory);
    let hashing = RandomState::new(rt).map_err(memory)?;
    let reader = FailureLatch::new(rt.reader());
    let mut reader = BufReader::new(rt.alloc(), reader).map_err(memory)?;
    let mut writer = FailureLatch::new(io::writer(rt));
    run_script(rt.alloc(), schema, hashing, &mut reader, &mut writer).map_err(ProgramFault::Run)
}

/// Serves the schemas, beginning with the messages of a file where one is named.
fn serve_schemas<
    R: Files
        + Net<Listener = TcpListener, Stream = TcpStream>
        + Threads
        + Wait
        + Clock
        + RandomSource
        + Print
        + Eprint
        + Sync,
>(rt: &R, alloc: Global, schemas: Schemas, words: &ArgMatches<'_>) -> Result<(), ProgramFault> {
    let start = StartOptions {
        address: word(words, "listen", ADDRESS),
        file: words.get_str("load"),
    };
    let names = names_to_log(alloc, &schemas, words)?;
    let front = front_of(rt, alloc, &schemas, words)?;
    let Schemas { first, second } = schemas;
    let Ok(moment) = Instant::now(rt) else {
        return Err(ProgramFault::Run(RunFault::Read));
    };
    let beginning = Beginning {
        first: begin_one(rt, alloc, first, words, moment)?,
        second: begin_second(rt, alloc, second, words, moment)?,
        front,
        names,
    };
    serve_all(rt, beginning, start, terms(rt, words))
}

/// Begins the second database, if there is one.
fn begin_second<R: RandomSource>(
    rt: &R,
    alloc: Global,
    schema: Option<Schema>,
    words: &ArgMatches<'_>,
    moment: Instant,
) -> Result<Option<SecondBegun>, ProgramFault>
    ensures { IfOk result (λ second. IfSome second (λ second. IsNew second.begun.core)) }
{
    let Some(schema) = schema else {
        return Ok(None);
    };
    let rng: Result<StdRng, io::Error> = make_rng(rt);
    let mut rng = rng.map_err(|_| ProgramFault::Run(RunFault::Memory))?;
    let id = Uuid::new_v4(&mut rng);
    match begin_one(rt, alloc, schema, words, moment) {
        Ok(begun) => Ok(Some(SecondBegun { begun, id })),
        Err(fault) => Err(fault),
    }
}

/// Begins a database at this moment.
fn begin_one<R: RandomSource>(
    rt: &R,
    alloc: Global,
    schema: Schema,
    words: &ArgMatches<'_>,
    moment: Instant,
) -> Result<Begun, ProgramFault>
    ensures { IfOk result (λ begun. IsNew begun.core) }
{
    let hashing = RandomState::new(rt).map_err(|_| ProgramFault::Run(RunFault::Memory))?;
    let commits = LastCommits {
        run: run_word(rt)?,
        kept: words.get_one("kept").unwrap_or(KEPT) as usize,
    };
    match begin(alloc, schema, hashing, commits, moment) {
        Ok(begun) => Ok(begun.keeping_failures(words.get_str("log").is_some())),
        Err(fault) => Err(ProgramFault::Run(fault)),
    }
}

/// Makes what there is where there are several databases: two that are served, or `_Server`.
fn front_of<R: RandomSource>(
    rt: &R,
    alloc: Global,
    schemas: &Schemas,
    words: &ArgMatches<'_>,
) -> Result<Option<FrontEnd>, ProgramFault> {
    let has_server = words.get_flag(SERVER_DATABASE);
    if !has_server && schemas.second.is_none() {
        return Ok(None);
    }
    Ok(Some(FrontEnd::new(rt, alloc, schemas, has_server)?))
}

/// Makes equal schemas, where transactions that fail are to be logged.
fn names_to_log(
    alloc: Global,
    schemas: &Schemas,
    words: &ArgMatches<'_>,
) -> Result<Option<Schemas>, ProgramFault> {
    if words.get_str("log").is_none() {
        return Ok(None);
    }
    Ok(Some(schemas.try_copy(alloc)?))
}

/// Draws the word by which identifiers of commits are told apart from those of other runs.
fn run_word<R: RandomSource>(rt: &R) -> Result<u64, ProgramFault> {
    let rng: Result<StdRng, io::Error> = make_rng(rt);
    let mut rng = rng.map_err(|_| ProgramFault::Run(RunFault::Memory))?;
    Ok(rng.next_u64())
}

/// Returns whom the daemon is to serve.
fn terms<R: Threads>(rt: &R, words: &ArgMatches<'_>) -> Terms {
    Terms {
        sessions: words.get_one("sessions"),
        patience: Patience {
            probe: milliseconds(words, "probe"),
            stall: milliseconds(words, "stall"),
        },
        max_message: words.get_one("max-message").unwrap_or(MAX_MESSAGE as u64) as usize,
        has_log: words.contains_id("log"),
        threads: threads(rt, words, "threads"),
        workers: Workers::new(threads(rt, words, "workers"), HEAVY),
    }
}

/// Returns how many threads a word asks for: as many as there are processors where it is absent, at most 64.
fn threads<R: Threads>(rt: &R, words: &ArgMatches<'_>, name: &str) -> usize {
    let most = MOST_THREADS as usize;
    let asked: Option<u64> = words.get_one(name);
    match asked {
        Some(count) => count as usize,
        None => processors(rt).min(most),
    }
}

/// Counts the processors, and says 1 where they can't be counted.
fn processors<R: Threads>(rt: &R) -> usize {
    match thread::available_parallelism(rt) {
        Ok(count) => count.get(),
        Err(_) => 1,
    }
}

/// Returns so many milliseconds; none where the word is absent or 0.
fn milliseconds(words: &ArgMatches<'_>, name: &str) -> Option<u64> {
    let count: u64 = words.get_one(name)?;
    if count == 0 {
        return None;
    }
    Some(count)
}

/// Reads the schemas that are to be served.
fn read_schemas(rt: &HostRuntime, words: &ArgMatches<'_>) -> Result<Schemas, ProgramFault> {
    let first = read_schema(rt, schema_at(words, 0).unwrap_or(""), Which::First)?;
    let Some(file) = schema_at(words, 1) else {
        return Ok(Schemas {
            first,
            second: None,
        });
    };
    let second = read_schema(rt, file, Which::Second)?;
    if second.name() == first.name() {
        return Err(ProgramFault::SameName);
    }
    Ok(Schemas {
        first,
        second: Some(second),
    })
}

/// Reads the schema in a file.
fn read_schema(rt: &HostRuntime, file: &str, which: Which) -> Result<Schema, ProgramFault> {
    let text = fs::read(rt, file).map_err(|error| ProgramFault::SchemaUnread(which, error))?;
    Schema::read(rt.alloc(), text.as_slice()).map_err(|fault| ProgramFault::Schema(which, fault))
}

/// Returns what a fault of a schema means, as the help has it.
fn meaning(fault: SchemaFault) -> &'static str {
    match fault {
        SchemaFault::Memory => "memory ran out",
        SchemaFault::Syntax => {
            "it isn't JSON, a member is missing or of another kind, or the version is no version"
        }
        SchemaFault::BadId => "a name of the database, a table or a column isn't one",
        SchemaFault::BadType => "a number or a text isn't allowed where it stands",
        SchemaFault::UnknownRefTable => "refTable names no table of the schema",
        SchemaFault::BadIndex => {
            "an index is empty, repeats a column, or names one that isn't there or is ephemeral"
        }
        SchemaFault::TooLarge => {
            "more than 16,777,216 bytes, or more than 256 tables, or columns of a table"
        }
    }
}
