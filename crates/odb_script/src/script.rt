//! Scripts are run: lines are read, carried out, and what they print is written, one by one. [P 15.1]
ghost use Rattle.std.specs.Prelude.{◌≡◌, [], ◌∷◌, List, ℕ, None, Some, IfOk, IfErr, IfSome, OnOk, MatchOption, IsErrOf, true};
ghost use Rattle.std.specs.Io.Buffered.{reader_inner, reader_remaining};
ghost use Rattle.std.specs.Io.BufRead.{strip_last};
ghost use Rattle.std.specs.Io.KnownBytes.{Appends};
ghost use Rattle.odb_service.specs.Server.{served_by};
ghost use Rattle.odb_script.specs.Script.{command_of, lines_of, perform_lines, served_script};
ghost use Rattle.odb_script.specs.Represented.Run.{line_step, AppendsFront, IsOfWriting, CarriesOut, Ends, IsOfReading};
ghost use Rattle.odb_script.specs.Represented.Latch.{has_failed, inner_of};
ghost use Rattle.odb_script.specs.declared.fault.RunFault.TheVariants as fault;

use crate::command::Command;
use crate::engine::Engine;
use crate::fault::RunFault;
use crate::latch::FailureLatch;
use odb_schema::Schema;
use std::alloc::Global;
use std::hash::RandomState;
use std::io::{BufRead, BufReader, Read, Write};

/// Runs a script on a server of the schema with empty tables and no session: each line is carried out, and what it
/// prints is written, before the next is waited for. Empty lines are passed over. The run ends with the input, which
/// need not end in a line feed, or with the first line that is no command.
///
/// After `Ok` and `BadCommand` all that the script prints was written, and after any other error a beginning of it.
/// `Read` and `Write` come only where a call of that side failed.
pub fn run_script<R: Read, W: Write>(
    alloc: Global,
    schema: Schema,
    hashing: RandomState,
    reader: &mut BufReader<FailureLatch<R>>,
    writer: &mut FailureLatch<W>,
) -> Result<(), RunFault>
    ensures ends { IfSome (reader_remaining (λ w. R.remaining (inner_of w)) reader.old)
        (λ text. Ends (served_script schema text) result (W.contents (inner_of writer.old)) (W.contents (inner_of writer.new))) }
    ensures read { IsErrOf result fault.Read → has_failed (reader_inner reader.new) ≡ true }
    ensures write { IsErrOf result fault.Write → has_failed writer.new ≡ true }
{
    let Ok(mut engine) = Engine::new(alloc, schema, hashing) else {
        return Err(RunFault::Memory);
    };
    run_lines(alloc, &mut engine, reader, writer)
}

/// Carries the lines of the input out, one by one.
fn run_lines<R: Read, W: Write>(
    alloc: Global,
    engine: &mut Engine,
    reader: &mut BufReader<FailureLatch<R>>,
    writer: &mut FailureLatch<W>,
) -> Result<(), RunFault>
    ensures ends { IfSome (reader_remaining (λ w. R.remaining (inner_of w)) reader.old)
        (λ text. Ends (perform_lines (served_by engine.old.schema) command_of 1 (lines_of text) engine.old.script) result
        (W.contents (inner_of writer.old)) (W.contents (inner_of writer.new))) }
    ensures read { IsErrOf result fault.Read → has_failed (reader_inner reader.new) ≡ true }
    ensures write { IsErrOf result fault.Write → has_failed writer.new ≡ true }
{
    for number in 1..u64::MAX {
        let line = match next_line(alloc, reader) {
            Ok(Some(line)) => line,
            Ok(None) => return Ok(()),
            Err(fault) => return Err(fault),
        };
        carry_out(engine, number, without_line_feed(&line), writer)?;
    }
    Err(RunFault::Memory)
}

/// Reads the next line, with its line feed where it has one; `None` at the end of the input.
fn next_line<R: Read>(
    alloc: Global,
    reader: &mut BufReader<FailureLatch<R>>,
) -> Result<Option<Vec<u8>>, RunFault>
    ensures line { IfSome (reader_remaining (λ w. R.remaining (inner_of w)) reader.old) (λ text. IfOk result (λ taken. MatchOption taken
        (lines_of text ≡ [])
        (λ line. (rest : List ℕ) × (reader_remaining (λ w. R.remaining (inner_of w)) reader.new ≡ Some rest)
        × (lines_of text ≡ strip_last 10 line.items ∷ lines_of rest)))) }
    ensures err { IfErr result IsOfReading }
    ensures read { IsErrOf result fault.Read → has_failed (reader_inner reader.new) ≡ true }
{
    let mut line = Vec::new(alloc);
    match reader.read_until(b'\n', &mut line) {
        Ok(0) => Ok(None),
        Ok(_) => Ok(Some(line)),
        Err(_) if reader.get_ref().failed() => Err(RunFault::Read),
        Err(_) => Err(RunFault::Memory),
    }
}

fn without_line_feed(line: &[u8]) -> &[u8]
    ensures { result.now ≡ strip_last 10 line.now }
{
    match line {
        [front @ .., b'\n'] => front,
        _ => line,
    }
}

/// Carries a line out and writes what it prints; an empty one does nothing.
fn carry_out<W: Write>(
    engine: &mut Engine,
    number: u64,
    line: &[u8],
    writer: &mut FailureLatch<W>,
) -> Result<(), RunFault>
    ensures done { CarriesOut number (line_step (served_by engine.old.schema) line.now engine.old.script) engine.new.script result
        (W.contents (inner_of writer.old)) (W.contents (inner_of writer.new)) }
    ensures schema { OnOk result (engine.new.schema ≡ engine.old.schema) }
    ensures write { IsErrOf result fault.Write → has_failed writer.new ≡ true }
{
    if line.is_empty() {
        return Ok(());
    }
    let Some(command) = Command::read(line) else {
        return Err(RunFault::BadCommand(number));
    };
    let Ok(text) = engine.perform(command) else {
        return Err(RunFault::Memory);
    };
    print(&text, writer)
}

/// Writes what a line prints, for whoever reads the output to see at once.
fn print<W: Write>(text: &[u8], writer: &mut FailureLatch<W>) -> Result<(), RunFault>
    ensures ok { OnOk result (Appends (W.contents (inner_of writer.old)) (W.contents (inner_of writer.new)) text.now) }
    ensures front { AppendsFront (W.contents (inner_of writer.old)) (W.contents (inner_of writer.new)) text.now }
    ensures err { IfErr result IsOfWriting }
    ensures write { IsErrOf result fault.Write → has_failed writer.new ≡ true }
{
    if writer.write_all(text).is_ok() && writer.flush().is_ok() {
        Ok(())
    } else {
        Err(RunFault::Write)
    }
}
