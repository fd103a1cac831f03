//! Draining: sessions are given all that they are owed. [P 10.4, 15.1]
ghost use Rattle.std.specs.Prelude.{◌≡◌, ◌++◌, IfOk, OnOk};
ghost use Rattle.std.specs.List.Sorted.{IsStrictlySortedBy};
ghost use Rattle.std.specs.Ordering.{nat_cmp};
ghost use Rattle.odb_sessions.specs.Represented.Out.{text_of_out};
ghost use Rattle.odb_script.specs.Script.{line_of};
ghost use Rattle.odb_script.specs.Represented.Draining.{all_drained, drain_session, drained_session, numbered, numbered_drained};
ghost use Rattle.odb_script.specs.Represented.Names.{AreInOrder};

use crate::session::ScriptSession;
use odb_core::{Core, Out, SessionId};
use std::alloc::{AllocError, Global};
use std::collections::BTreeSet;

/// Drains a session, if it is open: each message is printed in a line of its own, after the name of
/// the session.
pub(crate) fn drain(
    core: &mut Core,
    session: SessionId,
    name: &[u8],
    text: &mut Vec<u8>,
) -> Result<(), AllocError>
    ensures done { OnOk result (drained_session name.now session (core.old, text.old.items) ≡ (core.new, text.new.items)) }
    ensures opened { core.new.opened ≡ core.old.opened }
{
    let ready = [session];
    while let Some(out) = core.round(&ready)?.pop() {
        print_out(text, name, &out)?;
    }
    Ok(())
}

/// Drains each of the sessions that isn't held, in order; their numbers rise. O(k log n) where k of the n sessions may be
/// owed something, and what these are given.
pub(crate) fn drain_all(
    alloc: Global,
    core: &mut Core,
    sessions: &[ScriptSession],
    text: &mut Vec<u8>,
) -> Result<(), AllocError>
    requires { AreInOrder sessions.now }
    ensures done { OnOk result (all_drained sessions.now (core.old, text.old.items) ≡ (core.new, text.new.items)) }
    ensures opened { core.new.opened ≡ core.old.opened }
{
    let owed = numbers_in(alloc, core.owed())?;
    for number in &owed {
        drain_numbered(core, *number, sessions, text)?;
    }
    Ok(())
}

/// Returns the numbers of a set, ascending.
fn numbers_in(alloc: Global, set: &BTreeSet<SessionId>) -> Result<Vec<SessionId>, AllocError>
    ensures numbers { IfOk result (λ numbers. numbers.items ≡ set.now.keys) }
    ensures rising { IfOk result (λ numbers. IsStrictlySortedBy nat_cmp numbers.items) }
{
    let mut numbers = Vec::with_capacity(alloc, set.len())?;
    for number in set.iter() {
        numbers.push(*number)?;
    }
    Ok(numbers)
}

/// Drains the session of the number, if it is among these and isn't held; their numbers rise.
fn drain_numbered(
    core: &mut Core,
    number: SessionId,
    sessions: &[ScriptSession],
    text: &mut Vec<u8>,
) -> Result<(), AllocError>
    requires { AreInOrder sessions.now }
    ensures done { OnOk result (numbered_drained (numbered number sessions.now) (core.old, text.old.items) ≡ (core.new, text.new.items)) }
    ensures opened { core.new.opened ≡ core.old.opened }
{
    match sessions.binary_search_by(|named| named.session.cmp(&number)) {
        Ok(place) => drain_unless_held(core, &sessions[place], text),
        Err(_) => Ok(()),
    }
}

fn drain_unless_held(
    core: &mut Core,
    named: &ScriptSession,
    text: &mut Vec<u8>,
) -> Result<(), AllocError>
    ensures done { OnOk result (drain_session named.now (core.old, text.old.items) ≡ (core.new, text.new.items)) }
    ensures opened { core.new.opened ≡ core.old.opened }
{
    if named.held {
        return Ok(());
    }
    drain(core, named.session, named.name.as_slice(), text)
}

fn print_out(text: &mut Vec<u8>, name: &[u8], out: &Out) -> Result<(), AllocError>
    ensures { OnOk result (text.new.items ≡ text.old.items ++ line_of name.now (text_of_out out.now)) }
{
    text.extend_from_slice(name)?;
    text.push(b' ')?;
    text.extend_from_slice(out.before.as_slice())?;
    if let Some(body) = &out.body {
        text.extend_from_slice(body.as_slice())?;
    }
    text.extend_from_slice(out.after.as_slice())?;
    text.push(b'\n')?;
    Ok(())
}

/// Prints a line for a session after its name.
pub(crate) fn print_line(text: &mut Vec<u8>, name: &[u8], line: &str) -> Result<(), AllocError>
    ensures { OnOk result (text.new.items ≡ text.old.items ++ line_of name.now line.now) }
{
    text.extend_from_slice(name)?;
    text.push(b' ')?;
    text.extend_from_slice(line.as_bytes())?;
    text.push(b'\n')?;
    Ok(())
}
