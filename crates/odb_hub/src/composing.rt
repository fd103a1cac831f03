//! Rounds of a core whose jobs several threads compose. [P 10.3]
ghost use Rattle.std.specs.Prelude.{◌≡◌, ◌∷◌, [], IfOk, IfSome, map, Ok, OnErr};
ghost use Rattle.odb_core.specs.Represented.Rounds.{AreRoundOf};
ghost use Rattle.odb_service.specs.Run.{round};
ghost use Rattle.odb_service.specs.Server.{serve};
ghost use Rattle.odb_sessions.specs.FirstTexts.{IsFirstText};
ghost use Rattle.odb_sessions.specs.Composed.{composition};
ghost use Rattle.odb_sessions.specs.Represented.Composed.{bytes_in};
ghost use Rattle.odb_sessions.specs.Represented.Out.{sent_in};

use odb_core::{Core, FirstText, Jobs, Out, PreparedRound, SessionId};
use odb_par::{Gate, Open, Workers, compose_all};
use std::alloc::{AllocError, Global};
use std::sync::Arc;
use std::thread::Threads;

/// A round that is composed, and the text of a first reply of it that is to be kept.
#[derive(Drop)]
struct ComposedRound {
    prepared: PreparedRound,
    first: Option<FirstText>,
}

/// Gives each session of the list that is open its next message, if it has one, as `Core::round` does; the workers compose
/// what is to be composed for it. An error says that memory was refused, and nothing was taken then. It costs what that
/// call and `Jobs::weight` do; where that weight has two workers or more, `compose_all` takes the place of `Jobs::compose`.
pub(crate) fn round_by<R: Threads + Sync, G: Gate + Sync>(
    rt: &R,
    core: &mut Core,
    ready: &[SessionId],
    workers: Workers,
    gate: &G,
) -> Result<Vec<Out>, AllocError>
    ensures ok { IfOk result (λ outs. serve (round ready.now) core.old
        ≡ Ok (core.new, map sent_in outs.items)) }
    ensures err { OnErr result (core.new ≡ core.old) }
{
    let ComposedRound { prepared, first } = prepare(rt, core, ready, workers, gate)?;
    core.add_first_text(first);
    Ok(core.accept(prepared))
}

/// Gives one session its next message, if it has one, as `round_by` does, and has it forgotten by the core where it is found to be
/// owed nothing then. It costs what `next_of` and `Core::shorten_owed` do.
pub(crate) fn round_of<R: Threads + Sync>(
    rt: &R,
    alloc: Global,
    core: &mut Core,
    session: SessionId,
    workers: Workers,
) -> Result<Vec<Out>, AllocError>
    ensures ok { IfOk result (λ outs. serve (round (session ∷ [])) core.old
        ≡ Ok (core.new, map sent_in outs.items)) }
    ensures err { OnErr result (core.new ≡ core.old) }
{
    let outs = next_of(rt, alloc, core, session, workers)?;
    core.shorten_owed(session, 1);
    Ok(outs)
}

/// Gives one session its next message, if it has one, as `round_by` does; a text that was finished when it was queued goes
/// out without a plan. It costs what `Core::take_finished` does, and else what `round_by` does.
fn next_of<R: Threads + Sync>(
    rt: &R,
    alloc: Global,
    core: &mut Core,
    session: SessionId,
    workers: Workers,
) -> Result<Vec<Out>, AllocError>
    ensures ok { IfOk result (λ outs. serve (round (session ∷ [])) core.old
        ≡ Ok (core.new, map sent_in outs.items)) }
    ensures err { OnErr result (core.new ≡ core.old) }
{
    let mut outs = Vec::with_capacity(alloc, 1)?;
    match core.take_finished(session) {
        Some(out) => {
            outs.push_reserved(out);
            Ok(outs)
        }
        None => round_by(rt, core, &[session], workers, &Open),
    }
}

/// Plans a round of these sessions, and has it composed. Nothing is taken.
fn prepare<R: Threads + Sync, G: Gate + Sync>(
    rt: &R,
    core: &Core,
    ready: &[SessionId],
    workers: Workers,
    gate: &G,
) -> Result<ComposedRound, AllocError>
    ensures round { IfOk result (λ composed. AreRoundOf ready.now core.now composed.prepared) }
    ensures first { IfOk result (λ composed. IfSome composed.first (IsFirstText core.now.world.db)) }
{
    let jobs = core.jobs(ready)?;
    let bodies = bodies_of(rt, &jobs, workers, gate)?;
    let first = jobs.first_text(bodies.as_slice())?;
    let prepared = jobs.finish(bodies.as_slice())?;
    Ok(ComposedRound { prepared, first })
}

/// Composes each of the jobs, by as many workers as there are for what they weigh; one alone is the caller, and comes to no
/// gate.
fn bodies_of<R: Threads + Sync, G: Gate + Sync>(
    rt: &R,
    jobs: &Jobs<'_>,
    workers: Workers,
    gate: &G,
) -> Result<Vec<Option<Arc<Vec<u8>>>>, AllocError>
    ensures { IfOk result (λ bodies. map bytes_in bodies.items ≡ map composition jobs.now.jobs) }
{
    let count = workers.for_weight(jobs.weight());
    if count < 2 {
        return jobs.compose();
    }
    compose_all(rt, jobs.alloc(), jobs.list(), count, gate)
}
