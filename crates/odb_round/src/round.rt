//! Rounds: each listed session is given its next message, if it has one. All are planned, and composed, before one is
//! carried out, which takes no memory. [P 10.3]
ghost use Rattle.std.specs.Prelude.{◌≡◌, ◌≤◌, ◌∷◌, [], List, flat_map, is_some, map, length, option_map, vec_capacity, IfNone, IfOk, IfSome, OnErr, OnOk};
ghost use Rattle.std.specs.List.{All};
ghost use Rattle.odb_atoms.specs.FinMap as finite;
ghost use Rattle.odb_monitor.specs.Job as model_job;
ghost use Rattle.odb_schema.specs.Schema.{Schema};
ghost use Rattle.odb_service.specs.Run.{take_each};
ghost use Rattle.odb_service.specs.Server.{printed, served_by};
ghost use Rattle.odb_service.specs.Session as machine;
ghost use Rattle.odb_service.specs.World.{World, revision_of};
ghost use Rattle.odb_sessions.specs.Alike.{Likeness};
ghost use Rattle.odb_sessions.specs.FirstTexts.{IsOfNow};
ghost use Rattle.odb_sessions.specs.Marked.{all_seen, item_seen, seen};
ghost use Rattle.odb_round.specs.Jobs.{AreByLikenesses, AreByMarks, AreEachOnce, AreMadeOf, AreOfJobs, IsByLikeness, IsOfJob, Keeps};
ghost use Rattle.odb_round.specs.OfSchema.{AreSessionsOf};
ghost use Rattle.odb_round.specs.Planned.{AreOnce};
ghost use Rattle.odb_sessions.specs.Posts.{at_number};
ghost use Rattle.odb_sessions.specs.Represented.Out.{sent_in};
ghost use Rattle.odb_sessions.specs.Represented.Composed.{bytes_in};
ghost use Rattle.odb_sessions.specs.Represented.Item.{marked_item_of};
ghost use Rattle.odb_round.specs.Represented.Taking.{pending_by, pending_of, ready_by, ready_of, text_by, text_planned};
ghost use Rattle.odb_round.specs.Taken.{AreOf, AreReady, IsReadyFor, begins_finished, given_by, is_finished, sessions_in, text_taken};
ghost use Rattle.odb_sessions.specs.Tied.{AreAllLive};
ghost use Rattle.odb_sessions.specs.Told.{IsToldOf};
ghost use Rattle.odb_sessions.specs.Book.{book_with, revision_at, revision_in};

use crate::basis::Basis;
use crate::foreseen::Planner;
use crate::jobs::{Jobs, Planned, PreparedRound};
use crate::taking::{Coming, Taking, taking_from};
use odb_locks::SessionId;
use odb_queue::Finished;
use odb_sessions::{Item, Numbered, Out, Sessions};
use std::alloc::{AllocError, Global};
use std::collections::VecDeque;
use std::sync::Arc;

/// Returns what a taking of a session uses up, and what comes, if it is open. O(log n) for n sessions, and what
/// `taking_from` costs.
fn taking_at<'a>(
    sessions: &'a Numbered,
    session: SessionId,
    planner: &mut Planner<'a>,
) -> Result<Planned, AllocError>
    requires live { AreAllLive planner.old.chains sessions.now }
    requires of { AreSessionsOf planner.old.basis.schema (all_seen sessions.now) }
    requires known { planner.old.basis.sessions ≡ sessions.now }
    ensures session { IfOk result (λ planned. planned.session ≡ session) }
    ensures ready { IfOk result (λ planned. (s : Schema) (all : List model_job.Job) → Keeps planner.new.jobs all
        → IsReadyFor s (revision_at planner.old.chains planner.old.recent) (option_map seen (finite.get sessions.now session)) (ready_by all planned.taking)) }
    ensures made { IfOk result (λ planned. (s : Schema) (all : List model_job.Job) → Keeps planner.new.jobs all
        → IsOfJob s (revision_at planner.old.chains planner.old.recent) all (option_map seen (finite.get sessions.now session)) (text_planned all planned.taking.coming)) }
    ensures marks { IfOk result (λ planned. (s : Schema) (all : List model_job.Job) (likenesses : List Likeness) → Keeps planner.new.likenesses likenesses
        → IsByLikeness s (revision_at planner.old.chains planner.old.recent) all likenesses (finite.get sessions.now session) (text_planned all planned.taking.coming)) }
    ensures likenesses { OnOk result (Keeps planner.old.likenesses planner.new.likenesses) }
    ensures jobs { Keeps planner.old.jobs planner.new.jobs }
    ensures chains { planner.new.chains ≡ planner.old.chains }
    ensures recent { planner.new.recent ≡ planner.old.recent }
    ensures basis { planner.new.basis ≡ planner.old.basis }
{
    let Some(of) = sessions.get(session) else {
        return Ok(Planned::none(session));
    };
    let taking = taking_from(of, planner)?;
    Ok(Planned {
        session,
        taking,
        body: None,
    })
}

/// Returns what is taken for each of these sessions.
fn takings_at<'a>(
    alloc: Global,
    sessions: &'a Numbered,
    listed: &[SessionId],
    planner: &mut Planner<'a>,
) -> Result<Vec<Planned>, AllocError>
    requires live { AreAllLive planner.old.chains sessions.now }
    requires of { AreSessionsOf planner.old.basis.schema (all_seen sessions.now) }
    requires known { planner.old.basis.sessions ≡ sessions.now }
    ensures sessions { IfOk result (λ planned. map (λ p. p.session) planned.items ≡ listed.now) }
    ensures ready { IfOk result (λ planned. (s : Schema) (all : List model_job.Job) → Keeps planner.new.jobs all
        → AreReady s (book_with planner.old.chains.db planner.old.recent (all_seen sessions.now)) (map (pending_by all) planned.items)) }
    ensures made { IfOk result (λ planned. (s : Schema) (all : List model_job.Job) → Keeps planner.new.jobs all
        → AreMadeOf s (book_with planner.old.chains.db planner.old.recent (all_seen sessions.now)) all (map (pending_by all) planned.items)) }
    ensures marks { IfOk result (λ planned. (s : Schema) (all : List model_job.Job) (likenesses : List Likeness) → Keeps planner.new.likenesses likenesses
        → AreByLikenesses s (revision_at planner.old.chains planner.old.recent) sessions.now all likenesses (map (pending_by all) planned.items)) }
    ensures chains { OnOk result (planner.new.chains ≡ planner.old.chains) }
    ensures recent { OnOk result (planner.new.recent ≡ planner.old.recent) }
    ensures basis { OnOk result (planner.new.basis ≡ planner.old.basis) }
{
    let mut takings = Vec::with_capacity(alloc, listed.len())?;
    for session in listed {
        takings.push_reserved(taking_at(sessions, *session, planner)?);
    }
    Ok(takings)
}

/// Returns the message that comes to the session: the text that was queued, or the composition with what stands around it.
fn message(
    alloc: Global,
    session: SessionId,
    coming: Option<Coming>,
    queued: Option<Finished>,
    body: Option<Arc<Vec<u8>>>,
) -> Option<Out>
    ensures { option_map sent_in result ≡ option_map (λ t. (session, t)) (text_by coming (option_map (λ f. f.text.items) queued) (bytes_in body)) }
{
    match coming {
        None => None,
        Some(Coming::Queued) => Some(Out::finished(alloc, session, queued?)),
        Some(Coming::Composed(envelope)) => envelope.seal(session, body),
    }
}

/// Plans a round of these sessions, of which all requests are of the schema: nothing is composed, and nothing is taken.
/// No two jobs are alike, those of replies to who resumes among them: what clients of several are owed alike is one.
pub fn plan_round<'a>(
    sessions: &'a Sessions,
    schema: &'a odb_schema::Schema,
    listed: &[SessionId],
) -> Result<Jobs<'a>, AllocError>
    requires { AreSessionsOf schema.now sessions.now.sessions }
    ensures sessions { IfOk result (λ jobs. sessions_in jobs.takings ≡ listed.now) }
    ensures ready { IfOk result (λ jobs. AreOf sessions.now jobs.takings) }
    ensures jobs { IfOk result (λ jobs. AreOfJobs sessions.now jobs.jobs jobs.takings) }
    ensures now { IfOk result (λ jobs. All (IsOfNow sessions.now.db) jobs.jobs) }
    ensures told { IfOk result (λ jobs. IsToldOf sessions.now jobs.told) }
    ensures once { IfOk result (λ jobs. AreEachOnce jobs.told.chains (revision_in sessions.now) jobs.jobs jobs.likenesses) }
    ensures marks { IfOk result (λ jobs. AreByMarks sessions.now jobs.told jobs.jobs jobs.likenesses jobs.takings) }
{
    let told = sessions.told();
    let numbered = told.sessions();
    let basis = Basis {
        schema,
        sessions: numbered,
    };
    let mut planner = Planner::new(
        sessions.alloc(),
        basis,
        told.chains(),
        sessions.recent(),
        sessions.firsts(),
    );
    let takings = takings_at(sessions.alloc(), numbered, listed, &mut planner)?;
    Ok(Jobs::new(sessions.alloc(), told, planner.into_jobs(), takings))
}

/// Carries a taking out, and returns the message that comes, if one does. It can't be refused.
fn take(sessions: &mut Sessions, planned: Planned) -> Option<Out>
    requires { (s : Schema) → IsReadyFor s (revision_in sessions.old) (finite.get sessions.old.sessions planned.session) (ready_of planned) }
    ensures book { (s : Schema) → sessions.new ≡ record (sessions.old) { sessions = at_number (λ x. (machine.take (served_by s) (revision_in sessions.old) x).1) sessions.old.sessions planned.session } }
    ensures out { (s : Schema) → option_map sent_in result ≡ option_map (λ t. (planned.session, t)) (text_taken (served_by s) (revision_in sessions.old) (finite.get sessions.old.sessions planned.session)) }
{
    let Planned {
        session,
        taking,
        body,
    } = planned;
    let Taking {
        items,
        monitors,
        coming,
    } = taking;
    let queued = sessions.carry_out(session, items, monitors);
    message(sessions.alloc(), session, coming, queued, body)
}

/// Carries takings out, in their order, and adds the messages that come to these, for which there is room. It can't be
/// refused.
fn take_all(sessions: &mut Sessions, takings: Vec<Planned>, outs: Vec<Out>) -> Vec<Out>
    requires once { AreOnce (sessions_in (map pending_of takings.items)) }
    requires ready { AreOf sessions.old (map pending_of takings.items) }
    requires none { outs.items ≡ [] }
    requires room { length takings.items ≤ vec_capacity outs }
    ensures round { (schema : Schema) (w : World) → revision_of w ≡ revision_in sessions.old → w.sessions ≡ sessions.old.sessions
        → (let r = take_each (served_by schema) (sessions_in (map pending_of takings.items)) w in (r.0 ≡ record w { sessions = sessions.new.sessions }) × (map printed r.1 ≡ map sent_in result.items)) }
    ensures revision { revision_in sessions.new ≡ revision_in sessions.old }
{
    let mut sent = outs;
    for planned in takings {
        if let Some(out) = take(sessions, planned) {
            sent.push_reserved(out);
        }
    }
    sent
}

/// Carries a round out that was planned for these sessions as they are, and of which everything is composed: it gives
/// each of its sessions that is open its next message, if it has one, in their order. It can't be refused.
pub fn accept_round(sessions: &mut Sessions, prepared: PreparedRound) -> Vec<Out>
    requires once { AreOnce (sessions_in prepared) }
    requires ready { AreOf sessions.old prepared }
    ensures round { (schema : Schema) (w : World) → revision_of w ≡ revision_in sessions.old → w.sessions ≡ sessions.old.sessions
        → (let r = take_each (served_by schema) (sessions_in prepared) w in (r.0 ≡ record w { sessions = sessions.new.sessions }) × (map printed r.1 ≡ map sent_in result.items)) }
    ensures texts { map sent_in result.items ≡ flat_map (given_by sessions.old) prepared }
    ensures revision { revision_in sessions.new ≡ revision_in sessions.old }
{
    let PreparedRound { takings, outs } = prepared;
    take_all(sessions, takings, outs)
}

/// Gives each listed session that is open its next message, if it has one, in the order of the list, where all
/// requests are of the schema. Where memory is refused nothing was taken.
pub fn give_round(
    sessions: &mut Sessions,
    schema: &odb_schema::Schema,
    listed: &[SessionId],
) -> Result<Vec<Out>, AllocError>
    requires once { AreOnce listed.now }
    requires of { AreSessionsOf schema.now sessions.old.sessions }
    ensures ok { IfOk result (λ outs. (schema : Schema) (w : World) → revision_of w ≡ revision_in sessions.old → w.sessions ≡ sessions.old.sessions
        → (let r = take_each (served_by schema) listed.now w in (r.0 ≡ record w { sessions = sessions.new.sessions }) × (map printed r.1 ≡ map sent_in outs.items))) }
    ensures revision { revision_in sessions.new ≡ revision_in sessions.old }
    ensures err { OnErr result (sessions.new ≡ sessions.old) }
{
    let jobs = plan_round(sessions, schema, listed)?;
    let bodies = jobs.compose()?;
    let first = jobs.first_text(bodies.as_slice())?;
    let prepared = jobs.finish(bodies.as_slice())?;
    sessions.add_first_text(first);
    let outs = accept_round(sessions, prepared);
    forget_each(sessions, listed);
    Ok(outs)
}

/// Forgets of these sessions those that are found to be owed nothing. What `Sessions::forget_resting` costs, for each.
fn forget_each(sessions: &mut Sessions, listed: &[SessionId])
    ensures { sessions.new ≡ sessions.old }
{
    for session in listed {
        sessions.forget_resting(*session, 1);
    }
}

/// Gives a session its next message, where that is a text which was finished when it was queued: so it is the round of this
/// session alone. Else it gives nothing, and nothing has changed. It takes no memory. O(log n) for n sessions.
pub fn take_finished(sessions: &mut Sessions, session: SessionId) -> Option<Out>
    ensures round { IfSome result (λ out. (schema : Schema) (w : World) → revision_of w ≡ revision_in sessions.old → w.sessions ≡ sessions.old.sessions
        → (let r = take_each (served_by schema) (session ∷ []) w in (r.0 ≡ record w { sessions = sessions.new.sessions }) × (map printed r.1 ≡ sent_in out ∷ []))) }
    ensures finished { is_some result ≡ is_finished (finite.get sessions.old.sessions session) }
    ensures revision { revision_in sessions.new ≡ revision_in sessions.old }
    ensures none { IfNone result (sessions.new ≡ sessions.old) }
{
    if !is_finished(sessions, session) {
        return None;
    }
    let taking = Taking {
        items: 1,
        monitors: 0,
        coming: Some(Coming::Queued),
    };
    let planned = Planned {
        session,
        taking,
        body: None,
    };
    take(sessions, planned)
}

/// Returns whether the session is open, and its queue begins with a text that was finished when it was queued. O(log n) for
/// n sessions.
fn is_finished(sessions: &Sessions, session: SessionId) -> bool
    ensures { result ≡ is_finished (finite.get sessions.now.sessions session) }
{
    let told = sessions.told();
    let numbered = told.sessions();
    let Some(of) = numbered.get(session) else {
        return false;
    };
    begins_finished(of.items())
}

/// Returns whether these items begin with one whose text was finished when it was queued. O(1).
fn begins_finished(items: &VecDeque<Item>) -> bool
    ensures { result ≡ begins_finished (map item_seen (map marked_item_of items.now.items)) }
{
    let Some(first) = items.front() else {
        return false;
    };
    first.is_finished()
}
