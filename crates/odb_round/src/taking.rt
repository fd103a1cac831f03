//! Takings as they are planned: what they use up, and the text that comes. Nothing changes by them. [P 9.8, 10.1]
ghost use Rattle.std.specs.Prelude.{◌≡◌, ◌≤◌, ◌++◌, ℕ, true, false, IfOk, IfSome, List, None, OnOk, Option, Some, flat_map, is_some, length, map, option_and_then, option_map};
ghost use Rattle.std.specs.List.{AllByRecursion};
ghost use Rattle.odb_atoms.specs.FinMap as finite;
ghost use Rattle.odb_atoms.specs.Represented.Atom.{uuid_of};
ghost use Rattle.odb_monitor.specs.Job as model_job;
ghost use Rattle.odb_recent.specs.Recent.{commits_ago};
ghost use Rattle.odb_schema.specs.Schema.{Schema};
ghost use Rattle.odb_service.specs.Server.{served_by};
ghost use Rattle.odb_service.specs.Service.{Service};
ghost use Rattle.odb_service.specs.Session as machine;
ghost use Rattle.odb_service.specs.Session.{leaves};
ghost use Rattle.odb_sessions.specs.Composed.{asked_of};
ghost use Rattle.odb_sessions.specs.Marked.{item_seen, marks_due, marks_in, marks_of, seen, watch_of};
ghost use Rattle.odb_round.specs.OfSchema.{AreOfSchema, IsItemOf, IsSessionOf};
ghost use Rattle.odb_round.specs.Planned.{due, first_due, plan, plan_from};
ghost use Rattle.odb_round.specs.Jobs.{Keeps};
ghost use Rattle.odb_round.specs.Represented.Sending.{sending_under};
ghost use Rattle.odb_sessions.specs.Represented.Item.{marked_item_of};
ghost use Rattle.odb_round.specs.Represented.Served.{IsServed, place_coming, place_told};
ghost use Rattle.odb_round.specs.Represented.Taking.{Comes, Gives, coming_sending, taking_sending};
ghost use Rattle.odb_sessions.specs.Represented.Under.{item_in};
ghost use Rattle.odb_round.specs.Sending.{due_sending, found_sending, missed_sending, sending_since, whole_sending};
ghost use Rattle.odb_sessions.specs.Tied.{AreLive};
ghost use Rattle.odb_round.specs.ByMarks.{IsDueTo, monitors_due, monitors_in};
ghost use Rattle.odb_tables.specs.Database as model_db;
ghost use Rattle.odb_sessions.specs.Book.{revision_at};

use crate::foreseen::Planner;
use crate::wanted::Wanted;
use odb_sessions::{Envelope, FirstReply, Id, Item, Session, Under};
use std::alloc::AllocError;
use std::collections::VecDeque;
use uuid::Uuid;

/// What comes of a taking.
#[derive(Drop)]
pub(crate) enum Coming {
    /// The text of the last item that is used up. It is moved out of the queue when the taking is carried out.
    Queued,
    /// A composition, with what stands around it.
    Composed(Envelope),
}

/// A taking as it is planned: how many items of the queue it uses up, how many monitors it then brings to now, and
/// what comes, if something does.
#[derive(Drop)]
pub(crate) struct Taking {
    pub(crate) items: usize,
    pub(crate) monitors: usize,
    pub(crate) coming: Option<Coming>,
}

/// Lets a message come, if there is one.
fn composed(message: Option<Envelope>) -> Option<Coming>
    ensures comes { is_some result ≡ is_some message }
    ensures place { place_coming result ≡ place_told message }
    ensures text { (all : List model_job.Job) (last : Option machine.Item) → coming_sending all result last ≡ option_and_then (sending_under all) message }
{
    match message {
        Some(message) => Some(Coming::Composed(message)),
        None => None,
    }
}

/// Returns the first reply. The costs are those of `Wanted::first_reply` or `Wanted::resume` and, for an id of n
/// bytes, O(n).
fn first_reply<'a>(start: &'a FirstReply, wanted: &mut Wanted<'a>) -> Result<Envelope, AllocError>
    requires live { AreLive wanted.old.chains (marks_in start.now.monitor) }
    requires of { AreOfSchema wanted.old.basis.schema (asked_of start.now.monitor.tables) }
    ensures text { IfOk result (λ message. (h : Service) (all : List model_job.Job) → Keeps wanted.new.jobs all
        → sending_under all message ≡ Some (due_sending h (revision_at wanted.old.chains wanted.old.recent) (first_due start.now.origin (watch_of start.now.monitor)))) }
    ensures marks { IfOk result (λ message. IsServed wanted.old.likenesses wanted.new.likenesses (λ h. h ≡ start.now.monitor) (Some message.place)) }
    ensures jobs { Keeps wanted.old.jobs wanted.new.jobs }
    ensures chains { wanted.new.chains ≡ wanted.old.chains }
    ensures recent { wanted.new.recent ≡ wanted.old.recent }
    ensures basis { wanted.new.basis ≡ wanted.old.basis }
{
    let _now = wanted.chains().db();
    match start.monitor.since() {
        None => whole_reply(start, wanted),
        Some(since) => reply_since(start, wanted, since),
    }
}

/// Returns the first reply, where no commit was named.
fn whole_reply<'a>(start: &'a FirstReply, wanted: &mut Wanted<'a>) -> Result<Envelope, AllocError>
    requires live { AreLive wanted.old.chains (marks_in start.now.monitor) }
    requires of { AreOfSchema wanted.old.basis.schema (asked_of start.now.monitor.tables) }
    ensures text { IfOk result (λ message. (all : List model_job.Job) → Keeps wanted.new.jobs all
        → sending_under all message ≡ Some (whole_sending wanted.old.chains.db start.now.origin start.now.monitor)) }
    ensures marks { IfOk result (λ message. IsServed wanted.old.likenesses wanted.new.likenesses (λ h. h ≡ start.now.monitor) (Some message.place)) }
    ensures jobs { Keeps wanted.old.jobs wanted.new.jobs }
    ensures chains { wanted.new.chains ≡ wanted.old.chains }
    ensures recent { wanted.new.recent ≡ wanted.old.recent }
    ensures basis { wanted.new.basis ≡ wanted.old.basis }
{
    let place = wanted.first_reply(&start.monitor)?;
    start.origin.reply(wanted.alloc(), place)
}

/// Returns the first reply, where this commit was named.
fn reply_since<'a>(
    start: &'a FirstReply,
    wanted: &mut Wanted<'a>,
    since: Uuid,
) -> Result<Envelope, AllocError>
    requires live { AreLive wanted.old.chains (marks_in start.now.monitor) }
    requires of { AreOfSchema wanted.old.basis.schema (asked_of start.now.monitor.tables) }
    ensures text { IfOk result (λ message. (all : List model_job.Job) → Keeps wanted.new.jobs all
        → sending_under all message ≡ Some (sending_since wanted.old.recent wanted.old.chains.db start.now.origin start.now.monitor (uuid_of since))) }
    ensures kept { IfSome (commits_ago wanted.old.recent.most wanted.old.recent.run wanted.old.recent.commits (uuid_of since)) (λ ago. ago ≤ length wanted.old.recent.undos) }
    ensures marks { IfOk result (λ message. IsServed wanted.old.likenesses wanted.new.likenesses (λ h. h ≡ start.now.monitor) (Some message.place)) }
    ensures jobs { Keeps wanted.old.jobs wanted.new.jobs }
    ensures chains { wanted.new.chains ≡ wanted.old.chains }
    ensures recent { wanted.new.recent ≡ wanted.old.recent }
    ensures basis { wanted.new.basis ≡ wanted.old.basis }
{
    let number = wanted.number();
    match wanted.ago(since) {
        None => not_found(start, wanted, number),
        Some(ago) => found(start, wanted, ago),
    }
}

/// Returns the first reply, where the commit that was named can't be found, and this is the number of the newest.
fn not_found<'a>(
    start: &'a FirstReply,
    wanted: &mut Wanted<'a>,
    number: Uuid,
) -> Result<Envelope, AllocError>
    requires live { AreLive wanted.old.chains (marks_in start.now.monitor) }
    requires of { AreOfSchema wanted.old.basis.schema (asked_of start.now.monitor.tables) }
    ensures text { IfOk result (λ message. (all : List model_job.Job) → Keeps wanted.new.jobs all
        → sending_under all message ≡ Some (missed_sending (uuid_of number) wanted.old.chains.db start.now.origin start.now.monitor)) }
    ensures marks { IfOk result (λ message. IsServed wanted.old.likenesses wanted.new.likenesses (λ h. h ≡ start.now.monitor) (Some message.place)) }
    ensures jobs { Keeps wanted.old.jobs wanted.new.jobs }
    ensures chains { wanted.new.chains ≡ wanted.old.chains }
    ensures recent { wanted.new.recent ≡ wanted.old.recent }
    ensures basis { wanted.new.basis ≡ wanted.old.basis }
{
    let place = wanted.first_reply(&start.monitor)?;
    start
        .origin
        .numbered_reply(wanted.alloc(), false, number, place)
}

/// Returns the first reply, where the commit that was named is found so many commits ago.
fn found<'a>(
    start: &'a FirstReply,
    wanted: &mut Wanted<'a>,
    ago: usize,
) -> Result<Envelope, AllocError>
    requires live { AreLive wanted.old.chains (marks_in start.now.monitor) }
    requires of { AreOfSchema wanted.old.basis.schema (asked_of start.now.monitor.tables) }
    requires kept { ago ≤ length wanted.old.recent.undos }
    ensures text { IfOk result (λ message. (all : List model_job.Job) → Keeps wanted.new.jobs all
        → sending_under all message ≡ Some (found_sending wanted.old.recent ago wanted.old.chains.db start.now.origin start.now.monitor)) }
    ensures marks { IfOk result (λ message. IsServed wanted.old.likenesses wanted.new.likenesses (λ h. h ≡ start.now.monitor) (Some message.place)) }
    ensures jobs { Keeps wanted.old.jobs wanted.new.jobs }
    ensures chains { wanted.new.chains ≡ wanted.old.chains }
    ensures recent { wanted.new.recent ≡ wanted.old.recent }
    ensures basis { wanted.new.basis ≡ wanted.old.basis }
{
    let number = wanted.number();
    let place = wanted.resume(&start.monitor, ago)?;
    start
        .origin
        .numbered_reply(wanted.alloc(), true, number, place)
}

impl<'a> Planner<'a> {
    /// Makes the first reply, which comes.
    fn begin(&mut self, start: &'a FirstReply) -> Result<Option<Coming>, AllocError>
        requires live { AreLive self.old.chains (marks_in start.now.monitor) }
        requires of { AreOfSchema self.old.basis.schema (asked_of start.now.monitor.tables) }
        ensures comes { IfOk result (λ coming. is_some coming ≡ true) }
        ensures text { IfOk result (λ coming. (h : Service) (last : Option machine.Item) → Comes self.new.jobs coming last
            (Some (due_sending h (revision_at self.old.chains self.old.recent) (first_due start.now.origin (watch_of start.now.monitor))))) }
        ensures marks { IfOk result (λ coming. IsServed self.old.likenesses self.new.likenesses (λ h. h ≡ start.now.monitor) (place_coming coming)) }
        ensures marked { self.new.marked ≡ self.old.marked }
        ensures jobs { Keeps self.old.jobs self.new.jobs }
        ensures chains { self.new.chains ≡ self.old.chains }
        ensures recent { self.new.recent ≡ self.old.recent }
        ensures basis { self.new.basis ≡ self.old.basis }
    {
        let message = first_reply(start, &mut self.wanted)?;
        Ok(composed(Some(message)))
    }

    /// Returns what the client of the monitor with this id lacks under these filters, if it lacks something.
    fn bring(&mut self, id: &Id, under: Under<'a>) -> Result<Option<Coming>, AllocError>
        ensures comes { IfOk result (λ coming. (s : Schema) → is_some coming
            ≡ is_some (due (served_by s) self.old.chains.db (item_in id.now under.entry) self.old.monitors)) }
        ensures text { IfOk result (λ coming. (s : Schema) (last : Option machine.Item) → Comes self.new.jobs coming last
            (option_map (due_sending (served_by s) (revision_at self.old.chains self.old.recent)) (due (served_by s) self.old.chains.db (item_in id.now under.entry) self.old.monitors))) }
        ensures marks { IfOk result (λ coming. (s : Schema) → IsServed self.old.likenesses self.new.likenesses
            (IsDueTo (due (served_by s) self.old.chains.db (item_in id.now under.entry) self.old.monitors) self.old.marked) (place_coming coming)) }
        ensures marked { self.new.marked ≡ self.old.marked }
        ensures passed { OnOk result ((s : Schema)
            → self.new.monitors ≡ leaves (served_by s) self.old.chains.db (item_in id.now under.entry) self.old.monitors) }
        ensures jobs { Keeps self.old.jobs self.new.jobs }
        ensures chains { self.new.chains ≡ self.old.chains }
        ensures recent { self.new.recent ≡ self.old.recent }
        ensures basis { self.new.basis ≡ self.old.basis }
    {
        let message = self.pass(id, under)?;
        Ok(composed(message))
    }

    /// Returns what the item gives the client. Where that is nothing the monitors are foreseen as they are after it.
    /// The costs are those of `Planner::pass` and of `first_reply`.
    fn give(&mut self, item: &'a Item) -> Result<Option<Coming>, AllocError>
        requires live { AreLive self.old.chains (marks_due (marked_item_of item.now)) }
        requires of { IsItemOf self.old.basis.schema (item_seen (marked_item_of item.now)) }
        ensures comes { IfOk result (λ coming. (s : Schema) → is_some coming
            ≡ is_some (due (served_by s) self.old.chains.db (item_seen (marked_item_of item.now)) self.old.monitors)) }
        ensures text { IfOk result (λ coming. (s : Schema) → Comes self.new.jobs coming (Some (item_seen (marked_item_of item.now)))
            (option_map (due_sending (served_by s) (revision_at self.old.chains self.old.recent)) (due (served_by s) self.old.chains.db (item_seen (marked_item_of item.now)) self.old.monitors))) }
        ensures marks { IfOk result (λ coming. (s : Schema) → IsServed self.old.likenesses self.new.likenesses
            (IsDueTo (due (served_by s) self.old.chains.db (item_seen (marked_item_of item.now)) self.old.monitors) (self.old.marked ++ monitors_due (marked_item_of item.now))) (place_coming coming)) }
        ensures marked { self.new.marked ≡ self.old.marked }
        ensures passed { IfOk result (λ coming. is_some coming ≡ false → (s : Schema)
            → self.new.monitors ≡ leaves (served_by s) self.old.chains.db (item_seen (marked_item_of item.now)) self.old.monitors) }
        ensures jobs { Keeps self.old.jobs self.new.jobs }
        ensures chains { self.new.chains ≡ self.old.chains }
        ensures recent { self.new.recent ≡ self.old.recent }
        ensures basis { self.new.basis ≡ self.old.basis }
    {
        match item {
            Item::Say(_) => Ok(Some(Coming::Queued)),
            Item::Start(start) => self.begin(start),
            Item::Sync(id) => self.bring(id, Under::Asked),
            Item::Shift(shift) => self.bring(&shift.id, Under::Changed(&shift.changes)),
            Item::Renamed(_) => Ok(Some(Coming::Queued)),
            Item::Stopped(_) => Ok(Some(Coming::Queued)),
        }
    }
}

/// Returns what a taking of these items uses up, and what comes, where the first was finished when it was queued. O(1).
fn at_once(items: &VecDeque<Item>) -> Option<Taking>
    ensures place { IfSome result (λ taking. place_coming taking.coming ≡ None) }
    ensures items { IfSome result (λ taking. (s : Schema) (db : model_db.Db) (ms : List machine.Monitor) → taking.items
        ≡ (plan_from (served_by s) db (map item_seen (map marked_item_of items.now.items)) ms).items) }
    ensures monitors { IfSome result (λ taking. (s : Schema) (db : model_db.Db) (ms : List machine.Monitor) → taking.monitors
        ≡ (plan_from (served_by s) db (map item_seen (map marked_item_of items.now.items)) ms).monitors) }
    ensures text { IfSome result (λ taking. (s : Schema) (revision : machine.Revision) (ms : List machine.Monitor) (all : List model_job.Job)
        → taking_sending all taking (map item_seen (map marked_item_of items.now.items))
        ≡ option_map (due_sending (served_by s) revision) (plan_from (served_by s) revision.db (map item_seen (map marked_item_of items.now.items)) ms).out) }
{
    let first = items.front()?;
    if !first.is_finished() {
        return None;
    }
    Some(Taking {
        items: 1,
        monitors: 0,
        coming: Some(Coming::Queued),
    })
}

/// Returns what a taking of these items uses up, and what comes. The costs are those of `Planner::give` for each item
/// up to the first that gives something and, where none does, of `Planner::due`.
fn taking_of<'a>(items: &'a VecDeque<Item>, planner: &mut Planner<'a>) -> Result<Taking, AllocError>
    requires live { AreLive planner.old.chains (flat_map marks_due (map marked_item_of items.now.items)) }
    requires of { AllByRecursion (IsItemOf planner.old.basis.schema) (map item_seen (map marked_item_of items.now.items)) }
    ensures items { IfOk result (λ taking. (s : Schema) → taking.items
        ≡ (plan_from (served_by s) planner.old.chains.db (map item_seen (map marked_item_of items.now.items)) planner.old.monitors).items) }
    ensures monitors { IfOk result (λ taking. (s : Schema) → taking.monitors
        ≡ (plan_from (served_by s) planner.old.chains.db (map item_seen (map marked_item_of items.now.items)) planner.old.monitors).monitors) }
    ensures text { IfOk result (λ taking. (s : Schema) → Gives planner.new.jobs taking (map item_seen (map marked_item_of items.now.items))
        (option_map (due_sending (served_by s) (revision_at planner.old.chains planner.old.recent))
        (plan_from (served_by s) planner.old.chains.db (map item_seen (map marked_item_of items.now.items)) planner.old.monitors).out)) }
    ensures marks { IfOk result (λ taking. (s : Schema) → IsServed planner.old.likenesses planner.new.likenesses
        (IsDueTo (plan_from (served_by s) planner.old.chains.db (map item_seen (map marked_item_of items.now.items)) planner.old.monitors).out (planner.old.marked ++ flat_map monitors_due (map marked_item_of items.now.items))) (place_coming taking.coming)) }
    ensures jobs { Keeps planner.old.jobs planner.new.jobs }
    ensures chains { planner.new.chains ≡ planner.old.chains }
    ensures recent { planner.new.recent ≡ planner.old.recent }
    ensures basis { planner.new.basis ≡ planner.old.basis }
{
    for place in 0..items.len() {
        let coming = planner.give(&items[place])?;
        if coming.is_some() {
            return Ok(Taking {
                items: place + 1,
                monitors: 0,
                coming,
            });
        }
    }
    let due = planner.due()?;
    Ok(Taking {
        items: items.len(),
        monitors: due.monitors,
        coming: composed(due.message),
    })
}

/// Returns what a taking of the session uses up, and what comes. The costs are those of `Planner::turn_to` and
/// `taking_of`.
pub(crate) fn taking_from<'a>(
    session: &'a Session,
    planner: &mut Planner<'a>,
) -> Result<Taking, AllocError>
    requires live { AreLive planner.old.chains (marks_of session.now) }
    requires of { IsSessionOf planner.old.basis.schema (seen session.now) }
    requires known { (s : ℕ) × (finite.get planner.old.basis.sessions s ≡ Some session.now) }
    ensures items { IfOk result (λ taking. (s : Schema)
        → taking.items ≡ (plan (served_by s) planner.old.chains.db (seen session.now)).items) }
    ensures monitors { IfOk result (λ taking. (s : Schema)
        → taking.monitors ≡ (plan (served_by s) planner.old.chains.db (seen session.now)).monitors) }
    ensures text { IfOk result (λ taking. (s : Schema) → Gives planner.new.jobs taking (seen session.now).queue
        (option_map (due_sending (served_by s) (revision_at planner.old.chains planner.old.recent)) (plan (served_by s) planner.old.chains.db (seen session.now)).out)) }
    ensures marks { IfOk result (λ taking. (s : Schema) → IsServed planner.old.likenesses planner.new.likenesses
        (IsDueTo (plan (served_by s) planner.old.chains.db (seen session.now)).out (monitors_in session.now)) (place_coming taking.coming)) }
    ensures jobs { Keeps planner.old.jobs planner.new.jobs }
    ensures chains { planner.new.chains ≡ planner.old.chains }
    ensures recent { planner.new.recent ≡ planner.old.recent }
    ensures basis { planner.new.basis ≡ planner.old.basis }
{
    let items = session.items();
    if let Some(taking) = at_once(items) {
        return Ok(taking);
    }
    planner.turn_to(session.monitors(), session.number())?;
    taking_of(items, planner)
}
