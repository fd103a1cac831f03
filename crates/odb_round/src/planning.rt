//! What is due to the client of a monitor, as it is planned. [P 9.5, 9.8, 10.1]
ghost use Rattle.std.specs.Prelude.{IfOk, List, Some, option_map, slice_get, ◌≡◌};
ghost use Rattle.odb_atoms.specs.Represented.Atom.{uuid_of};
ghost use Rattle.odb_monitor.specs.Job as model_job;
ghost use Rattle.odb_monitor.specs.Job.{updates_of};
ghost use Rattle.odb_service.specs.Service.{Service};
ghost use Rattle.odb_service.specs.Session.{refilter};
ghost use Rattle.odb_sessions.specs.Composed.{asked_of};
ghost use Rattle.odb_round.specs.Foreseen.{as_told, seen_ahead};
ghost use Rattle.odb_sessions.specs.Marked.{marks_in, monitor_of, watch_of};
ghost use Rattle.odb_round.specs.Jobs.{Keeps, certainly, if_sent};
ghost use Rattle.odb_round.specs.OfSchema.{AreOfSchema};
ghost use Rattle.odb_round.specs.Represented.Sending.{Tells, sending_under};
ghost use Rattle.odb_round.specs.Represented.Served.{IsServed, place_told};
ghost use Rattle.odb_sessions.specs.Represented.Under.{filters_in};
ghost use Rattle.odb_round.specs.Sending.{notifying, sent_with, update_sending};
ghost use Rattle.odb_sessions.specs.Tied.{AreLive};
ghost use Rattle.odb_round.specs.Known.{IsKnownAs};
ghost use Rattle.odb_sessions.specs.Book.{revision_at};

use crate::wanted::Wanted;
use odb_sessions::{Envelope, Monitor, Under, WatchId, Way};
use std::alloc::{AllocError, Global};
use uuid::Uuid;

/// Returns the update that the client of a monitor is owed under these filters, where nothing of it was foreseen, and it is known so;
/// `None` where it is owed nothing. The costs are those of `Wanted::updates` under what it asks, and else those of
/// `Wanted::want`.
pub(crate) fn update<'a>(
    monitor: &'a Monitor,
    wanted: &mut Wanted<'a>,
    under: Under<'a>,
    watch: Option<WatchId>,
) -> Result<Option<Envelope>, AllocError>
    requires live { AreLive wanted.old.chains (marks_in monitor.now) }
    requires of { AreOfSchema wanted.old.basis.schema (asked_of monitor.now.tables) }
    requires known { IsKnownAs wanted.old.basis.sessions watch monitor.now }
    ensures text { IfOk result (λ message. (h : Service) → Tells wanted.new.jobs message
        (update_sending h (revision_at wanted.old.chains wanted.old.recent) (refilter (filters_in under.entry) (watch_of monitor.now).requests) (seen_ahead wanted.old.chains.db (as_told monitor.now)))) }
    ensures marks { IfOk result (λ message. IsServed wanted.old.likenesses wanted.new.likenesses (λ h. h ≡ monitor.now) (place_told message)) }
    ensures jobs { Keeps wanted.old.jobs wanted.new.jobs }
    ensures chains { wanted.new.chains ≡ wanted.old.chains }
    ensures recent { wanted.new.recent ≡ wanted.old.recent }
    ensures basis { wanted.new.basis ≡ wanted.old.basis }
{
    match under {
        Under::Asked => update_asked(monitor, wanted, watch),
        Under::Changed(_) => update_under(monitor, wanted, under),
    }
}

/// Returns the update that its client is owed.
fn update_asked<'a>(
    monitor: &'a Monitor,
    wanted: &mut Wanted<'a>,
    watch: Option<WatchId>,
) -> Result<Option<Envelope>, AllocError>
    requires live { AreLive wanted.old.chains (marks_in monitor.now) }
    requires of { AreOfSchema wanted.old.basis.schema (asked_of monitor.now.tables) }
    requires known { IsKnownAs wanted.old.basis.sessions watch monitor.now }
    ensures text { IfOk result (λ message. (h : Service) → Tells wanted.new.jobs message
        (update_sending h (revision_at wanted.old.chains wanted.old.recent) (watch_of monitor.now).requests (monitor_of monitor.now))) }
    ensures marks { IfOk result (λ message. IsServed wanted.old.likenesses wanted.new.likenesses (λ h. h ≡ monitor.now) (place_told message)) }
    ensures jobs { Keeps wanted.old.jobs wanted.new.jobs }
    ensures chains { wanted.new.chains ≡ wanted.old.chains }
    ensures recent { wanted.new.recent ≡ wanted.old.recent }
    ensures basis { wanted.new.basis ≡ wanted.old.basis }
{
    if monitor.is_told(wanted.chains()) {
        return Ok(None);
    }
    let number = wanted.number();
    let place = wanted.updates(monitor, watch)?;
    notification(wanted.alloc(), monitor, number, place)
}

/// Returns the update that its client is owed under these filters.
fn update_under<'a>(
    monitor: &'a Monitor,
    wanted: &mut Wanted<'a>,
    under: Under<'a>,
) -> Result<Option<Envelope>, AllocError>
    requires live { AreLive wanted.old.chains (marks_in monitor.now) }
    requires of { AreOfSchema wanted.old.basis.schema (asked_of monitor.now.tables) }
    ensures text { IfOk result (λ message. (h : Service) → Tells wanted.new.jobs message
        (update_sending h (revision_at wanted.old.chains wanted.old.recent) (refilter (filters_in under.entry) (watch_of monitor.now).requests) (monitor_of monitor.now))) }
    ensures marks { IfOk result (λ message. IsServed wanted.old.likenesses wanted.new.likenesses (λ h. h ≡ monitor.now) (place_told message)) }
    ensures jobs { Keeps wanted.old.jobs wanted.new.jobs }
    ensures chains { wanted.new.chains ≡ wanted.old.chains }
    ensures recent { wanted.new.recent ≡ wanted.old.recent }
    ensures basis { wanted.new.basis ≡ wanted.old.basis }
{
    let number = wanted.number();
    let place = wanted.want(monitor, Way::Changed(under))?;
    notification(wanted.alloc(), monitor, number, place)
}

/// Returns the update that its client is owed under these filters, where it was told of its tables as they are now
/// under the filters told. The costs are those of `Wanted::want`.
pub(crate) fn update_again<'a>(
    monitor: &'a Monitor,
    wanted: &mut Wanted<'a>,
    told: Under<'a>,
    under: Under<'a>,
) -> Result<Option<Envelope>, AllocError>
    requires live { AreLive wanted.old.chains (marks_in monitor.now) }
    requires of { AreOfSchema wanted.old.basis.schema (asked_of monitor.now.tables) }
    ensures text { IfOk result (λ message. (h : Service) → Tells wanted.new.jobs message
        (update_sending h (revision_at wanted.old.chains wanted.old.recent) (refilter (filters_in under.entry) (watch_of monitor.now).requests) (seen_ahead wanted.old.chains.db (record { marked = monitor.now; told = Some (filters_in told.entry) })))) }
    ensures marks { IfOk result (λ message. IsServed wanted.old.likenesses wanted.new.likenesses (λ h. h ≡ monitor.now) (place_told message)) }
    ensures jobs { Keeps wanted.old.jobs wanted.new.jobs }
    ensures chains { wanted.new.chains ≡ wanted.old.chains }
    ensures recent { wanted.new.recent ≡ wanted.old.recent }
    ensures basis { wanted.new.basis ≡ wanted.old.basis }
{
    let number = wanted.number();
    let place = wanted.want(monitor, Way::Again(told, under))?;
    notification(wanted.alloc(), monitor, number, place)
}

/// Returns the notification to its client with what is composed of the job at this place, where this is the number
/// of the newest commit; none where there is no place.
fn notification(
    alloc: Global,
    monitor: &Monitor,
    number: Uuid,
    place: Option<usize>,
) -> Result<Option<Envelope>, AllocError>
    ensures text { IfOk result (λ message. (all : List model_job.Job) (job : model_job.Job)
        → option_map (slice_get all) place ≡ option_map certainly (if_sent job)
        → option_map (sending_under all) message ≡ option_map certainly (option_map (sent_with (notifying (uuid_of number) monitor.now job)) (updates_of job))) }
    ensures place { IfOk result (λ message. place_told message ≡ place) }
{
    let Some(at) = place else {
        return Ok(None);
    };
    Ok(Some(monitor.around_updates(alloc, number, at)?))
}
