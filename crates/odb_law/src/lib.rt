//! The monitor law, over every run of the service machine. It stands beside the server, which is
//! that machine. [P 9.7]
#![tactic(auto)]

ghost use Rattle.std.specs.Prelude.{Bool, List, ℕ};
ghost use Rattle.odb_monitor.specs.Law.{NoOtherLeads};
ghost use Rattle.odb_schema.specs.Schema.{Schema};
ghost use Rattle.odb_law.specs.Headline.{BringsWhole, HoldsAlways, IsBroughtToNow, IsChangedWhole, IsDroppedWhole, IsKnown, IsMinimal};
ghost use Rattle.odb_law.specs.Kinds.{SendsKinds};
ghost use Rattle.odb_law.specs.Law.{AllAreTried, IsAnsweredOnce, IsCommitted, IsCounted, IsFoundAgain, IsGranted, IsToldBefore, OwedIsTaken, RoundsTake, TakesEvents};
ghost use Rattle.odb_law.specs.Named.{IsHeldByName};
ghost use Rattle.odb_law.specs.Replies.{KeepsOrder, RepliesAtOnce};
ghost use Rattle.odb_law.specs.Rings.{HoldsOfRings};
ghost use Rattle.odb_law.specs.Sent.{HoldsOfTexts, IsRun, RepliesAreWhole, TextsBringWhole};
ghost use Rattle.odb_service.specs.Server.{served_by};
ghost use Rattle.odb_service.specs.Service.{service_of};

/// States the monitor law, for every schema, whichever methods are served, and over every run of the service machine.
/// The call does nothing.
pub fn law()
    // A client that takes what it is owed has just what its newest filters select from the database now.
    ensures brought_to_now { (serves : List ℕ → Bool) (s : Schema) → HoldsAlways (service_of serves s) (IsBroughtToNow (service_of serves s)) }
    // The monitors that it then has are those that the service counts as asked for.
    ensures known { (serves : List ℕ → Bool) (s : Schema) → HoldsAlways (service_of serves s) (IsKnown (service_of serves s)) }
    // A monitor goes when its client has what the filters select.
    ensures dropped_whole { (serves : List ℕ → Bool) (s : Schema) → HoldsAlways (service_of serves s) (IsDroppedWhole (service_of serves s)) }
    // New filters hold when its client has what they select.
    ensures changed_whole { (serves : List ℕ → Bool) (s : Schema) → HoldsAlways (service_of serves s) (IsChangedWhole (service_of serves s)) }
    // Right after a request that never waits its reply is the last that is owed; with a cancel, and with a change of filters, its client then has just what the filters select.
    ensures replies_at_once { (serves : List ℕ → Bool) (s : Schema) → RepliesAtOnce (service_of serves s) }
    // Replies keep their order: what an event adds comes after all that were given and are owed.
    ensures keeps_order { (serves : List ℕ → Bool) (s : Schema) → KeepsOrder (service_of serves s) }
    // Messages come by rounds alone, one at most, and each brings the monitor that it is about whole to its taking.
    ensures brings_whole { (serves : List ℕ → Bool) (s : Schema) → BringsWhole (service_of serves s) }
    // A strict client refuses no message: each is non-empty and names only what differs.
    ensures minimal { (serves : List ℕ → Bool) (s : Schema) → HoldsAlways (service_of serves s) (IsMinimal (service_of serves s)) }
    // With kinds of change switched off a session is sent what it would be sent with all on, without these, and they count as told.
    ensures sends_kinds { (serves : List ℕ → Bool) (s : Schema) → SendsKinds (service_of serves s) }
    // No other message leads a strict client from the one view to the other.
    ensures only { NoOtherLeads }
    // Events are refused for the reasons that are named, and sessions open and close by their events alone.
    ensures takes_events { (serves : List ℕ → Bool) (s : Schema) → TakesEvents (service_of serves s) }
    // A round is one taking for each session that it lists, and changes nothing else.
    ensures rounds_take { (serves : List ℕ → Bool) (s : Schema) → RoundsTake (service_of serves s) }
    // What is owed is what rounds give, until they give nothing.
    ensures owed_is_taken { (serves : List ℕ → Bool) (s : Schema) → OwedIsTaken (service_of serves s) }
    // The monitors that a session asked for change by its own requests alone, and by each that nothing stands against.
    ensures granted { (serves : List ℕ → Bool) (s : Schema) → IsGranted (service_of serves s) }
    // Where no transaction waits, one that is submitted is run at once, and nothing else changes the database.
    ensures committed { (serves : List ℕ → Bool) (s : Schema) → IsCommitted (service_of serves s) }
    // What is found for a commit is the database as it was after it.
    ensures found_again { (serves : List ℕ → Bool) (s : Schema) → IsFoundAgain (service_of serves s) }
    // A message that names a commit names one for which is found what its client then has of the monitor, as the filters select.
    ensures held_by_name { (serves : List ℕ → Bool) (s : Schema) → IsHeldByName (service_of serves s) }
    // What a transaction changed is told before its reply, which has its results.
    ensures told_before { (serves : List ℕ → Bool) (s : Schema) → IsToldBefore (service_of serves s) }
    // Each request is answered once, is owed its answer, or waits.
    ensures answered_once { (serves : List ℕ → Bool) (s : Schema) → HoldsAlways (service_of serves s) (IsAnsweredOnce (service_of serves s)) }
    // Replies that are owed are counted, and never more than 256.
    ensures counted { (serves : List ℕ → Bool) (s : Schema) → HoldsAlways (service_of serves s) (IsCounted (service_of serves s)) }
    // Each waiting transaction was tried on the database as it is now, and had to wait.
    ensures tried { (serves : List ℕ → Bool) (s : Schema) → AllAreTried (service_of serves s) }
{}

/// States the monitor law of what a server sent: for every schema, every word of the run and number of contents to be
/// found, whatever events a new server of it took, and the texts that it sent by them. A call of a server says of
/// itself that it is such a step. The call does nothing.
pub fn law_of_texts()
    // What was sent are the texts of the messages that the machine gives by the same events, and the server ends as the machine does.
    ensures is_run { (s : Schema) (word most : ℕ) → IsRun s word most }
    // A client that takes these, and then what it is still owed, has just what its newest filters select from the server's database.
    ensures brought_to_now { (s : Schema) (word most : ℕ) → HoldsOfTexts s word most (IsBroughtToNow (served_by s)) }
    // The monitors that it then has are those that it asked for.
    ensures known { (s : Schema) (word most : ℕ) → HoldsOfTexts s word most (IsKnown (served_by s)) }
    // A strict client refuses none of them: each is non-empty and names only what differs.
    ensures minimal { (s : Schema) (word most : ℕ) → HoldsOfTexts s word most (IsMinimal (served_by s)) }
    // A monitor goes when its client has what the filters select.
    ensures dropped_whole { (s : Schema) (word most : ℕ) → HoldsOfTexts s word most (IsDroppedWhole (served_by s)) }
    // New filters hold when its client has what they select.
    ensures changed_whole { (s : Schema) (word most : ℕ) → HoldsOfTexts s word most (IsChangedWhole (served_by s)) }
    // Each request is answered once, is owed its answer, or waits.
    ensures answered_once { (s : Schema) (word most : ℕ) → HoldsOfTexts s word most (IsAnsweredOnce (served_by s)) }
    // Right after a request that never waits its reply is the last that is owed, and with a cancel or a change of filters the client then has what is selected.
    ensures replies_at_once { (s : Schema) (word most : ℕ) → RepliesAreWhole s word most }
    // Texts come by rounds alone, one at most to a session, and each brings the monitor that it is about whole to its taking.
    ensures bring_whole { (s : Schema) (word most : ℕ) → TextsBringWhole s word most }
{}

/// States the monitor law of what a hub's rings were sent: of the state that its lock guards, whenever that is free
/// (`odb_hub`, `HubState::since_base`), for whatever events its threads brought, in any interleaving. Of what a ring was sent,
/// with the message that is held back for it, the clauses hold with the server's database. The call does nothing.
pub fn law_of_rings()
    // A client that takes these, and then what it is still owed, has just what its newest filters select from the server's database.
    ensures brought_to_now { HoldsOfRings (λ s. IsBroughtToNow (served_by s)) }
    // The monitors that it then has are those that it asked for.
    ensures known { HoldsOfRings (λ s. IsKnown (served_by s)) }
    // A strict client refuses none of them: each is non-empty and names only what differs.
    ensures minimal { HoldsOfRings (λ s. IsMinimal (served_by s)) }
    // A monitor goes when its client has what the filters select.
    ensures dropped_whole { HoldsOfRings (λ s. IsDroppedWhole (served_by s)) }
    // New filters hold when its client has what they select.
    ensures changed_whole { HoldsOfRings (λ s. IsChangedWhole (served_by s)) }
    // Each request is answered once, is owed its answer, or waits.
    ensures answered_once { HoldsOfRings (λ s. IsAnsweredOnce (served_by s)) }
{}
