//! What monitors see, what their clients are sent, and what a client makes of it (RFC 7047,
//! sections 4.1.5 and 4.1.6; ovsdb-server(7)). [P 9.7]
//!
//! Where memory is refused a call returns `AllocError`, and what it was given is as it was,
//! unless its own page says otherwise. A call whose result has no such error takes no memory.
#![tactic(auto)]

ghost use Rattle.odb_monitor.specs.Law.{DifferenceLeads, FirstReplyGives, NoOtherLeads};

mod bare;
mod columns;
mod comparison;
mod form;
mod job;
mod joining;
mod layout;
mod line;
mod listing;
mod part;
mod search;
mod sides;
mod sought;
mod told;
mod walk;

pub use job::{Job, compose};
pub use joining::Joining;
pub use listing::Listing;
pub use part::Part;
pub use sought::Sought;
pub use told::Told;
pub use walk::Walk;

/// States what a strict client makes of the messages of a monitor. The call does nothing.
pub fn law()
    // A first reply with all of a view gives that view.
    ensures first { FirstReplyGives }
    // The printed difference of two views that differ leads from the one to the other.
    ensures leads { DifferenceLeads }
    // No other message does.
    ensures only { NoOtherLeads }
{}
