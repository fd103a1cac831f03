//! The open sessions: what is queued for each, its monitors, and the database with what these need of its past.
//!
//! Where memory is refused a call returns `AllocError`, and what it was given is as it was,
//! unless its own page says otherwise. A call whose result has no such error takes no memory.
#![tactic(auto)]

mod alike;
mod applying;
mod asked;
mod changing;
mod composing;
mod digest;
mod ended;
mod ending;
mod ends;
mod filters;
mod first_texts;
mod granted;
mod id;
mod interest;
mod item;
mod lacking;
mod lending;
mod monitor;
mod moving;
mod named;
mod numbered;
mod origin;
mod out;
mod owed;
mod past;
mod queue;
mod refreshing;
mod resting;
mod session;
mod sessions;
mod starting;
mod told;
mod under;
mod watch;
mod way;

pub use changing::Changing;
pub use composing::Envelope;
pub use digest::digest_of;
pub use ended::Ended;
pub use first_texts::{FirstText, FirstTexts};
pub use id::Id;
pub use item::{Changes, FirstReply, Item, Renamed, Shift, Stopped};
pub use lacking::requests_of;
pub use monitor::Monitor;
pub use named::Named;
pub use numbered::Numbered;
pub use origin::Origin;
pub use out::Out;
pub use session::Session;
pub use sessions::Sessions;
pub use starting::Starting;
pub use told::ToldMarks;
pub use under::Under;
pub use watch::WatchId;
pub use way::Way;
