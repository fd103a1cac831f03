//! The jobs of a round, composed by several threads: the bodies are those that one thread composes.
//!
//! Where memory is refused a call returns `AllocError`, and what it was given is as it was.
#![tactic(auto)]

mod composing;
mod dealing;
mod gate;
mod picked;
mod picking;
mod pieces;
mod scan;
mod worker;
mod workers;

pub use composing::compose_all;
pub use gate::{Gate, Open};
pub use picked::Picked;
pub use picking::pick;
pub use workers::Workers;
