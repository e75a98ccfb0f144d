//! What a program means, and when two meanings agree: the ground that every layer stands on.
#![tactic(auto)]

mod fault;
mod place;

pub use fault::FaultKind;
pub use place::Place;
