//! From the bodies of typed functions to structured code.
#![tactic(auto)]

mod bodies;
mod going;
mod params;
mod statements;

pub use bodies::body_of;
pub use params::{free_in, params_in};
