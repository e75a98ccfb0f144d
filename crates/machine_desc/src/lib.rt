//! The tables of the machines that the compiler makes code for.
#![tactic(auto)]

mod machine;
mod machines;

pub use machine::{Machine, OpClass};
pub use machines::{Eight, Four, Narrow};
