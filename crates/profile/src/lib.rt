//! Runs of three-address programs that count, and the file of their counts.
#![tactic(auto)]

mod calls;
mod counting;
mod effects;
mod execution;
mod progress;
mod tallies;

pub use counting::run_counting;
