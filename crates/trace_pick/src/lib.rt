//! The traces of a program: which chains of blocks its counts choose.
#![tactic(auto)]

mod back;
mod best;
mod links;
mod program;
mod settle;
mod sums;
mod tables;
mod walks;

pub use program::pick;
