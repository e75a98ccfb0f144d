//! What all runs of programs share: the steps of a machine over a host, and a stack of what waits.
#![tactic(auto)]

mod result;
mod stack;

pub use result::result_of;
pub use stack::Stack;
