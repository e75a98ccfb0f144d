//! Wide code for the first form, in source order, and the proof that it means what its program means.
#![tactic(auto)]

mod maker;
mod making;
mod operand;

pub use making::make;
