//! Sets of small numbers, a bit for each.
#![tactic(auto)]

mod set;

pub use set::BitSet;
