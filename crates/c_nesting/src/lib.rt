//! How deep the constructs of a source nest.
#![tactic(auto)]

mod nesting;

pub use nesting::too_deep;
