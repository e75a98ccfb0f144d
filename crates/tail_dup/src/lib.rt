//! Tail duplication: what stands in a chain behind a side entrance is copied, so that control enters chains only at their
//! first blocks.
#![tactic(auto)]

mod before;
mod copies;
mod entrances;
mod function;
mod led;
mod program;

pub use program::duplicate;
