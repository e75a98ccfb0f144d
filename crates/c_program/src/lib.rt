//! Checked programs: the typed tree, where its parts lie in memory, and how many nodes its source's
//! tree has.
#![tactic(auto)]

mod count;
mod count_items;
mod error;
mod frames;
mod program;

pub use count_items::node_count;
pub use error::CheckErr;
pub use program::Program;
