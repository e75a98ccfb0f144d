//! What a schedule of a superblock has to keep: its chain of reports and effects.
#![tactic(auto)]

mod carriers;
mod checks;
mod uses;

pub use checks::plan;
