//! Superblocks in source order, and programs of them.
#![tactic(auto)]

mod acts;
mod plan;
mod program;
mod superblock;

pub use acts::traps;
pub use plan::Plan;
pub use program::SbProgram;
pub use superblock::Superblock;
pub use wide_core::{WideAct as SbAct, WideOp as Item};
