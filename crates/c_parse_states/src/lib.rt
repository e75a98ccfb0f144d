//! What the parser has begun: its states, the stacks in them, and the nodes that it makes.
#![tactic(auto)]

pub mod frames;
pub mod nodes;
pub mod signs;
pub mod stacks;
