//! What statements and declarations in functions mean, or the rules that they break.
#![tactic(auto)]

mod body;
mod locals;
mod nodes;
mod walk;

pub use body::Context;
pub use locals::{home_at, lives};
pub use walk::Walk;
