//! Typing: the program that a source's tree means, or the first rule that it breaks.
#![tactic(auto)]

mod checking;
mod functions;
mod globals;
mod heads;
mod items;

pub use c_program::{CheckErr, Program};
pub use checking::check;
