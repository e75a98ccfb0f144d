//! Where the variables of a function live.
#![tactic(auto)]

mod addressed;
mod declared;
mod expressions;
mod homes;
mod marks;
mod statements;

pub use declared::{is_bad_length, param_type, shape_of, written};
pub use homes::{FunctionHomes, Given, function_homes};
