//! What expressions mean by their types, or the first rule that they break.
#![tactic(auto)]

mod expressions;
mod names;
mod parts;
mod whole;

pub use expressions::{tested_value, value};
pub use whole::{effect, stored_value, values};
