//! From tokens to the tree that they spell.
#![tactic(auto)]

mod expressions;
mod goals;
mod parser;
mod statements;

pub use parser::{ParseErr, parse};
