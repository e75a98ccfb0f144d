//! The lexer: a source's bytes in, its tokens out.
#![tactic(auto)]

mod bytes;
mod error;
mod found;
mod gaps;
mod lexer;
mod number;
mod quoted;
mod source;
mod words;

pub use error::LexErr;
pub use source::{end_place, lex};
