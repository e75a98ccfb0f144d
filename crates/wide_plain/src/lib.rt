//! Makes plain code: a three-address program in source order, one operation a word, none flagged.
#![tactic(auto)]

mod acts;
mod emitter;
mod ends;
mod function;
mod homes;
mod program;
mod sizes;
mod starts;

pub use program::plain;
