//! What operators give by the types of their operands, or the rule that they break; the scopes in
//! which names are looked up, and what is noted while a source is judged.
#![tactic(auto)]

pub mod calls;
pub mod designated;
pub mod literals;
pub mod nodes;
pub mod notes;
pub mod operations;
pub mod operators;
pub mod rule;
pub mod scope;
pub mod unary;
