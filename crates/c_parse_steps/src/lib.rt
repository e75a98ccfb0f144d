//! The parser's steps that leave no expression and no statement: declarations, and where operands,
//! statements and blocks begin.
#![tactic(auto)]

pub mod declarations;
pub mod operands;
pub mod statements;
