//! From the typed tree to structured code.
#![tactic(auto)]

mod addresses;
mod expressions;
mod joins;
mod operands;

pub use addresses::At;
pub use expressions::{effects, low, operand, tested};
pub use joins::Operand;
