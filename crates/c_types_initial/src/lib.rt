//! What globals hold at first, or the rules that their initialisers break.
#![tactic(auto)]

mod constants;
mod initial;
mod parts;

pub use initial::global_data;
