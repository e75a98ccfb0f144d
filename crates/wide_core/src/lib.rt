//! The machine of long words: its code, the tag rule, and what one word and one cycle do.
#![tactic(auto)]

mod act;
mod code;
mod lines;
mod rule;
mod rules;
mod seen;
mod tags;
mod valid;
mod valid_funcs;
mod wide_code;

pub use code::{Loc, RawCode, Tagged, WideAct, WideFunc, WideOp, Word};
pub use rule::{BrokenRule, Rule};
pub use tags::{Done, evaluate, first_mark};
pub use wide_code::{ValidErr, WideCode};
