//! Structured code: what a typed tree is lowered to, before it is cut into blocks.
#![tactic(auto)]

mod assigned;
mod code;
mod empty;
mod operators;
mod parts;

pub use assigned::Update;
pub use code::{Code, Exit, Test};
pub use empty::{row, some_code};
pub use operators::{bound, cut, given_by, narrows, operated, scaled, scaled_in, sign};
pub use parts::{behind, both, boxed, boxed_test, does, moved, number};
