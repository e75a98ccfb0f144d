//! The functions of a file: what their names mean, and which rules their heads break.
#![tactic(auto)]

mod heads;
mod judging;
mod names;
mod tables;
mod unit;

pub use heads::Head;
pub use names::redeclared;
pub use tables::{built_in, known, with_body};
pub use unit::{bodies, lacks_main, prototypes};
