//! Programs run as they stand.
#![tactic(auto)]

mod arguments;
mod calls;
mod evaluation;
mod frame;
mod giving;
mod interpreting;
mod machine;
mod running;
mod source;
mod statements;

pub use interpreting::interpret;
