//! The operations that three-address code and wide code share: what each reads and writes, and its value.
#![tactic(auto)]

mod act;
mod value;

pub use act::{Act, Size};
pub use value::{address, bytes_in};
