//! The profile file: the text of a program's counts, printed and read.
#![tactic(auto)]

mod cut;
mod error;
mod grammar;
mod line;
mod name;
mod number;
mod printing;
mod reading;

pub use error::ProfErr;
pub use printing::print_profile;
pub use reading::read_profile;
