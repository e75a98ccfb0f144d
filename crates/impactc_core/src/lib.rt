//! The top call: words and a host in, a status out.
#![tactic(auto)]

mod check;
mod core_err;
mod front;
mod interp;
mod notes;
mod run;
mod source;
mod status;
mod success;
mod top;
mod work;

pub use core_err::{CoreErr, Limit, SourceFault};
pub use front::{SourceErr, program_of};
pub use impactc_words::{Command, FileName, WordsErr, read_words};
pub use status::Status;
pub use success::Success;
pub use top::impactc;
