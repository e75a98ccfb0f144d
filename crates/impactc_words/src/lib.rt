//! The words of a call, and the command that they ask for.
#![tactic(auto)]

mod arguments;
mod file_name;
mod options;
mod part;
mod reader;
mod words;

pub use file_name::FileName;
pub use options::{Which, cycles_of, machine_of};
pub use part::Part;
pub use words::{Command, WordsErr, read_words};
