//! Runs rows: calls of a command that stand in files, each with what has to come of it. docs/ROWS.md tells the format.
#![tactic(auto)]

mod blocks;
mod calls;
mod cases;
mod command;
mod fields;
mod judge;
mod plan;
mod quoted;
mod run;
mod unread;

pub use command::Command;
pub use run::run_folder;
