//! The first form of a source: one `main` of `int` locals, read from its tokens.
#![tactic(auto)]

mod error;
mod kind;
mod names;
mod piece;
mod program;
mod reader;
mod source;

pub use error::ReadErr;
pub use program::{Addend, Factor, Multiplier, Program, Stmt, Sum, SumOp, Term, TermOp};
pub use source::read;
