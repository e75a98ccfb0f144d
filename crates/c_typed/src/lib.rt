//! Typed programs: every conversion written out, every variable at its home.
#![tactic(auto)]

mod choice;
mod expr;
mod operation;
mod program;
mod rule;
mod stmt;
mod types;

pub use choice::{Choice, Operand, branches, chosen, fits};
pub use expr::{Expr, Reach, Storage, type_of};
pub use operation::{Arithmetic, Comparison, Operation, Rank, Sign};
pub use program::{Function, Home, Layout, Param, Typed};
pub use rule::Rule;
pub use stmt::{Part, Stmt};
pub use types::{INT, LONG, ValueType};
