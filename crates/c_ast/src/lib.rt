//! The tokens of a source, and the trees that they spell.
#![tactic(auto)]

mod fault;
mod keyword;
mod mark;
mod token;
mod tree;
mod tree_unit;

pub use fault::LexFault;
pub use keyword::Keyword;
pub use mark::Mark;
pub use token::{Tok, Token};
pub use tree::{AssignOp, Base, BinaryOp, CType, Expr, PostfixOp, UnaryOp};
pub use tree_unit::{
    Declarator, ForStart, FunctionHead, Init, Item, Length, Param, ParamName, Part, Stmt, Unit,
};
