use crate::expr::Expr;

/// An expression that may be missing.
#[derive(Drop)]
pub enum Part {
    Missing,
    Given(Box<Expr>),
}

/// A statement with its number, which its faults name. A declaration is what it assigns: a
/// scalar's initial value or 0, and nothing to an array.
#[derive(Drop)]
pub enum Stmt {
    Block {
        stmts: Vec<Stmt>,
    },
    Empty {
        number: u32,
    },
    Expr {
        number: u32,
        expr: Box<Expr>,
    },
    If {
        number: u32,
        test: Box<Expr>,
        then: Box<Stmt>,
    },
    IfElse {
        number: u32,
        test: Box<Expr>,
        then: Box<Stmt>,
        other: Box<Stmt>,
    },
    While {
        number: u32,
        test: Box<Expr>,
        body: Box<Stmt>,
    },
    DoWhile {
        number: u32,
        body: Box<Stmt>,
        test: Box<Expr>,
    },
    /// The first part is an expression, what a declaration assigns, or nothing.
    For {
        number: u32,
        start: Vec<Expr>,
        test: Part,
        next: Part,
        body: Box<Stmt>,
    },
    Break {
        number: u32,
    },
    Continue {
        number: u32,
    },
    Return {
        number: u32,
        value: Part,
    },
    Local {
        number: u32,
        values: Vec<Expr>,
    },
}
