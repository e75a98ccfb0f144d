use crate::tree::{CType, Expr};
use ib_base::{Place, Text};

/// The brackets of a declarator or a parameter.
#[derive(Clone, Copy)]
pub enum Length {
    /// There are none.
    Scalar,
    /// `[ ]`
    Missing,
    Given { value: i64, long: bool },
}

/// What stands behind the `=` of a declarator.
#[derive(Drop)]
pub enum Init {
    Nothing,
    Value(Expr),
    /// One or more, in braces.
    List(Vec<Expr>),
}

/// A declared variable, at the place of its name.
#[derive(Drop)]
pub struct Declarator {
    pub place: Place,
    pub kind: CType,
    pub name: Text,
    pub length: Length,
    pub init: Init,
}

#[derive(Drop)]
pub enum ParamName {
    Unnamed,
    Named(Text),
}

/// A parameter, at the place of its name, else of its first token.
#[derive(Drop)]
pub struct Param {
    pub place: Place,
    pub kind: CType,
    pub name: ParamName,
    pub length: Length,
}

/// An expression that may be missing.
#[derive(Drop)]
pub enum Part {
    Missing,
    Given(Expr),
}

/// The first part of a `for`.
#[derive(Drop)]
pub enum ForStart {
    Expr(Part),
    Local(Vec<Declarator>),
}

/// A statement, at the place of its first token. `Local` stands directly in blocks alone.
#[derive(Drop)]
pub enum Stmt {
    Block {
        place: Place,
        stmts: Vec<Stmt>,
    },
    Empty {
        place: Place,
    },
    Expr {
        place: Place,
        expr: Expr,
    },
    If {
        place: Place,
        test: Expr,
        then: Box<Stmt>,
    },
    IfElse {
        place: Place,
        test: Expr,
        then: Box<Stmt>,
        other: Box<Stmt>,
    },
    While {
        place: Place,
        test: Expr,
        body: Box<Stmt>,
    },
    DoWhile {
        place: Place,
        body: Box<Stmt>,
        test: Expr,
    },
    For {
        place: Place,
        start: ForStart,
        test: Part,
        next: Part,
        body: Box<Stmt>,
    },
    Break {
        place: Place,
    },
    Continue {
        place: Place,
    },
    Return {
        place: Place,
        value: Part,
    },
    Local {
        place: Place,
        declarators: Vec<Declarator>,
    },
}

/// The head of a function, at the place of its name.
#[derive(Drop)]
pub struct FunctionHead {
    pub place: Place,
    pub result: CType,
    pub name: Text,
    pub params: Vec<Param>,
}

#[derive(Drop)]
pub enum Item {
    Prototype(FunctionHead),
    Function { head: FunctionHead, body: Vec<Stmt> },
    Variables(Vec<Declarator>),
}

/// What a source file declares, in its order.
#[derive(Drop)]
pub struct Unit {
    pub items: Vec<Item>,
}
