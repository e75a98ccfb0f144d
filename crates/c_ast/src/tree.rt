use ib_base::{Place, Text};

/// A base type, which all declarators of a declaration share.
#[derive(Clone, Copy)]
pub enum Base {
    Void,
    Char,
    Int,
    Long,
}

/// A base type with the stars of one declarator, parameter or cast.
#[derive(Drop)]
pub enum CType {
    Base(Base),
    Pointer(Box<CType>),
}

/// What stands before its operand.
#[derive(Clone, Copy)]
pub enum UnaryOp {
    Increment,
    Decrement,
    AddressOf,
    Dereference,
    Plus,
    Minus,
    BitNot,
    Not,
}

/// What stands behind its operand.
#[derive(Clone, Copy)]
pub enum PostfixOp {
    Increment,
    Decrement,
}

/// What stands between two operands, by rising precedence.
#[derive(Clone, Copy)]
pub enum BinaryOp {
    Or,
    And,
    BitOr,
    BitXor,
    BitAnd,
    Equal,
    NotEqual,
    Less,
    LessEqual,
    Greater,
    GreaterEqual,
    ShiftLeft,
    ShiftRight,
    Add,
    Sub,
    Mul,
    Div,
    Rem,
}

/// `=`, and the marks that combine it with a binary operator.
#[derive(Clone, Copy)]
pub enum AssignOp {
    Set,
    Add,
    Sub,
    Mul,
    Div,
    Rem,
    ShiftLeft,
    ShiftRight,
    BitAnd,
    BitXor,
    BitOr,
}

/// An expression. Its place is that of its operator (`[` of an index, `(` of a cast, `?` of a
/// conditional, the first comma of a list), else of its first token. Parentheses make no node.
#[derive(Drop)]
pub enum Expr {
    Name {
        place: Place,
        name: Text,
    },
    Number {
        place: Place,
        value: i64,
        long: bool,
    },
    Char {
        place: Place,
        value: u8,
    },
    Str {
        place: Place,
        bytes: Text,
    },
    Null {
        place: Place,
    },
    Eof {
        place: Place,
    },
    Call {
        place: Place,
        name: Text,
        arguments: Vec<Expr>,
    },
    Index {
        place: Place,
        base: Box<Expr>,
        index: Box<Expr>,
    },
    Postfix {
        place: Place,
        op: PostfixOp,
        operand: Box<Expr>,
    },
    Unary {
        place: Place,
        op: UnaryOp,
        operand: Box<Expr>,
    },
    Cast {
        place: Place,
        to: CType,
        operand: Box<Expr>,
    },
    Binary {
        place: Place,
        op: BinaryOp,
        left: Box<Expr>,
        right: Box<Expr>,
    },
    Conditional {
        place: Place,
        test: Box<Expr>,
        then: Box<Expr>,
        other: Box<Expr>,
    },
    Assign {
        place: Place,
        op: AssignOp,
        target: Box<Expr>,
        value: Box<Expr>,
    },
    /// Two or more, with commas between them.
    Comma {
        place: Place,
        parts: Vec<Expr>,
    },
}
