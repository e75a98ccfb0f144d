/// The type that two integer operands are converted to: an `int`, or a `long`.
#[derive(Clone, Copy)]
pub enum Rank {
    Int,
    Long,
}

/// What gives an integer from two integers, and wraps to its rank.
#[derive(Clone, Copy)]
pub enum Arithmetic {
    Add,
    Sub,
    Mul,
    Div,
    Rem,
    ShiftLeft,
    ShiftRight,
    BitAnd,
    BitXor,
    BitOr,
}

/// What gives 1 or 0 from two integers, or from two pointers as signed numbers.
#[derive(Clone, Copy)]
pub enum Comparison {
    Equal,
    NotEqual,
    Less,
    LessEqual,
    Greater,
    GreaterEqual,
}

/// An operator of two operands, once their types are known. Sizes of elements are in bytes.
#[derive(Clone, Copy)]
pub enum Operation {
    Integer { op: Arithmetic, rank: Rank },
    Compare(Comparison),
    /// A pointer and an index: so many elements further on.
    Advance { size: u32 },
    /// An index and a pointer: the same.
    AdvanceBy { size: u32 },
    /// A pointer and an index: so many elements back.
    Retreat { size: u32 },
    /// How many elements lie between two pointers.
    Distance { size: u32 },
}

/// An operator of one integer operand.
#[derive(Clone, Copy)]
pub enum Sign {
    Minus,
    BitNot,
}
