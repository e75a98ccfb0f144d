use c_typed::{Expr, Storage, ValueType};

/// A declared array.
#[derive(Clone, Copy)]
pub struct ArrayAt {
    pub element: ValueType,
    pub storage: Storage,
    pub length: u64,
}

/// What an expression is: a value, a variable or other place, or an array.
#[derive(Drop)]
pub enum Designated {
    Value(Box<Expr>),
    Slot { ty: ValueType, slot: u32 },
    /// What lies at an address.
    Cell { ty: ValueType, address: Box<Expr> },
    /// An element of a declared array.
    Element { array: ArrayAt, index: Box<Expr> },
    Array(ArrayAt),
}

/// Where a value can be stored.
#[derive(Drop)]
pub enum Target {
    Slot { ty: ValueType, slot: u32 },
    Cell { ty: ValueType, address: Box<Expr> },
}
