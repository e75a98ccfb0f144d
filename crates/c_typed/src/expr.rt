ghost use Rattle.std.specs.Prelude.{◌≡◌};
ghost use Rattle.c_typed.specs.ExprTypes.{type_of};
ghost use Rattle.c_typed.specs.Views.{expr_of};

use crate::operation::{Operation, Rank, Sign};
use crate::types::{INT, ValueType};
use c_ast::Base;

/// Where a variable lies in memory.
#[derive(Clone, Copy)]
pub enum Storage {
    /// The number of a global, in the order of the source.
    Global(u32),
    /// Bytes from the frame's start on.
    Frame(u64),
}

/// Which indices of a declared array are within its bounds.
#[derive(Clone, Copy)]
pub enum Reach {
    /// Those of its elements.
    Inside,
    /// Directly under `&`, also the one behind the last.
    ToEnd,
}

/// An expression with its type. What lies in memory is named by its address: `Load`, `Store` and
/// their kin access memory, and all other nodes give numbers. A slot is a variable of the
/// function's environment.
#[derive(Drop)]
pub enum Expr {
    Constant {
        ty: ValueType,
        value: i64,
    },
    /// The address of a string literal, by its number among those that are laid out.
    Text {
        ordinal: u32,
    },
    /// The address of a variable, or of an array's first element.
    Address {
        ty: ValueType,
        of: Storage,
    },
    /// The address of an element of a declared array.
    Element {
        ty: ValueType,
        array: Storage,
        length: u64,
        size: u32,
        reach: Reach,
        index: Box<Expr>,
    },
    Slot {
        ty: ValueType,
        slot: u32,
    },
    Load {
        ty: ValueType,
        address: Box<Expr>,
    },
    Convert {
        to: ValueType,
        operand: Box<Expr>,
    },
    Unary {
        op: Sign,
        rank: Rank,
        operand: Box<Expr>,
    },
    Not {
        operand: Box<Expr>,
    },
    Binary {
        ty: ValueType,
        op: Operation,
        left: Box<Expr>,
        right: Box<Expr>,
    },
    And {
        left: Box<Expr>,
        right: Box<Expr>,
    },
    Or {
        left: Box<Expr>,
        right: Box<Expr>,
    },
    Conditional {
        ty: ValueType,
        test: Box<Expr>,
        then: Box<Expr>,
        other: Box<Expr>,
    },
    SetSlot {
        ty: ValueType,
        slot: u32,
        value: Box<Expr>,
    },
    Store {
        ty: ValueType,
        address: Box<Expr>,
        value: Box<Expr>,
    },
    /// A compound assignment or prefix step. The old value is converted to the type `within`,
    /// which the operation works on, and its result to the variable's type.
    UpdateSlot {
        ty: ValueType,
        slot: u32,
        within: ValueType,
        op: Operation,
        value: Box<Expr>,
    },
    Update {
        ty: ValueType,
        address: Box<Expr>,
        within: ValueType,
        op: Operation,
        value: Box<Expr>,
    },
    /// `++` or `--` behind its operand: an update by 1 that gives the old value.
    StepSlot {
        ty: ValueType,
        slot: u32,
        within: ValueType,
        op: Operation,
    },
    Step {
        ty: ValueType,
        address: Box<Expr>,
        within: ValueType,
        op: Operation,
    },
    /// A function by its number among those with a body.
    Call {
        ty: ValueType,
        function: u32,
        arguments: Vec<Expr>,
    },
    /// `getchar`, `putchar` and `putint`.
    GetByte,
    PutByte {
        value: Box<Expr>,
    },
    PutNumber {
        value: Box<Expr>,
    },
    /// The parts before the last are evaluated for what they do.
    Comma {
        parts: Vec<Expr>,
        last: Box<Expr>,
    },
}

/// The type of an expression's value, or `void`.
pub fn type_of(x: &Expr) -> ValueType
    ensures { result ≡ type_of (expr_of x.now) }
{
    match x {
        Expr::Constant { ty, .. } => *ty,
        Expr::Text { .. } => ValueType::Pointer {
            to: Base::Char,
            stars: 1,
        },
        Expr::Address { ty, .. } => *ty,
        Expr::Element { ty, .. } => *ty,
        Expr::Slot { ty, .. } => *ty,
        Expr::Load { ty, .. } => *ty,
        Expr::Convert { to, .. } => *to,
        Expr::Unary { rank, .. } => rank.value_type(),
        Expr::Not { .. } => INT,
        Expr::Binary { ty, .. } => *ty,
        Expr::And { .. } => INT,
        Expr::Or { .. } => INT,
        Expr::Conditional { ty, .. } => *ty,
        Expr::SetSlot { ty, .. } => *ty,
        Expr::Store { ty, .. } => *ty,
        Expr::UpdateSlot { ty, .. } => *ty,
        Expr::Update { ty, .. } => *ty,
        Expr::StepSlot { ty, .. } => *ty,
        Expr::Step { ty, .. } => *ty,
        Expr::Call { ty, .. } => *ty,
        Expr::GetByte => INT,
        Expr::PutByte { .. } => INT,
        Expr::PutNumber { .. } => ValueType::Base(Base::Void),
        Expr::Comma { last, .. } => type_of(last),
    }
}
