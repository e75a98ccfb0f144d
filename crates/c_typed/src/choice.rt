ghost use Rattle.std.specs.Prelude.{◌≡◌};
ghost use Rattle.c_typed.specs.Choices.{both_integers, at_rank, arithmetic, shift, sum, difference, compares, alike, order, equality, chosen, branches, fits};

use crate::operation::{Arithmetic, Comparison, Operation, Rank};
use crate::types::{INT, LONG, ValueType};
use c_ast::BinaryOp;

/// What an operator or an assignment looks at in an operand.
#[derive(Clone, Copy)]
pub struct Operand {
    pub ty: ValueType,
    pub is_null: bool,
}

/// An operation, what its operands are converted to, and the type of its result.
#[derive(Clone, Copy)]
pub struct Choice {
    pub op: Operation,
    pub left: ValueType,
    pub right: ValueType,
    pub result: ValueType,
}

fn both_integers(x: Operand, y: Operand) -> bool
    ensures { result ≡ both_integers x y }
{
    x.ty.is_integer() && y.ty.is_integer()
}

fn at_rank(op: Arithmetic, rank: Rank) -> Choice
    ensures { result ≡ at_rank op rank }
{
    Choice {
        op: Operation::Integer { op, rank },
        left: rank.value_type(),
        right: rank.value_type(),
        result: rank.value_type(),
    }
}

fn arithmetic(op: Arithmetic, x: Operand, y: Operand) -> Option<Choice>
    ensures { result ≡ arithmetic op x y }
{
    if both_integers(x, y) {
        Some(at_rank(op, x.ty.common(y.ty)))
    } else {
        None
    }
}

fn shift(op: Arithmetic, x: Operand, y: Operand) -> Option<Choice>
    ensures { result ≡ shift op x y }
{
    if !both_integers(x, y) {
        return None;
    }
    let rank = x.ty.promoted();
    Some(Choice {
        op: Operation::Integer { op, rank },
        left: rank.value_type(),
        right: y.ty.promoted().value_type(),
        result: rank.value_type(),
    })
}

fn sum(x: Operand, y: Operand) -> Option<Choice>
    ensures { result ≡ sum x y }
{
    if both_integers(x, y) {
        arithmetic(Arithmetic::Add, x, y)
    } else if x.ty.leads() && y.ty.is_integer() {
        Some(Choice {
            op: Operation::Advance {
                size: x.ty.pointee().size(),
            },
            left: x.ty,
            right: y.ty,
            result: x.ty,
        })
    } else if x.ty.is_integer() && y.ty.leads() {
        Some(Choice {
            op: Operation::AdvanceBy {
                size: y.ty.pointee().size(),
            },
            left: x.ty,
            right: y.ty,
            result: y.ty,
        })
    } else {
        None
    }
}

fn difference(x: Operand, y: Operand) -> Option<Choice>
    ensures { result ≡ difference x y }
{
    let size = x.ty.pointee().size();
    if both_integers(x, y) {
        arithmetic(Arithmetic::Sub, x, y)
    } else if x.ty.leads() && y.ty.is_integer() {
        Some(Choice {
            op: Operation::Retreat { size },
            left: x.ty,
            right: y.ty,
            result: x.ty,
        })
    } else if x.ty.leads() && x.ty.is_same(y.ty) {
        Some(Choice {
            op: Operation::Distance { size },
            left: x.ty,
            right: y.ty,
            result: LONG,
        })
    } else {
        None
    }
}

/// A comparison of two values of one type.
fn compares(op: Comparison, ty: ValueType) -> Choice
    ensures { result ≡ compares op ty }
{
    Choice {
        op: Operation::Compare(op),
        left: ty,
        right: ty,
        result: INT,
    }
}

fn order(op: Comparison, x: Operand, y: Operand) -> Option<Choice>
    ensures { result ≡ order op x y }
{
    Some(compares(op, alike(x, y)?))
}

/// The type that `<` and its kin compare two operands in.
fn alike(x: Operand, y: Operand) -> Option<ValueType>
    ensures { result ≡ alike x y }
{
    if both_integers(x, y) {
        Some(x.ty.common(y.ty).value_type())
    } else if x.ty.is_pointer() && x.ty.is_same(y.ty) {
        Some(x.ty)
    } else {
        None
    }
}

fn equality(op: Comparison, x: Operand, y: Operand) -> Option<Choice>
    ensures { result ≡ equality op x y }
{
    Some(compares(op, branches(x, y)?))
}

/// What the two last operands of `?:` are converted to, and those of `==`: a null constant to the
/// other's pointer type.
pub fn branches(x: Operand, y: Operand) -> Option<ValueType>
    ensures { result ≡ branches x y }
{
    if let Some(ty) = alike(x, y) {
        Some(ty)
    } else if x.ty.is_pointer() && y.is_null {
        Some(x.ty)
    } else if x.is_null && y.ty.is_pointer() {
        Some(y.ty)
    } else {
        None
    }
}

/// The operation that an operator means for two operands of these types, where it takes such. `&&`
/// and `||` are none: they may leave their right operand alone.
pub fn chosen(op: BinaryOp, x: Operand, y: Operand) -> Option<Choice>
    ensures { result ≡ chosen op x y }
{
    match op {
        BinaryOp::Add => sum(x, y),
        BinaryOp::Sub => difference(x, y),
        BinaryOp::Mul => arithmetic(Arithmetic::Mul, x, y),
        BinaryOp::Div => arithmetic(Arithmetic::Div, x, y),
        BinaryOp::Rem => arithmetic(Arithmetic::Rem, x, y),
        BinaryOp::BitAnd => arithmetic(Arithmetic::BitAnd, x, y),
        BinaryOp::BitXor => arithmetic(Arithmetic::BitXor, x, y),
        BinaryOp::BitOr => arithmetic(Arithmetic::BitOr, x, y),
        BinaryOp::ShiftLeft => shift(Arithmetic::ShiftLeft, x, y),
        BinaryOp::ShiftRight => shift(Arithmetic::ShiftRight, x, y),
        BinaryOp::Less => order(Comparison::Less, x, y),
        BinaryOp::LessEqual => order(Comparison::LessEqual, x, y),
        BinaryOp::Greater => order(Comparison::Greater, x, y),
        BinaryOp::GreaterEqual => order(Comparison::GreaterEqual, x, y),
        BinaryOp::Equal => equality(Comparison::Equal, x, y),
        BinaryOp::NotEqual => equality(Comparison::NotEqual, x, y),
        BinaryOp::Or | BinaryOp::And => None,
    }
}

/// Whether a value can be stored where a value of the type `target` lives.
pub fn fits(target: ValueType, x: Operand) -> bool
    ensures { result ≡ fits target x }
{
    (target.is_integer() && x.ty.is_integer())
        || (target.leads() && (target.is_same(x.ty) || x.is_null))
}
