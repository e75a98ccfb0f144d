ghost use Rattle.std.specs.Prelude.{◌≡◌, pos};
ghost use Rattle.ib_base.specs.Integers.{IsOfWidth, wrapped};
ghost use Rattle.ib_mem.specs.Memory.{IsAccessWidth};
ghost use Rattle.c_typed.specs.ValueTypes.{size_of};
ghost use Rattle.c_typed.specs.Values as v;

use c_ast::Base;
use c_typed::{Arithmetic, Comparison, Operation, Rank, Reach, Sign, ValueType};
use ib_base::{Cmp, FaultKind, Width, compare, div, rem, shift_left, shift_right, wrap};

/// How wide a value of the type is.
pub fn width_of(ty: ValueType) -> Width
    ensures { result ≡ v.width_of ty }
{
    match ty {
        ValueType::Base(Base::Void | Base::Char) => Width::W1,
        ValueType::Base(Base::Int) => Width::W4,
        ValueType::Base(Base::Long) | ValueType::Pointer { .. } | ValueType::Null => Width::W8,
    }
}

/// How many bytes a value of the type takes in memory.
pub fn size_of(ty: ValueType) -> u8
    ensures bytes { result ≡ size_of ty }
    ensures access { IsAccessWidth result }
{
    match ty {
        ValueType::Base(Base::Void | Base::Char) => 1,
        ValueType::Base(Base::Int) => 4,
        ValueType::Base(Base::Long) | ValueType::Pointer { .. } | ValueType::Null => 8,
    }
}

/// A number as a value of the type.
pub fn converted(ty: ValueType, x: i64) -> i64
    ensures { result ≡ v.converted ty x }
{
    wrap(width_of(ty), i128::from(x))
}

/// Whether a condition with this value holds.
pub fn is_true(x: i64) -> bool
    ensures { result ≡ v.is_true x }
{
    match x {
        0 => false,
        _ => true,
    }
}

/// What a comparison gives: 1 where it holds, 0 where not.
pub fn truth(is: bool) -> i64
    ensures { result ≡ v.truth is }
{
    if is { 1 } else { 0 }
}

/// How wide the numbers are that an operation of this rank works on.
pub fn ranked(rank: Rank) -> Width
    ensures { result ≡ v.ranked rank }
{
    match rank {
        Rank::Int => Width::W4,
        Rank::Long => Width::W8,
    }
}

fn narrowed(rank: Rank, x: i64) -> i64
    ensures value { result ≡ wrapped (v.ranked rank) x }
    ensures fits { IsOfWidth (v.ranked rank) result }
{
    wrap(ranked(rank), i128::from(x))
}

fn quotient(rank: Rank, x: i64, y: i64) -> Result<i64, FaultKind>
    ensures { result ≡ v.arithmetic Arithmetic.Div (v.ranked rank) x y }
{
    div(ranked(rank), narrowed(rank, x), narrowed(rank, y))
}

fn remainder(rank: Rank, x: i64, y: i64) -> Result<i64, FaultKind>
    ensures { result ≡ v.arithmetic Arithmetic.Rem (v.ranked rank) x y }
{
    rem(ranked(rank), narrowed(rank, x), narrowed(rank, y))
}

fn arithmetic(op: Arithmetic, rank: Rank, x: i64, y: i64) -> Result<i64, FaultKind>
    ensures { result ≡ v.arithmetic op (v.ranked rank) x y }
{
    match op {
        Arithmetic::Add => Ok(wrap(ranked(rank), i128::from(x) + i128::from(y))),
        Arithmetic::Sub => Ok(wrap(ranked(rank), i128::from(x) - i128::from(y))),
        Arithmetic::Mul => Ok(wrap(ranked(rank), i128::from(x) * i128::from(y))),
        Arithmetic::Div => quotient(rank, x, y),
        Arithmetic::Rem => remainder(rank, x, y),
        Arithmetic::ShiftLeft => Ok(shift_left(ranked(rank), narrowed(rank, x), y)),
        Arithmetic::ShiftRight => Ok(shift_right(ranked(rank), narrowed(rank, x), y)),
        Arithmetic::BitAnd => Ok(x & y),
        Arithmetic::BitXor => Ok(x ^ y),
        Arithmetic::BitOr => Ok(x | y),
    }
}

fn comparison(op: Comparison, x: i64, y: i64) -> bool
    ensures { result ≡ v.comparison op x y }
{
    match op {
        Comparison::Equal => compare(Cmp::Eq, x, y),
        Comparison::NotEqual => compare(Cmp::Ne, x, y),
        Comparison::Less => compare(Cmp::Lt, x, y),
        Comparison::LessEqual => compare(Cmp::Le, x, y),
        Comparison::Greater => compare(Cmp::Lt, y, x),
        Comparison::GreaterEqual => compare(Cmp::Le, y, x),
    }
}

/// The address so many bytes further on.
pub fn further(address: i64, bytes: i64) -> i64
    ensures { result ≡ v.further address bytes }
{
    wrap(Width::W8, i128::from(address) + i128::from(bytes))
}

/// The address so many bytes behind the start of a frame.
pub fn in_frame(base: u32, offset: u64) -> i64
    ensures { result ≡ v.further (pos base) (pos offset) }
{
    wrap(Width::W8, i128::from(base) + i128::from(offset))
}

/// So many elements, in bytes.
fn scaled(size: u32, count: i64) -> i64
    ensures { result ≡ v.scaled size count }
{
    wrap(Width::W8, i128::from(count) * i128::from(size))
}

/// How many elements of the size lie between two addresses.
fn distance(size: u32, x: i64, y: i64) -> Result<i64, FaultKind>
    ensures { result ≡ v.operated (Operation.Distance size) x y }
{
    let bytes = wrap(Width::W8, i128::from(x) - i128::from(y));
    quotient(Rank::Long, bytes, i64::from(size))
}

/// What an operation of two operands gives, or the fault that it is.
pub fn operated(op: Operation, x: i64, y: i64) -> Result<i64, FaultKind>
    ensures { result ≡ v.operated op x y }
{
    match op {
        Operation::Integer { op, rank } => arithmetic(op, rank, x, y),
        Operation::Compare(op) => Ok(truth(comparison(op, x, y))),
        Operation::Advance { size } => Ok(further(x, scaled(size, y))),
        Operation::AdvanceBy { size } => Ok(further(y, scaled(size, x))),
        Operation::Retreat { size } => Ok(wrap(
            Width::W8,
            i128::from(x) - i128::from(scaled(size, y)),
        )),
        Operation::Distance { size } => distance(size, x, y),
    }
}

/// `-` or `~` of a number, at the width of the rank.
pub fn signed(op: Sign, rank: Rank, x: i64) -> i64
    ensures { result ≡ v.signed op (v.ranked rank) x }
{
    match op {
        Sign::Minus => wrap(ranked(rank), 0 - i128::from(x)),
        Sign::BitNot => wrap(ranked(rank), -1 - i128::from(x)),
    }
}

fn in_bounds(reach: Reach, length: u64, index: i64) -> bool
    ensures { result ≡ v.in_bounds reach length index }
{
    match reach {
        Reach::Inside => 0 <= index && i128::from(index) < i128::from(length),
        Reach::ToEnd => 0 <= index && i128::from(index) <= i128::from(length),
    }
}

/// The address of an element of the array that begins there, or `Bounds`.
pub fn element(
    array: i64,
    length: u64,
    size: u32,
    reach: Reach,
    index: i64,
) -> Result<i64, FaultKind>
    ensures { result ≡ v.element array length size reach index }
{
    if in_bounds(reach, length, index) {
        Ok(further(array, scaled(size, index)))
    } else {
        Err(FaultKind::Bounds)
    }
}
