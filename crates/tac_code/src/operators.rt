ghost use Rattle.std.specs.Prelude.{◌≡◌, IfOk};
ghost use Rattle.tac_lowered.specs.Operators as o;
ghost use Rattle.tac_code.specs.Views.{boxed_of};

use crate::code::Code;
use crate::parts::{behind, both, boxed, does, moved_to};
use c_typed::{Arithmetic, Comparison, Operation, Rank, Reach, Sign};
use c_values::ranked;
use ib_act::{Act, Size};
use ib_base::Width;
use std::alloc::{AllocError, Global};

/// Whether a value of the first width may lie outside of the second.
pub fn narrows(from: Width, to: Width) -> bool
    ensures { result ≡ o.narrows from to }
{
    match to {
        Width::W1 => match from {
            Width::W1 => false,
            Width::W4 | Width::W8 => true,
        },
        Width::W4 => match from {
            Width::W1 | Width::W4 => false,
            Width::W8 => true,
        },
        Width::W8 => false,
    }
}

/// What cuts a value to the width.
pub fn cut(width: Width, to: u32, from: u32) -> Act
    ensures { result ≡ o.cut width to from }
{
    match width {
        Width::W1 => Act::ExtByte { to, from },
        Width::W4 => Act::ExtFour { to, from },
        Width::W8 => Act::Mov { to, from },
    }
}

/// A value of the first width as one of the second.
pub(crate) fn converted(
    alloc: Global,
    from: Width,
    width: Width,
    stmt: u32,
    to: u32,
    x: u32,
) -> Result<Box<Code>, AllocError>
    ensures { IfOk result (λ made. boxed_of made ≡ o.converted from width stmt to x) }
{
    if narrows(from, width) {
        does(alloc, stmt, cut(width, to, x))
    } else {
        moved_to(alloc, stmt, to, x)
    }
}

fn size_of(width: Width) -> Size
    ensures { result ≡ o.size_of width }
{
    match width {
        Width::W8 => Size::Eight,
        Width::W1 | Width::W4 => Size::Four,
    }
}

fn arithmetic(op: Arithmetic, size: Size, to: u32, left: u32, right: u32) -> Act
    ensures { result ≡ o.arithmetic op size to left right }
{
    match op {
        Arithmetic::Add => Act::Add {
            size,
            to,
            left,
            right,
        },
        Arithmetic::Sub => Act::Sub {
            size,
            to,
            left,
            right,
        },
        Arithmetic::Mul => Act::Mul {
            size,
            to,
            left,
            right,
        },
        Arithmetic::Div => Act::Div {
            size,
            to,
            left,
            right,
        },
        Arithmetic::Rem => Act::Rem {
            size,
            to,
            left,
            right,
        },
        Arithmetic::ShiftLeft => Act::ShiftLeft {
            size,
            to,
            left,
            right,
        },
        Arithmetic::ShiftRight => Act::ShiftRight {
            size,
            to,
            left,
            right,
        },
        Arithmetic::BitAnd => Act::And { to, left, right },
        Arithmetic::BitXor => Act::Xor { to, left, right },
        Arithmetic::BitOr => Act::Or { to, left, right },
    }
}

/// Where no operation asks it, the operands change places.
fn comparison(op: Comparison, to: u32, left: u32, right: u32) -> Act
    ensures { result ≡ o.comparison op to left right }
{
    match op {
        Comparison::Equal => Act::Equal { to, left, right },
        Comparison::NotEqual => Act::NotEqual { to, left, right },
        Comparison::Less => Act::Less { to, left, right },
        Comparison::LessEqual => Act::LessEqual { to, left, right },
        Comparison::Greater => Act::Less {
            to,
            left: right,
            right: left,
        },
        Comparison::GreaterEqual => Act::LessEqual {
            to,
            left: right,
            right: left,
        },
    }
}

/// So many elements in bytes. Those of one byte stay where they are.
pub fn scaled(alloc: Global, stmt: u32, to: u32, size: u32, x: u32) -> Result<Box<Code>, AllocError>
    ensures { IfOk result (λ made. boxed_of made ≡ o.scaled stmt to size x) }
{
    if size == 1 {
        return boxed(alloc, Code::Nothing);
    }
    let size = does(
        alloc,
        stmt,
        Act::Const {
            to,
            value: i64::from(size),
        },
    )?;
    let product = does(
        alloc,
        stmt,
        Act::Mul {
            size: Size::Eight,
            to,
            left: x,
            right: to,
        },
    )?;
    both(alloc, size, product)
}

/// The register that the bytes of so many elements are in.
pub fn scaled_in(to: u32, size: u32, x: u32) -> u32
    ensures { result ≡ o.scaled_in to size x }
{
    if size == 1 { x } else { to }
}

fn distance(
    alloc: Global,
    size: u32,
    stmt: u32,
    to: u32,
    free: u32,
    x: u32,
    y: u32,
) -> Result<Box<Code>, AllocError>
    ensures { IfOk result (λ made. boxed_of made ≡ o.operated (Operation.Distance size) stmt to free x y) }
{
    let second = behind(free, 1)?;
    let bytes = does(
        alloc,
        stmt,
        Act::Sub {
            size: Size::Eight,
            to: free,
            left: x,
            right: y,
        },
    )?;
    let each = does(
        alloc,
        stmt,
        Act::Const {
            to: second,
            value: i64::from(size),
        },
    )?;
    let count = does(
        alloc,
        stmt,
        Act::Div {
            size: Size::Eight,
            to,
            left: free,
            right: second,
        },
    )?;
    let rest = both(alloc, each, count)?;
    both(alloc, bytes, rest)
}

/// An operator of two registers. Registers from `free` on are free.
pub fn operated(
    alloc: Global,
    op: Operation,
    stmt: u32,
    to: u32,
    free: u32,
    x: u32,
    y: u32,
) -> Result<Box<Code>, AllocError>
    ensures { IfOk result (λ made. boxed_of made ≡ o.operated op stmt to free x y) }
{
    match op {
        Operation::Integer { op, rank } => {
            does(alloc, stmt, arithmetic(op, size_of(ranked(rank)), to, x, y))
        }
        Operation::Compare(op) => does(alloc, stmt, comparison(op, to, x, y)),
        Operation::Advance { size } => {
            let bytes = scaled(alloc, stmt, free, size, y)?;
            let right = scaled_in(free, size, y);
            let sum = does(
                alloc,
                stmt,
                Act::Add {
                    size: Size::Eight,
                    to,
                    left: x,
                    right,
                },
            )?;
            both(alloc, bytes, sum)
        }
        Operation::AdvanceBy { size } => {
            let bytes = scaled(alloc, stmt, free, size, x)?;
            let right = scaled_in(free, size, x);
            let sum = does(
                alloc,
                stmt,
                Act::Add {
                    size: Size::Eight,
                    to,
                    left: y,
                    right,
                },
            )?;
            both(alloc, bytes, sum)
        }
        Operation::Retreat { size } => {
            let bytes = scaled(alloc, stmt, free, size, y)?;
            let right = scaled_in(free, size, y);
            let rest = does(
                alloc,
                stmt,
                Act::Sub {
                    size: Size::Eight,
                    to,
                    left: x,
                    right,
                },
            )?;
            both(alloc, bytes, rest)
        }
        Operation::Distance { size } => distance(alloc, size, stmt, to, free, x, y),
    }
}

/// The width that an operator's value lies in.
pub fn given_by(op: Operation) -> Width
    ensures { result ≡ o.given_by op }
{
    match op {
        Operation::Integer { rank, .. } => ranked(rank),
        Operation::Compare(_) => Width::W1,
        Operation::Advance { .. } => Width::W8,
        Operation::AdvanceBy { .. } => Width::W8,
        Operation::Retreat { .. } => Width::W8,
        Operation::Distance { .. } => Width::W8,
    }
}

/// `-` or `~` of a register's value.
pub fn sign(
    alloc: Global,
    op: Sign,
    rank: Rank,
    stmt: u32,
    to: u32,
    free: u32,
    x: u32,
) -> Result<Box<Code>, AllocError>
    ensures { IfOk result (λ made. boxed_of made ≡ o.sign op rank stmt to free x) }
{
    let value = match op {
        Sign::Minus => 0,
        Sign::BitNot => -1,
    };
    let whole = does(alloc, stmt, Act::Const { to: free, value })?;
    let size = size_of(ranked(rank));
    let rest = does(
        alloc,
        stmt,
        Act::Sub {
            size,
            to,
            left: free,
            right: x,
        },
    )?;
    both(alloc, whole, rest)
}

/// The first index that is out of bounds. One past an `i64` finds no memory.
pub fn bound(reach: Reach, count: u64) -> Result<i64, AllocError>
    ensures { IfOk result (λ made. made ≡ o.bound reach count) }
{
    let first = match reach {
        Reach::Inside => count,
        Reach::ToEnd => count.checked_add(1).ok_or(AllocError)?,
    };
    i64::try_from(first).ok().ok_or(AllocError)
}
