ghost use Rattle.std.specs.Prelude.{◌≡◌, ◌+ℤ◌, ◌-ℤ◌, ◌*ℤ◌};
ghost use Rattle.std.specs.Int.{w64, int_bit_and, int_bit_or, int_bit_xor};
ghost use Rattle.ib_base.specs.Integers.{IsOfWidth, wrapped, quotient, remainder, shifted_left, shifted_right, compared};
ghost use Rattle.ib_mem.specs.Memory.{IsAccessWidth, loaded};
ghost use Rattle.ib_act.specs.Acts.{width_of, bytes_in, truth, of_wrapped, address, read_as, in_bounds, given};

use crate::act::{Act, Size};
use ib_base::{Cmp, FaultKind, Width, compare, div, rem, shift_left, shift_right, wrap};
use ib_mem::Memory;

impl Size {
    /// The width that arithmetic of this size wraps to.
    pub fn width(self) -> Width
        ensures { result ≡ width_of self }
    {
        match self {
            Size::Four => Width::W4,
            Size::Eight => Width::W8,
        }
    }
}

impl Act {
    /// The value of the operation from its first and its second source's numbers, or its own fault. `base` is the
    /// address of the frame. An operation that writes no register gives its first source's number.
    pub fn value(self, base: u32, memory: &Memory, x: i64, y: i64) -> Result<i64, FaultKind>
        ensures { result ≡ given self base memory.now x y }
    {
        match self {
            Act::Const { value, .. } => Ok(value),
            Act::Add { size, .. } => Ok(wrap(size.width(), i128::from(x) + i128::from(y))),
            Act::Sub { size, .. } => Ok(wrap(size.width(), i128::from(x) - i128::from(y))),
            Act::Mul { size, .. } => Ok(wrap(size.width(), i128::from(x) * i128::from(y))),
            Act::Div { size, .. } => divided(size, x, y),
            Act::Rem { size, .. } => left_over(size, x, y),
            Act::And { .. } => Ok(x & y),
            Act::Or { .. } => Ok(x | y),
            Act::Xor { .. } => Ok(x ^ y),
            Act::ShiftLeft { size, .. } => Ok(shift_left(size.width(), narrowed(size, x), y)),
            Act::ShiftRight { size, .. } => Ok(shift_right(size.width(), narrowed(size, x), y)),
            Act::Equal { .. } => Ok(truth(Cmp::Eq, x, y)),
            Act::NotEqual { .. } => Ok(truth(Cmp::Ne, x, y)),
            Act::Less { .. } => Ok(truth(Cmp::Lt, x, y)),
            Act::LessEqual { .. } => Ok(truth(Cmp::Le, x, y)),
            Act::ExtByte { .. } => Ok(wrap(Width::W1, i128::from(x))),
            Act::ExtFour { .. } => Ok(wrap(Width::W4, i128::from(x))),
            Act::FrameAddress { offset, .. } => Ok(address(i64::from(base), offset)),
            Act::Bounds { bound, .. } => in_bounds(x, bound),
            Act::Load { width, offset, .. } => read(memory, width, address(x, offset)),
            Act::Mov { .. }
            | Act::Store { .. }
            | Act::Get { .. }
            | Act::PutByte { .. }
            | Act::PutNumber { .. } => Ok(x),
        }
    }
}

fn narrowed(size: Size, x: i64) -> i64
    ensures value { result ≡ wrapped (width_of size) x }
    ensures fits { IsOfWidth (width_of size) result }
{
    wrap(size.width(), i128::from(x))
}

fn divided(size: Size, x: i64, y: i64) -> Result<i64, FaultKind>
    ensures { result ≡ of_wrapped quotient size x y }
{
    div(size.width(), narrowed(size, x), narrowed(size, y))
}

fn left_over(size: Size, x: i64, y: i64) -> Result<i64, FaultKind>
    ensures { result ≡ of_wrapped remainder size x y }
{
    rem(size.width(), narrowed(size, x), narrowed(size, y))
}

/// 1 where the comparison holds, else 0.
fn truth(c: Cmp, x: i64, y: i64) -> i64
    ensures { result ≡ truth (compared c x y) }
{
    i64::from(compare(c, x, y))
}

fn in_bounds(index: i64, bound: i64) -> Result<i64, FaultKind>
    ensures { result ≡ in_bounds index bound }
{
    if 0 <= index && index < bound {
        Ok(index)
    } else {
        Err(FaultKind::Bounds)
    }
}

/// The address that an access with this base and offset reaches.
pub fn address(base: i64, offset: i64) -> i64
    ensures { result ≡ address base offset }
{
    wrap(Width::W8, i128::from(base) + i128::from(offset))
}

/// How many bytes an access of the width takes.
pub fn bytes_in(width: Width) -> u8
    ensures bytes { result ≡ bytes_in width }
    ensures access { IsAccessWidth result }
{
    match width {
        Width::W1 => 1,
        Width::W4 => 4,
        Width::W8 => 8,
    }
}

fn read(memory: &Memory, width: Width, at: i64) -> Result<i64, FaultKind>
    ensures { result ≡ read_as width (loaded memory.now at (bytes_in width)) }
{
    match memory.load(at, bytes_in(width)) {
        None => Err(FaultKind::BadAddress),
        Some(number) => Ok(wrap(width, i128::from(number))),
    }
}
