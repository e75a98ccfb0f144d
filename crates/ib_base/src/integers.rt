ghost use Rattle.std.specs.Prelude.{◌≡◌, ◌<◌, ◌^◌, pos};
ghost use Rattle.ib_base.specs.Integers.{IsOfWidth, wrapped, quotient, remainder, shifted_left, shifted_right, compared, least_of, count_of};

use ib_meaning::FaultKind;

/// How many bytes a number has: one unsigned, four or eight signed.
#[derive(Clone, Copy, PartialEq, Eq, Debug)]
pub enum Width {
    W1,
    W4,
    W8,
}

/// How two signed numbers are compared.
#[derive(Clone, Copy, PartialEq, Eq, Debug)]
pub enum Cmp {
    Eq,
    Ne,
    Lt,
    Le,
}

/// The number of the width that is congruent to `x`.
pub fn wrap(w: Width, x: i128) -> i64
    ensures { result ≡ wrapped w x }
{
    match w {
        Width::W1 => x.rem_euclid(256) as i64,
        Width::W4 => i64::from((x.rem_euclid(4_294_967_296) as u32).cast_signed()),
        Width::W8 => (x.rem_euclid(18_446_744_073_709_551_616) as u64).cast_signed(),
    }
}

/// The quotient, rounded toward zero.
pub fn div(w: Width, a: i64, b: i64) -> Result<i64, FaultKind>
    requires a_in { IsOfWidth w a }
    requires b_in { IsOfWidth w b }
    ensures { result ≡ quotient w a b }
{
    if b == 0 {
        return Err(FaultKind::DivZero);
    }
    if b == -1 && a == least(w) {
        return Err(FaultKind::DivOverflow);
    }
    Ok(a / b)
}

/// What the quotient leaves of `a`, with the sign of `a`.
pub fn rem(w: Width, a: i64, b: i64) -> Result<i64, FaultKind>
    requires a_in { IsOfWidth w a }
    requires b_in { IsOfWidth w b }
    ensures { result ≡ remainder w a b }
{
    if b == 0 {
        return Err(FaultKind::DivZero);
    }
    if b == -1 && a == least(w) {
        return Err(FaultKind::DivOverflow);
    }
    Ok(a % b)
}

/// `a` shifted left by `b` modulo the bits of the width.
pub fn shift_left(w: Width, a: i64, b: i64) -> i64
    requires { IsOfWidth w a }
    ensures { result ≡ shifted_left w a b }
{
    wrap(w, i128::from(a) * power_of_two(shift_count(w, b)))
}

/// `a` shifted right by `b` modulo the bits of the width, with copies of its sign shifted in.
pub fn shift_right(w: Width, a: i64, b: i64) -> i64
    requires { IsOfWidth w a }
    ensures { result ≡ shifted_right w a b }
{
    a >> shift_count(w, b)
}

/// Whether the comparison holds.
pub fn compare(c: Cmp, a: i64, b: i64) -> bool
    ensures { result ≡ compared c a b }
{
    match c {
        Cmp::Eq => a == b,
        Cmp::Ne => a != b,
        Cmp::Lt => a < b,
        Cmp::Le => a <= b,
    }
}

fn least(w: Width) -> i64
    ensures { result ≡ least_of w }
{
    match w {
        Width::W1 => 0,
        Width::W4 => i64::from(i32::MIN),
        Width::W8 => i64::MIN,
    }
}

fn shift_count(w: Width, b: i64) -> u32
    ensures count { result ≡ count_of w b }
    ensures below { result < 64 }
{
    let bits = match w {
        Width::W1 => 8,
        Width::W4 => 32,
        Width::W8 => 64,
    };
    b.rem_euclid(bits) as u32
}

fn power_of_two(count: u32) -> i128
    requires { count < 64 }
    ensures { result ≡ pos (2 ^ count) }
{
    i128::from(1u64 << count)
}
