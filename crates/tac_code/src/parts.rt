ghost use Rattle.std.specs.Prelude.{◌≡◌, ◌+◌, IfOk, Some};
ghost use Rattle.tac_lowered.specs.Code as c;
ghost use Rattle.tac_lowered.specs.Code.{◌⨾◌};
ghost use Rattle.tac_lowered.specs.Operators as o;
ghost use Rattle.tac_code.specs.Views.{boxed_of, code_of};

use crate::code::{Code, Test};
use ib_act::Act;
use std::alloc::{AllocError, Global};

pub fn boxed(alloc: Global, code: Code) -> Result<Box<Code>, AllocError>
    ensures { IfOk result (λ made. made.value ≡ code) }
{
    Ok(Box::new(alloc, code)?)
}

pub fn boxed_test(alloc: Global, test: Test) -> Result<Box<Test>, AllocError>
    ensures { IfOk result (λ made. made.value ≡ test) }
{
    Ok(Box::new(alloc, test)?)
}

/// One operation.
pub fn does(alloc: Global, stmt: u32, act: Act) -> Result<Box<Code>, AllocError>
    ensures { IfOk result (λ made. boxed_of made ≡ c.does stmt act) }
{
    boxed(alloc, Code::Does { stmt, act })
}

/// Two parts one after the other.
pub fn both(alloc: Global, first: Box<Code>, second: Box<Code>) -> Result<Box<Code>, AllocError>
    ensures { IfOk result (λ made. boxed_of made ≡ boxed_of first ⨾ boxed_of second) }
{
    boxed(alloc, Code::Both(first, second))
}

/// A register's value in another, where it is wanted there.
pub fn moved(alloc: Global, stmt: u32, to: Option<u32>, from: u32) -> Result<Box<Code>, AllocError>
    ensures { IfOk result (λ made. boxed_of made ≡ o.moved stmt to from) }
{
    match to {
        None => boxed(alloc, Code::Nothing),
        Some(to) => moved_to(alloc, stmt, to, from),
    }
}

pub(crate) fn moved_to(
    alloc: Global,
    stmt: u32,
    to: u32,
    from: u32,
) -> Result<Box<Code>, AllocError>
    ensures { IfOk result (λ made. boxed_of made ≡ o.moved stmt (Some to) from) }
{
    if to == from {
        boxed(alloc, Code::Nothing)
    } else {
        does(alloc, stmt, Act::Mov { to, from })
    }
}

/// A number, where one is wanted.
pub fn number(
    alloc: Global,
    stmt: u32,
    to: Option<u32>,
    value: i64,
) -> Result<Box<Code>, AllocError>
    ensures { IfOk result (λ made. boxed_of made ≡ o.number stmt to value) }
{
    match to {
        None => boxed(alloc, Code::Nothing),
        Some(to) => does(alloc, stmt, Act::Const { to, value }),
    }
}

/// The register so many behind another. Registers past a `u32` find no memory.
pub fn behind(register: u32, count: u32) -> Result<u32, AllocError>
    ensures { IfOk result (λ made. made ≡ register + count) }
{
    register.checked_add(count).ok_or(AllocError)
}
