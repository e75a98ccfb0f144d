//! Where a function's parameters come in.

ghost use Rattle.std.specs.Prelude.{◌≡◌, ◌++◌, [], ◌∷◌, IfOk, OnOk, MatchOption};
ghost use Rattle.c_typed.specs.Views.{function_of};
ghost use Rattle.tac_lowered.specs.Lowered as l;

use c_typed::{Function, Home, Param};
use std::alloc::{AllocError, Global};
use tac_code::behind;

/// The first of some parameters, and the others.
pub(crate) fn first_param<'a>(all: &'a [Param]) -> Option<(&'a Param, &'a [Param])>
    ensures { MatchOption result (all.now ≡ []) (λ it. all.now ≡ it.0.now ∷ it.1.now) }
{
    all.split_first()
}

fn home_in(home: Home, register: u32) -> u32
    ensures { result ≡ l.home_in home register }
{
    match home {
        Home::Slot(slot) => slot,
        Home::Frame(_) => register,
    }
}

/// The first register that is free behind a parameter's.
pub(crate) fn behind_home(home: Home, register: u32) -> Result<u32, AllocError>
    ensures { IfOk result (λ free. free ≡ l.behind_home home register) }
{
    match home {
        Home::Slot(_) => Ok(register),
        Home::Frame(_) => behind(register, 1),
    }
}

fn behind_params(params: &[Param], register: u32) -> Result<u32, AllocError>
    ensures { IfOk result (λ free. free ≡ l.behind_params params.now register) }
{
    match first_param(params) {
        None => Ok(register),
        Some((param, others)) => {
            let next = behind_home(param.home, register)?;
            behind_params(others, next)
        }
    }
}

/// The first register that is free in a function's body.
pub fn free_in(function: &Function) -> Result<u32, AllocError>
    ensures { IfOk result (λ free. free ≡ l.behind_params (function_of function.now).params function.now.slots) }
{
    behind_params(&function.params, function.slots)
}

fn push_params(params: &[Param], register: u32, into: &mut Vec<u32>) -> Result<(), AllocError>
    ensures { OnOk result (into.new.items ≡ into.old.items ++ l.params_in params.now register) }
{
    match first_param(params) {
        None => Ok(()),
        Some((param, others)) => {
            into.push(home_in(param.home, register))?;
            let next = behind_home(param.home, register)?;
            push_params(others, next, into)
        }
    }
}

/// The registers that a function's parameters come in.
pub fn params_in(alloc: Global, function: &Function) -> Result<Vec<u32>, AllocError>
    ensures { IfOk result (λ made. made.items ≡ l.params_in (function_of function.now).params function.now.slots) }
{
    let mut registers = Vec::new(alloc);
    push_params(&function.params, function.slots, &mut registers)?;
    Ok(registers)
}
