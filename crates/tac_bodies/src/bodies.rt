//! What the bodies of functions are lowered to.

ghost use Rattle.std.specs.Prelude.{◌≡◌, IfOk};
ghost use Rattle.c_typed.specs.Views.{function_of};
ghost use Rattle.c_program.specs.Checked as c;
ghost use Rattle.tac_lowered.specs.Lowered as l;
ghost use Rattle.tac_code.specs.Views.{boxed_of};

use crate::params::{behind_home, first_param, free_in};
use crate::statements::low_stms;
use c_program::Program;
use c_typed::{Function, Home, Param};
use c_values::width_of;
use ib_act::Act;
use std::alloc::{AllocError, Global};
use tac_code::{Code, both, boxed, does};
use tac_core::number_at;

/// Moves a parameter from the register that it comes in into the frame, if it lives there.
fn stored(
    alloc: Global,
    program: &Program,
    param: Param,
    register: u32,
    free: u32,
) -> Result<Box<Code>, AllocError>
    ensures { IfOk result (λ made. boxed_of made ≡ l.stored (c.program program.now) param.ty param.home register free) }
{
    match param.home {
        Home::Slot(_) => boxed(alloc, Code::Nothing),
        Home::Frame(offset) => {
            let stmt = number_at(program.statements().len())?;
            let offset = i64::try_from(offset).ok().ok_or(AllocError)?;
            let address = does(alloc, stmt, Act::FrameAddress { to: free, offset })?;
            let width = width_of(param.ty);
            let store = does(
                alloc,
                stmt,
                Act::Store {
                    width,
                    base: free,
                    offset: 0,
                    from: register,
                },
            )?;
            both(alloc, address, store)
        }
    }
}

/// The same of all parameters. A function has few.
fn all_stored(
    alloc: Global,
    program: &Program,
    params: &[Param],
    register: u32,
    free: u32,
) -> Result<Box<Code>, AllocError>
    ensures { IfOk result (λ made. boxed_of made ≡ l.all_stored (c.program program.now) params.now register free) }
{
    match first_param(params) {
        None => boxed(alloc, Code::Nothing),
        Some((param, others)) => {
            let next = behind_home(param.home, register)?;
            let first = stored(alloc, program, *param, register, free)?;
            let rest = all_stored(alloc, program, others, next, free)?;
            both(alloc, first, rest)
        }
    }
}

/// The code of a function's body, its parameters first.
pub fn body_of(
    alloc: Global,
    program: &Program,
    function: &Function,
) -> Result<Box<Code>, AllocError>
    ensures { IfOk result (λ made. boxed_of made ≡ l.body_of (c.program program.now) (function_of function.now)) }
{
    let free = free_in(function)?;
    let first = all_stored(alloc, program, &function.params, function.slots, free)?;
    let rest = low_stms(alloc, program, &function.body, free)?;
    both(alloc, first, rest)
}
