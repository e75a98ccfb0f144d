ghost use Rattle.std.specs.Prelude.{◌≡◌, ℕ, ◌+◌, ◌<◌, ◌^◌, true, length, slice_get, Some, pos, IfOk, IsOk};
ghost use Rattle.std.specs.List.{list_all};
ghost use Rattle.wide_core.specs.declared.code.WideFunc.{WideFunc};
ghost use Rattle.wide_core.specs.Valid.{is_within};
ghost use Rattle.wide_sim.specs.Next.{IsNext, calls_well, has_args};
ghost use Rattle.wide_sim.specs.Quiet.{is_quiet_plan};
ghost use Rattle.wide_sim.specs.Store.{held};

use crate::frame::{Frame, entered};
use crate::planned::Planned;
use crate::store::Store;
use ib_base::FaultKind;
use std::alloc::{AllocError, Global};
use wide_core::{Loc, Tagged, WideFunc};

/// Where control goes behind a word, with all memory taken that this needs.
#[derive(Drop)]
pub enum Next {
    Word(usize),
    Call {
        frame: Frame,
        next: usize,
        result: Option<Loc>,
    },
    Return(i64),
    Report {
        number: u32,
        kind: FaultKind,
    },
}

/// Takes the memory of a call, where one begins.
pub(crate) fn prepare(
    alloc: Global,
    regs: usize,
    funcs: &[WideFunc],
    next_base: u32,
    at: usize,
    values: &Store<Tagged>,
    turn: Planned,
) -> Result<Next, AllocError>
    requires words { at + 1 < 2 ^ 64 }
    requires args { has_args (length values.now.regs) (length values.now.slots) turn ≡ true }
    requires calls { calls_well funcs.now turn ≡ true }
    requires params { (f : ℕ) (func : WideFunc) → slice_get funcs.now f ≡ Some func → list_all (is_within regs func.slots) func.params ≡ true }
    ensures next { IfOk result (IsNext regs funcs.now next_base at (held (Tagged.Clear (pos 0)) values.now) turn.entry) }
    ensures quiet { is_quiet_plan turn.entry ≡ true → IsOk result }
{
    match turn {
        Planned::Jump { to } => Ok(Next::Word(to as usize)),
        Planned::Call {
            result,
            func,
            next,
            args,
        } => {
            let func = func as usize;
            let frame = entered(alloc, regs, &funcs[func], func, next_base, values, args)?;
            Ok(Next::Call {
                frame,
                next: next as usize,
                result,
            })
        }
        Planned::Return(number) => Ok(Next::Return(number)),
        Planned::Report { number, kind } => Ok(Next::Report { number, kind }),
        _ => Ok(Next::Word(at + 1)),
    }
}
