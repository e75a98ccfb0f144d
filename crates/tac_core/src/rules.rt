ghost use Rattle.std.specs.Prelude.{◌≡◌, ◌≢◌, ◌<◌, ◌↔◌, IsTrue, length};
ghost use Rattle.std.specs.List.{All, AllPairs, Any};
ghost use Rattle.tac_core.specs.Rules.{IsRegister, IsGoodAct, IsGoodOp, IsTarget, Takes, IsGoodEnd};

use crate::code::{End, TacFunc, TacOp};
use ib_act::Act;

fn is_register(regs: u32, register: Option<u32>) -> bool
    ensures { IsTrue result ↔ IsRegister regs register }
{
    match register {
        None => true,
        Some(register) => register < regs,
    }
}

fn is_good_act(regs: u32, act: Act) -> bool
    ensures { IsTrue result ↔ IsGoodAct regs act }
{
    is_register(regs, act.target())
        && is_register(regs, act.first_source())
        && is_register(regs, act.second_source())
        && act.has_good_number()
}

pub fn is_good_op(regs: u32, places: usize, op: &TacOp) -> bool
    ensures { IsTrue result ↔ IsGoodOp regs places op.now }
{
    (op.stmt as usize) < places && is_good_act(regs, op.act)
}

fn is_target(blocks: usize, label: u32) -> bool
    ensures { IsTrue result ↔ IsTarget blocks label }
{
    0 < label && (label as usize) < blocks
}

fn takes(funcs: &[TacFunc], func: u32, count: usize) -> bool
    ensures { IsTrue result ↔ Takes funcs.now func count }
{
    match sqlite_items::at(funcs, func as usize) {
        None => false,
        Some(callee) => callee.params.len() == count,
    }
}

pub fn are_registers(regs: u32, list: &[u32]) -> bool
    ensures { IsTrue result ↔ All (λ r. r < regs) list.now }
{
    list.iter().all(|register| *register < regs)
}

fn is_good_branch(regs: u32, blocks: usize, reg: u32, yes: u32, no: u32) -> bool
    ensures { IsTrue result ↔ ((reg < regs) × IsTarget blocks yes × IsTarget blocks no × (yes ≢ no)) }
{
    reg < regs && is_target(blocks, yes) && is_target(blocks, no) && yes != no
}

pub fn is_good_end(regs: u32, blocks: usize, funcs: &[TacFunc], end: &End) -> bool
    ensures { IsTrue result ↔ IsGoodEnd regs blocks funcs.now end.now }
{
    match end {
        End::Jump(label) => is_target(blocks, *label),
        End::Branch { reg, yes, no } => is_good_branch(regs, blocks, *reg, *yes, *no),
        End::Call {
            dest,
            func,
            args,
            next,
        } => {
            is_register(regs, *dest)
                && are_registers(regs, args.list())
                && is_target(blocks, *next)
                && takes(funcs, *func, args.list().len())
        }
        End::Ret(reg) => is_register(regs, *reg),
    }
}
