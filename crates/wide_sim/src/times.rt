ghost use Rattle.std.specs.Prelude.{◌≡◌, ◌+◌, ◌<◌, nat_lt, ◌^◌, true, length, map};
ghost use Rattle.std.specs.List.{list_all, list_any};
ghost use Rattle.wide_core.specs.Classes.{class_of};
ghost use Rattle.wide_core.specs.Cycle.{any_late, is_late, target_if, times_after};
ghost use Rattle.wide_core.specs.Operation.{reg_if, sources, target};
ghost use Rattle.wide_core.specs.Places.{put_if};
ghost use Rattle.wide_core.specs.Valid.{is_within};
ghost use Rattle.wide_sim.specs.Fits.{op_fits};
ghost use Rattle.wide_sim.specs.Store.{held, holds};

use crate::ready::Ready;
use machine_desc::Machine;
use wide_core::{Loc, WideAct, WideOp};

/// Whether something that the word touches is ready later than now.
#[tactic(auto, using(crate::proofs::Late::none_late))]
pub(crate) fn any_late(ready: &Ready, now: u64, ops: &[WideOp]) -> bool
    requires { list_all (op_fits (length ready.now.regs) (length ready.now.slots)) ops.now ≡ true }
    ensures { result ≡ any_late (held 0 ready.now) now ops.now }
{
    if ready.are_by(now) {
        return false;
    }
    for op in ops {
        if is_late(ready, now, op) {
            return true;
        }
    }
    false
}

#[tactic(auto, using(crate::proofs::Places::sources_within, crate::proofs::Late::late_parts))]
fn is_late(ready: &Ready, now: u64, op: &WideOp) -> bool
    requires { op_fits (length ready.now.regs) (length ready.now.slots) op.now ≡ true }
    ensures { result ≡ is_late (held 0 ready.now) now op.now }
{
    target_late(ready, now, op.act.target()) || sources_late(ready, now, &op.act)
}

fn late(ready: &Ready, now: u64, loc: Loc) -> bool
    requires { holds ready.now loc ≡ true }
    ensures { result ≡ nat_lt now (held 0 ready.now loc) }
{
    now < ready.get(loc)
}

fn target_late(ready: &Ready, now: u64, loc: Option<Loc>) -> bool
    requires { list_all (is_within (length ready.now.regs) (length ready.now.slots)) (target_if loc) ≡ true }
    ensures { result ≡ list_any (λ loc. nat_lt now (held 0 ready.now loc)) (target_if loc) }
{
    match loc {
        Some(loc) => late(ready, now, loc),
        None => false,
    }
}

fn reg_late(ready: &Ready, now: u64, reg: Option<u32>) -> bool
    requires { list_all (is_within (length ready.now.regs) (length ready.now.slots)) (reg_if reg) ≡ true }
    ensures { result ≡ list_any (λ loc. nat_lt now (held 0 ready.now loc)) (reg_if reg) }
{
    match reg {
        Some(reg) => late(ready, now, Loc::Reg(reg)),
        None => false,
    }
}

fn args_late(ready: &Ready, now: u64, args: &[u32]) -> bool
    requires { list_all (is_within (length ready.now.regs) (length ready.now.slots)) (map (λ r. Loc.Reg r) args.now) ≡ true }
    ensures { result ≡ list_any (λ loc. nat_lt now (held 0 ready.now loc)) (map (λ r. Loc.Reg r) args.now) }
{
    for arg in args {
        if late(ready, now, Loc::Reg(*arg)) {
            return true;
        }
    }
    false
}

fn sources_late(ready: &Ready, now: u64, act: &WideAct) -> bool
    requires { list_all (is_within (length ready.now.regs) (length ready.now.slots)) (sources act.now) ≡ true }
    ensures { result ≡ list_any (λ loc. nat_lt now (held 0 ready.now loc)) (sources act.now) }
{
    match act {
        WideAct::Do(act) => {
            reg_late(ready, now, act.first_source()) || reg_late(ready, now, act.second_source())
        }
        WideAct::Spill { from, .. } => late(ready, now, Loc::Reg(*from)),
        WideAct::Reload { from, .. } => late(ready, now, Loc::Slot(*from)),
        WideAct::Check { from } => late(ready, now, Loc::Reg(*from)),
        WideAct::Jump { .. } => false,
        WideAct::Branch { from, .. } => late(ready, now, Loc::Reg(*from)),
        WideAct::BranchZero { from, .. } => late(ready, now, Loc::Reg(*from)),
        WideAct::Call { args, .. } => args_late(ready, now, args.as_slice()),
        WideAct::Return(from) => reg_late(ready, now, *from),
    }
}

/// Sets the times at which what the operations write is ready.
pub(crate) fn set_times<M: Machine>(ready: &mut Ready, now: u64, ops: &[WideOp])
    requires fit { list_all (op_fits (length ready.old.regs) (length ready.old.slots)) ops.now ≡ true }
    requires time { now < 2 ^ 63 }
    ensures times { held 0 ready.new ≡ times_after M.latency_of now ops.now (held 0 ready.old) }
    ensures regs { length ready.new.regs ≡ length ready.old.regs }
    ensures slots { length ready.new.slots ≡ length ready.old.slots }
{
    for op in ops {
        set_time::<M>(ready, now, op);
    }
}

#[tactic(auto, using(crate::proofs::Places::target_within, crate::proofs::Places::held_put))]
fn set_time<M: Machine>(ready: &mut Ready, now: u64, op: &WideOp)
    requires fits { op_fits (length ready.old.regs) (length ready.old.slots) op.now ≡ true }
    requires time { now < 2 ^ 63 }
    ensures times { held 0 ready.new ≡ put_if (target op.now.act) (now + M.latency_of (class_of op.now.act)) (held 0 ready.old) }
    ensures regs { length ready.new.regs ≡ length ready.old.regs }
    ensures slots { length ready.new.slots ≡ length ready.old.slots }
{
    match op.act.target() {
        Some(to) => ready.set(to, now + M::latency(op.act.class())),
        None => {}
    }
}
