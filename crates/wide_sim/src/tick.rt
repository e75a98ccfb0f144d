ghost use Rattle.std.specs.Prelude.{◌≡◌, ℕ, ◌+◌, ◌<◌, ◌^◌, false, length, true, IfOk, IsOk, OnErr, IsErrOf};
ghost use Rattle.ib_run.specs.OverHost.{OverHost};
ghost use Rattle.wide_core.specs.Cycle.{any_late};
ghost use Rattle.wide_core.specs.Valid.{limits};
ghost use Rattle.wide_sim.specs.Advance.{standing};
ghost use Rattle.wide_sim.specs.Causes.{SimCause};
ghost use Rattle.wide_sim.specs.Frames.{FrameFits, ops_at};
ghost use Rattle.wide_sim.specs.Quiet.{is_quiet_word};
ghost use Rattle.wide_sim.specs.Simulation.{BreaksOff, Cycles, IsSound, going_at, sim_of};
ghost use Rattle.wide_sim.specs.Site.{site_of};
ghost use Rattle.wide_sim.specs.Store.{held};

use crate::advance::advance;
use crate::at_hand::{next_base, ops_at_hand};
use crate::callers::Callers;
use crate::cycle::{Behind, do_word};
use crate::frame::Frame;
use crate::outcome::{SimErr, Stepped};
use crate::planned::Planned;
use crate::site::Site;
use crate::times::{any_late, set_times};
use ib_base::Host;
use ib_mem::Memory;
use machine_desc::Machine;
use std::alloc::Global;
use wide_core::{RawCode, WideOp};

/// The word at hand waits, or is done. After an error nothing has changed.
pub(crate) fn tick<'a, M: Machine, H: Host>(
    host: &mut H,
    alloc: Global,
    plan: &mut [Planned<'a>],
    code: &'a RawCode,
    call: &mut Frame,
    callers: &mut Callers,
    memory: &mut Memory,
    cycle: u64,
) -> Result<Stepped, SimErr>
    requires sound { IsSound (limits M.WIDTH M.REGS M.units_of) code.now call.old callers.old (length plan.old) }
    requires time { cycle < 2 ^ 63 }
    ensures ok { IfOk result (λ stepped. OverHost (Cycles M.latency_of (going_at code.now call.old callers.old memory.old cycle) (sim_of code.now (standing call.new callers.new memory.new stepped) (cycle + 1))) (H.world host.old) (H.world host.new)) }
    ensures sound { IsSound (limits M.WIDTH M.REGS M.units_of) code.now call.new callers.new (length plan.new) }
    ensures call_kept { OnErr result (call.new ≡ call.old) }
    ensures callers_kept { OnErr result (callers.new ≡ callers.old) }
    ensures memory_kept { OnErr result (memory.new ≡ memory.old) }
    ensures broken { OnErr result (OverHost (BreaksOff M.latency_of (going_at code.now call.old callers.old memory.old cycle)) (H.world host.old) (H.world host.new)) }
    ensures quiet { is_quiet_word (ops_at code.now call.old) ≡ true → IsOk result }
    ensures cause { SimCause (H.faults host.old) (H.faults host.new) result }
    ensures still_sure { H.sure host.old → H.sure host.new }
    ensures never { H.sure host.old → IsErrOf result SimErr.HostFailed → ⊥ }
{
    let ops = ops_at_hand(code, call);
    if any_late(&call.ready, cycle, ops) {
        Ok(Stepped::Going)
    } else {
        do_at_hand::<M, H>(host, alloc, plan, code, ops, call, callers, memory, cycle)
    }
}

/// Does the word at hand, for which nothing is late.
fn do_at_hand<'a, M: Machine, H: Host>(
    host: &mut H,
    alloc: Global,
    plan: &mut [Planned<'a>],
    code: &'a RawCode,
    ops: &'a [WideOp],
    call: &mut Frame,
    callers: &mut Callers,
    memory: &mut Memory,
    cycle: u64,
) -> Result<Stepped, SimErr>
    requires sound { IsSound (limits M.WIDTH M.REGS M.units_of) code.now call.old callers.old (length plan.old) }
    requires time { cycle < 2 ^ 63 }
    requires word { ops.now ≡ ops_at code.now call.old }
    requires more { call.old.at + 1 < 2 ^ 64 }
    requires in_time { any_late (held 0 call.old.ready) cycle ops.now ≡ false }
    ensures ok { IfOk result (λ stepped. OverHost (Cycles M.latency_of (going_at code.now call.old callers.old memory.old cycle) (sim_of code.now (standing call.new callers.new memory.new stepped) (cycle + 1))) (H.world host.old) (H.world host.new)) }
    ensures sound { IsSound (limits M.WIDTH M.REGS M.units_of) code.now call.new callers.new (length plan.new) }
    ensures call_kept { OnErr result (call.new ≡ call.old) }
    ensures callers_kept { OnErr result (callers.new ≡ callers.old) }
    ensures memory_kept { OnErr result (memory.new ≡ memory.old) }
    ensures broken { OnErr result (OverHost (BreaksOff M.latency_of (going_at code.now call.old callers.old memory.old cycle)) (H.world host.old) (H.world host.new)) }
    ensures quiet { is_quiet_word (ops_at code.now call.old) ≡ true → IsOk result }
    ensures cause { SimCause (H.faults host.old) (H.faults host.new) result }
    ensures still_sure { H.sure host.old → H.sure host.new }
    ensures never { H.sure host.old → IsErrOf result SimErr.HostFailed → ⊥ }
{
    let site = site_at(code, call, callers);
    let at = call.at;
    let behind = match do_word(host, alloc, plan, &site, at, ops, &mut call.values, memory) {
        Ok(behind) => behind,
        Err(error) => return Err(error),
    };
    let Behind { next, done } = behind;
    set_times::<M>(&mut call.ready, cycle, &ops[..done]);
    Ok(advance(code, call, callers, memory, cycle + 1, next))
}

/// Where the call at hand stands.
fn site_at<'a>(code: &'a RawCode, call: &Frame, callers: &Callers) -> Site<'a>
    requires { (regs : ℕ) × FrameFits regs code.now call.now }
    ensures { result ≡ site_of code.now call.now callers.now }
{
    Site::new(
        code.funcs.as_slice(),
        call.base,
        next_base(code, call),
        callers.len(),
    )
}
