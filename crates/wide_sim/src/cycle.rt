ghost use Rattle.std.specs.Prelude.{◌≡◌, ◌+◌, ◌<◌, ◌≤◌, ◌^◌, ℕ, true, pos, length, slice_get, Some, IfOk, IsOk, OnErr, IsErrOf};
ghost use Rattle.machine_desc.specs.declared.machine.OpClass.TheVariants.{Io};
ghost use Rattle.std.specs.List.{list_all};
ghost use Rattle.wide_core.specs.declared.code.WideFunc.{WideFunc};
ghost use Rattle.wide_core.specs.Valid.{count_of, is_within};
ghost use Rattle.wide_core.specs.Word.{effects};
ghost use Rattle.ib_run.specs.OverHost.{OverHost};
ghost use Rattle.wide_sim.specs.Causes.{SimCause};
ghost use Rattle.wide_sim.specs.Cycles.{Breaks, Does, scope_at};
ghost use Rattle.wide_sim.specs.EffectFits.{effect_fits};
ghost use Rattle.wide_sim.specs.Fits.{op_fits};
ghost use Rattle.wide_sim.specs.Quiet.{is_quiet_word};
ghost use Rattle.wide_sim.specs.Site.{around, room_at};
ghost use Rattle.wide_sim.specs.Store.{held};

use crate::ask::ask;
use crate::next::{Next, prepare};
use crate::outcome::SimErr;
use crate::planned::Planned;
use crate::site::Site;
use crate::store::Store;
use crate::word::{before_report, plan_word, turn_of, write_effects};
use ib_base::Host;
use ib_mem::Memory;
use std::alloc::Global;
use wide_core::{Tagged, WideOp};

/// What a word leaves: where control goes, and how many of its operations were done.
#[derive(Drop)]
pub struct Behind {
    pub next: Next,
    pub done: usize,
}

/// Does a word. After an error nothing is written.
pub(crate) fn do_word<'a, H: Host>(
    host: &mut H,
    alloc: Global,
    plan: &mut [Planned<'a>],
    site: &Site,
    at: usize,
    ops: &'a [WideOp],
    values: &mut Store<Tagged>,
    memory: &mut Memory,
) -> Result<Behind, SimErr>
    requires words { at + 1 < 2 ^ 64 }
    requires room { length ops.now ≤ length plan.old }
    requires fit { list_all (op_fits (length values.old.regs) (length values.old.slots)) ops.now ≡ true }
    requires within { (words : ℕ) × (list_all (effect_fits (scope_at (length values.old.regs) (length values.old.slots) words site.now) (room_at site.now)) (effects (around site.now memory.old) (held (Tagged.Clear (pos 0)) values.old) ops.now) ≡ true) }
    requires once { count_of Io ops.now ≤ 1 }
    requires params { (f : ℕ) (func : WideFunc) → slice_get site.now.funcs f ≡ Some func → list_all (is_within (length values.old.regs) func.slots) func.params ≡ true }
    ensures ok { IfOk result (λ behind. Does (length values.old.regs) at site.now ops.now (held (Tagged.Clear (pos 0)) values.old) (held (Tagged.Clear (pos 0)) values.new) memory.old memory.new (H.world host.old) (H.world host.new) behind.next behind.done) }
    ensures done { IfOk result (λ behind. behind.done ≤ length ops.now) }
    ensures values_kept { OnErr result (values.new ≡ values.old) }
    ensures memory_kept { OnErr result (memory.new ≡ memory.old) }
    ensures broken { OnErr result (OverHost (Breaks site.now ops.now (held (Tagged.Clear (pos 0)) values.old) memory.old) (H.world host.old) (H.world host.new)) }
    ensures regs { length values.new.regs ≡ length values.old.regs }
    ensures slots { length values.new.slots ≡ length values.old.slots }
    ensures len { length plan.new ≡ length plan.old }
    ensures quiet { is_quiet_word ops.now ≡ true → IsOk result }
    ensures cause { SimCause (H.faults host.old) (H.faults host.new) result }
    ensures still_sure { H.sure host.old → H.sure host.new }
    ensures never { H.sure host.old → IsErrOf result SimErr.HostFailed → ⊥ }
{
    let regs = values.regs.len();
    plan_word(plan, site, memory, values, ops);
    let effects = &mut plan[..ops.len()];
    let turn = turn_of(effects);
    let next = match prepare(
        alloc,
        regs,
        site.funcs(),
        site.next_base(),
        at,
        values,
        turn,
    ) {
        Ok(next) => next,
        Err(_) => return Err(SimErr::NoMemory),
    };
    let count = before_report(effects);
    let effects = &mut effects[..count];
    match ask(host, effects) {
        Ok(()) => {
            write_effects(values, memory, effects);
            Ok(Behind { next, done: count })
        }
        Err(error) => {
            drop(next);
            Err(SimErr::from(error))
        }
    }
}
