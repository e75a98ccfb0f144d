ghost use Rattle.std.specs.Prelude.{◌≡◌, ◌≤◌, true, pos, length, map, take};
ghost use Rattle.std.specs.List.{list_all};
ghost use Rattle.wide_core.specs.Word.{effects};
ghost use Rattle.wide_sim.specs.Effects.{before_report, is_report, memory_after, places_after, stored_by, turn_after, written};
ghost use Rattle.wide_sim.specs.Fits.{op_fits, planned_fits};
ghost use Rattle.wide_sim.specs.Next.{has_args};
ghost use Rattle.wide_sim.specs.Planned.{effect_of};
ghost use Rattle.wide_sim.specs.Quiet.{is_quiet_plan, is_quiet_word};
ghost use Rattle.wide_sim.specs.Site.{around};
ghost use Rattle.wide_sim.specs.Store.{held};

use crate::plan::plan_op;
use crate::planned::Planned;
use crate::site::Site;
use crate::store::Store;
use ib_act::bytes_in;
use ib_mem::Memory;
use wide_core::{Tagged, WideOp};

/// Puts the effects of a word's operations to the front of `plan`. All of them read what stands before the word.
#[tactic(auto, using(crate::proofs::Places::sources_within))]
pub(crate) fn plan_word<'a>(
    plan: &mut [Planned<'a>],
    site: &Site,
    memory: &Memory,
    values: &Store<Tagged>,
    ops: &'a [WideOp],
)
    requires room { length ops.now ≤ length plan.old }
    requires fit { list_all (op_fits (length values.now.regs) (length values.now.slots)) ops.now ≡ true }
    ensures effects { map (effect_of (held (Tagged.Clear (pos 0)) values.now)) (take (length ops.now) plan.new) ≡ effects (around site.now memory.now) (held (Tagged.Clear (pos 0)) values.now) ops.now }
    ensures args { list_all (has_args (length values.now.regs) (length values.now.slots)) (take (length ops.now) plan.new) ≡ true }
    ensures quiet { is_quiet_word ops.now ≡ true → list_all is_quiet_plan (take (length ops.now) plan.new) ≡ true }
    ensures len { length plan.new ≡ length plan.old }
{
    for (i, op) in ops.iter().enumerate() {
        plan[i] = plan_op(site, memory, values, op);
    }
}

/// Where control goes behind these effects.
pub(crate) fn turn_of<'a>(plan: &[Planned<'a>]) -> Planned<'a>
    ensures { result ≡ turn_after Planned.Idle plan.now }
{
    let mut turn = Planned::Idle;
    for effect in plan {
        match effect {
            Planned::Report { .. } => return *effect,
            Planned::Jump { .. } | Planned::Call { .. } | Planned::Return(_) => turn = *effect,
            _ => {}
        }
    }
    turn
}

/// How many effects stand before the first report.
pub(crate) fn before_report(plan: &[Planned]) -> usize
    ensures before { take result plan.now ≡ before_report plan.now }
    ensures within { result ≤ length plan.now }
{
    for (i, effect) in plan.iter().enumerate() {
        if is_report(effect) {
            return i;
        }
    }
    plan.len()
}

fn is_report(effect: &Planned) -> bool
    ensures { result ≡ is_report effect.now }
{
    match effect {
        Planned::Report { .. } => true,
        _ => false,
    }
}

/// Writes what the effects write.
pub(crate) fn write_effects(values: &mut Store<Tagged>, memory: &mut Memory, plan: &[Planned])
    requires { list_all (planned_fits (length values.old.regs) (length values.old.slots)) plan.now ≡ true }
    ensures places { held (Tagged.Clear (pos 0)) values.new ≡ places_after plan.now (held (Tagged.Clear (pos 0)) values.old) }
    ensures memory { memory.new ≡ memory_after plan.now memory.old }
    ensures regs { length values.new.regs ≡ length values.old.regs }
    ensures slots { length values.new.slots ≡ length values.old.slots }
{
    for effect in plan {
        write_effect(values, memory, effect);
    }
}

#[tactic(auto, using(crate::proofs::Places::held_put))]
fn write_effect(values: &mut Store<Tagged>, memory: &mut Memory, effect: &Planned)
    requires { planned_fits (length values.old.regs) (length values.old.slots) effect.now ≡ true }
    ensures places { held (Tagged.Clear (pos 0)) values.new ≡ written effect.now (held (Tagged.Clear (pos 0)) values.old) }
    ensures memory { memory.new ≡ stored_by effect.now memory.old }
    ensures regs { length values.new.regs ≡ length values.old.regs }
    ensures slots { length values.new.slots ≡ length values.old.slots }
{
    match effect {
        Planned::Write { to, value } => values.set(*to, *value),
        Planned::Save {
            width,
            address,
            value,
        } => {
            memory.store(*address, bytes_in(*width), value.cast_unsigned());
        }
        _ => {}
    }
}
