ghost use Rattle.std.specs.Prelude.{◌≡◌, true, ◌+◌, ◌<◌, ◌≤◌, ◌^◌, ◌↔◌, length, IsTrue, IsOk, IsSome, IfOk, IfSome, OnOk, OnErr, IsErrOf};
ghost use Rattle.ib_run.specs.OverHost.{OverHost};
ghost use Rattle.wide_core.specs.declared.code.Loc.TheVariants.{Reg};
ghost use Rattle.wide_sim.specs.Causes.{SimCause};
ghost use Rattle.wide_sim.specs.Frames.{ops_at};
ghost use Rattle.wide_sim.specs.Quiet.{is_quiet_word};
ghost use Rattle.wide_sim.specs.Simulation.{Begins, BreaksOff, Cycles, IsLoaded, Ran, RunBreaksOff, is_over, meaning_from, outcome_by, state_of};

use crate::callers::Callers;
use crate::frame::{Frame, fresh};
use crate::outcome::{SimErr, SimOutcome, Stepped};
use crate::planned::Planned;
use crate::start::{first_base, first_memory, number_of_main};
use crate::tick::tick;
use ib_base::Host;
use ib_mem::Memory;
use machine_desc::Machine;
use std::alloc::{AllocError, Global};
use std::marker::Model;
use wide_core::{Tagged, WideCode};

/// No machine has wider words.
const MOST_OPS: usize = 64;

/// The machine `M` with its code, at the start of a cycle or over.
#[derive(Drop)]
pub struct Sim<'a, M: Machine> {
    alloc: Global,
    code: &'a WideCode<M>,
    call: Frame,
    callers: Callers,
    memory: Memory,
    cycle: u64,
    stepped: Stepped,
    plan: Vec<Planned<'a>>,
}

impl<'a, M: Machine> Model for Sim<'a, M> {
    ghost use Rattle.std.specs.Prelude.{length};
    ghost use Rattle.wide_core.specs.Valid.{limits};
    ghost use Rattle.wide_sim.specs.Simulation.{IsSound, Simulation};

    ghost Value = { Simulation };

    ghost view = { λ sim. record {
      code = sim.code.now;
      call = sim.call;
      callers = sim.callers;
      memory = sim.memory;
      cycle = sim.cycle;
      stepped = sim.stepped;
    } };

    ghost invariant = { λ sim. IsSound (limits M.WIDTH M.REGS M.units_of) sim.code.now sim.call sim.callers (length sim.plan.items) };
}

impl<'a, M: Machine> Sim<'a, M> {
    /// A machine at the start of `main`, with its memory filled, and all registers and slots 0, clear and ready.
    pub fn load(alloc: Global, code: &'a WideCode<M>) -> Result<Sim<'a, M>, AllocError>
        ensures { IfOk result (IsLoaded M.latency_of code.now) }
    {
        let raw = code.raw();
        let funcs = raw.funcs.as_slice();
        let func = number_of_main(funcs);
        prove!(func < funcs.len());
        let main = &funcs[func];
        let image = raw.image.as_slice();
        let base = first_base(image);
        let plan = room_for_effects(alloc)?;
        let callers = Callers::new(alloc)?;
        let mut memory = first_memory(alloc, image)?;
        memory.clear(base, main.frame);
        let call = fresh(alloc, M::REGS, main, func, base)?;
        Ok(Sim {
            alloc,
            code,
            call,
            callers,
            memory,
            cycle: 0,
            stepped: Stepped::Going,
            plan,
        })
    }

    /// One cycle. A machine that is over stays as it is.
    pub fn step<H: Host>(&mut self, host: &mut H) -> Result<Stepped, SimErr>
        requires { self.old.cycle < 2 ^ 63 }
        ensures stepped { IfOk result (λ stepped. stepped ≡ self.new.stepped) }
        ensures cycle { self.old.stepped ≡ Stepped.Going → OnOk result (OverHost (Cycles M.latency_of self.old self.new) (H.world host.old) (H.world host.new)) }
        ensures counted { self.old.stepped ≡ Stepped.Going → OnOk result (self.new.cycle ≡ self.old.cycle + 1) }
        ensures over { IsTrue (is_over self.old.stepped) → IsOk result × (self.new ≡ self.old) × (H.world host.new ≡ H.world host.old) }
        ensures code { self.new.code ≡ self.old.code }
        ensures kept { OnErr result (self.new ≡ self.old) }
        ensures broken { OnErr result (OverHost (BreaksOff M.latency_of self.old) (H.world host.old) (H.world host.new)) }
        ensures quiet { is_quiet_word (ops_at self.old.code self.old.call) ≡ true → IsOk result }
        ensures cause { SimCause (H.faults host.old) (H.faults host.new) result }
        ensures still_sure { H.sure host.old → H.sure host.new }
        ensures never { H.sure host.old → IsErrOf result SimErr.HostFailed → ⊥ }
    {
        match self.stepped {
            Stepped::Going => self.go(host),
            Stepped::Ended(_) | Stepped::Reported { .. } => Ok(self.stepped),
        }
    }

    /// Cycles until the machine is over, but no more than these.
    pub fn run<H: Host>(&mut self, host: &mut H, cycles: u64) -> Result<SimOutcome, SimErr>
        requires { self.old.cycle + cycles ≤ 2 ^ 63 }
        ensures stands { IfOk result (λ outcome. outcome ≡ outcome_by self.new.stepped self.new.cycle) }
        ensures ok { self.old.stepped ≡ Stepped.Going → IfOk result (λ outcome. Ran M.latency_of outcome cycles self.old self.new (H.world host.old) (H.world host.new)) }
        ensures over { IsTrue (is_over self.old.stepped) → IsOk result × (self.new ≡ self.old) × (H.world host.new ≡ H.world host.old) }
        ensures code { self.new.code ≡ self.old.code }
        ensures broken { OnErr result (RunBreaksOff M.latency_of cycles self.old self.new (H.world host.old) (H.world host.new)) }
        ensures begins { OnErr result (OverHost (Begins (meaning_from M.latency_of self.old) cycles) (H.world host.old) (H.world host.new)) }
        ensures cause { SimCause (H.faults host.old) (H.faults host.new) result }
        ensures still_sure { H.sure host.old → H.sure host.new }
        ensures never { H.sure host.old → IsErrOf result SimErr.HostFailed → ⊥ }
    {
        if self.finished() {
            return Ok(self.outcome());
        }
        for _done in 0..cycles {
            match self.go(host) {
                Ok(_) => {}
                Err(error) => return Err(error),
            }
            if self.finished() {
                return Ok(self.outcome());
            }
        }
        Ok(self.outcome())
    }

    /// How many cycles were run since the start of `main`.
    pub fn cycle(&self) -> u64
        ensures { result ≡ self.now.cycle }
    {
        self.cycle
    }

    /// What a register of the call at hand holds, or `None` where the machine has no such register.
    pub fn reg(&self, reg: u32) -> Option<Tagged>
        ensures there { IsSome result ↔ reg < M.REGS }
        ensures value { IfSome result (λ value. value ≡ (state_of self.now).word.call.places (Reg reg)) }
    {
        self.call.values.reg(reg)
    }

    /// Whether the machine has ended or reported.
    pub fn finished(&self) -> bool
        ensures { result ≡ is_over self.now.stepped }
    {
        match self.stepped {
            Stepped::Going => false,
            Stepped::Ended(_) | Stepped::Reported { .. } => true,
        }
    }

    fn outcome(&self) -> SimOutcome
        ensures { result ≡ outcome_by self.now.stepped self.now.cycle }
    {
        match self.stepped {
            Stepped::Going => SimOutcome::Spent,
            Stepped::Ended(result) => SimOutcome::Ended {
                result,
                cycles: self.cycle,
            },
            Stepped::Reported { place, kind } => SimOutcome::Reported {
                place,
                kind,
                cycles: self.cycle,
            },
        }
    }

    /// One cycle of a machine that goes on.
    fn go<H: Host>(&mut self, host: &mut H) -> Result<Stepped, SimErr>
        requires going { self.old.stepped ≡ Stepped.Going }
        requires time { self.old.cycle < 2 ^ 63 }
        ensures stepped { IfOk result (λ stepped. stepped ≡ self.new.stepped) }
        ensures cycle { OnOk result (OverHost (Cycles M.latency_of self.old self.new) (H.world host.old) (H.world host.new)) }
        ensures counted { OnOk result (self.new.cycle ≡ self.old.cycle + 1) }
        ensures code { self.new.code ≡ self.old.code }
        ensures kept { OnErr result (self.new ≡ self.old) }
        ensures broken { OnErr result (OverHost (BreaksOff M.latency_of self.old) (H.world host.old) (H.world host.new)) }
        ensures quiet { is_quiet_word (ops_at self.old.code self.old.call) ≡ true → IsOk result }
        ensures cause { SimCause (H.faults host.old) (H.faults host.new) result }
        ensures still_sure { H.sure host.old → H.sure host.new }
        ensures never { H.sure host.old → IsErrOf result SimErr.HostFailed → ⊥ }
    {
        let code = self.code.raw();
        let stepped = match tick::<M, H>(
            host,
            self.alloc,
            self.plan.as_mut_slice(),
            code,
            &mut self.call,
            &mut self.callers,
            &mut self.memory,
            self.cycle,
        ) {
            Ok(stepped) => stepped,
            Err(error) => return Err(error),
        };
        self.cycle += 1;
        self.stepped = stepped;
        Ok(stepped)
    }
}

/// Room for what the operations of the widest word do.
fn room_for_effects<'a>(alloc: Global) -> Result<Vec<Planned<'a>>, AllocError>
    ensures { IfOk result (λ plan. length plan.items ≡ 64) }
{
    let mut plan = Vec::with_capacity(alloc, MOST_OPS)?;
    for _made in 0..MOST_OPS {
        plan.push(Planned::Idle)?;
    }
    Ok(plan)
}
