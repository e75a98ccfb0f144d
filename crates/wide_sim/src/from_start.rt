ghost use Rattle.std.specs.Prelude.{◌≤◌, ◌^◌, IfOk, OnErr, IsErrOf};
ghost use Rattle.ib_run.specs.OverHost.{OverHost};
ghost use Rattle.wide_core.specs.Meaning.{wide_meaning};
ghost use Rattle.wide_sim.specs.Causes.{SimCause};
ghost use Rattle.wide_sim.specs.Simulation.{Begins, Simulates};

use crate::outcome::{SimErr, SimOutcome};
use crate::sim::Sim;
use ib_base::Host;
use machine_desc::Machine;
use std::alloc::Global;
use wide_core::WideCode;

/// Runs `main` from its start until it is over, but for no more than these cycles.
pub fn simulate<M: Machine, H: Host>(
    alloc: Global,
    code: &WideCode<M>,
    host: &mut H,
    cycles: u64,
) -> Result<SimOutcome, SimErr>
    requires { cycles ≤ 2 ^ 63 }
    ensures ok { IfOk result (λ outcome. OverHost (Simulates (wide_meaning M.latency_of code.now) cycles outcome) (H.world host.old) (H.world host.new)) }
    ensures broken { OnErr result (OverHost (Begins (wide_meaning M.latency_of code.now) cycles) (H.world host.old) (H.world host.new)) }
    ensures cause { SimCause (H.faults host.old) (H.faults host.new) result }
    ensures still_sure { H.sure host.old → H.sure host.new }
    ensures never { H.sure host.old → IsErrOf result SimErr.HostFailed → ⊥ }
{
    match Sim::load(alloc, code) {
        Ok(mut sim) => sim.run(host, cycles),
        Err(_) => Err(SimErr::NoMemory),
    }
}
