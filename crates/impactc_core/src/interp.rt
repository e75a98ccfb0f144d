ghost use Rattle.std.specs.Prelude.{◌≡◌, IfOk, IfErr, OnErr, IsErrOf, Some};
ghost use Rattle.ib_run.specs.OverHost.{OverHost};
ghost use Rattle.c_program.specs.Checked.{program};
ghost use Rattle.c_eval.specs.Running.{Begins};
ghost use Rattle.impactc_words.specs.declared.words.Command.{Command};
ghost use Rattle.impactc_core.specs.Answers.{WorkCause, Works};
ghost use Rattle.impactc_core.specs.Sources.{IsSource};
ghost use Rattle.impactc_core.specs.Work.{Interprets, IsBreak};

use crate::front::program_of;
use crate::{CoreErr, Success};
use c_eval::interpret;
use c_program::Program;
use ib_base::{Host, RunErr};
use impactc_words::{Command, FileName};
use std::alloc::Global;

/// How many turns of loops and calls a program may take.
const BUDGET: u64 = 10_000_000;

/// Runs a program by its meaning.
#[tactic(auto, using(crate::proofs::Interpreting::interprets))]
fn interpret_program<H: Host>(
    alloc: Global,
    checked: &Program,
    host: &mut H,
) -> Result<Success, CoreErr>
    ensures means { IfOk result (λ success. Interprets (program checked.now) success
        (H.world host.old) (H.world host.new)) }
    ensures broke { IfErr result IsBreak }
    ensures printed { OnErr result (OverHost (Begins (program checked.now) 10000000)
        (H.world host.old) (H.world host.new)) }
    ensures cause { WorkCause (H.faults host.old) (H.faults host.new) result }
    ensures still_sure { H.sure host.old → H.sure host.new }
    ensures never { H.sure host.old → IsErrOf result CoreErr.HostFault → ⊥ }
{
    match interpret(alloc, checked, host, BUDGET) {
        Ok(outcome) => Ok(Success::Interpreted(outcome)),
        Err(RunErr::Host) => Err(CoreErr::HostFault),
        Err(RunErr::NoMemory) => Err(CoreErr::NoMemory),
    }
}

/// The work of `interp F` on the source of F.
#[tactic(auto, using(crate::proofs::Refusing::works_refused, crate::proofs::Refusing::no_host_fault))]
pub fn interp<H: Host>(
    alloc: Global,
    file: FileName,
    bytes: &[u8],
    host: &mut H,
) -> Result<Success, CoreErr>
    requires { IsSource file (H.world host.old) bytes.now }
    ensures works { Works (Some (Command.Interp file)) result (H.world host.old) (H.world host.new) }
    ensures cause { WorkCause (H.faults host.old) (H.faults host.new) result }
    ensures still_sure { H.sure host.old → H.sure host.new }
    ensures never { H.sure host.old → IsErrOf result CoreErr.HostFault → ⊥ }
{
    match program_of(alloc, bytes) {
        Ok(checked) => interpret_program(alloc, &checked, host),
        Err(refusal) => Err(refusal.of_file(file)),
    }
}
