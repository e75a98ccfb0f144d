ghost use Rattle.std.specs.Prelude.{◌≡◌, ℕ, List, map, IfOk, OnOk, OnErr, IsErrOf};
ghost use Rattle.ib_base.specs.Cause.{RunCause};
ghost use Rattle.ib_run.specs.OverHost.{OverHost};
ghost use Rattle.std.specs.List.{All};
ghost use Rattle.tac_core.specs.Counts.{AreOf};
ghost use Rattle.profile.specs.Counting.{start_of};
ghost use Rattle.profile.specs.Running.{Runs, Begins};
ghost use Rattle.profile.specs.Sound.{IsSound, state_of};
ghost use Rattle.profile.specs.Tallies.{IsTallied, IsTableOf, AreTallies, taken_of};
ghost use Rattle.profile.specs.Walking.{Reported};

use crate::execution::Execution;
use crate::progress::Progress;
use crate::tallies::Tallies;
use ib_base::{Host, Outcome, RunErr};
use std::alloc::{AllocError, Global};
use tac_core::{Counts, TacProgram};

/// Runs to the end, or so many steps.
fn run_within<H: Host>(
    alloc: Global,
    run: &mut Execution,
    tallies: &mut Tallies,
    host: &mut H,
    budget: u64,
) -> Result<Outcome, RunErr>
    requires sound { IsSound run.old }
    requires start { state_of run.old ≡ start_of run.old.program }
    requires table { (input : List ℕ) → IsTallied run.old.program input 0 tallies.old }
    ensures ok { IfOk result (λ outcome. OverHost (Reported run.old.program budget outcome tallies.new) (H.world host.old) (H.world host.new)) }
    ensures shape { OnOk result (IsTableOf run.old.program.funcs tallies.new) }
    ensures broken { OnErr result (OverHost (Begins run.old.program budget) (H.world host.old) (H.world host.new)) }
    ensures cause { RunCause (H.faults host.old) (H.faults host.new) result }
    ensures still_sure { H.sure host.old → H.sure host.new }
    ensures never { H.sure host.old → IsErrOf result RunErr.Host → ⊥ }
{
    for _done in 0..budget {
        match run.step(alloc, tallies, host) {
            Ok(Progress::Going) => {}
            Ok(Progress::Done(result)) => return Ok(Outcome::Ended(result)),
            Ok(Progress::Broken { place, kind }) => return Ok(Outcome::Faulted { place, kind }),
            Err(error) => return Err(error),
        }
    }
    Ok(Outcome::Spent)
}

/// The counts of a run that came out.
fn counted(
    alloc: Global,
    tallies: &Tallies,
    outcome: Outcome,
) -> Result<(Outcome, Counts), AllocError>
    ensures outcome { IfOk result (λ run. run.0 ≡ outcome) }
    ensures counts { IfOk result (λ run. run.1 ≡ map taken_of tallies.now) }
    ensures kept { All AreTallies tallies.now }
{
    let counts = tallies.counts(alloc)?;
    Ok((outcome, counts))
}

/// Runs a program for so many steps at most, and counts how often each edge is taken and each function entered. A step is
/// an operation or the end of a block. `Spent` says that the program goes on behind the last of them.
pub fn run_counting<H: Host>(
    alloc: Global,
    tac: &TacProgram,
    host: &mut H,
    budget: u64,
) -> Result<(Outcome, Counts), RunErr>
    ensures ok { IfOk result (λ run. OverHost (Runs tac.now budget run.0 run.1) (H.world host.old) (H.world host.new)) }
    ensures counts { IfOk result (λ run. AreOf run.1 tac.now) }
    ensures broken { OnErr result (OverHost (Begins tac.now budget) (H.world host.old) (H.world host.new)) }
    ensures cause { RunCause (H.faults host.old) (H.faults host.new) result }
    ensures still_sure { H.sure host.old → H.sure host.new }
    ensures never { H.sure host.old → IsErrOf result RunErr.Host → ⊥ }
{
    let (mut run, mut tallies) = match started(alloc, tac) {
        Ok(started) => started,
        Err(error) => return Err(RunErr::from(error)),
    };
    let ran = run_within(alloc, &mut run, &mut tallies, host, budget);
    drop(run);
    match ran {
        Err(error) => Err(error),
        Ok(outcome) => match counted(alloc, &tallies, outcome) {
            Ok(run) => Ok(run),
            Err(error) => Err(RunErr::from(error)),
        },
    }
}

/// The program as it begins, with `main` entered once.
fn started<'a>(alloc: Global, tac: &'a TacProgram) -> Result<(Execution<'a>, Tallies), AllocError>
    ensures sound { IfOk result (λ it. IsSound it.0) }
    ensures program { IfOk result (λ it. it.0.program ≡ tac.now) }
    ensures state { IfOk result (λ it. state_of it.0 ≡ start_of tac.now) }
    ensures table { IfOk result (λ it. (input : List ℕ) → IsTallied tac.now input 0 it.1) }
{
    let run = Execution::start(alloc, tac)?;
    let mut tallies = Tallies::new(alloc, tac)?;
    tallies.enter(run.func());
    Ok((run, tallies))
}
