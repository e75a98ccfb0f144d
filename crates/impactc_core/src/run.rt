ghost use Rattle.std.specs.Prelude.{◌≡◌, ◌≤◌, ◌^◌, length, IfOk, IfErr, OnErr, IsErrOf, Some};
ghost use Rattle.ib_run.specs.OverHost.{OverHost};
ghost use Rattle.c_ast.specs.Cut.{AreTokens};
ghost use Rattle.c_typed.specs.Program.{Program as Typed};
ghost use Rattle.wide_core.specs.Meaning.{wide_meaning};
ghost use Rattle.first_code.specs.Made.{IsShort};
ghost use Rattle.first_form.specs.Meaning.{source_meaning};
ghost use Rattle.impactc_words.specs.declared.words.Command.{Command};
ghost use Rattle.impactc_core.specs.Answers.{WorkCause, Works};
ghost use Rattle.impactc_core.specs.RunAnswers.{HasFirstForm};
ghost use Rattle.impactc_core.specs.Runs.{BeginsOutput, RunsCode, ran_so};
ghost use Rattle.impactc_core.specs.Sources.{HasProgram, IsSource};
ghost use Rattle.impactc_core.specs.Work.{IsBreak, RefusesToRun, RunsProgram};

use crate::front::{SourceErr, program_of_tokens, tokens_of};
use crate::{CoreErr, SourceFault, Success};
use c_ast::Token;
use first_code::make;
use first_form::{Program, ReadErr, read};
use ib_base::{Host, Outcome, Place};
use impactc_words::{Command, FileName};
use machine_desc::Machine;
use std::alloc::Global;
use wide_core::WideCode;
use wide_sim::{SimErr, SimOutcome, simulate};

/// How many cycles a program may run.
const CYCLES: u64 = 100_000_000;

/// How a run is noted that may take so many cycles.
fn ran_so(most: u64, outcome: SimOutcome) -> Success
    ensures { result ≡ ran_so most outcome }
{
    match outcome {
        SimOutcome::Ended { result, cycles } => Success::Ran {
            outcome: Outcome::Ended(result),
            cycles,
        },
        SimOutcome::Reported {
            place,
            kind,
            cycles,
        } => Success::Ran {
            outcome: Outcome::Faulted { place, kind },
            cycles,
        },
        SimOutcome::Spent => Success::Ran {
            outcome: Outcome::Spent,
            cycles: most,
        },
    }
}

/// Runs code for so many cycles at most.
#[tactic(auto, using(crate::proofs::Ran::runs_code, crate::proofs::Ran::begins_output))]
fn run_code<M: Machine, H: Host>(
    alloc: Global,
    code: &WideCode<M>,
    host: &mut H,
    most: u64,
) -> Result<Success, CoreErr>
    requires some { 1 ≤ most }
    requires few { most ≤ 2 ^ 63 }
    ensures ran { IfOk result (λ success. RunsCode (wide_meaning M.latency_of code.now) most success
        (H.world host.old) (H.world host.new)) }
    ensures broke { IfErr result IsBreak }
    ensures printed { OnErr result (OverHost (BeginsOutput (wide_meaning M.latency_of code.now))
        (H.world host.old) (H.world host.new)) }
    ensures cause { WorkCause (H.faults host.old) (H.faults host.new) result }
    ensures still_sure { H.sure host.old → H.sure host.new }
    ensures never { H.sure host.old → IsErrOf result CoreErr.HostFault → ⊥ }
{
    match simulate(alloc, code, host, most) {
        Ok(outcome) => Ok(ran_so(most, outcome)),
        Err(SimErr::HostFailed) => Err(CoreErr::HostFault),
        Err(SimErr::NoMemory) => Err(CoreErr::NoMemory),
    }
}

/// Compiles a program and runs it.
#[tactic(auto, using(crate::proofs::Ran::prints_nothing))]
fn run_program<H: Host>(alloc: Global, program: &Program, host: &mut H) -> Result<Success, CoreErr>
    requires { IsShort program.now }
    ensures ran { IfOk result (λ success. RunsProgram program.now success (H.world host.old)
        (H.world host.new)) }
    ensures broke { IfErr result IsBreak }
    ensures printed { OnErr result (OverHost (BeginsOutput (source_meaning program.now))
        (H.world host.old) (H.world host.new)) }
    ensures cause { WorkCause (H.faults host.old) (H.faults host.new) result }
    ensures still_sure { H.sure host.old → H.sure host.new }
    ensures never { H.sure host.old → IsErrOf result CoreErr.HostFault → ⊥ }
{
    match make(alloc, program) {
        Ok(code) => run_code(alloc, &code, host, CYCLES),
        Err(_) => Err(CoreErr::NoMemory),
    }
}

/// The program of a typed source that is in the first form: it is asked of the tokens still, not of the tree.
#[tactic(auto, using(crate::proofs::Forms::has_first_form, crate::proofs::Forms::short_program, crate::proofs::Forms::refuses_to_run))]
fn read_form(alloc: Global, bytes: &[u8], tokens: &[Token]) -> Result<Program, SourceErr>
    requires cut { AreTokens bytes.now tokens.now }
    requires typed { (meant : Typed) × HasProgram bytes.now meant }
    ensures program { IfOk result (HasFirstForm bytes.now) }
    ensures short { IfOk result IsShort }
    ensures refused { IfErr result (RefusesToRun bytes.now) }
{
    match read(alloc, bytes, tokens) {
        Ok(program) => Ok(program),
        Err(ReadErr::NotFirstForm) => Err(SourceErr::Fault {
            place: Place { line: 1, col: 1 },
            fault: SourceFault::NotInThisVersion,
        }),
        Err(ReadErr::NoMemory) => Err(SourceErr::NoMemory),
    }
}

/// The program of a source's tokens that are in the first form. Typing and its limits come first.
#[tactic(auto, using(crate::proofs::Forms::refuses_to_run, crate::proofs::Forms::has_some_program))]
fn form_of_tokens(alloc: Global, bytes: &[u8], tokens: &[Token]) -> Result<Program, SourceErr>
    requires limit { length bytes.now ≤ 1048576 }
    requires cut { AreTokens bytes.now tokens.now }
    ensures program { IfOk result (HasFirstForm bytes.now) }
    ensures short { IfOk result IsShort }
    ensures refused { IfErr result (RefusesToRun bytes.now) }
{
    match program_of_tokens(alloc, bytes, tokens) {
        Ok(_) => read_form(alloc, bytes, tokens),
        Err(refusal) => Err(refusal),
    }
}

/// The program of a source in the first form.
#[tactic(auto, using(crate::proofs::Forms::refuses_to_run))]
fn form_of(alloc: Global, bytes: &[u8]) -> Result<Program, SourceErr>
    requires { length bytes.now ≤ 1048576 }
    ensures program { IfOk result (HasFirstForm bytes.now) }
    ensures short { IfOk result IsShort }
    ensures refused { IfErr result (RefusesToRun bytes.now) }
{
    match tokens_of(alloc, bytes) {
        Ok(tokens) => form_of_tokens(alloc, bytes, tokens.as_slice()),
        Err(refusal) => Err(refusal),
    }
}

/// The work of `run F` on the source of F.
#[tactic(auto, using(crate::proofs::Working::works_refused, crate::proofs::Refusing::no_host_fault))]
pub fn run<H: Host>(
    alloc: Global,
    file: FileName,
    bytes: &[u8],
    host: &mut H,
) -> Result<Success, CoreErr>
    requires { IsSource file (H.world host.old) bytes.now }
    ensures works { Works (Some (Command.Run file)) result (H.world host.old) (H.world host.new) }
    ensures cause { WorkCause (H.faults host.old) (H.faults host.new) result }
    ensures still_sure { H.sure host.old → H.sure host.new }
    ensures never { H.sure host.old → IsErrOf result CoreErr.HostFault → ⊥ }
{
    match form_of(alloc, bytes) {
        Ok(program) => run_program(alloc, &program, host),
        Err(refusal) => Err(refusal.of_file(file)),
    }
}
