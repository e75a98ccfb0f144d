ghost use Rattle.std.specs.Prelude.{◌≡◌, ◌≤◌, ◌+◌, length, map, codes, bytes_eq, slice_get, Some, IfOk, OnErr, IsErrOf};
ghost use Rattle.std.specs.List.{All};
ghost use Rattle.ib_base.specs.Cause.{RunCause};
ghost use Rattle.ib_run.specs.OverHost.{OverHost};
ghost use Rattle.c_typed.specs.Program.{main_in, first_frame};
ghost use Rattle.c_typed.specs.Views.{function_of};
ghost use Rattle.c_meaning.specs.Meaning.{first_memory};
ghost use Rattle.c_program.specs.Checked as c;
ghost use Rattle.c_eval.specs.Machines.{machine_of};
ghost use Rattle.c_eval.specs.Programs.{program_of};
ghost use Rattle.c_eval.specs.Moves as m;
ghost use Rattle.c_eval.specs.Running.{MeansSo, Begins, Came, CameBegun, move_run};
ghost use Rattle.c_eval.specs.Views.{move_of};

use crate::arguments::Arguments;
use crate::calls::zeros;
use crate::frame::{Halt, Move};
use crate::machine::Machine;
use crate::source::Source;
use c_program::Program;
use c_typed::Function;
use ib_base::{Host, Outcome, RunErr};
use ib_mem::Memory;
use ib_run::Stack;
use sqlite_items::Items;
use std::alloc::{AllocError, Global};

/// Where the image lies.
const IMAGE: u32 = 4096;

fn is_main(function: &Function) -> bool
    ensures { result ≡ bytes_eq (codes "main") function.now.name }
{
    function.name.list() == b"main".as_slice()
}

/// The number of the first function `main`, or how many functions there are.
fn number_of_main(functions: &[Function]) -> usize
    ensures { result ≡ main_in (map (λ f. f.name) functions.now) }
{
    for (i, function) in functions.iter().enumerate() {
        if is_main(function) {
            return i;
        }
    }
    functions.len()
}

/// The memory with the image, and zeros behind it.
#[tactic(auto, unfolding(c_meaning::specs::Meaning::first_memory))]
fn first_memory(alloc: Global, image: &[u8]) -> Result<Memory, AllocError>
    requires { length image.now ≤ 524288 }
    ensures { IfOk result (λ memory. memory ≡ first_memory image.now) }
{
    let mut memory = Memory::new(alloc)?;
    memory.fill(IMAGE, image);
    Ok(memory)
}

/// Where the first frame begins: behind the image, at a multiple of 16.
fn first_frame(source: &Source) -> u32
    requires { length source.now.image.now ≤ 524288 }
    ensures value { result ≡ first_frame (program_of source.now) }
    ensures small { result ≤ 528384 }
{
    let len = source.image.len() as u32;
    IMAGE + 16 * ((len + 15) / 16)
}

/// A run before the start of `main`, in the first frame.
fn before_main<'a>(alloc: Global, source: &Source<'a>) -> Result<Machine<'a>, AllocError>
    requires { length source.now.image.now ≤ 524288 }
    ensures before { IfOk result (λ it. machine_of it ≡ m.before_main (program_of source.now)) }
    ensures low { IfOk result (λ it. (machine_of it).top ≤ 786432) }
{
    let base = first_frame(source);
    let memory = first_memory(alloc, source.image)?;
    Ok(Machine {
        frames: Stack::new(alloc),
        arguments: Arguments::new(alloc),
        depth: 0,
        base,
        top: base,
        slots: Items::new(alloc),
        memory,
    })
}

/// Begins a function in the first frame.
fn begin<'a>(
    alloc: Global,
    machine: &mut Machine<'a>,
    function: &'a Function,
) -> Result<Move<'a>, AllocError>
    requires few { (machine_of machine.old).depth ≡ 0 }
    requires fits { (machine_of machine.old).top + function.now.frame ≤ 1048576 }
    ensures { IfOk result (λ r. move_of r (machine_of machine.new) ≡ m.begun_at (Some (function_of function.now)) (machine_of machine.old)) }
{
    machine.slots = zeros(alloc, function.slots)?;
    machine.open(function);
    machine.rest_first(function.body.as_slice())
}

/// Begins the function with this number, if there is one.
fn begin_at<'a>(
    alloc: Global,
    functions: &'a [Function],
    main: usize,
    machine: &mut Machine<'a>,
) -> Result<Move<'a>, AllocError>
    requires few { (machine_of machine.old).depth ≡ 0 }
    requires low { (machine_of machine.old).top ≤ 786432 }
    requires frames { All (λ f. f.frame ≤ 262144) functions.now }
    ensures { IfOk result (λ r. move_of r (machine_of machine.new) ≡ m.begun_at (slice_get (map function_of functions.now) main) (machine_of machine.old)) }
{
    let Some(function) = functions.get(main) else {
        return Ok(Move::Stops);
    };
    begin(alloc, machine, function)
}

/// Begins the first function `main`.
fn start<'a>(
    alloc: Global,
    source: &Source<'a>,
    machine: &mut Machine<'a>,
) -> Result<Move<'a>, AllocError>
    requires low { (machine_of machine.old).top ≤ 786432 }
    requires frames { All (λ f. f.frame ≤ 262144) source.now.functions.now }
    requires before { machine_of machine.old ≡ m.before_main (program_of source.now) }
    ensures { IfOk result (λ r. move_of r (machine_of machine.new) ≡ m.started (program_of source.now)) }
{
    begin_at(
        alloc,
        source.functions,
        number_of_main(source.functions),
        machine,
    )
}

/// Goes on until the run is over or so many units of the budget are spent.
fn run_within<'a, H: Host>(
    alloc: Global,
    source: &Source<'a>,
    machine: &mut Machine<'a>,
    first: Move<'a>,
    host: &mut H,
    budget: u64,
) -> Result<Outcome, RunErr>
    ensures ok { IfOk result (λ outcome. OverHost (Came (move_run (program_of source.now) (move_of first.entry (machine_of machine.old))) budget outcome) (H.world host.old) (H.world host.new)) }
    ensures broken { OnErr result (OverHost (CameBegun (move_run (program_of source.now) (move_of first.entry (machine_of machine.old))) budget) (H.world host.old) (H.world host.new)) }
    ensures cause { RunCause (H.faults host.old) (H.faults host.new) result }
    ensures still_sure { H.sure host.old → H.sure host.new }
    ensures never { H.sure host.old → IsErrOf result RunErr.Host → ⊥ }
{
    let mut at = match machine.go_on(source, first, host) {
        Ok(halt) => halt,
        Err(error) => return Err(error),
    };
    for _spent in 0..budget {
        match at {
            Halt::Over { outcome } => return Ok(outcome),
            Halt::Wants { want } => match machine.go_on_behind(alloc, source, want, host) {
                Ok(halt) => at = halt,
                Err(error) => return Err(error),
            },
        }
    }
    match at {
        Halt::Over { outcome } => Ok(outcome),
        Halt::Wants { .. } => Ok(Outcome::Spent),
    }
}

/// Runs a program as it stands. A unit of the budget is spent at the start of each turn of a loop, and at each call of a
/// function of the source. `Spent` says that one more was needed.
pub fn interpret<H: Host>(
    alloc: Global,
    program: &Program,
    host: &mut H,
    budget: u64,
) -> Result<Outcome, RunErr>
    ensures ok { IfOk result (λ outcome. OverHost (MeansSo (c.program program.now) budget outcome) (H.world host.old) (H.world host.new)) }
    ensures broken { OnErr result (OverHost (Begins (c.program program.now) budget) (H.world host.old) (H.world host.new)) }
    ensures cause { RunCause (H.faults host.old) (H.faults host.new) result }
    ensures still_sure { H.sure host.old → H.sure host.new }
    ensures never { H.sure host.old → IsErrOf result RunErr.Host → ⊥ }
{
    let source = Source::new(program);
    run(alloc, &source, host, budget)
}

/// Runs what a program's parts say.
fn run<H: Host>(
    alloc: Global,
    source: &Source,
    host: &mut H,
    budget: u64,
) -> Result<Outcome, RunErr>
    requires image { length source.now.image.now ≤ 524288 }
    requires frames { All (λ f. f.frame ≤ 262144) source.now.functions.now }
    ensures ok { IfOk result (λ outcome. OverHost (MeansSo (program_of source.now) budget outcome) (H.world host.old) (H.world host.new)) }
    ensures broken { OnErr result (OverHost (Begins (program_of source.now) budget) (H.world host.old) (H.world host.new)) }
    ensures cause { RunCause (H.faults host.old) (H.faults host.new) result }
    ensures still_sure { H.sure host.old → H.sure host.new }
    ensures never { H.sure host.old → IsErrOf result RunErr.Host → ⊥ }
{
    match started(alloc, source) {
        Ok(started) => {
            let (mut machine, first) = started;
            let outcome = run_within(alloc, source, &mut machine, first, host, budget);
            drop(machine);
            outcome
        }
        Err(error) => Err(RunErr::from(error)),
    }
}

/// A run, and the first move of `main`.
fn started<'a>(alloc: Global, source: &Source<'a>) -> Result<(Machine<'a>, Move<'a>), AllocError>
    requires image { length source.now.image.now ≤ 524288 }
    requires frames { All (λ f. f.frame ≤ 262144) source.now.functions.now }
    ensures { IfOk result (λ it. move_of it.1 (machine_of it.0) ≡ m.started (program_of source.now)) }
{
    let mut machine = before_main(alloc, source)?;
    match start(alloc, source, &mut machine) {
        Ok(first) => Ok((machine, first)),
        Err(error) => {
            drop(machine);
            Err(error)
        }
    }
}
