//! Tries what stands on three-address programs: it runs a loop with two budgets and prints its profiles, and times the
//! calls at the greatest sizes that lowering makes. Times go to the standard error.
#![tactic(auto)]

ghost use Rattle.tac_core.specs.Counts.{AreOf};

mod large;
mod programs;
mod timed;

use crate::programs::{calls_without_end, counting_loop};
use ib_base::{MemHost, Outcome};
use profile::run_counting;
use profile_text::print_profile;
use std::io;
use tac_core::{Counts, TacProgram};

/// What was tried did not come out as it should.
fn wrong() -> io::Error {
    io::Error::from(io::ErrorKind::InvalidData)
}

fn show_profile(rt: &HostRuntime, tac: &TacProgram, counts: &Counts) -> io::Result<()>
    requires { AreOf counts.now tac.now }
{
    let text = print_profile(rt.alloc(), tac, counts)?;
    print!(rt; "{}", String::from_utf8_lossy(rt.alloc(), text.as_slice())?)
}

fn show_outcome(rt: &HostRuntime, budget: u64, outcome: Outcome) -> io::Result<()> {
    match outcome {
        Outcome::Ended(result) => println!(rt; "budget {budget}: ended {result}"),
        Outcome::Faulted { .. } => println!(rt; "budget {budget}: a fault"),
        Outcome::Spent => println!(rt; "budget {budget}: spent"),
    }
}

/// Runs a program, and prints how it came out and the profile.
fn show_run(rt: &HostRuntime, tac: &TacProgram, budget: u64) -> io::Result<()> {
    let mut host = MemHost::new(rt.alloc(), b"")?;
    show_run_over(rt, tac, budget, &mut host)
}

fn show_run_over(
    rt: &HostRuntime,
    tac: &TacProgram,
    budget: u64,
    host: &mut MemHost,
) -> io::Result<()> {
    let Ok((outcome, counts)) = run_counting(rt.alloc(), tac, host, budget) else {
        return Err(wrong());
    };
    show_outcome(rt, budget, outcome)?;
    show_profile(rt, tac, &counts)
}

fn show_loop(rt: &HostRuntime) -> io::Result<()> {
    let tac = counting_loop(rt.alloc(), 3)?.ok_or(wrong())?;
    show_budgets(rt, &tac)
}

/// Shows the loop with the budget that it needs, and with one less.
fn show_budgets(rt: &HostRuntime, tac: &TacProgram) -> io::Result<()> {
    show_run(rt, tac, 14)?;
    show_run(rt, tac, 13)
}

fn time_loop(rt: &HostRuntime) -> io::Result<()> {
    let turns = counting_loop(rt.alloc(), 2_000_000_000)?.ok_or(wrong())?;
    timed::steps(rt, "a small loop", &turns)
}

fn time_calls(rt: &HostRuntime) -> io::Result<()> {
    let calls = calls_without_end(rt.alloc())?.ok_or(wrong())?;
    timed::steps(rt, "a loop of calls", &calls)
}

fn main(rt: HostRuntime) -> io::Result<()> {
    show_loop(&rt)?;
    timed::sizes(&rt, 1, 200_000)?;
    timed::sizes(&rt, 1_000, 200)?;
    timed::sizes(&rt, 100_000, 2)?;
    timed::registers(&rt, 20_000)?;
    time_loop(&rt)?;
    time_calls(&rt)
}
