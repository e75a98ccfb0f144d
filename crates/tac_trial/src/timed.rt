use crate::large::{funcs_of, main_of_registers, profile_of};
use crate::wrong;
use ib_base::{MemHost, Outcome, Place};
use profile::run_counting;
use profile_text::{print_profile, read_profile};
use std::alloc::Global;
use std::io;
use std::time::Instant;
use tac_core::{Counts, TacFunc, TacProgram};
use tac_live::live_in;

const MOST_TEXT: usize = 33_554_432;

const STEPS: u64 = 1_000_000;

fn show(rt: &HostRuntime, what: &str, start: Instant) -> io::Result<()> {
    let took = start.elapsed(rt)?;
    eprintln!(rt; "{what}: {} us", took.as_micros())
}

fn assembled(rt: &HostRuntime, list: Vec<TacFunc>) -> io::Result<TacProgram> {
    let alloc = rt.alloc();
    let places = vec![in alloc; Place { line: 1, col: 1 }]?;
    let start = Instant::now(rt)?;
    let tac = TacProgram::assemble(Vec::new(alloc), places, list);
    show(rt, "assemble", start)?;
    tac.ok_or(wrong())
}

fn read(rt: &HostRuntime, tac: &TacProgram, text: &[u8]) -> io::Result<Counts> {
    if text.len() > MOST_TEXT {
        return Err(wrong());
    }
    let start = Instant::now(rt)?;
    let counts = read_profile(rt.alloc(), text, tac);
    show(rt, "read_profile", start)?;
    match counts {
        Ok(counts) => Ok(counts),
        Err(_) => Err(wrong()),
    }
}

fn printed(rt: &HostRuntime, tac: &TacProgram, counts: &Counts) -> io::Result<Vec<u8>> {
    let start = Instant::now(rt)?;
    let matches = counts.matches(tac);
    show(rt, "matches", start)?;
    if !matches {
        return Err(wrong());
    }
    let start = Instant::now(rt)?;
    let text = print_profile(rt.alloc(), tac, counts)?;
    show(rt, "print_profile", start)?;
    Ok(text)
}

/// How a run of a million steps comes out; `None` for want of memory.
fn outcome_of(alloc: Global, tac: &TacProgram) -> Option<Outcome> {
    let mut host = MemHost::new(alloc, b"").ok()?;
    outcome_over(alloc, tac, &mut host)
}

fn outcome_over(alloc: Global, tac: &TacProgram, host: &mut MemHost) -> Option<Outcome> {
    match run_counting(alloc, tac, host, STEPS) {
        Ok((outcome, _)) => Some(outcome),
        Err(_) => None,
    }
}

/// Times a run of a million steps that does not end.
pub fn steps(rt: &HostRuntime, what: &str, tac: &TacProgram) -> io::Result<()> {
    let start = Instant::now(rt)?;
    let outcome = outcome_of(rt.alloc(), tac);
    show(rt, what, start)?;
    match outcome {
        Some(Outcome::Spent) => println!(rt; "{what}: spent after {STEPS} steps"),
        _ => Err(wrong()),
    }
}

fn is_read_back(rt: &HostRuntime, tac: &TacProgram, text: &[u8]) -> io::Result<bool> {
    let counts = read(rt, tac, text)?;
    let back = printed(rt, tac, &counts)?;
    Ok(back.as_slice() == text)
}

fn reads_back(rt: &HostRuntime, tac: &TacProgram, funcs: u32, blocks: u32) -> io::Result<()> {
    let text = profile_of(rt.alloc(), funcs, blocks)?;
    println!(rt;
        "functions {funcs}, operations {}, bytes of the profile {}",
        tac.ops(),
        text.len()
    )?;
    let same = is_read_back(rt, tac, text.as_bytes())?;
    println!(rt; "read and printed back: {same}")
}

/// Times the calls on a program of so many functions, each of so many blocks.
pub fn sizes(rt: &HostRuntime, funcs: u32, blocks: u32) -> io::Result<()> {
    let tac = assembled(rt, funcs_of(rt.alloc(), funcs, blocks)?)?;
    reads_back(rt, &tac, funcs, blocks)?;
    live(rt, &tac)?;
    steps(rt, "all blocks in turn", &tac)
}

/// Times the live sets of a program, and shows one of them.
fn live(rt: &HostRuntime, tac: &TacProgram) -> io::Result<()> {
    let start = Instant::now(rt)?;
    let sets = live_in(rt.alloc(), tac)?;
    show(rt, "live_in", start)?;
    println!(rt;
        "live at the entry: register 0 {}, register 1 {}",
        sets.at(0, 0, 0),
        sets.at(0, 0, 1)
    )
}

/// Times the live sets of a function of so many blocks and registers.
pub fn registers(rt: &HostRuntime, blocks: u32) -> io::Result<()> {
    let mut list = Vec::new(rt.alloc());
    list.push(main_of_registers(rt.alloc(), blocks)?)?;
    let tac = assembled(rt, list)?;
    println!(rt; "blocks and registers {blocks}")?;
    live(rt, &tac)
}
