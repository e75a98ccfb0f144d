ghost use Rattle.tac_core.specs.Counts.{AreOf};
ghost use Rattle.tac_core.specs.Traces.{AreChainsOf};

use crate::large::{funcs_of, profile_of};
use crate::programs::program;
use crate::shown::read;
use crate::wrong;
use std::io;
use std::time::Instant;
use tac_core::{Chain, Counts, Formed, TacProgram, Traces};
use tail_dup::duplicate;
use trace_pick::pick;

fn show(rt: &HostRuntime, what: &str, start: Instant) -> io::Result<()> {
    let took = start.elapsed(rt)?;
    eprintln!(rt; "{what}: {} us", took.as_micros())
}

/// The most blocks of a chain.
fn longest(chains: &[Chain], most: usize) -> usize {
    let mut most = most;
    for chain in chains {
        most = most.max(chain.list().len());
    }
    most
}

/// How many chains there are, and the most blocks of one; `None` where there are not so many functions.
fn measured(traces: &Traces, funcs: u32) -> Option<(usize, usize)> {
    let mut many: usize = 0;
    let mut most = 0;
    for func in 0..funcs {
        let Some(chains) = traces.chains(func) else {
            return None;
        };
        many = many.saturating_add(chains.len());
        most = longest(chains, most);
    }
    Some((many, most))
}

fn show_measured(rt: &HostRuntime, what: &str, traces: &Traces, funcs: u32) -> io::Result<()> {
    match measured(traces, funcs) {
        Some((many, most)) => println!(rt; "{what}: {many}, at most {most} blocks long"),
        None => Err(wrong()),
    }
}

fn show_formed(rt: &HostRuntime, formed: &Formed, funcs: u32) -> io::Result<()> {
    println!(rt;
        "operations of the duplicate: {}",
        formed.copied().tac().ops()
    )?;
    show_measured(rt, "chains of the duplicate", formed.traces(), funcs)
}

fn time_duplicate(rt: &HostRuntime, tac: &TacProgram, traces: &Traces, funcs: u32) -> io::Result<()>
    requires { AreChainsOf tac.now.funcs traces.now }
{
    show_measured(rt, "traces", traces, funcs)?;
    let start = Instant::now(rt)?;
    let formed = duplicate(rt.alloc(), tac, traces)?;
    show(rt, "duplicate", start)?;
    show_formed(rt, &formed, funcs)
}

fn time_pick(rt: &HostRuntime, tac: &TacProgram, counts: &Counts, funcs: u32) -> io::Result<()>
    requires { AreOf counts.now tac.now }
{
    let start = Instant::now(rt)?;
    let traces = pick(rt.alloc(), tac, counts)?;
    show(rt, "pick", start)?;
    time_duplicate(rt, tac, &traces, funcs)
}

fn time_calls(rt: &HostRuntime, tac: &TacProgram, text: &[u8], funcs: u32) -> io::Result<()> {
    let counts = read(rt, tac, text)?;
    if counts.matches(tac) {
        time_pick(rt, tac, &counts, funcs)
    } else {
        Err(wrong())
    }
}

fn time_sizes(rt: &HostRuntime, tac: &TacProgram, funcs: u32, blocks: u32) -> io::Result<()> {
    println!(rt; "functions {funcs}, operations {}", tac.ops())?;
    let text = profile_of(rt.alloc(), funcs, blocks)?;
    time_calls(rt, tac, text.as_bytes(), funcs)
}

/// Times the calls on a program of so many functions, each of so many blocks.
pub fn sizes(rt: &HostRuntime, funcs: u32, blocks: u32) -> io::Result<()> {
    let list = funcs_of(rt.alloc(), funcs, blocks)?;
    match program(rt.alloc(), list)? {
        Some(tac) => time_sizes(rt, &tac, funcs, blocks),
        None => Err(wrong()),
    }
}
