ghost use Rattle.tac_core.specs.Counts.{AreOf};
ghost use Rattle.tac_core.specs.Traces.{AreChainsOf};

use crate::programs::program_of;
use crate::rows::Shape;
use crate::wrong;
use profile_text::read_profile;
use std::alloc::AllocError;
use std::fmt::Write;
use std::io;
use tac_core::{Block, Chain, Copied, Counts, End, Formed, TacProgram, Traces, number_at};
use tail_dup::duplicate;
use trace_pick::pick;

const MOST_TEXT: usize = 33_554_432;

/// The counts of a profile.
pub fn read(rt: &HostRuntime, tac: &TacProgram, text: &[u8]) -> io::Result<Counts> {
    if text.len() > MOST_TEXT {
        return Err(wrong());
    }
    match read_profile(rt.alloc(), text, tac) {
        Ok(counts) => Ok(counts),
        Err(_) => Err(wrong()),
    }
}

fn write_chain(text: &mut String, chain: &Chain) -> Result<(), AllocError> {
    text.push_str(" |")?;
    for label in chain.list() {
        write!(text, " {label}")?;
    }
    Ok(())
}

/// Shows the chains of `main`.
fn show_chains(rt: &HostRuntime, what: &str, traces: &Traces) -> io::Result<()> {
    let mut text = String::new(rt.alloc());
    let Some(chains) = traces.chains(0) else {
        return Err(wrong());
    };
    for chain in chains {
        write_chain(&mut text, chain)?;
    }
    println!(rt; "{what}{}", text.as_str())
}

fn show_end(rt: &HostRuntime, label: u32, origin: u32, block: &Block) -> io::Result<()> {
    match &block.end {
        End::Jump(to) => println!(rt; "  {label} of {origin}: jump {to}"),
        End::Branch { reg: _, yes, no } => println!(rt; "  {label} of {origin}: branch {yes} {no}"),
        End::Call {
            dest: _,
            func,
            args: _,
            next,
        } => println!(rt; "  {label} of {origin}: call {func}, {next}"),
        End::Ret(_) => println!(rt; "  {label} of {origin}: ret"),
    }
}

/// Shows the blocks of `main`, each with its origin and its end.
fn show_blocks(rt: &HostRuntime, copied: &Copied) -> io::Result<()> {
    let Some(main) = copied.tac().funcs().first() else {
        return Err(wrong());
    };
    for (i, block) in main.blocks.as_slice().iter().enumerate() {
        let label = number_at(i)?;
        let origin = copied.origin(0, label).ok_or(wrong())?;
        show_end(rt, label, origin, block)?;
    }
    Ok(())
}

fn show_formed(rt: &HostRuntime, formed: &Formed) -> io::Result<()> {
    show_chains(rt, "duplicate", formed.traces())?;
    show_blocks(rt, formed.copied())
}

fn show_duplicate(rt: &HostRuntime, tac: &TacProgram, traces: &Traces) -> io::Result<()>
    requires { AreChainsOf tac.now.funcs traces.now }
{
    show_chains(rt, "traces", traces)?;
    let formed = duplicate(rt.alloc(), tac, traces)?;
    show_formed(rt, &formed)
}

fn show_traces(rt: &HostRuntime, tac: &TacProgram, counts: &Counts) -> io::Result<()>
    requires { AreOf counts.now tac.now }
{
    let traces = pick(rt.alloc(), tac, counts)?;
    show_duplicate(rt, tac, &traces)
}

fn show_counted(rt: &HostRuntime, tac: &TacProgram, profile: &[u8]) -> io::Result<()> {
    let counts = read(rt, tac, profile)?;
    if counts.matches(tac) {
        show_traces(rt, tac, &counts)
    } else {
        Err(wrong())
    }
}

/// Shows the traces and the duplicate of `main` of these blocks, by a profile.
pub fn show_row(rt: &HostRuntime, title: &str, blocks: &[Shape], profile: &str) -> io::Result<()> {
    println!(rt; "{title}")?;
    match program_of(rt.alloc(), blocks)? {
        Some(tac) => show_counted(rt, &tac, profile.as_bytes()),
        None => Err(wrong()),
    }
}
