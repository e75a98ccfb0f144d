//! Four loops on the machine `four`, of ten million cycles each: how long they take is the simulator's speed. Times go to
//! the standard error.
#![tactic(auto)]

mod loops;
mod writer;

use crate::loops::{calling, counting, four_wide, in_memory};
use ib_base::MemHost;
use machine_desc::Four;
use std::alloc::{AllocError, Global};
use std::io;
use std::time::Instant;
use wide_core::{RawCode, WideCode};
use wide_sim::{SimErr, SimOutcome, simulate};

/// More cycles than each loop takes.
const MOST: u64 = 20_000_000;

/// What was tried did not come out as it should.
fn wrong() -> io::Error {
    io::Error::from(io::ErrorKind::InvalidData)
}

/// The code, which keeps the rules of the machine.
fn valid(alloc: Global, code: RawCode) -> io::Result<WideCode<Four>> {
    if code.text_lines().is_none() {
        drop(code);
        return Err(wrong());
    }
    match WideCode::<Four>::validate(alloc, code) {
        Ok(code) => Ok(code),
        Err(_) => Err(wrong()),
    }
}

fn outcome(alloc: Global, code: &WideCode<Four>) -> Result<SimOutcome, SimErr> {
    let mut host = MemHost::new(alloc, b"")?;
    simulate(alloc, code, &mut host, MOST)
}

/// Runs the code, and prints how it came out.
fn show(rt: &HostRuntime, what: &str, code: Result<RawCode, AllocError>) -> io::Result<()> {
    let code = valid(rt.alloc(), code?)?;
    let start = Instant::now(rt)?;
    let outcome = outcome(rt.alloc(), &code);
    let took = start.elapsed(rt)?;
    eprintln!(rt; "{what}: {} ms", took.as_millis())?;
    match outcome {
        Ok(SimOutcome::Ended { result, cycles }) => {
            println!(rt; "{what}: ended {result} after {cycles} cycles")
        }
        _ => Err(wrong()),
    }
}

fn main(rt: HostRuntime) -> io::Result<()> {
    let alloc = rt.alloc();
    show(&rt, "a loop that counts", counting(alloc, 3_333_332))?;
    show(
        &rt,
        "a loop that loads and stores",
        in_memory(alloc, 1_428_571),
    )?;
    show(&rt, "words of four operations", four_wide(alloc, 3_333_332))?;
    show(&rt, "a loop of calls", calling(alloc, 1_999_999))
}
