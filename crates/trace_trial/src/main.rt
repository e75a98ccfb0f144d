//! Tries traces by the profile: it prints the traces and the duplicates of small programs, and times the calls on 200,000
//! operations. Times go to the standard error.
#![tactic(auto)]

mod large;
mod programs;
mod rows;
mod shown;
mod timed;

use std::io;

/// What was tried did not come out as it should.
fn wrong() -> io::Error {
    io::Error::from(io::ErrorKind::InvalidData)
}

fn main(rt: HostRuntime) -> io::Result<()> {
    rows::diamonds(&rt)?;
    rows::loops(&rt)?;
    rows::ends(&rt)?;
    timed::sizes(&rt, 1, 200_000)?;
    timed::sizes(&rt, 1_000, 200)
}
