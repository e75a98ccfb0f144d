//! The command `impactc`: the words after its name, the system's files and its streams go to the top call.
#![tactic(auto)]

use ib_base::RealHost;
use impactc_core::{Status, impactc};
use std::alloc::Global;
use std::process::ExitCode;
use std::{env, io};

fn main(rt: HostRuntime) -> ExitCode {
    ExitCode::from(status(rt).code())
}

fn status(rt: HostRuntime) -> Status {
    let alloc = rt.alloc();
    let words = match words(&rt, alloc) {
        Ok(words) => words,
        Err(error) => return refusal(&error),
    };
    let Ok(mut host) = RealHost::new(rt, alloc) else {
        return Status::NoMemory;
    };
    let status = impactc(alloc, words.as_slice(), &mut host);
    match host.flush() {
        Ok(()) => status,
        Err(_) => Status::HostFault,
    }
}

/// The words after the program's name. Words that are no text ask for nothing, as no words do.
fn words(rt: &HostRuntime, alloc: Global) -> io::Result<Vec<String>> {
    let all = match env::args(rt) {
        Ok(all) => all,
        Err(error) if error.kind() == io::ErrorKind::InvalidData => return Ok(Vec::new(alloc)),
        Err(error) => return Err(error),
    };
    let mut words = Vec::new(alloc);
    for word in all.skip(1) {
        words.push(word)?;
    }
    Ok(words)
}

fn refusal(error: &io::Error) -> Status {
    if error.kind() == io::ErrorKind::OutOfMemory {
        Status::NoMemory
    } else {
        Status::HostFault
    }
}
