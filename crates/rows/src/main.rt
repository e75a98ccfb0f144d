//! Runs the rows of the folder that it runs in, or that its first word names, over the top call. It ends with 0 where
//! all come out as stated, with 1 where one does not or a file has none, and with 2 where a file cannot be read.
#![tactic(auto)]

use ib_base::MemHost;
use impactc_core::impactc;
use rows_runner::{Command, run_folder};
use std::alloc::Global;
use std::process::ExitCode;
use std::{env, io};

/// The top call.
struct Impactc;

impl Command for Impactc {
    fn call(&self, alloc: Global, words: &[String], host: &mut MemHost) -> u8 {
        impactc(alloc, words, host).code()
    }
}

fn run(rt: &HostRuntime, alloc: Global) -> io::Result<bool> {
    match env::args(rt)?.nth(1) {
        Some(folder) => run_folder(rt, alloc, &Impactc, folder.as_str()),
        None => run_folder(rt, alloc, &Impactc, "."),
    }
}

fn main(rt: HostRuntime) -> ExitCode {
    match run(&rt, rt.alloc()) {
        Ok(true) => ExitCode::from(0),
        Ok(false) => ExitCode::from(1),
        Err(error) => {
            let _ = eprintln!(rt; "{error}");
            ExitCode::from(2)
        }
    }
}
