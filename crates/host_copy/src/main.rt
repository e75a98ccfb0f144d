//! Copies the standard input to the standard output, byte by byte, over a `RealHost`. Its stored run is what gives that
//! host an input. The process ends with 0 where all was copied, and with 1 where the host failed or memory was wanting.
#![tactic(auto)]

use ib_base::{Host, HostErr, RealHost};
use std::process::ExitCode;

fn main(rt: HostRuntime) -> ExitCode {
    let alloc = rt.alloc();
    let Ok(mut host) = RealHost::new(rt, alloc) else {
        return ExitCode::from(1);
    };
    let copied = copy(&mut host);
    match host.flush() {
        Ok(()) if copied.is_ok() => ExitCode::from(0),
        _ => ExitCode::from(1),
    }
}

/// Copies until no input is left, and asks once more, since the end of the input stays.
fn copy<H: Host>(host: &mut H) -> Result<(), HostErr> {
    for _ in 0..u64::MAX {
        match host.get_byte() {
            Ok(Some(byte)) => host.put(&[byte])?,
            Ok(None) => return behind_the_end(host),
            Err(error) => return Err(error),
        }
    }
    Err(HostErr::Failed)
}

fn behind_the_end<H: Host>(host: &mut H) -> Result<(), HostErr> {
    match host.get_byte() {
        Ok(None) => host.put(b"the end\n"),
        Ok(Some(_)) => Err(HostErr::Failed),
        Err(error) => Err(error),
    }
}
