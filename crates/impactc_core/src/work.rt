ghost use Rattle.std.specs.Prelude.{◌≡◌, IsErrOf, Some};
ghost use Rattle.ib_base.specs.World.{LacksFile};
ghost use Rattle.impactc_words.specs.Words.{input_of};
ghost use Rattle.impactc_core.specs.Answers.{WorkCause, Works};
ghost use Rattle.impactc_core.specs.Sources.{IsSource};

use crate::check::check;
use crate::interp::interp;
use crate::run::run;
use crate::source::read_source;
use crate::{CoreErr, Success};
use ib_base::Host;
use impactc_words::Command;
use std::alloc::Global;

/// The work of a command on the source of its file.
fn work_on<H: Host>(
    alloc: Global,
    command: Command,
    bytes: &[u8],
    host: &mut H,
) -> Result<Success, CoreErr>
    requires { IsSource (input_of command) (H.world host.old) bytes.now }
    ensures works { Works (Some command) result (H.world host.old) (H.world host.new) }
    ensures cause { WorkCause (H.faults host.old) (H.faults host.new) result }
    ensures still_sure { H.sure host.old → H.sure host.new }
    ensures never { H.sure host.old → IsErrOf result CoreErr.HostFault → ⊥ }
{
    match command {
        Command::Check { file } => check(alloc, file, bytes),
        Command::Interp { file } => interp(alloc, file, bytes, host),
        Command::Run { file } => run(alloc, file, bytes, host),
    }
}

/// The work of a command, all but its note.
#[tactic(auto, using(crate::proofs::Refusing::works_unread))]
pub fn work<H: Host>(alloc: Global, command: Command, host: &mut H) -> Result<Success, CoreErr>
    ensures works { Works (Some command) result (H.world host.old) (H.world host.new) }
    ensures cause { WorkCause (H.faults host.old) (H.faults host.new) result }
    ensures still_sure { H.sure host.old → H.sure host.new }
    ensures missing { H.sure host.old → IsErrOf result CoreErr.HostFault → LacksFile
        (H.world host.old) (input_of command) }
{
    match read_source(alloc, command.input(), host) {
        Ok(bytes) => work_on(alloc, command, bytes.as_slice(), host),
        Err(refusal) => Err(refusal),
    }
}
