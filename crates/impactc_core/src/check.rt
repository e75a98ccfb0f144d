ghost use Rattle.std.specs.Prelude.{◌≡◌, ◌≤◌, length, IsErrOf, Some};
ghost use Rattle.ib_base.specs.World.{World};
ghost use Rattle.impactc_words.specs.declared.words.Command.{Command};
ghost use Rattle.impactc_core.specs.Answers.{Works};
ghost use Rattle.impactc_core.specs.Sources.{IsSource};

use crate::front::program_of;
use crate::{CoreErr, Success};
use impactc_words::{Command, FileName};
use std::alloc::Global;

/// The work of `check F` on the source of F.
#[tactic(auto, using(crate::proofs::Checking::works_checked, crate::proofs::Refusing::works_refused, crate::proofs::Refusing::no_host_fault))]
pub fn check(alloc: Global, file: FileName, bytes: &[u8]) -> Result<Success, CoreErr>
    requires { length bytes.now ≤ 1048576 }
    ensures works { (w : World) → IsSource file w bytes.now → Works (Some (Command.Check file)) result w w }
    ensures never { IsErrOf result CoreErr.HostFault → ⊥ }
{
    match program_of(alloc, bytes) {
        Ok(_) => Ok(Success::Checked),
        Err(refusal) => Err(refusal.of_file(file)),
    }
}
