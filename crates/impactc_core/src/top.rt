ghost use Rattle.std.specs.Prelude.{◌≡◌, ◌⊎◌, Option, map, string_bytes, IfOk, IfErr, OnErr, IsErrOf};
ghost use Rattle.ib_base.specs.Cause.{Rose};
ghost use Rattle.impactc_words.specs.Words.{Ask, AskFor};
ghost use Rattle.impactc_words.specs.declared.words.Command.{Command};
ghost use Rattle.impactc_core.specs.Answers.{LacksInput, CanWork, HasWorked, Works, Answers, IsCaused, WorkCause};
ghost use Rattle.impactc_core.specs.Notes.{status_of};

use crate::notes::finish;
use crate::work::work;
use crate::{CoreErr, Status, Success};
use ib_base::Host;
use impactc_words::{WordsErr, read_words};
use std::alloc::Global;

/// The compiler as a whole: does what the words after the program's name ask for, over a host, and leaves one note.
#[tactic(auto, using(crate::proofs::Topped::topped))]
pub fn impactc<H: Host>(alloc: Global, words: &[String], host: &mut H) -> Status
    // What the words ask for is done, printed and noted, and the status says so.
    ensures answers { (read : Option Command) → Ask (map string_bytes words.now) read →
        Answers read (H.world host.old) (H.world host.new) result }

    // The host is at fault only where its count of faults rose, and where nothing else was wanting the count stands.
    ensures cause { IsCaused (H.faults host.old) (H.faults host.new) result }

    // On a host that cannot fail, only a file that is not there is its fault.
    ensures sure { H.sure host.old → result ≡ Status.HostFault →
        LacksInput (map string_bytes words.now) (H.world host.old) }

    // What can be done is done, where memory and the host allow it.
    ensures completes { (command : Command) → AskFor (map string_bytes words.now) command →
        CanWork command (H.world host.old) →
        HasWorked command result ⊎ ((result ≡ Status.NoMemory)
        ⊎ Rose (H.faults host.old) (H.faults host.new)) }
{
    let done = perform(alloc, words, host);
    finish(alloc, host, &done)
}

/// What the words ask for, all but its note.
#[tactic(auto, using(crate::proofs::Topped::works_usage, crate::proofs::Topped::works_no_memory, crate::proofs::Topped::lacks_input))]
fn perform<H: Host>(alloc: Global, words: &[String], host: &mut H) -> Result<Success, CoreErr>
    ensures works { (read : Option Command) → Ask (map string_bytes words.now) read →
        Works read result (H.world host.old) (H.world host.new) }
    ensures cause { WorkCause (H.faults host.old) (H.faults host.new) result }
    ensures still_sure { H.sure host.old → H.sure host.new }
    ensures missing { H.sure host.old → IsErrOf result CoreErr.HostFault →
        LacksInput (map string_bytes words.now) (H.world host.old) }
{
    match read_words(alloc, words) {
        Ok(command) => work(alloc, command, host),
        Err(WordsErr::Usage) => Err(CoreErr::Usage),
        Err(WordsErr::NoMemory) => Err(CoreErr::NoMemory),
    }
}
