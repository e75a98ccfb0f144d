ghost use Rattle.std.specs.Prelude.{◌≡◌, ◌⊎◌, ◌++◌, [], ◌∷◌, codes, string_bytes, IfOk};
ghost use Rattle.ib_base.specs.Cause.{Rose};
ghost use Rattle.ib_base.specs.World.{noted};
ghost use Rattle.impactc_core.specs.Answers.{IsPlain, LeavesNote, NoteCause, NoteFor};
ghost use Rattle.impactc_core.specs.Notes.{note_of, status_of, outcome_status, success_status, refusal_status, success_note, refusal_note};
ghost use Rattle.impactc_core.specs.Work.{Leaves, status_behind};

use crate::{CoreErr, Status, Success};
use ib_base::{Host, HostErr, Outcome};
use std::alloc::{AllocError, Global};

/// Leaves the note of a command's work, and answers the status.
#[tactic(auto, using(crate::proofs::Noted::host_fault_left, crate::proofs::Noted::no_memory_left))]
pub fn finish<H: Host>(alloc: Global, host: &mut H, work: &Result<Success, CoreErr>) -> Status
    ensures note { LeavesNote work.now (H.world host.old) (H.world host.new) result }
    ensures cause { NoteCause (H.faults host.old) (H.faults host.new) (status_of work.now) result }
    ensures sure { H.sure host.old → result ≡ Status.HostFault →
        status_of work.now ≡ Status.HostFault }
{
    match status_of(work) {
        Status::HostFault => leave_note(host, b"host fault\n", Status::HostFault),
        Status::NoMemory => leave_note(host, b"out of memory\n", Status::NoMemory),
        _ => finish_plain(alloc, host, work),
    }
}

fn finish_plain<H: Host>(alloc: Global, host: &mut H, work: &Result<Success, CoreErr>) -> Status
    requires { IsPlain (status_of work.now) }
    ensures note { LeavesNote work.now (H.world host.old) (H.world host.new) result }
    ensures cause { NoteCause (H.faults host.old) (H.faults host.new) (status_of work.now) result }
    ensures sure { H.sure host.old → result ≡ Status.HostFault →
        status_of work.now ≡ Status.HostFault }
{
    match note_text(alloc, work) {
        Ok(text) => leave_note(host, text.as_bytes(), status_of(work)),
        Err(_) => leave_note(host, b"out of memory\n", Status::NoMemory),
    }
}

fn note_text(alloc: Global, work: &Result<Success, CoreErr>) -> Result<String, AllocError>
    ensures { IfOk result (λ text. string_bytes text ≡ note_of work.now) }
{
    match work {
        Ok(success) => format!(in alloc; "{success}\n"),
        Err(refusal) => format!(in alloc; "{refusal}\n"),
    }
}

fn status_of(work: &Result<Success, CoreErr>) -> Status
    ensures { result ≡ status_of work.now }
{
    match work {
        Ok(Success::Checked) => Status::Done,
        Ok(Success::Interpreted(outcome)) => outcome_status(*outcome),
        Ok(Success::Ran { outcome, .. }) => outcome_status(*outcome),
        Err(CoreErr::Usage) => Status::Usage,
        Err(CoreErr::Source { .. }) => Status::SourceRefused,
        Err(CoreErr::HostFault) => Status::HostFault,
        Err(CoreErr::NoMemory) => Status::NoMemory,
        Err(CoreErr::TooLarge { .. }) => Status::TooLarge,
    }
}

/// The status of a program's run that came out so.
fn outcome_status(outcome: Outcome) -> Status
    ensures { result ≡ outcome_status outcome }
{
    match outcome {
        Outcome::Ended(_) => Status::Done,
        Outcome::Faulted { .. } => Status::ProgramFault,
        Outcome::Spent => Status::CyclesSpent,
    }
}

/// Tries a note once. Where it fails, a status that says so already stays.
fn leave_note<H: Host>(host: &mut H, note: &[u8], status: Status) -> Status
    ensures left { Leaves note.now status (H.world host.old) (H.world host.new) result }
    ensures cause { NoteCause (H.faults host.old) (H.faults host.new) status result }
    ensures sure { H.sure host.old → result ≡ Status.HostFault → status ≡ Status.HostFault }
{
    match host.note(note) {
        Ok(()) => status,
        Err(HostErr::Failed) => status_behind(status, Status::HostFault),
        Err(HostErr::NoMemory) => status_behind(status, Status::NoMemory),
    }
}

/// The status behind a note that failed.
fn status_behind(status: Status, failed: Status) -> Status
    ensures { result ≡ status_behind status failed }
{
    match status {
        Status::HostFault | Status::NoMemory => status,
        _ => failed,
    }
}
