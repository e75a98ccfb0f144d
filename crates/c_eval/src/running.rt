ghost use Rattle.std.specs.Prelude.{◌≡◌, ◌≤◌, pos, IfOk, OnErr, IsErrOf};
ghost use Rattle.ib_base.specs.Integers.{wrapped};
ghost use Rattle.ib_base.specs.declared.integers.Width.TheVariants.{W1};
ghost use Rattle.ib_base.specs.Cause.{HasCause, RunCause};
ghost use Rattle.ib_run.specs.OverHost.{OverHost};
ghost use Rattle.c_eval.specs.Machines.{machine_of};
ghost use Rattle.c_eval.specs.Programs.{program_of};
ghost use Rattle.c_eval.specs.Moves as m;
ghost use Rattle.c_eval.specs.Running.{Answers, AnswersPart, Settles, Leads, LeadsPart, LeadsBehind, LeadsPartBehind, move_run, halt_run, pause_run, move_work, pause_work};
ghost use Rattle.c_eval.specs.Views.{task_of, want_of, move_of, turns_in};
ghost use Rattle.c_typed.specs.Views.{stmt_of};

use crate::frame::{Ask, Frame, Halt, Move, Pause, Phase, Task, Want};
use crate::machine::{Machine, give};
use crate::source::Source;
use crate::statements::turns_in;
use c_typed::Stmt;
use ib_base::{Host, HostErr, Outcome, RunErr};
use ib_run::result_of;
use itoa::Buffer;
use std::alloc::{AllocError, Global};

/// The number of the next byte of the input, or -1 at its end.
fn next_number<H: Host>(host: &mut H) -> Result<i64, HostErr>
    ensures ok { IfOk result (λ number. OverHost (Answers Ask.GetByte number) (H.world host.old) (H.world host.new)) }
    ensures broken { OnErr result (OverHost (AnswersPart Ask.GetByte) (H.world host.old) (H.world host.new)) }
    ensures cause { HasCause (H.faults host.old) (H.faults host.new) result }
    ensures still_sure { H.sure host.old → H.sure host.new }
    ensures never { H.sure host.old → IsErrOf result HostErr.Failed → ⊥ }
{
    match host.get_byte()? {
        None => Ok(-1),
        Some(byte) => Ok(i64::from(byte)),
    }
}

/// The lowest byte of a number.
fn lowest_byte(number: i64) -> u8
    ensures { pos result ≡ wrapped W1 number }
{
    number.rem_euclid(256) as u8
}

fn wanting<'a>(want: Want<'a>) -> Pause<'a>
    ensures { result ≡ Pause.Halts (Halt.Wants want.entry) }
{
    Pause::Halts {
        halt: Halt::Wants { want },
    }
}

fn over<'a>(outcome: Outcome) -> Pause<'a>
    ensures { result ≡ Pause.Halts (Halt.Over outcome) }
{
    Pause::Halts {
        halt: Halt::Over { outcome },
    }
}

/// Asks the host, and gives what comes of it.
fn answer<H: Host>(ask: Ask, host: &mut H) -> Result<i64, HostErr>
    ensures ok { IfOk result (λ number. OverHost (Answers ask number) (H.world host.old) (H.world host.new)) }
    ensures broken { OnErr result (OverHost (AnswersPart ask) (H.world host.old) (H.world host.new)) }
    ensures cause { HasCause (H.faults host.old) (H.faults host.new) result }
    ensures still_sure { H.sure host.old → H.sure host.new }
    ensures never { H.sure host.old → IsErrOf result HostErr.Failed → ⊥ }
{
    match ask {
        Ask::GetByte => next_number(host),
        Ask::PutByte { value } => {
            let byte = lowest_byte(value);
            match host.put(&[byte]) {
                Ok(()) => Ok(i64::from(byte)),
                Err(error) => Err(error),
            }
        }
        Ask::PutNumber { value } => match host.put(Buffer::new().format(value).as_bytes()) {
            Ok(()) => Ok(0),
            Err(error) => Err(error),
        },
    }
}

impl<'a> Machine<'a> {
    /// Does what is at hand.
    fn advance(&mut self, source: &Source<'a>, task: Task<'a>) -> Result<Move<'a>, AllocError>
        ensures { IfOk result (λ r. move_of r (machine_of self.new) ≡ m.advanced (program_of source.now) (task_of task.entry) (machine_of self.old)) }
    {
        match task {
            Task::Eval { expr, number } => self.eval(source, expr, number),
            Task::Give { value } => self.give(source, value),
            Task::Pass => self.pass(),
            Task::Exec { stmt } => self.exec(stmt),
            Task::Leave { exit } => self.leave(exit),
        }
    }

    /// Goes on until the host is asked, a unit of the budget is needed, or the run is over.
    fn settle(&mut self, source: &Source<'a>, first: Move<'a>) -> Result<Pause<'a>, AllocError>
        ensures settles { IfOk result (λ pause. Settles (move_run (program_of source.now) (move_of first.entry (machine_of self.old))) (pause_run (program_of source.now) pause (machine_of self.new))) }
        ensures lighter { IfOk result (λ pause. pause_work pause (machine_of self.new) ≤ move_work (move_of first.entry (machine_of self.old))) }
    {
        let mut at = first;
        'moves: loop {
            match at {
                Move::Goes { task } => match self.advance(source, task) {
                    Ok(next) => at = next,
                    Err(error) => return Err(error),
                },
                Move::Asks { ask } => return Ok(Pause::Asks { ask }),
                Move::Wants { want } => return Ok(wanting(want)),
                Move::Faults { number, kind } => {
                    let place = source.place(number);
                    return Ok(over(Outcome::Faulted { place, kind }));
                }
                Move::Ends { result: value } => return Ok(over(Outcome::Ended(result_of(value)))),
                Move::Stops => return Ok(over(Outcome::Spent)),
            }
        }
    }

    /// Goes on until a unit of the budget is needed, or the run is over.
    pub(crate) fn go_on<H: Host>(
        &mut self,
        source: &Source<'a>,
        first: Move<'a>,
        host: &mut H,
    ) -> Result<Halt<'a>, RunErr>
        ensures ok { IfOk result (λ halt. OverHost (Leads (move_run (program_of source.now) (move_of first.entry (machine_of self.old))) (halt_run (program_of source.now) halt (machine_of self.new))) (H.world host.old) (H.world host.new)) }
        ensures broken { OnErr result (OverHost (LeadsPart (move_run (program_of source.now) (move_of first.entry (machine_of self.old)))) (H.world host.old) (H.world host.new)) }
        ensures cause { RunCause (H.faults host.old) (H.faults host.new) result }
        ensures still_sure { H.sure host.old → H.sure host.new }
        ensures never { H.sure host.old → IsErrOf result RunErr.Host → ⊥ }
    {
        let mut at = first;
        'answers: loop {
            match self.settle(source, at) {
                Ok(Pause::Asks { ask }) => match answer(ask, host) {
                    Ok(value) => at = give(value),
                    Err(error) => return Err(RunErr::from(error)),
                },
                Ok(Pause::Halts { halt }) => return Ok(halt),
                Err(error) => return Err(RunErr::from(error)),
            }
        }
    }

    /// A turn of a loop, a unit having been spent on it.
    fn turn(&mut self, stmt: &'a Stmt) -> Result<Move<'a>, AllocError>
        ensures { IfOk result (λ r. move_of r (machine_of self.new) ≡ m.turned (turns_in (stmt_of stmt.now)) (machine_of self.old)) }
    {
        let phase = Phase::Body;
        let stmt_body = turns_in(stmt).body;
        self.wait(
            Frame::Control { phase, stmt },
            Task::Exec { stmt: stmt_body },
        )
    }

    fn spend(
        &mut self,
        alloc: Global,
        source: &Source<'a>,
        want: Want<'a>,
    ) -> Result<Move<'a>, AllocError>
        ensures { IfOk result (λ r. move_of r (machine_of self.new) ≡ m.unit_spent (program_of source.now) (want_of want.entry) (machine_of self.old)) }
    {
        match want {
            Want::Turn { stmt } => self.turn(stmt),
            Want::Call { function, number } => {
                self.call_function(alloc, source.functions, function, number)
            }
        }
    }

    /// Spends a unit of the budget, and goes on until the next one is needed.
    pub(crate) fn go_on_behind<H: Host>(
        &mut self,
        alloc: Global,
        source: &Source<'a>,
        want: Want<'a>,
        host: &mut H,
    ) -> Result<Halt<'a>, RunErr>
        ensures ok { IfOk result (λ halt. OverHost (LeadsBehind (halt_run (program_of source.now) (Halt.Wants want.entry) (machine_of self.old)) (halt_run (program_of source.now) halt (machine_of self.new))) (H.world host.old) (H.world host.new)) }
        ensures broken { OnErr result (OverHost (LeadsPartBehind (halt_run (program_of source.now) (Halt.Wants want.entry) (machine_of self.old))) (H.world host.old) (H.world host.new)) }
        ensures cause { RunCause (H.faults host.old) (H.faults host.new) result }
        ensures still_sure { H.sure host.old → H.sure host.new }
        ensures never { H.sure host.old → IsErrOf result RunErr.Host → ⊥ }
    {
        match self.spend(alloc, source, want) {
            Ok(next) => self.go_on(source, next, host),
            Err(error) => Err(RunErr::from(error)),
        }
    }
}
