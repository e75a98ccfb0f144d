ghost use Rattle.std.specs.Prelude.{◌≡◌, IfOk, MatchOption, [], ◌∷◌};
ghost use Rattle.c_typed.specs.Views.{expr_of, part_of, list_exps, stmt_of};
ghost use Rattle.c_eval.specs.Pending as p;
ghost use Rattle.c_eval.specs.Pending.{Machine as Plain, Goes};
ghost use Rattle.c_eval.specs.Machines.{machine_of};
ghost use Rattle.c_eval.specs.Moves as m;
ghost use Rattle.c_eval.specs.Views.{maybe_of, turns_of, turns_in, caller_of, exit_of, frame_of, control_frame, list_stms, move_of};

use crate::evaluation::first_expr;
use crate::frame::{Caller, Exit, Frame, Move, Phase, Task, Turns, Want};
use crate::machine::{Machine, give};
use c_typed::{Expr, Part, Stmt};
use std::alloc::AllocError;

pub(crate) fn eval<'a>(expr: &'a Expr, number: u32) -> Move<'a>
    ensures { (machine : Plain) → move_of result machine ≡ Goes (p.eval (expr_of expr.now) number) machine }
{
    Move::Goes {
        task: Task::Eval { expr, number },
    }
}

pub(crate) fn exec<'a>(stmt: &'a Stmt) -> Move<'a>
    ensures { (machine : Plain) → move_of result machine ≡ Goes (p.exec (stmt_of stmt.now)) machine }
{
    Move::Goes {
        task: Task::Exec { stmt },
    }
}

pub(crate) fn leave<'a>(exit: Exit) -> Move<'a>
    ensures { (machine : Plain) → move_of result machine ≡ Goes (p.leave (exit_of exit)) machine }
{
    Move::Goes {
        task: Task::Leave { exit },
    }
}

/// The first of some statements, and the others.
fn first_stmt<'a>(all: &'a [Stmt]) -> Option<(&'a Stmt, &'a [Stmt])>
    ensures { MatchOption result (all.now ≡ []) (λ it. all.now ≡ it.0.now ∷ it.1.now) }
{
    all.split_first()
}

fn given_part<'a>(part: &'a Part) -> Option<&'a Expr>
    ensures { maybe_of result ≡ part_of part.now }
{
    match part {
        Part::Missing => None,
        Part::Given(expr) => Some(&**expr),
    }
}

/// The parts of a loop.
pub(crate) fn turns_in<'a>(stmt: &'a Stmt) -> Turns<'a>
    ensures { turns_of result ≡ turns_in (stmt_of stmt.now) }
{
    match stmt {
        Stmt::While { number, test, body } | Stmt::DoWhile { number, test, body } => Turns {
            number: *number,
            test: Some(&**test),
            last: None,
            body,
        },
        Stmt::For {
            number,
            test,
            next,
            body,
            ..
        } => Turns {
            number: *number,
            test: given_part(test),
            last: given_part(next),
            body,
        },
        Stmt::Block { .. }
        | Stmt::Empty { .. }
        | Stmt::Expr { .. }
        | Stmt::If { .. }
        | Stmt::IfElse { .. }
        | Stmt::Break { .. }
        | Stmt::Continue { .. }
        | Stmt::Return { .. }
        | Stmt::Local { .. } => Turns {
            number: 0,
            test: None,
            last: None,
            body: stmt,
        },
    }
}

/// What a statement's exit gives a call that it leaves.
fn returned(exit: Exit) -> i64
    ensures { result ≡ m.returned (exit_of exit) }
{
    match exit {
        Exit::OnReturn { value } => value,
        Exit::Next | Exit::OnBreak | Exit::OnContinue => 0,
    }
}

impl<'a> Machine<'a> {
    /// Evaluates the expressions of a declaration or of a loop's first part one after the other.
    pub(crate) fn parts_first(
        &mut self,
        all: &'a [Expr],
        number: u32,
    ) -> Result<Move<'a>, AllocError>
        ensures { IfOk result (λ r. move_of r (machine_of self.new) ≡ m.parts_first (list_exps all.now) number (machine_of self.old)) }
    {
        match first_expr(all) {
            None => Ok(leave(Exit::Next)),
            Some((expr, rest)) => self.operand(Frame::Parts { rest, number }, expr, number),
        }
    }

    /// Goes through statements one after the other.
    pub(crate) fn rest_first(&mut self, all: &'a [Stmt]) -> Result<Move<'a>, AllocError>
        ensures { IfOk result (λ r. move_of r (machine_of self.new) ≡ m.rest_first (list_stms all.now) (machine_of self.old)) }
    {
        match first_stmt(all) {
            None => Ok(leave(Exit::Next)),
            Some((stmt, rest)) => { self.wait(Frame::Rest { stmts: rest }, Task::Exec { stmt }) }
        }
    }

    /// The test of a loop.
    pub(crate) fn again(&mut self, stmt: &'a Stmt) -> Result<Move<'a>, AllocError>
        ensures { IfOk result (λ r. move_of r (machine_of self.new) ≡ m.again (turns_in (stmt_of stmt.now)) (machine_of self.old)) }
    {
        let turns = turns_in(stmt);
        match turns.test {
            None => Ok(Move::Wants {
                want: Want::Turn { stmt },
            }),
            Some(test) => {
                let phase = Phase::Test;
                self.operand(Frame::Control { phase, stmt }, test, turns.number)
            }
        }
    }

    /// What comes behind a turn.
    fn onward(&mut self, stmt: &'a Stmt) -> Result<Move<'a>, AllocError>
        ensures { IfOk result (λ r. move_of r (machine_of self.new) ≡ m.onward (turns_in (stmt_of stmt.now)) (machine_of self.old)) }
    {
        let turns = turns_in(stmt);
        match turns.last {
            None => self.again(stmt),
            Some(last) => {
                let phase = Phase::Last;
                self.operand(Frame::Control { phase, stmt }, last, turns.number)
            }
        }
    }

    /// Begins a `for`, behind whose first part its turns come.
    fn begin(
        &mut self,
        stmt: &'a Stmt,
        start: &'a [Expr],
        number: u32,
    ) -> Result<Move<'a>, AllocError>
        ensures { IfOk result (λ r. move_of r (machine_of self.new) ≡ m.begin (turns_in (stmt_of stmt.now)) (list_exps start.now) number (machine_of self.old)) }
    {
        let phase = Phase::Begin;
        self.push(Frame::Control { phase, stmt })?;
        self.parts_first(start, number)
    }

    fn give_back(&mut self, value: &'a Part, number: u32) -> Result<Move<'a>, AllocError>
        ensures { IfOk result (λ r. move_of r (machine_of self.new) ≡ m.give_back (part_of value.now) number (machine_of self.old)) }
    {
        match value {
            Part::Missing => Ok(leave(Exit::OnReturn { value: 0 })),
            Part::Given(expr) => self.operand(Frame::GiveBack, expr, number),
        }
    }

    /// Goes through a statement as far as what comes first.
    pub(crate) fn exec(&mut self, stmt: &'a Stmt) -> Result<Move<'a>, AllocError>
        ensures { IfOk result (λ r. move_of r (machine_of self.new) ≡ m.exec (stmt_of stmt.now) (machine_of self.old)) }
    {
        match stmt {
            Stmt::Block { stmts } => self.rest_first(stmts.as_slice()),
            Stmt::Empty { .. } => Ok(leave(Exit::Next)),
            Stmt::Expr { number, expr } => self.operand(Frame::Discard, expr, *number),
            Stmt::If { number, test, .. } | Stmt::IfElse { number, test, .. } => {
                let phase = Phase::Choice;
                self.operand(Frame::Control { phase, stmt }, test, *number)
            }
            Stmt::While { .. } => self.again(stmt),
            Stmt::DoWhile { .. } => Ok(Move::Wants {
                want: Want::Turn { stmt },
            }),
            Stmt::For { number, start, .. } => self.begin(stmt, start.as_slice(), *number),
            Stmt::Break { .. } => Ok(leave(Exit::OnBreak)),
            Stmt::Continue { .. } => Ok(leave(Exit::OnContinue)),
            Stmt::Return { number, value } => self.give_back(value, *number),
            Stmt::Local { number, values } => self.parts_first(values.as_slice(), *number),
        }
    }

    fn leave_rest(&mut self, rest: &'a [Stmt], exit: Exit) -> Result<Move<'a>, AllocError>
        ensures { IfOk result (λ r. move_of r (machine_of self.new) ≡ m.leave_rest (list_stms rest.now) (exit_of exit) (machine_of self.old)) }
    {
        match exit {
            Exit::Next => self.rest_first(rest),
            Exit::OnBreak | Exit::OnContinue | Exit::OnReturn { .. } => Ok(leave(exit)),
        }
    }

    fn leave_begin(&mut self, stmt: &'a Stmt, exit: Exit) -> Result<Move<'a>, AllocError>
        ensures { IfOk result (λ r. move_of r (machine_of self.new) ≡ m.leave_begin (turns_in (stmt_of stmt.now)) (exit_of exit) (machine_of self.old)) }
    {
        match exit {
            Exit::Next => self.again(stmt),
            Exit::OnBreak | Exit::OnContinue | Exit::OnReturn { .. } => Ok(leave(exit)),
        }
    }

    fn leave_turn(&mut self, stmt: &'a Stmt, exit: Exit) -> Result<Move<'a>, AllocError>
        ensures { IfOk result (λ r. move_of r (machine_of self.new) ≡ m.leave_turn (turns_in (stmt_of stmt.now)) (exit_of exit) (machine_of self.old)) }
    {
        match exit {
            Exit::Next | Exit::OnContinue => self.onward(stmt),
            Exit::OnBreak => Ok(leave(Exit::Next)),
            Exit::OnReturn { .. } => Ok(leave(exit)),
        }
    }

    fn leave_control(
        &mut self,
        phase: Phase,
        stmt: &'a Stmt,
        exit: Exit,
    ) -> Result<Move<'a>, AllocError>
        ensures { IfOk result (λ r. move_of r (machine_of self.new) ≡ m.leave_to (control_frame phase (stmt_of stmt.now)) (exit_of exit) (machine_of self.old)) }
    {
        match phase {
            Phase::Begin => self.leave_begin(stmt, exit),
            Phase::Body => self.leave_turn(stmt, exit),
            Phase::Choice | Phase::Test | Phase::Last => Ok(leave(exit)),
        }
    }

    fn go_back(&mut self, caller: Caller, value: i64) -> Move<'a>
        ensures { move_of result (machine_of self.new) ≡ Goes (p.give value) (m.back_to (caller_of caller) (machine_of self.old)) }
    {
        let Caller {
            depth,
            base,
            top,
            slots,
        } = caller;
        self.depth = depth;
        self.base = base;
        self.top = top;
        self.slots = slots;
        give(value)
    }

    /// Leaves to what waits first; the machine is without it.
    fn leave_to(&mut self, frame: Frame<'a>, exit: Exit) -> Result<Move<'a>, AllocError>
        ensures { IfOk result (λ r. move_of r (machine_of self.new) ≡ m.leave_to (frame_of frame.entry) (exit_of exit) (machine_of self.old)) }
    {
        match frame {
            Frame::Rest { stmts } => self.leave_rest(stmts, exit),
            Frame::Control { phase, stmt } => self.leave_control(phase, stmt, exit),
            Frame::Called { caller } => Ok(self.go_back(caller, returned(exit))),
            _ => Ok(leave(exit)),
        }
    }

    /// Leaves a statement to what waits first.
    pub(crate) fn leave(&mut self, exit: Exit) -> Result<Move<'a>, AllocError>
        ensures { IfOk result (λ r. move_of r (machine_of self.new) ≡ m.leave (exit_of exit) (machine_of self.old).frames (machine_of self.old)) }
    {
        match self.frames.pop() {
            None => Ok(Move::Ends {
                result: returned(exit),
            }),
            Some(frame) => self.leave_to(frame, exit),
        }
    }

    /// Passes the arguments to what waits first; the machine is without it.
    fn pass_to(&mut self, frame: Frame<'a>) -> Result<Move<'a>, AllocError>
        ensures { IfOk result (λ r. move_of r (machine_of self.new) ≡ m.pass_to (frame_of frame.entry) (machine_of self.old)) }
    {
        match frame {
            Frame::Held { value } => {
                self.arguments.push(value)?;
                Ok(Move::Goes { task: Task::Pass })
            }
            Frame::Callee { function, number } => Ok(Move::Wants {
                want: Want::Call { function, number },
            }),
            _ => Ok(Move::Goes { task: Task::Pass }),
        }
    }

    /// Passes the arguments to what waits first.
    pub(crate) fn pass(&mut self) -> Result<Move<'a>, AllocError>
        ensures { IfOk result (λ r. move_of r (machine_of self.new) ≡ m.pass (machine_of self.old).frames (machine_of self.old)) }
    {
        match self.frames.pop() {
            None => Ok(Move::Ends { result: 0 }),
            Some(frame) => self.pass_to(frame),
        }
    }
}
