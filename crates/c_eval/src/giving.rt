ghost use Rattle.std.specs.Prelude.{◌≡◌, IfOk};
ghost use Rattle.c_typed.specs.Program.{Program};
ghost use Rattle.c_eval.specs.Pending.{Machine as Plain};
ghost use Rattle.c_typed.specs.Views.{expr_of, list_exps, stmt_of};
ghost use Rattle.c_eval.specs.Machines.{machine_of};
ghost use Rattle.c_eval.specs.Programs.{program_of};
ghost use Rattle.c_eval.specs.Moves as m;
ghost use Rattle.c_eval.specs.Views.{frame_of, control_frame, move_of};
ghost use Rattle.c_eval.specs.Groups.{IsDoneBy, Changes, GoesOnBy};

use crate::frame::{Ask, Exit, Frame, Move, Phase, Want};
use crate::machine::{Machine, give, given_or};
use crate::source::Source;
use crate::statements::{eval, exec, leave, turns_in};
use c_typed::{Expr, Operation, Stmt, ValueType};
use c_values::{converted, element, is_true, operated, signed, truth};
use std::alloc::AllocError;

impl<'a> Machine<'a> {
    /// The old value of a place in memory waits for the right side.
    fn update_at(
        &mut self,
        ty: ValueType,
        address: i64,
        within: ValueType,
        op: Operation,
        value: &'a Expr,
        number: u32,
    ) -> Result<Move<'a>, AllocError>
        ensures { IfOk result (λ r. move_of r (machine_of self.new) ≡ m.old_or (m.read ty address (machine_of self.old)) ty address within op (expr_of value.now) number (machine_of self.old)) }
    {
        match self.read(ty, address) {
            Ok(old) => self.operand(
                Frame::UpdateValue {
                    ty,
                    address,
                    within,
                    op,
                    old,
                    number,
                },
                value,
                number,
            ),
            Err(kind) => Ok(Move::Faults { number, kind }),
        }
    }

    /// `++` or `--` behind a place in memory.
    fn step_at(
        &mut self,
        ty: ValueType,
        address: i64,
        within: ValueType,
        op: Operation,
        number: u32,
    ) -> Move<'a>
        ensures { move_of result (machine_of self.new) ≡ m.stepped_or (m.read ty address (machine_of self.old)) ty address within op number (machine_of self.old) }
    {
        match self.read(ty, address) {
            Ok(old) => {
                let new = operated(op, converted(within, old), 1);
                self.store_or(new, ty, address, Some(old), number)
            }
            Err(kind) => Move::Faults { number, kind },
        }
    }

    /// The second operand of `&&` or `||` decides.
    fn decide(&mut self, right: &'a Expr, number: u32) -> Result<Move<'a>, AllocError>
        ensures { IfOk result (λ r. move_of r (machine_of self.new) ≡ m.decide (expr_of right.now) number (machine_of self.old)) }
    {
        self.operand(Frame::Truth, right, number)
    }

    fn hold(&mut self, value: i64, rest: &'a [Expr], number: u32) -> Result<Move<'a>, AllocError>
        ensures { IfOk result (λ r. move_of r (machine_of self.new) ≡ m.hold (list_exps rest.now) value number (machine_of self.old)) }
    {
        self.push(Frame::Held { value })?;
        self.pass_first(rest, number)
    }

    /// The value of a test, or of a loop's last part.
    fn give_control(
        &mut self,
        phase: Phase,
        stmt: &'a Stmt,
        value: i64,
    ) -> Result<Move<'a>, AllocError>
        ensures { (source : Program) → IfOk result (λ r. move_of r (machine_of self.new) ≡ m.give_to source (control_frame phase (stmt_of stmt.now)) value (machine_of self.old)) }
    {
        match phase {
            Phase::Choice => Ok(choice(stmt, is_true(value))),
            Phase::Test => Ok(if is_true(value) {
                Move::Wants {
                    want: Want::Turn { stmt },
                }
            } else {
                leave(Exit::Next)
            }),
            Phase::Last => self.again(stmt),
            Phase::Begin | Phase::Body => Ok(give(value)),
        }
    }

    /// Gives a value to an operation that it completes.
    fn complete(&self, source: &Source, frame: &Frame<'a>, value: i64) -> Move<'a>
        requires { IsDoneBy frame.now }
        ensures { move_of result (machine_of self.now) ≡ m.give_to (program_of source.now) (frame_of frame.now) value (machine_of self.now) }
    {
        match *frame {
            Frame::Element {
                array,
                length,
                size,
                reach,
                number,
            } => {
                let start = source.storage(self.base, array);
                given_or(element(start, length, size, reach, value), number)
            }
            Frame::Load { ty, number } => given_or(self.read(ty, value), number),
            Frame::Convert { ty } => give(converted(ty, value)),
            Frame::Unary { op, rank } => give(signed(op, rank, value)),
            Frame::Not => give(truth(!is_true(value))),
            Frame::Right { op, left, number } => given_or(operated(op, left, value), number),
            Frame::Truth => give(truth(is_true(value))),
            _ => unreachable!(),
        }
    }

    /// Gives a value to what sets a variable or stores.
    fn change(&mut self, frame: &Frame<'a>, value: i64) -> Move<'a>
        requires { Changes frame.now }
        ensures { (source : Program) → move_of result (machine_of self.new) ≡ m.give_to source (frame_of frame.now) value (machine_of self.old) }
    {
        match *frame {
            Frame::SetSlot { slot } => {
                self.set_slot(slot, value);
                give(value)
            }
            Frame::StoreValue {
                ty,
                address,
                number,
            } => self.store(ty, address, value, value, number),
            Frame::UpdateSlot {
                ty,
                slot,
                within,
                op,
                old,
                number,
            } => {
                let new = operated(op, converted(within, old), value);
                self.set_or(new, ty, slot, None, number)
            }
            Frame::UpdateValue {
                ty,
                address,
                within,
                op,
                old,
                number,
            } => {
                let new = operated(op, converted(within, old), value);
                self.store_or(new, ty, address, None, number)
            }
            Frame::StepAt {
                ty,
                within,
                op,
                number,
            } => self.step_at(ty, value, within, op, number),
            _ => unreachable!(),
        }
    }

    /// Gives a value to an operation that needs another expression behind it, or one of two.
    fn follow(&mut self, frame: &Frame<'a>, value: i64) -> Result<Move<'a>, AllocError>
        requires { GoesOnBy frame.now }
        ensures { (source : Program) → IfOk result (λ r. move_of r (machine_of self.new) ≡ m.give_to source (frame_of frame.now) value (machine_of self.old)) }
    {
        match *frame {
            Frame::Left { op, right, number } => self.operand(
                Frame::Right {
                    op,
                    left: value,
                    number,
                },
                right,
                number,
            ),
            Frame::Both { right, number } => {
                if is_true(value) {
                    self.decide(right, number)
                } else {
                    Ok(give(0))
                }
            }
            Frame::Either { right, number } => {
                if is_true(value) {
                    Ok(give(1))
                } else {
                    self.decide(right, number)
                }
            }
            Frame::Choice {
                here,
                other,
                number,
            } => Ok(if is_true(value) {
                eval(here, number)
            } else {
                eval(other, number)
            }),
            Frame::StoreAt {
                ty,
                value: right,
                number,
            } => self.operand(
                Frame::StoreValue {
                    ty,
                    address: value,
                    number,
                },
                right,
                number,
            ),
            Frame::UpdateAt {
                ty,
                within,
                op,
                value: right,
                number,
            } => self.update_at(ty, value, within, op, right, number),
            _ => unreachable!(),
        }
    }

    /// Gives a value to what waits first; the machine is without it.
    pub(crate) fn give_to(
        &mut self,
        source: &Source,
        frame: &Frame<'a>,
        value: i64,
    ) -> Result<Move<'a>, AllocError>
        ensures { IfOk result (λ r. move_of r (machine_of self.new) ≡ m.give_to (program_of source.now) (frame_of frame.now) value (machine_of self.old)) }
    {
        match *frame {
            Frame::Element { .. }
            | Frame::Load { .. }
            | Frame::Convert { .. }
            | Frame::Unary { .. }
            | Frame::Not
            | Frame::Right { .. }
            | Frame::Truth => Ok(self.complete(source, frame, value)),
            Frame::SetSlot { .. }
            | Frame::StoreValue { .. }
            | Frame::UpdateSlot { .. }
            | Frame::UpdateValue { .. }
            | Frame::StepAt { .. } => Ok(self.change(frame, value)),
            Frame::Left { .. }
            | Frame::Both { .. }
            | Frame::Either { .. }
            | Frame::Choice { .. }
            | Frame::StoreAt { .. }
            | Frame::UpdateAt { .. } => self.follow(frame, value),
            Frame::Argument { rest, number } => self.hold(value, rest, number),
            Frame::PutByte => Ok(Move::Asks {
                ask: Ask::PutByte { value },
            }),
            Frame::PutNumber => Ok(Move::Asks {
                ask: Ask::PutNumber { value },
            }),
            Frame::Comma { rest, last, number } => self.comma_first(rest, last, number),
            Frame::Discard => Ok(leave(Exit::Next)),
            Frame::Parts { rest, number } => self.parts_first(rest, number),
            Frame::Control { phase, stmt } => self.give_control(phase, stmt, value),
            Frame::GiveBack => Ok(leave(Exit::OnReturn { value })),
            Frame::Held { .. } | Frame::Callee { .. } | Frame::Rest { .. } | Frame::Called { .. } =>
                Ok(give(value)),
        }
    }

    /// Gives a value to what waits first, which is then done.
    pub(crate) fn give(&mut self, source: &Source, value: i64) -> Result<Move<'a>, AllocError>
        ensures { IfOk result (λ r. move_of r (machine_of self.new) ≡ m.give (program_of source.now) value (machine_of self.old).frames (machine_of self.old)) }
    {
        match self.frames.pop() {
            None => Ok(Move::Ends { result: value }),
            Some(frame) => {
                let given = self.give_to(source, &frame, value);
                drop(frame);
                given
            }
        }
    }
}

/// What an `if` does behind its test.
fn choice<'a>(stmt: &'a Stmt, holds: bool) -> Move<'a>
    ensures { (machine : Plain) → move_of result machine ≡ m.choice (stmt_of stmt.now) holds machine }
{
    match stmt {
        Stmt::If { then, .. } => { if holds { exec(then) } else { leave(Exit::Next) } }
        Stmt::IfElse { then, other, .. } => { if holds { exec(then) } else { exec(other) } }
        Stmt::Block { .. }
        | Stmt::Empty { .. }
        | Stmt::Expr { .. }
        | Stmt::While { .. }
        | Stmt::DoWhile { .. }
        | Stmt::For { .. }
        | Stmt::Break { .. }
        | Stmt::Continue { .. }
        | Stmt::Return { .. }
        | Stmt::Local { .. } => leave(Exit::Next),
    }
}
