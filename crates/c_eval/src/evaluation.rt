ghost use Rattle.std.specs.Prelude.{◌≡◌, IfOk, MatchOption, [], ◌∷◌};
ghost use Rattle.c_typed.specs.Program.{Program};
ghost use Rattle.c_typed.specs.Views.{expr_of, list_exps};
ghost use Rattle.c_eval.specs.Machines.{machine_of};
ghost use Rattle.c_eval.specs.Programs.{program_of};
ghost use Rattle.c_eval.specs.Moves as m;
ghost use Rattle.c_eval.specs.Views.{move_of};
ghost use Rattle.c_eval.specs.Groups.{IsOperation, IsEffect};

use crate::frame::{Ask, Frame, Move, Task};
use crate::machine::{Machine, give};
use crate::source::Source;
use c_typed::{Expr, Operation, ValueType};
use c_values::{converted, operated};
use std::alloc::AllocError;

/// The first of some expressions, and the others.
pub(crate) fn first_expr<'a>(all: &'a [Expr]) -> Option<(&'a Expr, &'a [Expr])>
    ensures { MatchOption result (all.now ≡ []) (λ it. all.now ≡ it.0.now ∷ it.1.now) }
{
    all.split_first()
}

impl<'a> Machine<'a> {
    /// Evaluates arguments one after the other, and passes them.
    pub(crate) fn pass_first(
        &mut self,
        all: &'a [Expr],
        number: u32,
    ) -> Result<Move<'a>, AllocError>
        ensures { IfOk result (λ r. move_of r (machine_of self.new) ≡ m.pass_first (list_exps all.now) number (machine_of self.old)) }
    {
        match first_expr(all) {
            None => {
                self.arguments.clear();
                Ok(Move::Goes { task: Task::Pass })
            }
            Some((expr, rest)) => { self.operand(Frame::Argument { rest, number }, expr, number) }
        }
    }

    /// Evaluates the parts of a comma one after the other.
    pub(crate) fn comma_first(
        &mut self,
        all: &'a [Expr],
        last: &'a Expr,
        number: u32,
    ) -> Result<Move<'a>, AllocError>
        ensures { IfOk result (λ r. move_of r (machine_of self.new) ≡ m.comma_first (list_exps all.now) (expr_of last.now) number (machine_of self.old)) }
    {
        match first_expr(all) {
            None => Ok(Move::Goes {
                task: Task::Eval { expr: last, number },
            }),
            Some((expr, rest)) => self.operand(Frame::Comma { rest, last, number }, expr, number),
        }
    }

    fn call(
        &mut self,
        function: u32,
        arguments: &'a [Expr],
        number: u32,
    ) -> Result<Move<'a>, AllocError>
        ensures { IfOk result (λ r. move_of r (machine_of self.new) ≡ m.eval_call function (list_exps arguments.now) number (machine_of self.old)) }
    {
        self.push(Frame::Callee { function, number })?;
        self.pass_first(arguments, number)
    }

    fn step_slot(
        &mut self,
        ty: ValueType,
        slot: u32,
        within: ValueType,
        op: Operation,
        number: u32,
    ) -> Move<'a>
        ensures { move_of result (machine_of self.new) ≡ m.step_slot ty slot within op number (machine_of self.old) }
    {
        let old = self.slot(slot);
        let new = operated(op, converted(within, old), 1);
        self.set_or(new, ty, slot, Some(old), number)
    }

    /// Evaluates an operation as far as its first operand.
    fn eval_operation(&mut self, expr: &'a Expr, number: u32) -> Result<Move<'a>, AllocError>
        requires { IsOperation (expr_of expr.now) }
        ensures { (source : Program) → IfOk result (λ r. move_of r (machine_of self.new) ≡ m.eval source (expr_of expr.now) number (machine_of self.old)) }
    {
        match expr {
            Expr::Element {
                array,
                length,
                size,
                reach,
                index,
                ..
            } => self.operand(
                Frame::Element {
                    array: *array,
                    length: *length,
                    size: *size,
                    reach: *reach,
                    number,
                },
                index,
                number,
            ),
            Expr::Load { ty, address } => self.operand(
                Frame::Load { ty: *ty, number },
                address,
                number,
            ),
            Expr::Convert { to, operand } => self.operand(
                Frame::Convert { ty: *to },
                operand,
                number,
            ),
            Expr::Unary { op, rank, operand } => self.operand(
                Frame::Unary {
                    op: *op,
                    rank: *rank,
                },
                operand,
                number,
            ),
            Expr::Not { operand } => self.operand(Frame::Not, operand, number),
            Expr::Binary {
                op,
                left,
                right,
                ..
            } => self.operand(
                Frame::Left {
                    op: *op,
                    right,
                    number,
                },
                left,
                number,
            ),
            Expr::And { left, right } => self.operand(Frame::Both { right, number }, left, number),
            Expr::Or { left, right } => self.operand(Frame::Either { right, number }, left, number),
            Expr::Conditional {
                test,
                then,
                other,
                ..
            } => self.operand(
                Frame::Choice {
                    here: then,
                    other,
                    number,
                },
                test,
                number,
            ),
            _ => unreachable!(),
        }
    }

    /// Evaluates what sets a variable, stores or prints as far as its first operand.
    fn eval_effect(&mut self, expr: &'a Expr, number: u32) -> Result<Move<'a>, AllocError>
        requires { IsEffect (expr_of expr.now) }
        ensures { (source : Program) → IfOk result (λ r. move_of r (machine_of self.new) ≡ m.eval source (expr_of expr.now) number (machine_of self.old)) }
    {
        match expr {
            Expr::SetSlot { slot, value, .. } => self.operand(
                Frame::SetSlot { slot: *slot },
                value,
                number,
            ),
            Expr::Store { ty, address, value } => self.operand(
                Frame::StoreAt {
                    ty: *ty,
                    value,
                    number,
                },
                address,
                number,
            ),
            Expr::UpdateSlot {
                ty,
                slot,
                within,
                op,
                value,
            } => {
                let old = self.slot(*slot);
                self.operand(
                    Frame::UpdateSlot {
                        ty: *ty,
                        slot: *slot,
                        within: *within,
                        op: *op,
                        old,
                        number,
                    },
                    value,
                    number,
                )
            }
            Expr::Update {
                ty,
                address,
                within,
                op,
                value,
            } => self.operand(
                Frame::UpdateAt {
                    ty: *ty,
                    within: *within,
                    op: *op,
                    value,
                    number,
                },
                address,
                number,
            ),
            Expr::Step {
                ty,
                address,
                within,
                op,
            } => self.operand(
                Frame::StepAt {
                    ty: *ty,
                    within: *within,
                    op: *op,
                    number,
                },
                address,
                number,
            ),
            Expr::PutByte { value } => { self.operand(Frame::PutByte, value, number) }
            Expr::PutNumber { value } => { self.operand(Frame::PutNumber, value, number) }
            _ => unreachable!(),
        }
    }

    /// Evaluates an expression of the statement with the number, as far as what comes first.
    pub(crate) fn eval(
        &mut self,
        source: &Source,
        expr: &'a Expr,
        number: u32,
    ) -> Result<Move<'a>, AllocError>
        ensures { IfOk result (λ r. move_of r (machine_of self.new) ≡ m.eval (program_of source.now) (expr_of expr.now) number (machine_of self.old)) }
    {
        match expr {
            Expr::Constant { value, .. } => Ok(give(*value)),
            Expr::Text { ordinal } => Ok(give(source.string(*ordinal))),
            Expr::Address { of, .. } => Ok(give(source.storage(self.base, *of))),
            Expr::Slot { slot, .. } => Ok(give(self.slot(*slot))),
            Expr::StepSlot {
                ty,
                slot,
                within,
                op,
            } => Ok(self.step_slot(*ty, *slot, *within, *op, number)),
            Expr::Call {
                function,
                arguments,
                ..
            } => self.call(*function, arguments.as_slice(), number),
            Expr::GetByte => Ok(Move::Asks { ask: Ask::GetByte }),
            Expr::Comma { parts, last } => self.comma_first(parts.as_slice(), last, number),
            Expr::Element { .. }
            | Expr::Load { .. }
            | Expr::Convert { .. }
            | Expr::Unary { .. }
            | Expr::Not { .. }
            | Expr::Binary { .. }
            | Expr::And { .. }
            | Expr::Or { .. }
            | Expr::Conditional { .. } => self.eval_operation(expr, number),
            Expr::SetSlot { .. }
            | Expr::Store { .. }
            | Expr::UpdateSlot { .. }
            | Expr::Update { .. }
            | Expr::Step { .. }
            | Expr::PutByte { .. }
            | Expr::PutNumber { .. } => self.eval_effect(expr, number),
        }
    }
}
