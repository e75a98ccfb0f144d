ghost use Rattle.std.specs.Prelude.{◌≡◌, map, true, IfOk};
ghost use Rattle.c_typed.specs.Tree.{exps};
ghost use Rattle.c_typed.specs.Views.{expr_of};
ghost use Rattle.tac_lowered.specs.Expressions as e;
ghost use Rattle.tac_trees.specs.Operands.{own_slot, Held};

use c_typed::Expr;
use c_values::{ranked, width_of};
use ib_base::Width;
use std::alloc::AllocError;
use tac_code::{behind, given_by};

/// Whether an expression sets no slot.
#[cycle(quiet)]
#[tactic(auto, using(crate::proofs::Rows::call_weight, crate::proofs::Rows::comma_weight, crate::proofs::Rows::last_weight))]
pub(crate) fn is_quiet(expr: &Expr) -> bool
    ensures { result ≡ e.is_quiet (expr_of expr.now) }
{
    match expr {
        Expr::Constant { .. } => true,
        Expr::Text { .. } => true,
        Expr::Address { .. } => true,
        Expr::Element { index, .. } => is_quiet(index),
        Expr::Slot { .. } => true,
        Expr::Load { address, .. } => is_quiet(address),
        Expr::Convert { operand, .. } => is_quiet(operand),
        Expr::Unary { operand, .. } => is_quiet(operand),
        Expr::Not { operand } => is_quiet(operand),
        Expr::Binary { left, right, .. } => is_quiet(left) && is_quiet(right),
        Expr::And { left, right } => is_quiet(left) && is_quiet(right),
        Expr::Or { left, right } => is_quiet(left) && is_quiet(right),
        Expr::Conditional {
            test,
            then,
            other,
            ..
        } => is_quiet(test) && (is_quiet(then) && is_quiet(other)),
        Expr::SetSlot { .. } => false,
        Expr::Store { address, value, .. } => is_quiet(address) && is_quiet(value),
        Expr::UpdateSlot { .. } => false,
        Expr::Update { address, value, .. } => is_quiet(address) && is_quiet(value),
        Expr::StepSlot { .. } => false,
        Expr::Step { address, .. } => is_quiet(address),
        Expr::Call { arguments, .. } => are_quiet(arguments),
        Expr::GetByte => true,
        Expr::PutByte { value } => is_quiet(value),
        Expr::PutNumber { value } => is_quiet(value),
        Expr::Comma { parts, last } => are_quiet(parts) && is_quiet(last),
    }
}

#[cycle(quiet)]
pub(crate) fn are_quiet(list: &[Expr]) -> bool
    ensures { result ≡ e.are_quiet (exps (map expr_of list.now)) }
{
    for expr in list {
        if !is_quiet(expr) {
            return false;
        }
    }
    true
}

/// A width that an expression's value lies in.
pub(crate) fn width_in(expr: &Expr) -> Width
    ensures { result ≡ e.width_in (expr_of expr.now) }
{
    match expr {
        Expr::Constant { ty, .. } => width_of(*ty),
        Expr::Text { .. } => Width::W8,
        Expr::Address { .. } => Width::W8,
        Expr::Element { .. } => Width::W8,
        Expr::Slot { ty, .. } => width_of(*ty),
        Expr::Load { ty, .. } => width_of(*ty),
        Expr::Convert { to, .. } => width_of(*to),
        Expr::Unary { rank, .. } => ranked(*rank),
        Expr::Not { .. } => Width::W1,
        Expr::Binary { op, .. } => given_by(*op),
        Expr::And { .. } => Width::W1,
        Expr::Or { .. } => Width::W1,
        Expr::Conditional { ty, .. } => width_of(*ty),
        Expr::SetSlot { ty, .. } => width_of(*ty),
        Expr::Store { ty, .. } => width_of(*ty),
        Expr::UpdateSlot { ty, .. } => width_of(*ty),
        Expr::Update { ty, .. } => width_of(*ty),
        Expr::StepSlot { ty, .. } => width_of(*ty),
        Expr::Step { ty, .. } => width_of(*ty),
        Expr::Call { ty, .. } => width_of(*ty),
        Expr::GetByte => Width::W4,
        Expr::PutByte { .. } => Width::W1,
        Expr::PutNumber { .. } => Width::W1,
        Expr::Comma { last, .. } => width_in(last),
    }
}

fn slot_of(expr: &Expr) -> Option<u32>
    ensures { result ≡ own_slot true (expr_of expr.now) }
{
    match expr {
        Expr::Constant { .. } => None,
        Expr::Text { .. } => None,
        Expr::Address { .. } => None,
        Expr::Element { .. } => None,
        Expr::Slot { slot, .. } => Some(*slot),
        Expr::Load { .. } => None,
        Expr::Convert { .. } => None,
        Expr::Unary { .. } => None,
        Expr::Not { .. } => None,
        Expr::Binary { .. } => None,
        Expr::And { .. } => None,
        Expr::Or { .. } => None,
        Expr::Conditional { .. } => None,
        Expr::SetSlot { .. } => None,
        Expr::Store { .. } => None,
        Expr::UpdateSlot { .. } => None,
        Expr::Update { .. } => None,
        Expr::StepSlot { .. } => None,
        Expr::Step { .. } => None,
        Expr::Call { .. } => None,
        Expr::GetByte => None,
        Expr::PutByte { .. } => None,
        Expr::PutNumber { .. } => None,
        Expr::Comma { .. } => None,
    }
}

/// The slot that an operand is read from where it lies, if nothing sets it before.
#[tactic(auto, using(crate::proofs::Holding::held_so))]
pub(crate) fn own_slot(is_kept: bool, expr: &Expr) -> Option<u32>
    ensures slot { result ≡ own_slot is_kept (expr_of expr.now) }
    ensures held { Held result is_kept (expr_of expr.now) }
{
    if is_kept { slot_of(expr) } else { None }
}

/// The first register that is free behind an operand.
pub(crate) fn behind_operand(is_kept: bool, expr: &Expr, register: u32) -> Result<u32, AllocError>
    ensures { IfOk result (λ free. free ≡ e.behind_operand is_kept (expr_of expr.now) register) }
{
    match own_slot(is_kept, expr) {
        Some(_) => Ok(register),
        None => behind(register, 1),
    }
}
