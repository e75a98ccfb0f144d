//! What the operators give, or the rule that they break.

ghost use Rattle.std.specs.Prelude.{◌≡◌, [], IfOk, Some, None};
ghost use Rattle.c_typed.specs.Views.{expr_of};
ghost use Rattle.c_ast.specs.TreeViews as source;
ghost use Rattle.c_types_operators.specs.Operators.{is_logical, logical_value, binary_value, conditional_value, within, restored, assignment, element_of, indexed_pointer, index_value};
ghost use Rattle.c_types_operators.specs.Rules.{Fine};
ghost use Rattle.c_types_operators.specs.Judging.{Judges};
ghost use Rattle.c_types_operators.specs.Views.{designated_of, target_of};

use crate::designated::{ArrayAt, Designated, Target};
use crate::nodes;
use crate::notes::Notes;
use crate::operators::{Judged, integer_operand, stored_as, value_of};
use c_ast::{AssignOp, BinaryOp};
use c_typed::{Choice, Expr, Rule, branches, chosen, fits, type_of};
use ib_base::Place;
use std::alloc::{AllocError, Global};

pub fn binary_value(
    alloc: Global,
    notes: &mut Notes<'_>,
    place: Place,
    op: BinaryOp,
    left: Judged<'_>,
    right: Judged<'_>,
) -> Result<Option<Designated>, AllocError>
    ensures { IfOk result (λ answer. Judges designated_of notes.old [] (binary_value place op (source.expr_of left.entry.source.now) (source.expr_of right.entry.source.now) (expr_of left.entry.value.value) (expr_of right.entry.value.value)) answer notes.new) }
{
    let x = nodes::operand(left.source, &left.value);
    let y = nodes::operand(right.source, &right.value);
    let Some(choice) = chosen(op, x, y) else {
        notes.breaks(Rule::WrongOperands, place);
        return Ok(None);
    };
    let value = nodes::applied(alloc, choice, left.value, right.value)?;
    Ok(Some(Designated::Value(value)))
}

pub fn conditional_value(
    alloc: Global,
    notes: &mut Notes<'_>,
    place: Place,
    test: Box<Expr>,
    then: Judged<'_>,
    other: Judged<'_>,
) -> Result<Option<Designated>, AllocError>
    ensures { IfOk result (λ answer. Judges designated_of notes.old [] (conditional_value place (source.expr_of then.entry.source.now) (source.expr_of other.entry.source.now) (expr_of test.value) (expr_of then.entry.value.value, expr_of other.entry.value.value)) answer notes.new) }
{
    let x = nodes::operand(then.source, &then.value);
    let y = nodes::operand(other.source, &other.value);
    let Some(ty) = branches(x, y) else {
        notes.breaks(Rule::WrongOperands, place);
        return Ok(None);
    };
    let value = nodes::branch(alloc, ty, test, then.value, other.value)?;
    Ok(Some(Designated::Value(value)))
}

/// Whether it is `&&` or `||`.
pub fn is_logical(op: BinaryOp) -> bool
    ensures { result ≡ is_logical op }
{
    matches!(op, BinaryOp::And | BinaryOp::Or)
}

pub fn logical_value(
    alloc: Global,
    op: BinaryOp,
    x: Box<Expr>,
    y: Box<Expr>,
) -> Result<Designated, AllocError>
    ensures { IfOk result (λ made. Fine (designated_of made) ≡ logical_value op (expr_of x.value) (expr_of y.value)) }
{
    if let BinaryOp::And = op {
        return Ok(Designated::Value(nodes::both(alloc, x, y)?));
    }
    Ok(Designated::Value(nodes::either(alloc, x, y)?))
}

fn within(op: AssignOp) -> Option<BinaryOp>
    ensures { result ≡ within op }
{
    match op {
        AssignOp::Set => None,
        AssignOp::Add => Some(BinaryOp::Add),
        AssignOp::Sub => Some(BinaryOp::Sub),
        AssignOp::Mul => Some(BinaryOp::Mul),
        AssignOp::Div => Some(BinaryOp::Div),
        AssignOp::Rem => Some(BinaryOp::Rem),
        AssignOp::ShiftLeft => Some(BinaryOp::ShiftLeft),
        AssignOp::ShiftRight => Some(BinaryOp::ShiftRight),
        AssignOp::BitAnd => Some(BinaryOp::BitAnd),
        AssignOp::BitXor => Some(BinaryOp::BitXor),
        AssignOp::BitOr => Some(BinaryOp::BitOr),
    }
}

/// The result of a compound assignment can be stored where the old value was.
fn restored(
    alloc: Global,
    notes: &mut Notes<'_>,
    target: Target,
    choice: Choice,
    right: Judged<'_>,
) -> Result<Option<Designated>, AllocError>
    ensures { IfOk result (λ answer. Judges designated_of notes.old [] (restored (source.expr_of right.entry.source.now) (target_of target) (expr_of right.entry.value.value) choice) answer notes.new) }
{
    let new = nodes::plain_operand(choice.result);
    if fits(nodes::target_type(&target), new) {
        let x = nodes::converted(alloc, choice.right, right.value)?;
        let value = nodes::updated(alloc, target, choice, x)?;
        return Ok(Some(Designated::Value(value)));
    }
    notes.breaks(Rule::NotAssignable, nodes::anchor(right.source));
    Ok(None)
}

fn plain_assignment(
    alloc: Global,
    notes: &mut Notes<'_>,
    place: Place,
    target: Target,
    right: Judged<'_>,
) -> Result<Option<Designated>, AllocError>
    ensures { IfOk result (λ answer. Judges designated_of notes.old [] (assignment place None (source.expr_of right.entry.source.now) (target_of target) (expr_of right.entry.value.value)) answer notes.new) }
{
    let ty = nodes::target_type(&target);
    let Some(x) = stored_as(alloc, notes, ty, right.source, right.value)? else {
        return Ok(None);
    };
    let value = nodes::assigned(alloc, target, x)?;
    Ok(Some(Designated::Value(value)))
}

fn compound_assignment(
    alloc: Global,
    notes: &mut Notes<'_>,
    place: Place,
    op: BinaryOp,
    target: Target,
    right: Judged<'_>,
) -> Result<Option<Designated>, AllocError>
    ensures { IfOk result (λ answer. Judges designated_of notes.old [] (assignment place (Some op) (source.expr_of right.entry.source.now) (target_of target) (expr_of right.entry.value.value)) answer notes.new) }
{
    let old = nodes::plain_operand(nodes::target_type(&target));
    let x = nodes::operand(right.source, &right.value);
    let Some(choice) = chosen(op, old, x) else {
        notes.breaks(Rule::WrongOperands, place);
        return Ok(None);
    };
    restored(alloc, notes, target, choice, right)
}

pub fn assignment(
    alloc: Global,
    notes: &mut Notes<'_>,
    place: Place,
    op: AssignOp,
    target: Target,
    right: Judged<'_>,
) -> Result<Option<Designated>, AllocError>
    ensures { IfOk result (λ answer. Judges designated_of notes.old [] (assignment place (within op) (source.expr_of right.entry.source.now) (target_of target) (expr_of right.entry.value.value)) answer notes.new) }
{
    match within(op) {
        Some(op) => compound_assignment(alloc, notes, place, op, target, right),
        None => plain_assignment(alloc, notes, place, target, right),
    }
}

fn indexed_pointer(
    alloc: Global,
    notes: &mut Notes<'_>,
    place: Place,
    x: Box<Expr>,
    index: Box<Expr>,
) -> Result<Option<Designated>, AllocError>
    ensures { IfOk result (λ answer. Judges designated_of notes.old [] (indexed_pointer place (expr_of index.value) (expr_of x.value)) answer notes.new) }
{
    let pointer = type_of(&x);
    if pointer.leads() && type_of(&index).is_integer() {
        let address = nodes::advanced(alloc, pointer, x, index)?;
        return Ok(Some(Designated::Cell {
            ty: pointer.pointee(),
            address,
        }));
    }
    notes.breaks(Rule::WrongOperands, place);
    Ok(None)
}

fn array_element(
    notes: &mut Notes<'_>,
    place: Place,
    array: ArrayAt,
    index: Box<Expr>,
) -> Option<Designated>
    ensures { Judges designated_of notes.old [] (element_of place array.element array.storage array.length (expr_of index.value)) result notes.new }
{
    let index = integer_operand(notes, place, index)?;
    Some(Designated::Element { array, index })
}

/// An element of a declared array, or what a pointer and an index lead to.
pub fn index_value(
    alloc: Global,
    notes: &mut Notes<'_>,
    place: Place,
    base: Designated,
    index: Box<Expr>,
) -> Result<Option<Designated>, AllocError>
    ensures { IfOk result (λ answer. Judges designated_of notes.old [] (index_value place (designated_of base) (expr_of index.value)) answer notes.new) }
{
    if let Designated::Array(array) = base {
        return Ok(array_element(notes, place, array, index));
    }
    let x = value_of(alloc, base)?;
    indexed_pointer(alloc, notes, place, x, index)
}
