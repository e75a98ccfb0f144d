//! What operators of one operand give, or the rule that they break.

ghost use Rattle.std.specs.Prelude.{◌≡◌, [], IfOk};
ghost use Rattle.c_ast.specs.TreeViews as source;
ghost use Rattle.c_ast.specs.declared.tree.UnaryOp.TheVariants as u;
ghost use Rattle.c_typed.specs.Views.{expr_of};
ghost use Rattle.c_types_operators.specs.Rules.{Fine};
ghost use Rattle.c_types_operators.specs.Operators.{anchor, value_as, address_of, prefix_of, postfix_of, not_of, of_value, unary_of, unary_value, signed_value, counted, prefix_value, postfix_value, step_of, cast_value};
ghost use Rattle.c_types_operators.specs.Judging.{Judges};
ghost use Rattle.c_types_operators.specs.Views.{designated_of, target_of};

use crate::designated::{Designated, Target};
use crate::nodes;
use crate::notes::Notes;
use crate::operators::{Operand, address_of, integer_operand, place_of, tested, value_of};
use c_ast::{BinaryOp, PostfixOp, UnaryOp};
use c_typed::{Choice, Expr, INT, Rule, Sign, ValueType, chosen, type_of};
use ib_base::Place;
use std::alloc::{AllocError, Global};

fn dereferenced(notes: &mut Notes<'_>, place: Place, x: Box<Expr>) -> Option<Designated>
    ensures { Judges designated_of notes.old [] (unary_value place u.Dereference (expr_of x.value)) result notes.new }
{
    let ty = type_of(&x);
    if ty.leads() {
        return Some(Designated::Cell {
            ty: ty.pointee(),
            address: x,
        });
    }
    notes.breaks(Rule::WrongOperands, place);
    None
}

fn promoted(
    alloc: Global,
    notes: &mut Notes<'_>,
    place: Place,
    x: Box<Expr>,
) -> Result<Option<Designated>, AllocError>
    ensures { IfOk result (λ answer. Judges designated_of notes.old [] (unary_value place u.Plus (expr_of x.value)) answer notes.new) }
{
    let Some(x) = integer_operand(notes, place, x) else {
        return Ok(None);
    };
    let rank = type_of(&x).promoted();
    let value = nodes::converted(alloc, rank.value_type(), x)?;
    Ok(Some(Designated::Value(value)))
}

fn signed(
    alloc: Global,
    notes: &mut Notes<'_>,
    place: Place,
    op: Sign,
    x: Box<Expr>,
) -> Result<Option<Designated>, AllocError>
    ensures { IfOk result (λ answer. Judges designated_of notes.old [] (signed_value place op (expr_of x.value)) answer notes.new) }
{
    let Some(x) = integer_operand(notes, place, x) else {
        return Ok(None);
    };
    let value = nodes::signed(alloc, op, x)?;
    Ok(Some(Designated::Value(value)))
}

/// `*`, `+`, `-` and `~`, which work on a value.
fn of_value(
    alloc: Global,
    notes: &mut Notes<'_>,
    place: Place,
    op: UnaryOp,
    x: Box<Expr>,
) -> Result<Option<Designated>, AllocError>
    ensures { IfOk result (λ answer. Judges designated_of notes.old [] (unary_value place op (expr_of x.value)) answer notes.new) }
{
    match op {
        UnaryOp::Dereference => Ok(dereferenced(notes, place, x)),
        UnaryOp::Plus => promoted(alloc, notes, place, x),
        UnaryOp::Minus => signed(alloc, notes, place, Sign::Minus, x),
        UnaryOp::BitNot => signed(alloc, notes, place, Sign::BitNot, x),
        UnaryOp::Increment | UnaryOp::Decrement | UnaryOp::AddressOf | UnaryOp::Not => {
            notes.breaks(Rule::WrongOperands, place);
            Ok(None)
        }
    }
}

fn counted(op: BinaryOp, target: &Target) -> Option<Choice>
    ensures { result ≡ counted op (target_of target.now) }
{
    let old = nodes::plain_operand(nodes::target_type(target));
    chosen(op, old, nodes::plain_operand(INT))
}

fn prefix_value(
    alloc: Global,
    notes: &mut Notes<'_>,
    place: Place,
    op: BinaryOp,
    target: Target,
) -> Result<Option<Designated>, AllocError>
    ensures { IfOk result (λ answer. Judges designated_of notes.old [] (prefix_value place op (target_of target)) answer notes.new) }
{
    let Some(choice) = counted(op, &target) else {
        notes.breaks(Rule::WrongOperands, place);
        return Ok(None);
    };
    let step = nodes::one(alloc)?;
    let one = nodes::converted(alloc, choice.right, step)?;
    let value = nodes::updated(alloc, target, choice, one)?;
    Ok(Some(Designated::Value(value)))
}

fn postfix_value(
    alloc: Global,
    notes: &mut Notes<'_>,
    place: Place,
    op: BinaryOp,
    target: Target,
) -> Result<Option<Designated>, AllocError>
    ensures { IfOk result (λ answer. Judges designated_of notes.old [] (postfix_value place op (target_of target)) answer notes.new) }
{
    let Some(choice) = counted(op, &target) else {
        notes.breaks(Rule::WrongOperands, place);
        return Ok(None);
    };
    let value = nodes::stepped(alloc, target, choice)?;
    Ok(Some(Designated::Value(value)))
}

fn step_of(op: PostfixOp) -> BinaryOp
    ensures { result ≡ step_of op }
{
    match op {
        PostfixOp::Increment => BinaryOp::Add,
        PostfixOp::Decrement => BinaryOp::Sub,
    }
}

/// `++` or `--` behind its operand.
pub fn postfix(
    alloc: Global,
    notes: &mut Notes<'_>,
    place: Place,
    op: PostfixOp,
    operand: Operand<'_>,
) -> Result<Option<Designated>, AllocError>
    ensures { IfOk result (λ answer. Judges designated_of notes.old [] (postfix_of place op (source.expr_of operand.entry.source.now) (Fine (designated_of operand.entry.designated))) answer notes.new) }
{
    let Some(target) = place_of(
        alloc,
        notes,
        nodes::anchor(operand.source),
        operand.designated,
    )?
    else {
        return Ok(None);
    };
    let answer = postfix_value(alloc, notes, place, step_of(op), target)?;
    Ok(answer)
}

fn prefix(
    alloc: Global,
    notes: &mut Notes<'_>,
    place: Place,
    op: BinaryOp,
    operand: Operand<'_>,
) -> Result<Option<Designated>, AllocError>
    ensures { IfOk result (λ answer. Judges designated_of notes.old [] (prefix_of place op (source.expr_of operand.entry.source.now) (Fine (designated_of operand.entry.designated))) answer notes.new) }
{
    let Some(target) = place_of(
        alloc,
        notes,
        nodes::anchor(operand.source),
        operand.designated,
    )?
    else {
        return Ok(None);
    };
    let answer = prefix_value(alloc, notes, place, op, target)?;
    Ok(answer)
}

fn address(
    alloc: Global,
    notes: &mut Notes<'_>,
    operand: Operand<'_>,
) -> Result<Option<Designated>, AllocError>
    ensures { IfOk result (λ answer. Judges designated_of notes.old [] (value_as (address_of (anchor (source.expr_of operand.entry.source.now)) (designated_of operand.entry.designated))) answer notes.new) }
{
    match address_of(
        alloc,
        notes,
        nodes::anchor(operand.source),
        operand.designated,
    )? {
        Some(value) => Ok(Some(Designated::Value(value))),
        None => Ok(None),
    }
}

fn negated(
    alloc: Global,
    notes: &mut Notes<'_>,
    operand: Operand<'_>,
) -> Result<Option<Designated>, AllocError>
    ensures { IfOk result (λ answer. Judges designated_of notes.old [] (not_of (source.expr_of operand.entry.source.now) (Fine (designated_of operand.entry.designated))) answer notes.new) }
{
    let x = value_of(alloc, operand.designated)?;
    let Some(test) = tested(notes, operand.source, x) else {
        return Ok(None);
    };
    let value = nodes::not(alloc, test)?;
    Ok(Some(Designated::Value(value)))
}

/// A cast is from integer to integer.
pub fn cast_value(
    alloc: Global,
    notes: &mut Notes<'_>,
    place: Place,
    to: ValueType,
    x: Box<Expr>,
) -> Result<Option<Designated>, AllocError>
    ensures { IfOk result (λ answer. Judges designated_of notes.old [] (cast_value place to (expr_of x.value)) answer notes.new) }
{
    if to.is_integer() && type_of(&x).is_integer() {
        let value = nodes::converted(alloc, to, x)?;
        return Ok(Some(Designated::Value(value)));
    }
    notes.breaks(Rule::WrongOperands, place);
    Ok(None)
}

fn on_value(
    alloc: Global,
    notes: &mut Notes<'_>,
    place: Place,
    op: UnaryOp,
    d: Designated,
) -> Result<Option<Designated>, AllocError>
    ensures { IfOk result (λ answer. Judges designated_of notes.old [] (of_value place op (Fine (designated_of d))) answer notes.new) }
{
    let x = value_of(alloc, d)?;
    let answer = of_value(alloc, notes, place, op, x)?;
    Ok(answer)
}

/// An operator before its operand.
pub fn unary(
    alloc: Global,
    notes: &mut Notes<'_>,
    place: Place,
    op: UnaryOp,
    operand: Operand<'_>,
) -> Result<Option<Designated>, AllocError>
    ensures { IfOk result (λ answer. Judges designated_of notes.old [] (unary_of place op (source.expr_of operand.entry.source.now) (Fine (designated_of operand.entry.designated))) answer notes.new) }
{
    match op {
        UnaryOp::Increment => prefix(alloc, notes, place, BinaryOp::Add, operand),
        UnaryOp::Decrement => prefix(alloc, notes, place, BinaryOp::Sub, operand),
        UnaryOp::AddressOf => address(alloc, notes, operand),
        UnaryOp::Not => negated(alloc, notes, operand),
        UnaryOp::Dereference => on_value(
            alloc,
            notes,
            place,
            UnaryOp::Dereference,
            operand.designated,
        ),
        UnaryOp::Plus => on_value(alloc, notes, place, UnaryOp::Plus, operand.designated),
        UnaryOp::Minus => on_value(alloc, notes, place, UnaryOp::Minus, operand.designated),
        UnaryOp::BitNot => on_value(alloc, notes, place, UnaryOp::BitNot, operand.designated),
    }
}
