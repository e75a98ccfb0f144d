//! What follows for a whole from its parts, each of which means something or breaks a rule.

ghost use Rattle.std.specs.Prelude.{IfOk};
ghost use Rattle.c_ast.specs.TreeViews as source;
ghost use Rattle.c_typed.specs.Views.{boxed_of};
ghost use Rattle.c_types_operators.specs.ScopeViews.{function_of};
ghost use Rattle.c_types_operators.specs.Operators.{valued, tested_of, placed, given_to, postfix_of, unary_of, cast_of, index_value, logical_value, binary_value, conditional_value, assignment, within, called_with, comma_value, value_as, appended};
ghost use Rattle.c_types_operators.specs.Judging.{Noted, Carries, CarriesBoth};
ghost use Rattle.c_types_operators.specs.Views.{designated_of, target_of, exprs_of, branches_of};

use c_ast::{AssignOp, BinaryOp, PostfixOp, UnaryOp};
use c_typed::{Expr, ValueType};
use c_types_operators::designated::{Designated, Target};
use c_types_operators::notes::Notes;
use c_types_operators::operators::{Judged, Operand};
use c_types_operators::scope::Function;
use c_types_operators::{calls, nodes, operations, operators, unary};
use ib_base::Place;
use std::alloc::{AllocError, Global};

/// The value of an operand.
pub fn valued(alloc: Global, part: Option<Designated>) -> Result<Option<Box<Expr>>, AllocError>
    ensures { IfOk result (λ answer. (now : Noted) → Carries designated_of boxed_of part now valued answer now) }
{
    match part {
        Some(x) => {
            let value = operators::value_of(alloc, x)?;
            Ok(Some(value))
        }
        None => Ok(None),
    }
}

/// A condition, or an operand of `!`, `&&` or `||`.
pub fn tested(notes: &mut Notes<'_>, e: &c_ast::Expr, part: Option<Box<Expr>>) -> Option<Box<Expr>>
    ensures { Carries boxed_of boxed_of part notes.old (tested_of (source.expr_of e.now)) result notes.new }
{
    match part {
        Some(x) => operators::tested(notes, e, x),
        None => None,
    }
}

/// Where a value can be stored.
pub fn placed(
    alloc: Global,
    notes: &mut Notes<'_>,
    e: &c_ast::Expr,
    part: Option<Designated>,
) -> Result<Option<Target>, AllocError>
    ensures { IfOk result (λ answer. Carries designated_of target_of part notes.old (placed (source.expr_of e.now)) answer notes.new) }
{
    match part {
        Some(x) => {
            let answer = operators::place_of(alloc, notes, nodes::anchor(e), x)?;
            Ok(answer)
        }
        None => Ok(None),
    }
}

/// An argument, where the parameters from its own on have these types.
pub fn passed(
    alloc: Global,
    notes: &mut Notes<'_>,
    wanted: &[ValueType],
    e: &c_ast::Expr,
    part: Option<Box<Expr>>,
) -> Result<Option<Box<Expr>>, AllocError>
    ensures { IfOk result (λ answer. Carries boxed_of boxed_of part notes.old (given_to wanted.now (source.expr_of e.now)) answer notes.new) }
{
    match part {
        Some(x) => {
            let answer = calls::passed(alloc, notes, wanted, e, x)?;
            Ok(answer)
        }
        None => Ok(None),
    }
}

pub fn postfix(
    alloc: Global,
    notes: &mut Notes<'_>,
    place: Place,
    op: PostfixOp,
    e: &c_ast::Expr,
    part: Option<Designated>,
) -> Result<Option<Designated>, AllocError>
    ensures { IfOk result (λ answer. Carries designated_of designated_of part notes.old (postfix_of place op (source.expr_of e.now)) answer notes.new) }
{
    match part {
        Some(x) => {
            let answer = unary::postfix(alloc, notes, place, op, Operand::new(e, x))?;
            Ok(answer)
        }
        None => Ok(None),
    }
}

pub fn unary(
    alloc: Global,
    notes: &mut Notes<'_>,
    place: Place,
    op: UnaryOp,
    e: &c_ast::Expr,
    part: Option<Designated>,
) -> Result<Option<Designated>, AllocError>
    ensures { IfOk result (λ answer. Carries designated_of designated_of part notes.old (unary_of place op (source.expr_of e.now)) answer notes.new) }
{
    match part {
        Some(x) => {
            let answer = unary::unary(alloc, notes, place, op, Operand::new(e, x))?;
            Ok(answer)
        }
        None => Ok(None),
    }
}

pub fn cast(
    alloc: Global,
    notes: &mut Notes<'_>,
    place: Place,
    to: ValueType,
    part: Option<Box<Expr>>,
) -> Result<Option<Designated>, AllocError>
    ensures { IfOk result (λ answer. Carries boxed_of designated_of part notes.old (cast_of place to) answer notes.new) }
{
    match part {
        Some(x) => {
            let answer = unary::cast_value(alloc, notes, place, to, x)?;
            Ok(answer)
        }
        None => Ok(None),
    }
}

/// A comma expression with these parts.
pub fn comma(
    alloc: Global,
    notes: &mut Notes<'_>,
    place: Place,
    part: Option<Vec<Expr>>,
) -> Result<Option<Box<Expr>>, AllocError>
    ensures { IfOk result (λ answer. Carries exprs_of boxed_of part notes.old (comma_value place) answer notes.new) }
{
    match part {
        Some(x) => {
            let answer = calls::comma(alloc, notes, place, x)?;
            Ok(answer)
        }
        None => Ok(None),
    }
}

/// What an expression is that is a value.
pub fn as_value(part: Option<Box<Expr>>) -> Option<Designated>
    ensures { (now : Noted) → Carries boxed_of designated_of part now value_as result now }
{
    match part {
        Some(x) => Some(Designated::Value(x)),
        None => None,
    }
}

/// A list with one more at its end.
pub fn another(
    list: Option<Vec<Expr>>,
    x: Option<Box<Expr>>,
) -> Result<Option<Vec<Expr>>, AllocError>
    ensures { IfOk result (λ answer. (now : Noted) → CarriesBoth exprs_of boxed_of exprs_of list x now appended answer now) }
{
    match calls::both(list, x) {
        Some((list, x)) => {
            let longer = calls::pushed(list, x)?;
            Ok(Some(longer))
        }
        None => Ok(None),
    }
}

/// `base [ index ]`
pub fn index(
    alloc: Global,
    notes: &mut Notes<'_>,
    place: Place,
    base: Option<Designated>,
    index: Option<Box<Expr>>,
) -> Result<Option<Designated>, AllocError>
    ensures { IfOk result (λ answer. CarriesBoth designated_of boxed_of designated_of base index notes.old (index_value place) answer notes.new) }
{
    match calls::both(base, index) {
        Some((base, index)) => {
            let answer = operations::index_value(alloc, notes, place, base, index)?;
            Ok(answer)
        }
        None => Ok(None),
    }
}

/// `&&` and `||`
pub fn logical(
    alloc: Global,
    op: BinaryOp,
    left: Option<Box<Expr>>,
    right: Option<Box<Expr>>,
) -> Result<Option<Designated>, AllocError>
    ensures { IfOk result (λ answer. (now : Noted) → CarriesBoth boxed_of boxed_of designated_of left right now (logical_value op) answer now) }
{
    match calls::both(left, right) {
        Some((left, right)) => {
            let value = operations::logical_value(alloc, op, left, right)?;
            Ok(Some(value))
        }
        None => Ok(None),
    }
}

pub fn binary(
    alloc: Global,
    notes: &mut Notes<'_>,
    place: Place,
    op: BinaryOp,
    sources: (&c_ast::Expr, &c_ast::Expr),
    left: Option<Box<Expr>>,
    right: Option<Box<Expr>>,
) -> Result<Option<Designated>, AllocError>
    ensures { IfOk result (λ answer. CarriesBoth boxed_of boxed_of designated_of left right notes.old (binary_value place op (source.expr_of sources.entry.0.now) (source.expr_of sources.entry.1.now)) answer notes.new) }
{
    match calls::both(left, right) {
        Some((left, right)) => {
            let left = Judged::new(sources.0, left);
            let right = Judged::new(sources.1, right);
            let answer = operations::binary_value(alloc, notes, place, op, left, right)?;
            Ok(answer)
        }
        None => Ok(None),
    }
}

pub fn conditional(
    alloc: Global,
    notes: &mut Notes<'_>,
    place: Place,
    sources: (&c_ast::Expr, &c_ast::Expr),
    test: Option<Box<Expr>>,
    branches: Option<(Box<Expr>, Box<Expr>)>,
) -> Result<Option<Designated>, AllocError>
    ensures { IfOk result (λ answer. CarriesBoth boxed_of branches_of designated_of test branches notes.old (conditional_value place (source.expr_of sources.entry.0.now) (source.expr_of sources.entry.1.now)) answer notes.new) }
{
    match calls::both(test, branches) {
        Some((test, branches)) => {
            let then = Judged::new(sources.0, branches.0);
            let other = Judged::new(sources.1, branches.1);
            let answer = operations::conditional_value(alloc, notes, place, test, then, other)?;
            Ok(answer)
        }
        None => Ok(None),
    }
}

pub fn assignment(
    alloc: Global,
    notes: &mut Notes<'_>,
    place: Place,
    op: AssignOp,
    e: &c_ast::Expr,
    target: Option<Target>,
    value: Option<Box<Expr>>,
) -> Result<Option<Designated>, AllocError>
    ensures { IfOk result (λ answer. CarriesBoth target_of boxed_of designated_of target value notes.old (assignment place (within op) (source.expr_of e.now)) answer notes.new) }
{
    match calls::both(target, value) {
        Some((target, value)) => {
            let right = Judged::new(e, value);
            let answer = operations::assignment(alloc, notes, place, op, target, right)?;
            Ok(answer)
        }
        None => Ok(None),
    }
}

pub fn call(
    alloc: Global,
    function: Option<Function<'_>>,
    arguments: Option<Vec<Expr>>,
) -> Result<Option<Box<Expr>>, AllocError>
    ensures { IfOk result (λ answer. (now : Noted) → CarriesBoth function_of exprs_of boxed_of function.entry arguments now called_with answer now) }
{
    match calls::both(function, arguments) {
        Some((function, arguments)) => {
            let value = calls::call_of(alloc, function, arguments)?;
            Ok(Some(value))
        }
        None => Ok(None),
    }
}
