//! What expressions mean. Each function calls itself only on parts of its expression.

ghost use Rattle.std.specs.Prelude.{◌≡◌, ◌++◌, [], IfOk, map};
ghost use Rattle.c_ast.specs.TreeViews as source;
ghost use Rattle.c_ast.specs.Trees as c;
ghost use Rattle.c_typed.specs.Views.{boxed_of};
ghost use Rattle.c_types_expressions.specs.Expressions.{designated, value, call_in, arguments, literals, literals_of, tested_value};
ghost use Rattle.c_types_operators.specs.Judging.{Judges};
ghost use Rattle.c_types_operators.specs.Views.{designated_of, exprs_of};

use crate::names::{called, used};
use crate::parts;
use c_ast::{AssignOp, BinaryOp, CType, PostfixOp, UnaryOp};
use c_typed::{Expr, Rule, ValueType};
use c_types_homes::written;
use c_types_operators::calls::{both, gives_nothing, rest_of, wanted};
use c_types_operators::designated::Designated;
use c_types_operators::literals::{character, end_of_file, literal, null, number, text};
use c_types_operators::notes::Notes;
use c_types_operators::operations::is_logical;
use c_types_operators::scope::Scope;
use ib_base::{Place, Text};
use std::alloc::{AllocError, Global};

/// What an expression is.
#[cycle(expressions)]
#[tactic(auto, using(crate::proofs::ListNodes::call_lighter, crate::proofs::ListNodes::comma_lighter))]
pub fn designated<'a>(
    alloc: Global,
    scope: &Scope<'a, '_>,
    notes: &mut Notes<'a>,
    e: &'a c_ast::Expr,
) -> Result<Option<Designated>, AllocError>
    ensures { IfOk result (λ answer. Judges designated_of notes.old (literals (source.expr_of e.now)) (designated scope.now notes.old.texts (source.expr_of e.now)) answer notes.new) }
{
    match e {
        c_ast::Expr::Name { place, name } => used(alloc, scope, notes, *place, name),
        c_ast::Expr::Number { value, long, .. } => literal(alloc, number(*value, *long)),
        c_ast::Expr::Char { value, .. } => literal(alloc, character(*value)),
        c_ast::Expr::Str { bytes, .. } => text(alloc, notes, bytes),
        c_ast::Expr::Null { .. } => literal(alloc, null()),
        c_ast::Expr::Eof { .. } => literal(alloc, end_of_file()),
        c_ast::Expr::Call {
            place,
            name,
            arguments,
        } => called_value(alloc, scope, notes, *place, name, arguments),
        c_ast::Expr::Index { place, base, index } => {
            indexed(alloc, scope, notes, *place, base, index)
        }
        c_ast::Expr::Postfix { place, op, operand } => {
            postfix(alloc, scope, notes, *place, *op, operand)
        }
        c_ast::Expr::Unary { place, op, operand } => {
            unary(alloc, scope, notes, *place, *op, operand)
        }
        c_ast::Expr::Cast { place, to, operand } => cast(alloc, scope, notes, *place, to, operand),
        c_ast::Expr::Binary {
            place,
            op,
            left,
            right,
        } => binary(alloc, scope, notes, *place, *op, left, right),
        c_ast::Expr::Conditional {
            place,
            test,
            then,
            other,
        } => conditional(alloc, scope, notes, *place, test, then, other),
        c_ast::Expr::Assign {
            place,
            op,
            target,
            value,
        } => assign(alloc, scope, notes, *place, *op, target, value),
        c_ast::Expr::Comma { place, parts } => comma(alloc, scope, notes, *place, parts),
    }
}

/// The value of a whole expression.
#[cycle(expressions)]
pub fn value<'a>(
    alloc: Global,
    scope: &Scope<'a, '_>,
    notes: &mut Notes<'a>,
    e: &'a c_ast::Expr,
) -> Result<Option<Box<Expr>>, AllocError>
    ensures { IfOk result (λ answer. Judges boxed_of notes.old (literals (source.expr_of e.now)) (value scope.now notes.old.texts (source.expr_of e.now)) answer notes.new) }
{
    let what = designated(alloc, scope, notes, e)?;
    let answer = parts::valued(alloc, what)?;
    Ok(answer)
}

/// A condition, or an operand of `!`, `&&` or `||`.
#[cycle(expressions)]
pub fn tested_value<'a>(
    alloc: Global,
    scope: &Scope<'a, '_>,
    notes: &mut Notes<'a>,
    e: &'a c_ast::Expr,
) -> Result<Option<Box<Expr>>, AllocError>
    ensures { IfOk result (λ answer. Judges boxed_of notes.old (literals (source.expr_of e.now)) (tested_value scope.now notes.old.texts (source.expr_of e.now)) answer notes.new) }
{
    let x = value(alloc, scope, notes, e)?;
    Ok(parts::tested(notes, e, x))
}

#[cycle(expressions)]
fn postfix<'a>(
    alloc: Global,
    scope: &Scope<'a, '_>,
    notes: &mut Notes<'a>,
    place: Place,
    op: PostfixOp,
    operand: &'a c_ast::Expr,
) -> Result<Option<Designated>, AllocError>
    ensures { IfOk result (λ answer. Judges designated_of notes.old (literals (source.expr_of operand.now)) (designated scope.now notes.old.texts (c.postfix place op (source.expr_of operand.now))) answer notes.new) }
{
    let what = designated(alloc, scope, notes, operand)?;
    let answer = parts::postfix(alloc, notes, place, op, operand, what)?;
    Ok(answer)
}

#[cycle(expressions)]
fn unary<'a>(
    alloc: Global,
    scope: &Scope<'a, '_>,
    notes: &mut Notes<'a>,
    place: Place,
    op: UnaryOp,
    operand: &'a c_ast::Expr,
) -> Result<Option<Designated>, AllocError>
    ensures { IfOk result (λ answer. Judges designated_of notes.old (literals (source.expr_of operand.now)) (designated scope.now notes.old.texts (c.unary place op (source.expr_of operand.now))) answer notes.new) }
{
    let what = designated(alloc, scope, notes, operand)?;
    let answer = parts::unary(alloc, notes, place, op, operand, what)?;
    Ok(answer)
}

#[cycle(expressions)]
fn cast<'a>(
    alloc: Global,
    scope: &Scope<'a, '_>,
    notes: &mut Notes<'a>,
    place: Place,
    to: &CType,
    operand: &'a c_ast::Expr,
) -> Result<Option<Designated>, AllocError>
    ensures { IfOk result (λ answer. Judges designated_of notes.old (literals (source.expr_of operand.now)) (designated scope.now notes.old.texts (c.cast place (source.type_of to.now) (source.expr_of operand.now))) answer notes.new) }
{
    let to = written(to)?;
    let x = value(alloc, scope, notes, operand)?;
    let answer = parts::cast(alloc, notes, place, to, x)?;
    Ok(answer)
}

#[cycle(expressions)]
fn indexed<'a>(
    alloc: Global,
    scope: &Scope<'a, '_>,
    notes: &mut Notes<'a>,
    place: Place,
    base: &'a c_ast::Expr,
    index: &'a c_ast::Expr,
) -> Result<Option<Designated>, AllocError>
    ensures { IfOk result (λ answer. Judges designated_of notes.old (literals (source.expr_of base.now) ++ literals (source.expr_of index.now)) (designated scope.now notes.old.texts (c.index place (source.expr_of base.now) (source.expr_of index.now))) answer notes.new) }
{
    let what = designated(alloc, scope, notes, base)?;
    let i = value(alloc, scope, notes, index)?;
    let answer = parts::index(alloc, notes, place, what, i)?;
    Ok(answer)
}

#[cycle(expressions)]
fn binary<'a>(
    alloc: Global,
    scope: &Scope<'a, '_>,
    notes: &mut Notes<'a>,
    place: Place,
    op: BinaryOp,
    left: &'a c_ast::Expr,
    right: &'a c_ast::Expr,
) -> Result<Option<Designated>, AllocError>
    ensures { IfOk result (λ answer. Judges designated_of notes.old (literals (source.expr_of left.now) ++ literals (source.expr_of right.now)) (designated scope.now notes.old.texts (c.binary place op (source.expr_of left.now) (source.expr_of right.now))) answer notes.new) }
{
    if is_logical(op) {
        let x = tested_value(alloc, scope, notes, left)?;
        let y = tested_value(alloc, scope, notes, right)?;
        let answer = parts::logical(alloc, op, x, y)?;
        return Ok(answer);
    }
    let x = value(alloc, scope, notes, left)?;
    let y = value(alloc, scope, notes, right)?;
    let answer = parts::binary(alloc, notes, place, op, (left, right), x, y)?;
    Ok(answer)
}

#[cycle(expressions)]
fn conditional<'a>(
    alloc: Global,
    scope: &Scope<'a, '_>,
    notes: &mut Notes<'a>,
    place: Place,
    test: &'a c_ast::Expr,
    then: &'a c_ast::Expr,
    other: &'a c_ast::Expr,
) -> Result<Option<Designated>, AllocError>
    ensures { IfOk result (λ answer. Judges designated_of notes.old (literals (source.expr_of test.now) ++ (literals (source.expr_of then.now) ++ literals (source.expr_of other.now))) (designated scope.now notes.old.texts (c.conditional place (source.expr_of test.now) (source.expr_of then.now) (source.expr_of other.now))) answer notes.new) }
{
    let tested = tested_value(alloc, scope, notes, test)?;
    let x = value(alloc, scope, notes, then)?;
    let y = value(alloc, scope, notes, other)?;
    let branches = both(x, y);
    let answer = parts::conditional(alloc, notes, place, (then, other), tested, branches)?;
    Ok(answer)
}

#[cycle(expressions)]
fn assign<'a>(
    alloc: Global,
    scope: &Scope<'a, '_>,
    notes: &mut Notes<'a>,
    place: Place,
    op: AssignOp,
    target: &'a c_ast::Expr,
    right: &'a c_ast::Expr,
) -> Result<Option<Designated>, AllocError>
    ensures { IfOk result (λ answer. Judges designated_of notes.old (literals (source.expr_of target.now) ++ literals (source.expr_of right.now)) (designated scope.now notes.old.texts (c.assign place op (source.expr_of target.now) (source.expr_of right.now))) answer notes.new) }
{
    let what = designated(alloc, scope, notes, target)?;
    let at = parts::placed(alloc, notes, target, what)?;
    let x = value(alloc, scope, notes, right)?;
    let answer = parts::assignment(alloc, notes, place, op, right, at, x)?;
    Ok(answer)
}

/// Arguments, each for the parameter that is wanted there, where one is.
#[cycle(expressions)]
#[tactic(auto, using(crate::proofs::ListNodes::member_lighter))]
pub fn arguments<'a>(
    alloc: Global,
    scope: &Scope<'a, '_>,
    notes: &mut Notes<'a>,
    wanted: &[ValueType],
    list: &'a [c_ast::Expr],
) -> Result<Option<Vec<Expr>>, AllocError>
    ensures { IfOk result (λ answer. Judges exprs_of notes.old (literals_of (c.exps (map source.expr_of list.now))) (arguments scope.now notes.old.texts wanted.now (c.exps (map source.expr_of list.now))) answer notes.new) }
{
    let mut typed = Some(Vec::new(alloc));
    let mut left = wanted;
    for e in list {
        let x = value(alloc, scope, notes, e)?;
        let given = parts::passed(alloc, notes, left, e, x)?;
        typed = parts::another(typed, given)?;
        left = rest_of(left);
    }
    Ok(typed)
}

/// A call, for what it does, which may give nothing.
#[cycle(expressions)]
pub fn call<'a>(
    alloc: Global,
    scope: &Scope<'a, '_>,
    notes: &mut Notes<'a>,
    place: Place,
    name: &Text,
    list: &'a [c_ast::Expr],
) -> Result<Option<Box<Expr>>, AllocError>
    ensures { IfOk result (λ answer. Judges boxed_of notes.old (literals_of (c.exps (map source.expr_of list.now))) (call_in scope.now notes.old.texts place name.now (c.exps (map source.expr_of list.now))) answer notes.new) }
{
    let meant = scope.find(name.list());
    let function = called(notes, place, list.len(), meant);
    let typed = arguments(alloc, scope, notes, wanted(meant), list)?;
    let answer = parts::call(alloc, function, typed)?;
    Ok(answer)
}

/// A call, for its value. One that gives nothing breaks a rule whatever its arguments break.
#[cycle(expressions)]
fn called_value<'a>(
    alloc: Global,
    scope: &Scope<'a, '_>,
    notes: &mut Notes<'a>,
    place: Place,
    name: &Text,
    list: &'a [c_ast::Expr],
) -> Result<Option<Designated>, AllocError>
    ensures { IfOk result (λ answer. Judges designated_of notes.old (literals_of (c.exps (map source.expr_of list.now))) (designated scope.now notes.old.texts (c.call place name.now (c.exps (map source.expr_of list.now)))) answer notes.new) }
{
    let meant = scope.find(name.list());
    if gives_nothing(meant) {
        notes.breaks(Rule::WrongOperands, place);
        let unused = call(alloc, scope, notes, place, name, list)?;
        drop(unused);
        return Ok(None);
    }
    let x = call(alloc, scope, notes, place, name, list)?;
    Ok(parts::as_value(x))
}

#[cycle(expressions)]
fn comma<'a>(
    alloc: Global,
    scope: &Scope<'a, '_>,
    notes: &mut Notes<'a>,
    place: Place,
    list: &'a [c_ast::Expr],
) -> Result<Option<Designated>, AllocError>
    ensures { IfOk result (λ answer. Judges designated_of notes.old (literals_of (c.exps (map source.expr_of list.now))) (designated scope.now notes.old.texts (c.comma place (c.exps (map source.expr_of list.now)))) answer notes.new) }
{
    let typed = arguments(alloc, scope, notes, &[], list)?;
    let x = parts::comma(alloc, notes, place, typed)?;
    Ok(parts::as_value(x))
}
