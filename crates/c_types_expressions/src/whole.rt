//! Whole expressions, as statements and declarations hold them.

ghost use Rattle.std.specs.Prelude.{[], IfOk, map};
ghost use Rattle.c_ast.specs.TreeViews as source;
ghost use Rattle.c_ast.specs.Trees as c;
ghost use Rattle.c_typed.specs.Views.{boxed_of};
ghost use Rattle.c_types_expressions.specs.Expressions.{literals, literals_of, values, stored_value, effect, effect_of, effects};
ghost use Rattle.c_types_operators.specs.Judging.{Judges};
ghost use Rattle.c_types_operators.specs.Views.{exprs_of};

use crate::expressions::{arguments, call, value};
use crate::parts;
use c_typed::{Expr, ValueType};
use c_types_operators::notes::Notes;
use c_types_operators::scope::Scope;
use std::alloc::{AllocError, Global};

/// The values of expressions.
pub fn values<'a>(
    alloc: Global,
    scope: &Scope<'a, '_>,
    notes: &mut Notes<'a>,
    list: &'a [c_ast::Expr],
) -> Result<Option<Vec<Expr>>, AllocError>
    ensures { IfOk result (λ answer. Judges exprs_of notes.old (literals_of (c.exps (map source.expr_of list.now))) (values scope.now notes.old.texts (c.exps (map source.expr_of list.now))) answer notes.new) }
{
    arguments(alloc, scope, notes, &[], list)
}

/// The value of an expression, as one of this type is stored: assigned, returned, or the first
/// value of a variable.
pub fn stored_value<'a>(
    alloc: Global,
    scope: &Scope<'a, '_>,
    notes: &mut Notes<'a>,
    ty: ValueType,
    e: &'a c_ast::Expr,
) -> Result<Option<Box<Expr>>, AllocError>
    ensures { IfOk result (λ answer. Judges boxed_of notes.old (literals (source.expr_of e.now)) (stored_value scope.now notes.old.texts ty (source.expr_of e.now)) answer notes.new) }
{
    let x = value(alloc, scope, notes, e)?;
    let answer = parts::passed(alloc, notes, &[ty], e, x)?;
    Ok(answer)
}

fn effects<'a>(
    alloc: Global,
    scope: &Scope<'a, '_>,
    notes: &mut Notes<'a>,
    list: &'a [c_ast::Expr],
) -> Result<Option<Vec<Expr>>, AllocError>
    ensures { IfOk result (λ answer. Judges exprs_of notes.old (literals_of (c.exps (map source.expr_of list.now))) (effects scope.now notes.old.texts (c.exps (map source.expr_of list.now))) answer notes.new) }
{
    let mut typed = Some(Vec::new(alloc));
    for e in list {
        let x = effect_of(alloc, scope, notes, e)?;
        typed = parts::another(typed, x)?;
    }
    Ok(typed)
}

/// An expression that stands for what it does, and is no comma expression: a call may give nothing.
fn effect_of<'a>(
    alloc: Global,
    scope: &Scope<'a, '_>,
    notes: &mut Notes<'a>,
    e: &'a c_ast::Expr,
) -> Result<Option<Box<Expr>>, AllocError>
    ensures { IfOk result (λ answer. Judges boxed_of notes.old (literals (source.expr_of e.now)) (effect_of scope.now notes.old.texts (source.expr_of e.now)) answer notes.new) }
{
    match e {
        c_ast::Expr::Call {
            place,
            name,
            arguments,
        } => call(alloc, scope, notes, *place, name, arguments),
        c_ast::Expr::Name { .. } => value(alloc, scope, notes, e),
        c_ast::Expr::Number { .. } => value(alloc, scope, notes, e),
        c_ast::Expr::Char { .. } => value(alloc, scope, notes, e),
        c_ast::Expr::Str { .. } => value(alloc, scope, notes, e),
        c_ast::Expr::Null { .. } => value(alloc, scope, notes, e),
        c_ast::Expr::Eof { .. } => value(alloc, scope, notes, e),
        c_ast::Expr::Index { .. } => value(alloc, scope, notes, e),
        c_ast::Expr::Postfix { .. } => value(alloc, scope, notes, e),
        c_ast::Expr::Unary { .. } => value(alloc, scope, notes, e),
        c_ast::Expr::Cast { .. } => value(alloc, scope, notes, e),
        c_ast::Expr::Binary { .. } => value(alloc, scope, notes, e),
        c_ast::Expr::Conditional { .. } => value(alloc, scope, notes, e),
        c_ast::Expr::Assign { .. } => value(alloc, scope, notes, e),
        c_ast::Expr::Comma { .. } => value(alloc, scope, notes, e),
    }
}

/// An expression statement, or the first or last part of a `for`: a call that gives no value may
/// stand there.
pub fn effect<'a>(
    alloc: Global,
    scope: &Scope<'a, '_>,
    notes: &mut Notes<'a>,
    e: &'a c_ast::Expr,
) -> Result<Option<Box<Expr>>, AllocError>
    ensures { IfOk result (λ answer. Judges boxed_of notes.old (literals (source.expr_of e.now)) (effect scope.now notes.old.texts (source.expr_of e.now)) answer notes.new) }
{
    match e {
        c_ast::Expr::Comma { place, parts } => {
            let typed = effects(alloc, scope, notes, parts)?;
            let answer = parts::comma(alloc, notes, *place, typed)?;
            Ok(answer)
        }
        c_ast::Expr::Name { .. } => effect_of(alloc, scope, notes, e),
        c_ast::Expr::Number { .. } => effect_of(alloc, scope, notes, e),
        c_ast::Expr::Char { .. } => effect_of(alloc, scope, notes, e),
        c_ast::Expr::Str { .. } => effect_of(alloc, scope, notes, e),
        c_ast::Expr::Null { .. } => effect_of(alloc, scope, notes, e),
        c_ast::Expr::Eof { .. } => effect_of(alloc, scope, notes, e),
        c_ast::Expr::Call { .. } => effect_of(alloc, scope, notes, e),
        c_ast::Expr::Index { .. } => effect_of(alloc, scope, notes, e),
        c_ast::Expr::Postfix { .. } => effect_of(alloc, scope, notes, e),
        c_ast::Expr::Unary { .. } => effect_of(alloc, scope, notes, e),
        c_ast::Expr::Cast { .. } => effect_of(alloc, scope, notes, e),
        c_ast::Expr::Binary { .. } => effect_of(alloc, scope, notes, e),
        c_ast::Expr::Conditional { .. } => effect_of(alloc, scope, notes, e),
        c_ast::Expr::Assign { .. } => effect_of(alloc, scope, notes, e),
    }
}
