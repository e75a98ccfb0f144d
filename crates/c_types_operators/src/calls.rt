//! Calls and lists of expressions.

ghost use Rattle.std.specs.Prelude.{◌≡◌, ◌++◌, ◌∷◌, [], IfOk};
ghost use Rattle.std.specs.Option.{option_map};
ghost use Rattle.c_ast.specs.TreeViews as source;
ghost use Rattle.c_typed.specs.Tree.{call};
ghost use Rattle.c_typed.specs.Views.{expr_of, boxed_of};
ghost use Rattle.c_types_operators.specs.ScopeViews.{function_of, meant_of};
ghost use Rattle.c_types_operators.specs.Operators.{wanted, given_to, rest_of, gives_nothing, built_in_call, call_of, comma_of, and_then};
ghost use Rattle.c_types_operators.specs.Judging.{Judges, both_some};
ghost use Rattle.c_types_operators.specs.Rules.{Fine};
ghost use Rattle.c_types_operators.specs.Views.{exprs_of};

use crate::nodes;
use crate::notes::Notes;
use crate::operators::stored_as;
use crate::scope::{Callee, Function, Meant};
use c_typed::{Expr, Rule, ValueType};
use ib_base::Place;
use std::alloc::{AllocError, Global};

/// Both parts, where both mean something.
pub fn both<A: Drop, B: Drop>(a: Option<A>, b: Option<B>) -> Option<(A, B)>
    ensures { result ≡ both_some a b }
{
    match a {
        Some(a) => match b {
            Some(b) => Some((a, b)),
            None => None,
        },
        None => None,
    }
}

/// The types of the arguments that it takes.
pub fn wanted<'s>(meant: Option<Meant<'s>>) -> &'s [ValueType]
    ensures { result.now ≡ wanted (option_map meant_of meant.entry) }
{
    match meant {
        Some(Meant::Function(function)) => function.params,
        Some(Meant::Variable(_)) => &[],
        None => &[],
    }
}

/// Whether a call of it gives nothing.
pub fn gives_nothing(meant: Option<Meant<'_>>) -> bool
    ensures { result ≡ gives_nothing (option_map meant_of meant.entry) }
{
    match meant {
        Some(Meant::Function(function)) => function.result.is_void(),
        Some(Meant::Variable(_)) => false,
        None => false,
    }
}

/// A call of what is built in.
fn built_in_call(
    alloc: Global,
    callee: Callee,
    mut arguments: Vec<Expr>,
) -> Result<Box<Expr>, AllocError>
    ensures { IfOk result (λ made. expr_of made.value ≡ built_in_call callee (exprs_of arguments)) }
{
    arguments.truncate(1);
    let Some(first) = arguments.pop() else {
        return nodes::boxed(alloc, Expr::GetByte);
    };
    let value = nodes::boxed(alloc, first)?;
    match callee {
        Callee::PutChar => nodes::boxed(alloc, Expr::PutByte { value }),
        Callee::PutInt => nodes::boxed(alloc, Expr::PutNumber { value }),
        Callee::GetChar | Callee::Body(_) => nodes::boxed(alloc, Expr::GetByte),
    }
}

/// The call of a body, which gives a value of this type.
#[tactic(auto, using(crate::proofs::TypedRows::call_exprs))]
fn body_call(
    alloc: Global,
    gives: ValueType,
    number: u32,
    arguments: Vec<Expr>,
) -> Result<Box<Expr>, AllocError>
    ensures { IfOk result (λ made. expr_of made.value ≡ call gives number (exprs_of arguments)) }
{
    let call = Expr::Call {
        ty: gives,
        function: number,
        arguments,
    };
    let made = nodes::boxed(alloc, call)?;
    Ok(made)
}

/// A call, with the arguments that its function takes.
pub fn call_of(
    alloc: Global,
    function: Function<'_>,
    arguments: Vec<Expr>,
) -> Result<Box<Expr>, AllocError>
    ensures { IfOk result (λ made. expr_of made.value ≡ call_of (function_of function.entry) (exprs_of arguments)) }
{
    match function.callee {
        Callee::Body(number) => body_call(alloc, function.result, number, arguments),
        Callee::GetChar => built_in_call(alloc, Callee::GetChar, arguments),
        Callee::PutChar => built_in_call(alloc, Callee::PutChar, arguments),
        Callee::PutInt => built_in_call(alloc, Callee::PutInt, arguments),
    }
}

/// A comma expression with these parts.
#[tactic(auto, using(crate::proofs::TypedRows::comma_exprs))]
pub fn comma(
    alloc: Global,
    notes: &mut Notes<'_>,
    place: Place,
    mut parts: Vec<Expr>,
) -> Result<Option<Box<Expr>>, AllocError>
    ensures { IfOk result (λ answer. Judges boxed_of notes.old [] (comma_of place (exprs_of parts)) answer notes.new) }
{
    let Some(last) = parts.pop() else {
        notes.breaks(Rule::WrongOperands, place);
        return Ok(None);
    };
    let last = nodes::boxed(alloc, last)?;
    let value = nodes::boxed(alloc, Expr::Comma { parts, last })?;
    Ok(Some(value))
}

/// An argument, for the first of these parameters, where there is one.
pub fn passed(
    alloc: Global,
    notes: &mut Notes<'_>,
    wanted: &[ValueType],
    e: &c_ast::Expr,
    x: Box<Expr>,
) -> Result<Option<Box<Expr>>, AllocError>
    ensures { IfOk result (λ answer. Judges boxed_of notes.old [] (given_to wanted.now (source.expr_of e.now) (Fine (expr_of x.value))) answer notes.new) }
{
    match wanted.split_first() {
        Some((ty, _)) => stored_as(alloc, notes, *ty, e, x),
        None => Ok(Some(x)),
    }
}

/// The types of the parameters behind the first.
pub fn rest_of(wanted: &[ValueType]) -> &[ValueType]
    ensures { result.now ≡ rest_of wanted.now }
{
    match wanted.split_first() {
        Some((_, rest)) => rest,
        None => wanted,
    }
}

/// A list with one more at its end.
#[tactic(auto, using(crate::proofs::CallLemmas::and_then_snoc))]
pub fn pushed(mut list: Vec<Expr>, x: Box<Expr>) -> Result<Vec<Expr>, AllocError>
    ensures { IfOk result (λ longer. exprs_of longer ≡ and_then (exprs_of list) (expr_of x.value)) }
{
    list.push(Box::into_inner(x))?;
    Ok(list)
}
