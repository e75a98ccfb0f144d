//! Statements and what they store, made of their parts where all of these are there. Trees are
//! boxed as they come, and put together where nothing can fail any more.

ghost use Rattle.std.specs.Prelude.{◌≡◌, Some, None, IfOk, if◌then◌else◌};
ghost use Rattle.std.specs.Option.{option_map};
ghost use Rattle.c_typed.specs.Tree as t;
ghost use Rattle.c_typed.specs.Views.{boxed_of, boxed_stmt_of, expr_of, part_of, stmt_of};
ghost use Rattle.c_types_operators.specs.Operators.{and_then};
ghost use Rattle.c_types_operators.specs.Views.{exprs_of};
ghost use Rattle.c_types_statements.specs.Statements.{as_list, zero_of, stored_at, given_stored, if_of, if_else_of, while_of, do_of, for_of};
ghost use Rattle.c_types_statements.specs.Keeping.{◌<?>◌, rows_of, and_given, and_statement};

use c_typed::{Expr, Home, Part, Stmt, Storage, ValueType};
use std::alloc::{AllocError, Global};

/// A part, where no rule is broken beside it.
pub(crate) fn kept_if<T: Drop>(fine: bool, x: Option<T>) -> Option<T>
    ensures { result ≡ (if fine then x else None) }
{
    if fine {
        return x;
    }
    None
}

/// A statement in a box, where there is one.
pub(crate) fn boxed(alloc: Global, x: Option<Stmt>) -> Result<Option<Box<Stmt>>, AllocError>
    ensures { IfOk result (λ made. option_map boxed_stmt_of made ≡ option_map stmt_of x) }
{
    match x {
        Some(x) => Ok(Some(Box::new(alloc, x)?)),
        None => Ok(None),
    }
}

/// What a scalar holds that is given no value.
pub(crate) fn zero(alloc: Global, ty: ValueType) -> Result<Option<Box<Expr>>, AllocError>
    ensures { IfOk result (λ made. option_map boxed_of made ≡ Some (zero_of ty)) }
{
    let zero = Box::new(alloc, Expr::Constant { ty, value: 0 })?;
    Ok(Some(zero))
}

/// An expression that may be missing.
pub(crate) fn given(x: Option<Box<Expr>>) -> Option<Part>
    ensures { option_map part_of result ≡ (Some t.given <?> option_map boxed_of x) }
{
    match x {
        Some(x) => Some(Part::Given(x)),
        None => None,
    }
}

/// A list of an expression, or of none.
pub(crate) fn as_list(alloc: Global, x: Option<Part>) -> Result<Option<Vec<Expr>>, AllocError>
    ensures { IfOk result (λ made. option_map exprs_of made ≡ (Some as_list <?> option_map part_of x)) }
{
    and_given(Some(Vec::new(alloc)), x)
}

#[tactic(auto, using(crate::proofs::Rows::exps_snoc))]
fn pushed(list: Option<Vec<Expr>>, x: Box<Expr>) -> Result<Option<Vec<Expr>>, AllocError>
    ensures { IfOk result (λ made. option_map exprs_of made ≡ (Some and_then <?> option_map exprs_of list <?> Some (expr_of x.value))) }
{
    match list {
        Some(mut list) => {
            list.push(Box::into_inner(x))?;
            Ok(Some(list))
        }
        None => Ok(None),
    }
}

/// A list with one more at its end, where one is given.
pub(crate) fn and_given(
    list: Option<Vec<Expr>>,
    x: Option<Part>,
) -> Result<Option<Vec<Expr>>, AllocError>
    ensures { IfOk result (λ made. option_map exprs_of made ≡ (Some and_given <?> option_map exprs_of list <?> option_map part_of x)) }
{
    match x {
        Some(Part::Given(x)) => pushed(list, x),
        Some(Part::Missing) => Ok(list),
        None => Ok(None),
    }
}

/// A list with one more at its end.
#[tactic(auto, using(crate::proofs::Rows::stms_snoc))]
pub(crate) fn and_statement(
    list: Option<Vec<Stmt>>,
    x: Option<Stmt>,
) -> Result<Option<Vec<Stmt>>, AllocError>
    ensures { IfOk result (λ made. option_map rows_of made ≡ (Some and_statement <?> option_map rows_of list <?> option_map stmt_of x)) }
{
    let Some(mut list) = list else {
        drop(x);
        return Ok(None);
    };
    let Some(x) = x else {
        return Ok(None);
    };
    list.push(x)?;
    Ok(Some(list))
}

/// What stores a value in a variable.
fn stored_at(alloc: Global, ty: ValueType, home: Home, value: Box<Expr>) -> Result<Expr, AllocError>
    ensures { IfOk result (λ made. expr_of made ≡ stored_at ty home (expr_of value.value)) }
{
    match home {
        Home::Slot(slot) => Ok(Expr::SetSlot { ty, slot, value }),
        Home::Frame(at) => {
            let address = Expr::Address {
                ty: ty.pointer_to()?,
                of: Storage::Frame(at),
            };
            let address = Box::new(alloc, address)?;
            Ok(Expr::Store { ty, address, value })
        }
    }
}

pub(crate) fn given_stored(
    alloc: Global,
    ty: ValueType,
    home: Home,
    x: Option<Box<Expr>>,
) -> Result<Option<Part>, AllocError>
    ensures { IfOk result (λ made. option_map part_of made ≡ (Some (given_stored ty home) <?> option_map boxed_of x)) }
{
    match x {
        Some(x) => {
            let stored = stored_at(alloc, ty, home, x)?;
            let stored = Box::new(alloc, stored)?;
            Ok(Some(Part::Given(stored)))
        }
        None => Ok(None),
    }
}

#[tactic(auto, using(crate::proofs::Rows::block_rows))]
pub(crate) fn block(stmts: Option<Vec<Stmt>>) -> Option<Stmt>
    ensures { option_map stmt_of result ≡ (Some t.block <?> option_map rows_of stmts) }
{
    match stmts {
        Some(stmts) => Some(Stmt::Block { stmts }),
        None => None,
    }
}

pub(crate) fn expression(number: u32, x: Option<Box<Expr>>) -> Option<Stmt>
    ensures { option_map stmt_of result ≡ (Some (t.expression number) <?> option_map boxed_of x) }
{
    match x {
        Some(expr) => Some(Stmt::Expr { number, expr }),
        None => None,
    }
}

pub(crate) fn if_then(number: u32, test: Option<Box<Expr>>, body: Option<Box<Stmt>>) -> Option<Stmt>
    ensures { option_map stmt_of result ≡ (Some (if_of number) <?> option_map boxed_of test <?> option_map boxed_stmt_of body) }
{
    let test = test?;
    let then = body?;
    Some(Stmt::If { number, test, then })
}

pub(crate) fn if_else(
    number: u32,
    test: Option<Box<Expr>>,
    body: Option<Box<Stmt>>,
    other: Option<Box<Stmt>>,
) -> Option<Stmt>
    ensures { option_map stmt_of result ≡ (Some (if_else_of number) <?> option_map boxed_of test <?> option_map boxed_stmt_of body <?> option_map boxed_stmt_of other) }
{
    let test = test?;
    let then = body?;
    let other = other?;
    Some(Stmt::IfElse {
        number,
        test,
        then,
        other,
    })
}

pub(crate) fn while_loop(
    number: u32,
    test: Option<Box<Expr>>,
    body: Option<Box<Stmt>>,
) -> Option<Stmt>
    ensures { option_map stmt_of result ≡ (Some (while_of number) <?> option_map boxed_of test <?> option_map boxed_stmt_of body) }
{
    let test = test?;
    let body = body?;
    Some(Stmt::While { number, test, body })
}

pub(crate) fn do_while(
    number: u32,
    body: Option<Box<Stmt>>,
    test: Option<Box<Expr>>,
) -> Option<Stmt>
    ensures { option_map stmt_of result ≡ (Some (do_of number) <?> option_map boxed_stmt_of body <?> option_map boxed_of test) }
{
    let body = body?;
    let test = test?;
    Some(Stmt::DoWhile { number, body, test })
}

/// The head of a `for`.
#[derive(Drop)]
pub(crate) struct Head {
    pub start: Option<Vec<Expr>>,
    pub test: Option<Part>,
    pub next: Option<Part>,
}

pub(crate) fn for_loop(number: u32, head: Head, body: Option<Box<Stmt>>) -> Option<Stmt>
    ensures { option_map stmt_of result ≡ (Some (for_of number) <?> option_map exprs_of head.start <?> option_map part_of head.test <?> option_map part_of head.next <?> option_map boxed_stmt_of body) }
{
    let start = head.start?;
    let test = head.test?;
    let next = head.next?;
    let body = body?;
    Some(Stmt::For {
        number,
        start,
        test,
        next,
        body,
    })
}

pub(crate) fn return_of(number: u32, value: Option<Part>) -> Option<Stmt>
    ensures { option_map stmt_of result ≡ (Some (t.return number) <?> option_map part_of value) }
{
    match value {
        Some(value) => Some(Stmt::Return { number, value }),
        None => None,
    }
}

pub(crate) fn local(number: u32, values: Option<Vec<Expr>>) -> Option<Stmt>
    ensures { option_map stmt_of result ≡ (Some (t.local number) <?> option_map exprs_of values) }
{
    match values {
        Some(values) => Some(Stmt::Local { number, values }),
        None => None,
    }
}
