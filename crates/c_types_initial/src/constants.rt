//! Which initialisers are constants, and what an element holds that is given one.

ghost use Rattle.std.specs.Prelude.{◌≡◌, ◌≤◌, length, IfOk};
ghost use Rattle.c_ast.specs.TreeViews as source;
ghost use Rattle.c_typed.specs.Views.{expr_of};
ghost use Rattle.c_types_initial.specs.Constants.{is_char, is_char_pointer, is_constant_number, is_constant, number_of, datum_of, string_data};

use c_ast::{Base, UnaryOp};
use c_layout::Datum;
use c_typed::{Expr, ValueType};
use c_values::{converted, signed};
use sqlite_items::Items;
use std::alloc::{AllocError, Global};

pub(crate) fn is_char(ty: ValueType) -> bool
    ensures { result ≡ is_char ty }
{
    matches!(ty, ValueType::Base(Base::Char))
}

fn is_char_pointer(ty: ValueType) -> bool
    ensures { result ≡ is_char_pointer ty }
{
    match ty {
        ValueType::Pointer { to, stars } => matches!(to, Base::Char) && stars == 1,
        ValueType::Base(_) | ValueType::Null => false,
    }
}

/// A literal, character or `EOF` with any `+`, `-`, `~` before it. It calls itself once for each
/// of these, so the nesting of the source bounds it.
fn is_constant_number(e: &c_ast::Expr) -> bool
    ensures { result ≡ is_constant_number (source.expr_of e.now) }
{
    match e {
        c_ast::Expr::Number { .. } | c_ast::Expr::Char { .. } | c_ast::Expr::Eof { .. } => true,
        c_ast::Expr::Unary { op, operand, .. } => match op {
            UnaryOp::Plus | UnaryOp::Minus | UnaryOp::BitNot => is_constant_number(operand),
            UnaryOp::Increment
            | UnaryOp::Decrement
            | UnaryOp::AddressOf
            | UnaryOp::Dereference
            | UnaryOp::Not => false,
        },
        _ => false,
    }
}

/// A constant number, `NULL`, or a string for a `char` pointer.
pub(crate) fn is_constant(ty: ValueType, e: &c_ast::Expr) -> bool
    ensures { result ≡ is_constant ty (source.expr_of e.now) }
{
    match e {
        c_ast::Expr::Null { .. } => true,
        c_ast::Expr::Str { .. } => is_char_pointer(ty),
        _ => is_constant_number(e),
    }
}

/// The number that a constant gives.
fn number_of(x: &Expr) -> i64
    ensures { result ≡ number_of (expr_of x.now) }
{
    match x {
        Expr::Constant { value, .. } => *value,
        Expr::Unary { op, rank, operand } => signed(*op, *rank, number_of(operand)),
        Expr::Convert { to, operand } => converted(*to, number_of(operand)),
        _ => 0,
    }
}

pub(crate) fn datum_of(x: &Expr) -> Datum
    ensures { result ≡ datum_of (expr_of x.now) }
{
    match x {
        Expr::Text { ordinal } => Datum::Text(*ordinal),
        _ => Datum::Number(number_of(x)),
    }
}

/// A string's bytes, and its closing zero where there is room for it.
pub(crate) fn string_data(
    alloc: Global,
    count: u64,
    bytes: &[u8],
) -> Result<Items<Datum>, AllocError>
    requires { length bytes.now ≤ count }
    ensures { IfOk result (λ held. held ≡ string_data count bytes.now) }
{
    let mut held = Items::new(alloc);
    for byte in bytes {
        held.push(Datum::Number(i64::from(*byte)))?;
    }
    if (bytes.len() as u64) < count {
        held.push(Datum::Number(0))?;
    }
    Ok(held)
}
