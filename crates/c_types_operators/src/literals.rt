//! What literals mean.

ghost use Rattle.std.specs.Prelude.{◌≡◌, [], ◌∷◌, pos, negsuc, length, Some, IfOk, if◌then◌else◌};
ghost use Rattle.std.specs.Option.{option_map};
ghost use Rattle.c_typed.specs.Tree as t;
ghost use Rattle.c_typed.specs.ValueTypes.{int, long};
ghost use Rattle.c_typed.specs.Views.{expr_of};
ghost use Rattle.c_typed.specs.declared.types.ValueType.TheVariants as v;
ghost use Rattle.c_types_operators.specs.Rules.{Fine};
ghost use Rattle.c_types_operators.specs.Operators.{a_value};
ghost use Rattle.c_types_operators.specs.Judging.{Judges};
ghost use Rattle.c_types_operators.specs.Views.{designated_of};

use crate::designated::Designated;
use crate::nodes;
use crate::notes::Notes;
use c_typed::{Expr, INT, LONG, ValueType};
use ib_base::Text;
use std::alloc::{AllocError, Global};

/// A literal, which is a value.
pub fn literal(alloc: Global, x: Expr) -> Result<Option<Designated>, AllocError>
    ensures { IfOk result (λ answer. option_map designated_of answer ≡ Some (a_value (expr_of x))) }
{
    let value = nodes::boxed(alloc, x)?;
    Ok(Some(Designated::Value(value)))
}

pub fn number(value: i64, is_long: bool) -> Expr
    ensures { expr_of result ≡ t.constant (if is_long then long else int) value }
{
    let ty = if is_long { LONG } else { INT };
    Expr::Constant { ty, value }
}

pub fn character(value: u8) -> Expr
    ensures { expr_of result ≡ t.constant int (pos value) }
{
    Expr::Constant {
        ty: INT,
        value: i64::from(value),
    }
}

/// `NULL`.
pub fn null() -> Expr
    ensures { expr_of result ≡ t.constant v.Null (pos 0) }
{
    Expr::Constant {
        ty: ValueType::Null,
        value: 0,
    }
}

/// `EOF`.
pub fn end_of_file() -> Expr
    ensures { expr_of result ≡ t.constant int (negsuc 0) }
{
    Expr::Constant { ty: INT, value: -1 }
}

/// A string literal that is laid out.
#[tactic(auto, using(crate::proofs::JudgingLemmas::fine_behind))]
pub fn text<'a>(
    alloc: Global,
    notes: &mut Notes<'a>,
    bytes: &'a Text,
) -> Result<Option<Designated>, AllocError>
    ensures { IfOk result (λ answer. Judges designated_of notes.old (bytes.now ∷ []) (Fine (a_value (t.text (length notes.old.texts)))) answer notes.new) }
{
    let ordinal = notes.text(bytes.list())?;
    let value = nodes::boxed(alloc, Expr::Text { ordinal })?;
    Ok(Some(Designated::Value(value)))
}
