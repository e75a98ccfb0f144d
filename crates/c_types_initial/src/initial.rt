//! What globals hold at first.

ghost use Rattle.std.specs.Prelude.{[], map, IfOk};
ghost use Rattle.c_ast.specs.TreeViews as source;
ghost use Rattle.c_ast.specs.Trees as c;
ghost use Rattle.c_layout.specs.declared.shape.Shape.TheVariants.{Scalar, Array};
ghost use Rattle.c_types_expressions.specs.Expressions.{literals, literals_of};
ghost use Rattle.c_types_operators.specs.Judging.{Judges};
ghost use Rattle.c_types_initial.specs.Constants.{datum, data_of, array_string, array_value, array_data, scalar_data, shape_data, laid_out};

use crate::constants::{is_char, is_constant, string_data};
use crate::parts;
use c_ast::Init;
use c_layout::{Datum, Shape};
use c_typed::{Rule, ValueType};
use c_types_expressions::{stored_value, value, values};
use c_types_operators::notes::Notes;
use c_types_operators::scope::Scope;
use ib_base::Place;
use sqlite_items::Items;
use std::alloc::{AllocError, Global};

/// What an element holds of a global that is declared at this place.
fn datum<'a>(
    alloc: Global,
    scope: &Scope<'a, '_>,
    notes: &mut Notes<'a>,
    place: Place,
    ty: ValueType,
    e: &'a c_ast::Expr,
) -> Result<Option<Datum>, AllocError>
    ensures { let x = source.expr_of e.now in
        IfOk result (λ answer. Judges (λ held. held) notes.old (literals x) (datum scope.now notes.old.texts place ty x) answer notes.new) }
{
    let broken = !is_constant(ty, e);
    parts::note_if(notes, broken, Rule::WrongInitialiser, place);
    let x = stored_value(alloc, scope, notes, ty, e)?;
    let held = parts::datum(x);
    let answer = parts::unless(broken, held);
    Ok(answer)
}

/// What elements hold that are given these values.
fn data_of<'a>(
    alloc: Global,
    scope: &Scope<'a, '_>,
    notes: &mut Notes<'a>,
    place: Place,
    ty: ValueType,
    list: &'a [c_ast::Expr],
) -> Result<Option<Items<Datum>>, AllocError>
    ensures { let xs = map source.expr_of list.now in
        IfOk result (λ answer. Judges (λ held. held) notes.old (literals_of (c.exps xs)) (data_of scope.now notes.old.texts place ty xs) answer notes.new) }
{
    let mut held = Some(Items::new(alloc));
    for e in list {
        let x = datum(alloc, scope, notes, place, ty, e)?;
        held = parts::another(held, x)?;
    }
    Ok(held)
}

fn array_string(
    alloc: Global,
    notes: &mut Notes<'_>,
    place: Place,
    ty: ValueType,
    count: u64,
    bytes: &[u8],
) -> Result<Option<Items<Datum>>, AllocError>
    ensures { IfOk result (λ answer. Judges (λ held. held) notes.old [] (array_string place ty count bytes.now) answer notes.new) }
{
    if is_char(ty) && bytes.len() as u64 <= count {
        let held = string_data(alloc, count, bytes)?;
        return Ok(Some(held));
    }
    notes.breaks(Rule::WrongInitialiser, place);
    Ok(None)
}

/// A value that is no string fits no array.
fn array_value<'a>(
    alloc: Global,
    scope: &Scope<'a, '_>,
    notes: &mut Notes<'a>,
    place: Place,
    ty: ValueType,
    e: &'a c_ast::Expr,
) -> Result<Option<Items<Datum>>, AllocError>
    ensures { let x = source.expr_of e.now in
        IfOk result (λ answer. Judges (λ held. held) notes.old (literals x) (array_value scope.now notes.old.texts place ty x) answer notes.new) }
{
    let broken = !is_constant(ty, e);
    parts::note_if(notes, broken, Rule::WrongInitialiser, place);
    let x = value(alloc, scope, notes, e)?;
    let held = parts::unfit(notes, e, x);
    let answer = parts::unless(broken, held);
    Ok(answer)
}

/// An array that is given one value, which only a string fits.
fn array_given<'a>(
    alloc: Global,
    scope: &Scope<'a, '_>,
    notes: &mut Notes<'a>,
    place: Place,
    ty: ValueType,
    count: u64,
    e: &'a c_ast::Expr,
) -> Result<Option<Items<Datum>>, AllocError>
    ensures { let x = c.value (source.expr_of e.now) in
        IfOk result (λ answer. Judges (λ held. held) notes.old (laid_out (Array ty count) x) (array_data scope.now notes.old.texts place ty count x) answer notes.new) }
{
    match e {
        c_ast::Expr::Str { bytes, .. } => {
            array_string(alloc, notes, place, ty, count, bytes.list())
        }
        _ => array_value(alloc, scope, notes, place, ty, e),
    }
}

fn array_data<'a>(
    alloc: Global,
    scope: &Scope<'a, '_>,
    notes: &mut Notes<'a>,
    place: Place,
    ty: ValueType,
    count: u64,
    init: &'a Init,
) -> Result<Option<Items<Datum>>, AllocError>
    ensures { let x = source.init_of init.now in
        IfOk result (λ answer. Judges (λ held. held) notes.old (laid_out (Array ty count) x) (array_data scope.now notes.old.texts place ty count x) answer notes.new) }
{
    match init {
        Init::Nothing => Ok(Some(Items::new(alloc))),
        Init::Value(e) => array_given(alloc, scope, notes, place, ty, count, e),
        Init::List(list) => {
            let broken = list.len() as u64 > count;
            parts::note_if(notes, broken, Rule::WrongInitialiser, place);
            let held = data_of(alloc, scope, notes, place, ty, list)?;
            let answer = parts::unless(broken, held);
            Ok(answer)
        }
    }
}

fn scalar_data<'a>(
    alloc: Global,
    scope: &Scope<'a, '_>,
    notes: &mut Notes<'a>,
    place: Place,
    ty: ValueType,
    init: &'a Init,
) -> Result<Option<Items<Datum>>, AllocError>
    ensures { let x = source.init_of init.now in
        IfOk result (λ answer. Judges (λ held. held) notes.old (laid_out (Scalar ty) x) (scalar_data scope.now notes.old.texts place ty x) answer notes.new) }
{
    match init {
        Init::Nothing => Ok(Some(Items::new(alloc))),
        Init::Value(e) => {
            let x = datum(alloc, scope, notes, place, ty, e)?;
            let answer = parts::only(alloc, x)?;
            Ok(answer)
        }
        Init::List(list) => {
            notes.breaks(Rule::WrongInitialiser, place);
            values(alloc, scope, notes, list)?;
            Ok(None)
        }
    }
}

/// What a global of this shape holds at first that is declared at this place, and which is known
/// in its own initialiser already.
pub fn global_data<'a>(
    alloc: Global,
    scope: &Scope<'a, '_>,
    notes: &mut Notes<'a>,
    place: Place,
    shape: Shape,
    init: &'a Init,
) -> Result<Option<Items<Datum>>, AllocError>
    ensures { let x = source.init_of init.now in
        IfOk result (λ answer. Judges (λ held. held) notes.old (laid_out shape x) (shape_data scope.now notes.old.texts place shape x) answer notes.new) }
{
    match shape {
        Shape::Scalar(ty) => scalar_data(alloc, scope, notes, place, ty, init),
        Shape::Array { element, length } => {
            array_data(alloc, scope, notes, place, element, length, init)
        }
    }
}
