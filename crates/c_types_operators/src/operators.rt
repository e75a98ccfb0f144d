//! What operators give for operands that are judged, or the rule that they break.

ghost use Rattle.std.specs.Prelude.{◌≡◌, [], ◌∷◌, ◌||◌, IfOk};
ghost use Rattle.c_typed.specs.ValueTypes.{is_integer, is_pointer};
ghost use Rattle.c_typed.specs.Views.{expr_of, boxed_of};
ghost use Rattle.c_ast.specs.TreeViews as source;
ghost use Rattle.c_types_operators.specs.Operators.{value_of, target_of as place_of, address_of, tested, stored_as, integer_operand, used_variable};
ghost use Rattle.c_types_operators.specs.Judging.{Judges};
ghost use Rattle.c_types_operators.specs.Views.{designated_of, target_of};

use crate::designated::{ArrayAt, Designated, Target};
use crate::nodes;
use crate::notes::Notes;
use crate::scope::{Lives, Variable};
use c_layout::Shape;
use c_typed::{Expr, Reach, Rule, ValueType, fits, type_of};
use ib_base::Place;
use std::alloc::{AllocError, Global};

/// An operand as it stands in the source, and what it is.
#[derive(Drop)]
pub struct Operand<'a> {
    pub source: &'a c_ast::Expr,
    pub designated: Designated,
}

impl<'a> Operand<'a> {
    pub fn new(source: &'a c_ast::Expr, designated: Designated) -> Operand<'a>
        ensures { result ≡ record { source = source.entry; designated = designated } }
    {
        Operand { source, designated }
    }
}

/// An operand as it stands in the source, and its value.
#[derive(Drop)]
pub struct Judged<'a> {
    pub source: &'a c_ast::Expr,
    pub value: Box<Expr>,
}

impl<'a> Judged<'a> {
    pub fn new(source: &'a c_ast::Expr, value: Box<Expr>) -> Judged<'a>
        ensures { result ≡ record { source = source.entry; value = value } }
    {
        Judged { source, value }
    }
}

/// The value of what is designated: what a place holds, and the address of an array's first
/// element.
pub fn value_of(alloc: Global, d: Designated) -> Result<Box<Expr>, AllocError>
    ensures { IfOk result (λ made. expr_of made.value ≡ value_of (designated_of d)) }
{
    match d {
        Designated::Value(x) => Ok(x),
        Designated::Slot { ty, slot } => nodes::boxed(alloc, Expr::Slot { ty, slot }),
        Designated::Cell { ty, address } => nodes::load(alloc, ty, address),
        Designated::Element { array, index } => {
            let address = nodes::element(alloc, Reach::Inside, array, index)?;
            nodes::load(alloc, array.element, address)
        }
        Designated::Array(array) => {
            let ty = array.element.pointer_to()?;
            let of = array.storage;
            nodes::boxed(alloc, Expr::Address { ty, of })
        }
    }
}

/// Where a value can be stored.
#[tactic(auto, using(crate::proofs::JudgingLemmas::fine, crate::proofs::JudgingLemmas::broken))]
pub fn place_of(
    alloc: Global,
    notes: &mut Notes<'_>,
    place: Place,
    d: Designated,
) -> Result<Option<Target>, AllocError>
    ensures { IfOk result (λ answer. Judges target_of notes.old [] (place_of place (designated_of d)) answer notes.new) }
{
    match d {
        Designated::Slot { ty, slot } => Ok(Some(Target::Slot { ty, slot })),
        Designated::Cell { ty, address } => Ok(Some(Target::Cell { ty, address })),
        Designated::Element { array, index } => {
            let address = nodes::element(alloc, Reach::Inside, array, index)?;
            Ok(Some(Target::Cell {
                ty: array.element,
                address,
            }))
        }
        Designated::Value(_) | Designated::Array(_) => {
            notes.breaks(Rule::NotAPlace, place);
            Ok(None)
        }
    }
}

/// Under `&` an element may be the one behind the last.
#[tactic(auto, using(crate::proofs::JudgingLemmas::fine, crate::proofs::JudgingLemmas::broken))]
pub fn address_of(
    alloc: Global,
    notes: &mut Notes<'_>,
    place: Place,
    d: Designated,
) -> Result<Option<Box<Expr>>, AllocError>
    ensures { IfOk result (λ answer. Judges boxed_of notes.old [] (address_of place (designated_of d)) answer notes.new) }
{
    match d {
        Designated::Cell { address, .. } => Ok(Some(address)),
        Designated::Element { array, index } => {
            Ok(Some(nodes::element(alloc, Reach::ToEnd, array, index)?))
        }
        Designated::Slot { .. } | Designated::Value(_) | Designated::Array(_) => {
            notes.breaks(Rule::NotAPlace, place);
            Ok(None)
        }
    }
}

/// What a variable is where it is used.
pub fn used_variable(alloc: Global, variable: Variable) -> Result<Designated, AllocError>
    ensures { IfOk result (λ made. designated_of made ≡ used_variable variable.shape variable.lives) }
{
    match variable.shape {
        Shape::Scalar(ty) => match variable.lives {
            Lives::InSlot(slot) => Ok(Designated::Slot { ty, slot }),
            Lives::InMemory(of) => {
                let pointer = ty.pointer_to()?;
                let address = nodes::boxed(alloc, Expr::Address { ty: pointer, of })?;
                Ok(Designated::Cell { ty, address })
            }
        },
        Shape::Array { element, length } => match variable.lives {
            Lives::InSlot(slot) => Ok(Designated::Slot { ty: element, slot }),
            Lives::InMemory(storage) => Ok(Designated::Array(ArrayAt {
                element,
                storage,
                length,
            })),
        },
    }
}

fn is_condition(ty: ValueType) -> bool
    ensures { result ≡ (is_integer ty || is_pointer ty) }
{
    ty.is_integer() || ty.is_pointer()
}

/// A condition, or an operand of `!`, `&&` or `||`.
#[tactic(auto, using(crate::proofs::JudgingLemmas::fine, crate::proofs::JudgingLemmas::broken))]
pub fn tested(notes: &mut Notes<'_>, e: &c_ast::Expr, x: Box<Expr>) -> Option<Box<Expr>>
    ensures { Judges boxed_of notes.old [] (tested (source.expr_of e.now) (expr_of x.value)) result notes.new }
{
    if is_condition(type_of(&x)) {
        return Some(x);
    }
    notes.breaks(Rule::NotACondition, nodes::anchor(e));
    None
}

/// A value that is assigned, initialises, is passed or returned.
#[tactic(auto, using(crate::proofs::JudgingLemmas::fine, crate::proofs::JudgingLemmas::broken))]
pub fn stored_as(
    alloc: Global,
    notes: &mut Notes<'_>,
    target: ValueType,
    e: &c_ast::Expr,
    x: Box<Expr>,
) -> Result<Option<Box<Expr>>, AllocError>
    ensures { IfOk result (λ answer. Judges boxed_of notes.old [] (stored_as target (source.expr_of e.now) (expr_of x.value)) answer notes.new) }
{
    if fits(target, nodes::operand(e, &x)) {
        return Ok(Some(nodes::converted(alloc, target, x)?));
    }
    notes.breaks(Rule::NotAssignable, nodes::anchor(e));
    Ok(None)
}

#[tactic(auto, using(crate::proofs::JudgingLemmas::fine, crate::proofs::JudgingLemmas::broken))]
pub fn integer_operand(notes: &mut Notes<'_>, place: Place, x: Box<Expr>) -> Option<Box<Expr>>
    ensures { Judges boxed_of notes.old [] (integer_operand place (expr_of x.value)) result notes.new }
{
    if type_of(&x).is_integer() {
        return Some(x);
    }
    notes.breaks(Rule::WrongOperands, place);
    None
}
