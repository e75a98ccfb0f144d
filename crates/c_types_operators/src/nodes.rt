//! Typed nodes, made of their parts.

ghost use Rattle.std.specs.Prelude.{◌≡◌, IfOk};
ghost use Rattle.c_typed.specs.Tree.{load, unary, not, both, either, conditional, binary};
ghost use Rattle.c_typed.specs.ValueTypes.{size_of, pointee};
ghost use Rattle.c_typed.specs.declared.operation.Operation.TheVariants.{Advance};
ghost use Rattle.c_typed.specs.Views.{expr_of};
ghost use Rattle.c_ast.specs.TreeViews as source;
ghost use Rattle.c_types_operators.specs.Operators.{anchor, is_null, operand, plain_operand, one, converted, element_at, signed, applied, branch, target_type, assigned, updated, stepped};
ghost use Rattle.c_types_operators.specs.Views.{target_of};

use crate::designated::{ArrayAt, Target};
use c_typed::{Choice, Expr, INT, Operand, Operation, Reach, Sign, ValueType, type_of};
use ib_base::Place;
use std::alloc::{AllocError, Global};

/// The place that a broken rule names.
pub fn anchor(e: &c_ast::Expr) -> Place
    ensures { result ≡ anchor (source.expr_of e.now) }
{
    match e {
        c_ast::Expr::Name { place, .. } => *place,
        c_ast::Expr::Number { place, .. } => *place,
        c_ast::Expr::Char { place, .. } => *place,
        c_ast::Expr::Str { place, .. } => *place,
        c_ast::Expr::Null { place } => *place,
        c_ast::Expr::Eof { place } => *place,
        c_ast::Expr::Call { place, .. } => *place,
        c_ast::Expr::Index { place, .. } => *place,
        c_ast::Expr::Postfix { place, .. } => *place,
        c_ast::Expr::Unary { place, .. } => *place,
        c_ast::Expr::Cast { place, .. } => *place,
        c_ast::Expr::Binary { place, .. } => *place,
        c_ast::Expr::Conditional { place, .. } => *place,
        c_ast::Expr::Assign { place, .. } => *place,
        c_ast::Expr::Comma { place, .. } => *place,
    }
}

/// Whether it is a null pointer constant.
pub fn is_null(e: &c_ast::Expr) -> bool
    ensures { result ≡ is_null (source.expr_of e.now) }
{
    match e {
        c_ast::Expr::Null { .. } => true,
        c_ast::Expr::Number { value, .. } => *value == 0,
        c_ast::Expr::Name { .. } => false,
        c_ast::Expr::Char { .. } => false,
        c_ast::Expr::Str { .. } => false,
        c_ast::Expr::Eof { .. } => false,
        c_ast::Expr::Call { .. } => false,
        c_ast::Expr::Index { .. } => false,
        c_ast::Expr::Postfix { .. } => false,
        c_ast::Expr::Unary { .. } => false,
        c_ast::Expr::Cast { .. } => false,
        c_ast::Expr::Binary { .. } => false,
        c_ast::Expr::Conditional { .. } => false,
        c_ast::Expr::Assign { .. } => false,
        c_ast::Expr::Comma { .. } => false,
    }
}

pub fn operand(e: &c_ast::Expr, x: &Expr) -> Operand
    ensures { result ≡ operand (source.expr_of e.now) (expr_of x.now) }
{
    Operand {
        ty: type_of(x),
        is_null: is_null(e),
    }
}

/// An operand that is no constant.
pub fn plain_operand(ty: ValueType) -> Operand
    ensures { result ≡ plain_operand ty }
{
    Operand { ty, is_null: false }
}

pub fn boxed(alloc: Global, x: Expr) -> Result<Box<Expr>, AllocError>
    ensures { IfOk result (λ made. made.value ≡ x) }
{
    let made = Box::new(alloc, x)?;
    Ok(made)
}

/// A conversion is a node of its own, where the type changes.
pub fn converted(alloc: Global, to: ValueType, x: Box<Expr>) -> Result<Box<Expr>, AllocError>
    ensures { IfOk result (λ made. expr_of made.value ≡ converted to (expr_of x.value)) }
{
    if type_of(&x).is_same(to) {
        return Ok(x);
    }
    boxed(alloc, Expr::Convert { to, operand: x })
}

pub fn load(alloc: Global, ty: ValueType, address: Box<Expr>) -> Result<Box<Expr>, AllocError>
    ensures { IfOk result (λ made. expr_of made.value ≡ load ty (expr_of address.value)) }
{
    boxed(alloc, Expr::Load { ty, address })
}

pub fn element(
    alloc: Global,
    reach: Reach,
    array: ArrayAt,
    index: Box<Expr>,
) -> Result<Box<Expr>, AllocError>
    ensures { IfOk result (λ made. expr_of made.value ≡ element_at reach array.element array.storage array.length (expr_of index.value)) }
{
    let ty = array.element.pointer_to()?;
    let element = Expr::Element {
        ty,
        array: array.storage,
        length: array.length,
        size: array.element.size(),
        reach,
        index,
    };
    boxed(alloc, element)
}

pub fn not(alloc: Global, x: Box<Expr>) -> Result<Box<Expr>, AllocError>
    ensures { IfOk result (λ made. expr_of made.value ≡ not (expr_of x.value)) }
{
    boxed(alloc, Expr::Not { operand: x })
}

pub fn both(alloc: Global, left: Box<Expr>, right: Box<Expr>) -> Result<Box<Expr>, AllocError>
    ensures { IfOk result (λ made. expr_of made.value ≡ both (expr_of left.value) (expr_of right.value)) }
{
    boxed(alloc, Expr::And { left, right })
}

pub fn either(alloc: Global, left: Box<Expr>, right: Box<Expr>) -> Result<Box<Expr>, AllocError>
    ensures { IfOk result (λ made. expr_of made.value ≡ either (expr_of left.value) (expr_of right.value)) }
{
    boxed(alloc, Expr::Or { left, right })
}

pub fn signed(alloc: Global, op: Sign, x: Box<Expr>) -> Result<Box<Expr>, AllocError>
    ensures { IfOk result (λ made. expr_of made.value ≡ signed op (expr_of x.value)) }
{
    let rank = type_of(&x).promoted();
    let operand = converted(alloc, rank.value_type(), x)?;
    boxed(alloc, Expr::Unary { op, rank, operand })
}

/// The operation that was chosen, with its operands converted.
pub fn applied(
    alloc: Global,
    choice: Choice,
    x: Box<Expr>,
    y: Box<Expr>,
) -> Result<Box<Expr>, AllocError>
    ensures { IfOk result (λ made. expr_of made.value ≡ applied choice (expr_of x.value) (expr_of y.value)) }
{
    let left = converted(alloc, choice.left, x)?;
    let right = converted(alloc, choice.right, y)?;
    let binary = Expr::Binary {
        ty: choice.result,
        op: choice.op,
        left,
        right,
    };
    boxed(alloc, binary)
}

/// 1, which `++` and `--` add and subtract.
pub fn one(alloc: Global) -> Result<Box<Expr>, AllocError>
    ensures { IfOk result (λ made. expr_of made.value ≡ one) }
{
    boxed(alloc, Expr::Constant { ty: INT, value: 1 })
}

/// A pointer, so many elements further on.
pub fn advanced(
    alloc: Global,
    pointer: ValueType,
    left: Box<Expr>,
    right: Box<Expr>,
) -> Result<Box<Expr>, AllocError>
    ensures { IfOk result (λ made. expr_of made.value ≡ binary pointer (Advance (size_of (pointee pointer))) (expr_of left.value) (expr_of right.value)) }
{
    let op = Operation::Advance {
        size: pointer.pointee().size(),
    };
    let binary = Expr::Binary {
        ty: pointer,
        op,
        left,
        right,
    };
    boxed(alloc, binary)
}

pub fn branch(
    alloc: Global,
    ty: ValueType,
    test: Box<Expr>,
    x: Box<Expr>,
    y: Box<Expr>,
) -> Result<Box<Expr>, AllocError>
    ensures { IfOk result (λ made. expr_of made.value ≡ branch ty (expr_of test.value) (expr_of x.value) (expr_of y.value)) }
{
    let then = converted(alloc, ty, x)?;
    let other = converted(alloc, ty, y)?;
    let conditional = Expr::Conditional {
        ty,
        test,
        then,
        other,
    };
    boxed(alloc, conditional)
}

pub fn target_type(target: &Target) -> ValueType
    ensures { result ≡ target_type (target_of target.now) }
{
    match target {
        Target::Slot { ty, .. } => *ty,
        Target::Cell { ty, .. } => *ty,
    }
}

pub fn assigned(alloc: Global, target: Target, value: Box<Expr>) -> Result<Box<Expr>, AllocError>
    ensures { IfOk result (λ made. expr_of made.value ≡ assigned (target_of target) (expr_of value.value)) }
{
    match target {
        Target::Slot { ty, slot } => boxed(alloc, Expr::SetSlot { ty, slot, value }),
        Target::Cell { ty, address } => boxed(alloc, Expr::Store { ty, address, value }),
    }
}

/// A compound assignment: the operation that was chosen, on what stands there.
pub fn updated(
    alloc: Global,
    target: Target,
    choice: Choice,
    value: Box<Expr>,
) -> Result<Box<Expr>, AllocError>
    ensures { IfOk result (λ made. expr_of made.value ≡ updated (target_of target) choice (expr_of value.value)) }
{
    let within = choice.left;
    let op = choice.op;
    match target {
        Target::Slot { ty, slot } => {
            let update = Expr::UpdateSlot {
                ty,
                slot,
                within,
                op,
                value,
            };
            boxed(alloc, update)
        }
        Target::Cell { ty, address } => {
            let update = Expr::Update {
                ty,
                address,
                within,
                op,
                value,
            };
            boxed(alloc, update)
        }
    }
}

/// The same with 1, where the old value is the result.
pub fn stepped(alloc: Global, target: Target, choice: Choice) -> Result<Box<Expr>, AllocError>
    ensures { IfOk result (λ made. expr_of made.value ≡ stepped (target_of target) choice) }
{
    let within = choice.left;
    let op = choice.op;
    match target {
        Target::Slot { ty, slot } => {
            let step = Expr::StepSlot {
                ty,
                slot,
                within,
                op,
            };
            boxed(alloc, step)
        }
        Target::Cell { ty, address } => {
            let step = Expr::Step {
                ty,
                address,
                within,
                op,
            };
            boxed(alloc, step)
        }
    }
}
