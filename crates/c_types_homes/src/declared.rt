ghost use Rattle.std.specs.Prelude.{◌≡◌, IfOk};
ghost use Rattle.c_ast.specs.TreeViews.{type_of, expr_of, init_of, decl_of, param_of};
ghost use Rattle.c_ast.specs.Trees.{value};
ghost use Rattle.c_typed.specs.ValueTypes.{written};
ghost use Rattle.c_types_homes.specs.Declarators.{is_bad_length, given_length, element_number, declared_shape, param_type};

use c_ast::{CType, Declarator, Expr, Init, Length, Param};
use c_layout::Shape;
use c_typed::ValueType;
use std::alloc::AllocError;

/// The most elements that the brackets of a declarator may give an array.
const MOST_ELEMENTS: i64 = 1_048_576;

/// The type that a declarator, a parameter or a cast writes. More stars than a `u32` counts find
/// no memory.
pub fn written(ty: &CType) -> Result<ValueType, AllocError>
    ensures { IfOk result (λ made. made ≡ written (type_of ty.now)) }
{
    match ty {
        CType::Base(base) => Ok(ValueType::Base(*base)),
        CType::Pointer(to) => written(to)?.pointer_to(),
    }
}

/// Whether the length in a declarator's or parameter's brackets breaks the rule on lengths.
pub fn is_bad_length(length: i64) -> bool
    ensures { result ≡ is_bad_length length }
{
    length < 1 || length > MOST_ELEMENTS
}

fn given_length(length: i64) -> u64
    ensures { result ≡ given_length length }
{
    if is_bad_length(length) {
        1
    } else {
        length.unsigned_abs()
    }
}

fn elements_of_value(given: &Expr) -> Result<u64, AllocError>
    ensures { IfOk result (λ count. count ≡ element_number (value (expr_of given.now))) }
{
    match given {
        Expr::Str { bytes, .. } => { (bytes.list().len() as u64).checked_add(1).ok_or(AllocError) }
        _ => Ok(1),
    }
}

/// How many elements an initialiser gives an array without a length.
fn element_number(init: &Init) -> Result<u64, AllocError>
    ensures { IfOk result (λ count. count ≡ element_number (init_of init.now)) }
{
    match init {
        Init::Nothing => Ok(0),
        Init::Value(value) => elements_of_value(value),
        Init::List(values) => Ok(values.len() as u64),
    }
}

/// What a declarator declares.
pub fn shape_of(declarator: &Declarator) -> Result<Shape, AllocError>
    ensures { IfOk result (λ shape. shape ≡ declared_shape (decl_of declarator.now)) }
{
    let ty = written(&declarator.kind)?;
    match declarator.length {
        Length::Scalar => Ok(Shape::Scalar(ty)),
        Length::Missing => {
            let length = element_number(&declarator.init)?;
            Ok(Shape::Array {
                element: ty,
                length,
            })
        }
        Length::Given { value, .. } => Ok(Shape::Array {
            element: ty,
            length: given_length(value),
        }),
    }
}

/// The type of a parameter: one that is written as an array is a pointer.
pub fn param_type(param: &Param) -> Result<ValueType, AllocError>
    ensures { IfOk result (λ ty. ty ≡ param_type (param_of param.now)) }
{
    let ty = written(&param.kind)?;
    match param.length {
        Length::Scalar => Ok(ty),
        Length::Missing | Length::Given { .. } => ty.pointer_to(),
    }
}
