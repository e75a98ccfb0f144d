ghost use Rattle.std.specs.Prelude.{◌≡◌, IfOk};
ghost use Rattle.c_ast.specs.TreeViews as source;
ghost use Rattle.c_types_declarators.specs.Declarations.{is_on_void, has_bad_length, has_bad_param_length, is_bad_declarator, is_bad_param};

use c_ast::{Base, Declarator, Init, Length, Param};
use c_typed::ValueType;
use c_types_homes::{is_bad_length, written};
use std::alloc::AllocError;

/// Whether a type is `void` or a pointer that is built on it.
pub fn is_on_void(ty: ValueType) -> bool
    ensures { result ≡ is_on_void ty }
{
    match ty {
        ValueType::Base(base) => matches!(base, Base::Void),
        ValueType::Pointer { to, .. } => matches!(to, Base::Void),
        ValueType::Null => false,
    }
}

fn has_bad_length(length: Length, init: &Init) -> bool
    ensures { result ≡ has_bad_length length (source.init_of init.now) }
{
    match length {
        Length::Scalar => false,
        Length::Missing => matches!(init, Init::Nothing),
        Length::Given { value, .. } => is_bad_length(value),
    }
}

fn has_bad_param_length(length: Length) -> bool
    ensures { result ≡ has_bad_param_length length }
{
    match length {
        Length::Scalar | Length::Missing => false,
        Length::Given { value, .. } => is_bad_length(value),
    }
}

/// Whether a declarator breaks the rule on types: it is built on `void`, or its length is 0, above
/// 1048576, or missing without an initialiser. More stars than a `u32` counts find no memory.
pub fn is_bad_declarator(d: &Declarator) -> Result<bool, AllocError>
    ensures { IfOk result (λ bad. bad ≡ is_bad_declarator (source.decl_of d.now)) }
{
    let ty = written(&d.kind)?;
    Ok(is_on_void(ty) || has_bad_length(d.length, &d.init))
}

/// Whether a parameter breaks the rule on types; its length may be missing.
pub fn is_bad_param(param: &Param) -> Result<bool, AllocError>
    ensures { IfOk result (λ bad. bad ≡ is_bad_param (source.param_of param.now)) }
{
    let ty = written(&param.kind)?;
    Ok(is_on_void(ty) || has_bad_param_length(param.length))
}
