ghost use Rattle.std.specs.Prelude.{◌≡◌, map, IfOk};
ghost use Rattle.std.specs.List.{list_any};
ghost use Rattle.c_ast.specs.TreeViews as source;
ghost use Rattle.c_types_homes.specs.Declarators.{param_type};
ghost use Rattle.c_types_functions.specs.Functions.{is_unnamed};

use c_ast::{FunctionHead, Param, ParamName};
use c_typed::ValueType;
use c_types_homes::{param_type, written};
use ib_base::Place;
use sqlite_items::Items;
use std::alloc::{AllocError, Global};

/// The head of a function: a prototype, or what stands before a body.
#[derive(Drop)]
pub struct Head<'a> {
    pub(crate) place: Place,
    pub(crate) result: ValueType,
    pub(crate) name: &'a [u8],
    pub(crate) params: &'a [Param],
    types: Items<ValueType>,
    ghost typed: { types ≡ map param_type (map source.param_of params.now) },
}

fn param_types(alloc: Global, params: &[Param]) -> Result<Items<ValueType>, AllocError>
    ensures { IfOk result (λ types. types ≡ map param_type (map source.param_of params.now)) }
{
    let mut types = Items::new(alloc);
    for param in params {
        types.push(param_type(param)?)?;
    }
    Ok(types)
}

fn has_unnamed_in(params: &[Param]) -> bool
    ensures { result ≡ list_any is_unnamed (map source.param_of params.now) }
{
    for param in params {
        if matches!(param.name, ParamName::Unnamed) {
            return true;
        }
    }
    false
}

impl<'a> Head<'a> {
    ghost use Rattle.c_types_functions.specs.Functions.{head_of, is_main, has_unnamed};
    ghost use Rattle.c_types_functions.specs.Views.{plain_head};

    /// The head, with the types that it writes. More stars than a `u32` counts find no memory.
    pub fn new(alloc: Global, head: &'a FunctionHead) -> Result<Head<'a>, AllocError>
        ensures { let h = head.now in
            IfOk result (λ made. plain_head made ≡ head_of h.place (source.type_of h.result) h.name (map source.param_of h.params.items)) }
    {
        let result = written(&head.result)?;
        let types = param_types(alloc, &head.params)?;
        Ok(Head {
            place: head.place,
            result,
            name: head.name.list(),
            params: &head.params,
            types,
        })
    }

    /// The function's name.
    pub fn name(&self) -> &'a [u8]
        ensures { result.now ≡ (plain_head self.now).name }
    {
        self.name
    }

    /// The type of the values that it gives back.
    pub fn result(&self) -> ValueType
        ensures { result ≡ (plain_head self.now).result }
    {
        self.result
    }

    /// The types of the parameters.
    pub fn types(&self) -> &[ValueType]
        ensures { result.now ≡ map param_type (plain_head self.now).params }
    {
        self.types.as_slice()
    }

    /// Whether it is `main`.
    pub fn is_main(&self) -> bool
        ensures { result ≡ is_main (plain_head self.now) }
    {
        self.name == b"main".as_slice()
    }

    /// Whether a parameter has no name.
    pub fn has_unnamed(&self) -> bool
        ensures { result ≡ has_unnamed (plain_head self.now) }
    {
        has_unnamed_in(self.params)
    }
}
