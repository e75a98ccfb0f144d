ghost use Rattle.std.specs.Prelude.{◌≡◌, map, not, IfOk};
ghost use Rattle.std.specs.List.{list_any};
ghost use Rattle.c_ast.specs.TreeViews.{unit_of};
ghost use Rattle.c_types_functions.specs.Functions.{bodies, prototypes, is_main};
ghost use Rattle.c_types_functions.specs.Views.{plain_head};

use crate::heads::Head;
use c_ast::{Item, Unit};
use std::alloc::{AllocError, Global};

/// The heads of the bodies, in order.
pub fn bodies<'a>(alloc: Global, unit: &'a Unit) -> Result<Vec<Head<'a>>, AllocError>
    ensures { IfOk result (λ heads. map plain_head heads.items ≡ bodies (unit_of unit.now)) }
{
    let mut heads = Vec::new(alloc);
    for item in &unit.items {
        match item {
            Item::Function { head, .. } => heads.push(Head::new(alloc, head)?)?,
            Item::Prototype(_) | Item::Variables(_) => {}
        }
    }
    Ok(heads)
}

/// The heads of the prototypes, in order.
pub fn prototypes<'a>(alloc: Global, unit: &'a Unit) -> Result<Vec<Head<'a>>, AllocError>
    ensures { IfOk result (λ heads. map plain_head heads.items ≡ prototypes (unit_of unit.now)) }
{
    let mut heads = Vec::new(alloc);
    for item in &unit.items {
        match item {
            Item::Prototype(head) => heads.push(Head::new(alloc, head)?)?,
            Item::Function { .. } | Item::Variables(_) => {}
        }
    }
    Ok(heads)
}

/// Whether no function `main` is among those with a body.
pub fn lacks_main(bodies: &[Head<'_>]) -> bool
    ensures { result ≡ not (list_any is_main (map plain_head bodies.now)) }
{
    !bodies.iter().any(|head| head.is_main())
}
