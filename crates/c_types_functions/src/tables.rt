ghost use Rattle.std.specs.Prelude.{◌≡◌, map, IfOk, OnOk};
ghost use Rattle.std.specs.Option.{option_map};
ghost use Rattle.c_scopes.specs.Scopes.{meaning};
ghost use Rattle.c_types_operators.specs.ScopeViews.{function_of, functions_of};
ghost use Rattle.c_types_functions.specs.Functions.{all_named, by_bodies, by_heads, built_in, numbered, running};
ghost use Rattle.c_types_functions.specs.Views.{plain_head};

use crate::heads::Head;
use c_ast::Base;
use c_scopes::Table;
use c_typed::{INT, LONG, ValueType};
use c_types_operators::scope::{Callee, Function};
use std::alloc::{AllocError, Global};

const GET_CHAR: Function<'static> = Function {
    result: INT,
    params: &[],
    callee: Callee::GetChar,
};

const PUT_CHAR: Function<'static> = Function {
    result: INT,
    params: &[INT],
    callee: Callee::PutChar,
};

const PUT_INT: Function<'static> = Function {
    result: ValueType::Base(Base::Void),
    params: &[LONG],
    callee: Callee::PutInt,
};

/// A function that is built in.
pub fn built_in(name: &[u8]) -> Option<Function<'static>>
    ensures { option_map function_of result ≡ meaning name.now built_in }
{
    if name == b"getchar".as_slice() {
        return Some(GET_CHAR);
    }
    if name == b"putchar".as_slice() {
        return Some(PUT_CHAR);
    }
    if name == b"putint".as_slice() {
        return Some(PUT_INT);
    }
    None
}

impl<'a> Head<'a> {
    /// The function that runs the body with this number.
    fn running(&self, number: u32) -> Function<'_>
        ensures { function_of result ≡ (running number (plain_head self.now)).meant }
    {
        Function {
            result: self.result(),
            params: self.types(),
            callee: Callee::Body(number),
        }
    }
}

/// With the functions of these heads, which run bodies from number 0 on; a name that is known
/// keeps its meaning. More bodies than a `u32` counts find no memory.
fn and_bodies<'a, 's>(
    table: &mut Table<'a, Function<'s>>,
    bodies: &'s [Head<'a>],
) -> Result<(), AllocError>
    ensures { OnOk result (functions_of table.new ≡ all_named (functions_of table.old) (numbered 0 (map plain_head bodies.now))) }
{
    let mut number = 0u32;
    for head in bodies {
        table.declare(head.name(), head.running(number))?;
        number = number.checked_add(1).ok_or(AllocError)?;
    }
    Ok(())
}

/// The functions of a file by the heads of their first bodies.
pub fn with_body<'a, 's>(
    alloc: Global,
    bodies: &'s [Head<'a>],
) -> Result<Table<'a, Function<'s>>, AllocError>
    ensures { IfOk result (λ table. functions_of table ≡ by_bodies (map plain_head bodies.now)) }
{
    let mut bodied = Table::new(alloc);
    and_bodies(&mut bodied, bodies)?;
    Ok(bodied)
}

#[tactic(auto, using(crate::proofs::TableLemmas::functions_more))]
fn and_built_in(table: &mut Table<'_, Function<'_>>) -> Result<(), AllocError>
    ensures { OnOk result (functions_of table.new ≡ all_named (functions_of table.old) built_in) }
{
    table.declare(b"getchar", GET_CHAR)?;
    table.declare(b"putchar", PUT_CHAR)?;
    table.declare(b"putint", PUT_INT)?;
    Ok(())
}

/// The functions that a file knows: as they are built in, or by their first bodies, or by their
/// first prototypes.
pub fn known<'a, 's>(
    alloc: Global,
    bodies: &'s [Head<'a>],
    prototypes: &'s [Head<'a>],
) -> Result<Table<'a, Function<'s>>, AllocError>
    ensures { IfOk result (λ table. functions_of table ≡ by_heads (map plain_head bodies.now) (map plain_head prototypes.now)) }
{
    let mut table = Table::new(alloc);
    and_built_in(&mut table)?;
    and_bodies(&mut table, bodies)?;
    let number = u32::try_from(bodies.len()).ok().ok_or(AllocError)?;
    for head in prototypes {
        table.declare(head.name(), head.running(number))?;
    }
    Ok(table)
}
