//! The functions of a file that have a body.

ghost use Rattle.std.specs.Prelude.{◌≡◌, ◌++◌, ◌∷◌, [], length, map, Some, None, IfOk, OnOk, if◌then◌else◌};
ghost use Rattle.std.specs.Option.{option_map};
ghost use Rattle.c_ast.specs.TreeViews as source;
ghost use Rattle.c_ast.specs.Trees as c;
ghost use Rattle.c_typed.specs.Views as typed;
ghost use Rattle.c_types_functions.specs.Functions.{head_of};
ghost use Rattle.c_types_statements.specs.Keeping.{Types, rows_of, ◌<?>◌};
ghost use Rattle.c_types_statements.specs.Statements as statements;
ghost use Rattle.c_types.specs.Making.{and_param, and_params, body_in, function_with, param_at, past_body};
ghost use Rattle.c_types_units.specs.Units as units;

use crate::heads;
use c_ast::{FunctionHead, Param, ParamName};
use c_layout::Shape;
use c_typed::{Function, Home, Rule, Stmt};
use c_types_functions::Head;
use c_types_homes::{FunctionHomes, function_homes, param_type, written};
use c_types_operators::scope::Variable;
use c_types_statements::{Context, Walk, home_at, lives};
use ib_base::Text;
use std::alloc::{AllocError, Global};

/// Declares a parameter that has a name.
fn param<'a>(walk: &mut Walk<'a, '_>, homes: &[Home], param: &'a Param) -> Result<(), AllocError>
    ensures { OnOk result (walk.new ≡ and_param homes.now (source.param_of param.now) walk.old) }
{
    let ty = param_type(param)?;
    let number = walk.variable()?;
    let variable = Variable {
        shape: Shape::Scalar(ty),
        lives: lives(home_at(homes, number)),
    };
    match &param.name {
        ParamName::Unnamed => Ok(()),
        ParamName::Named(name) => {
            walk.declare(name, variable)?;
            Ok(())
        }
    }
}

fn params<'a>(walk: &mut Walk<'a, '_>, homes: &[Home], list: &'a [Param]) -> Result<(), AllocError>
    ensures { OnOk result (walk.new ≡ and_params homes.now (map source.param_of list.now) walk.old) }
{
    for x in list {
        param(walk, homes, x)?;
    }
    Ok(())
}

/// The statements of a function, whose outermost block is one scope with its parameters.
fn body<'a>(
    walk: &mut Walk<'a, '_>,
    context: Context<'_>,
    list: &'a [Param],
    stmts: &'a [c_ast::Stmt],
) -> Result<Option<Vec<Stmt>>, AllocError>
    ensures { let all = c.stms (map source.stmt_of stmts.now) in let around = context.entry in
        IfOk result (λ answer. Types walk.old walk.new walk.old.scope (past_body all walk.old.at)
        (body_in around.result around.homes.now (map source.param_of list.now) walk.old.scope walk.old.at all) (option_map rows_of answer)) }
{
    let before = walk.begin_function();
    walk.enter()?;
    params(walk, context.homes, list)?;
    let made = walk.stmts(context, false, stmts)?;
    walk.leave();
    walk.end_function(before);
    Ok(made)
}

/// The home of a parameter, by its number; a number that has none gives slot 0.
fn param_home(homes: &[Home], number: usize) -> Home
    ensures { result ≡ statements.home_at homes.now number }
{
    match homes.get(number) {
        Some(home) => *home,
        None => Home::Slot(0),
    }
}

/// Adds a parameter behind those before it, as the code that calls the function sees it.
fn add_param(
    made: &mut Vec<c_typed::Param>,
    homes: &[Home],
    param: &Param,
) -> Result<(), AllocError>
    ensures { OnOk result (made.new.items ≡ made.old.items ++ param_at homes.now (length made.old.items) (source.param_of param.now) ∷ []) }
{
    let home = param_home(homes, made.len());
    let ty = param_type(param)?;
    made.push(c_typed::Param { ty, home })?;
    Ok(())
}

/// The parameters as the code that calls the function sees them.
fn typed_params(
    alloc: Global,
    homes: &[Home],
    list: &[Param],
) -> Result<Vec<c_typed::Param>, AllocError>
    ensures { IfOk result (λ made. made.items ≡ units.params_typed homes.now 0 (map source.param_of list.now)) }
{
    let mut made = Vec::new(alloc);
    for param in list {
        add_param(&mut made, homes, param)?;
    }
    Ok(made)
}

/// A function with these statements.
fn function_of(
    alloc: Global,
    head: &FunctionHead,
    found: &FunctionHomes,
    body: Vec<Stmt>,
) -> Result<Function, AllocError>
    ensures { let h = head.now in let homes = found.now in
        IfOk result (λ made. typed.function_of made ≡ function_with (head_of h.place (source.type_of h.result) h.name (map source.param_of h.params.items)) homes.homes homes.slots homes.frame (rows_of body)) }
{
    let name = Text::from_bytes(alloc, head.name.list())?;
    let result = written(&head.result)?;
    let params = typed_params(alloc, found.homes.as_slice(), &head.params)?;
    Ok(Function {
        name,
        result,
        params,
        slots: found.slots,
        frame: found.frame,
        body,
    })
}

/// A function with these statements, where no rule is broken.
fn with_body(
    alloc: Global,
    fine: bool,
    head: &FunctionHead,
    found: &FunctionHomes,
    body: Option<Vec<Stmt>>,
) -> Result<Option<Function>, AllocError>
    ensures { let h = head.now in let homes = found.now in
        let made_with = function_with (head_of h.place (source.type_of h.result) h.name (map source.param_of h.params.items)) homes.homes homes.slots homes.frame in
        IfOk result (λ made. option_map typed.function_of made ≡ (if fine then (Some made_with <?> option_map rows_of body) else None)) }
{
    match body {
        Some(body) => {
            if fine {
                let made = function_of(alloc, head, found, body)?;
                return Ok(Some(made));
            }
            Ok(None)
        }
        None => Ok(None),
    }
}

/// A function with its body. In a body every parameter has a name.
pub(crate) fn function<'a>(
    walk: &mut Walk<'a, '_>,
    head: &'a FunctionHead,
    stmts: &'a [c_ast::Stmt],
) -> Result<Option<Function>, AllocError>
    ensures { let h = head.now in let all = c.stms (map source.stmt_of stmts.now) in
        IfOk result (λ answer. Types walk.old walk.new walk.old.scope (past_body all walk.old.at)
        (units.function walk.old.scope walk.old.at (head_of h.place (source.type_of h.result) h.name (map source.param_of h.params.items)) all) (option_map typed.function_of answer)) }
{
    let seen = Head::new(walk.alloc, head)?;
    let fine = heads::judge(walk, seen.has_unnamed(), head.place, &seen)?;
    let found = function_homes(walk.alloc, &head.params, stmts)?;
    let context = Context {
        result: seen.result(),
        homes: found.homes.as_slice(),
    };
    let made = body(walk, context, &head.params, stmts)?;
    let answer = with_body(walk.alloc, fine, head, &found, made)?;
    Ok(answer)
}
