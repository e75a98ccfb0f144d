//! The globals of a file.

ghost use Rattle.std.specs.Prelude.{◌≡◌, map, Some, None, IfOk, if◌then◌else◌};
ghost use Rattle.std.specs.Option.{option_map};
ghost use Rattle.c_ast.specs.TreeViews as source;
ghost use Rattle.c_types_statements.specs.Keeping.{Types, counted, ◌<?>◌};
ghost use Rattle.c_types_statements.specs.Statements.{past_texts};
ghost use Rattle.c_types_initial.specs.Constants.{shape_data, laid_out};
ghost use Rattle.c_types.specs.Making.{and_global, past_global, past_globals};
ghost use Rattle.c_types_units.specs.Units.{a_global, with_global, with_globals, global, globals};

use c_ast::{Declarator, Init};
use c_layout::{Datum, GlobalData, Shape};
use c_typed::{Rule, Storage};
use c_types_declarators::is_bad_declarator;
use c_types_homes::shape_of;
use c_types_initial::global_data;
use c_types_operators::calls::both;
use c_types_operators::scope::{Lives, Variable};
use c_types_statements::Walk;
use ib_base::Place;
use sqlite_items::Items;
use std::alloc::AllocError;

/// What a global of this shape holds at first.
fn held_first<'a>(
    walk: &mut Walk<'a, '_>,
    place: Place,
    shape: Shape,
    init: &'a Init,
) -> Result<Option<Items<Datum>>, AllocError>
    ensures { let x = source.init_of init.now in
        IfOk result (λ answer. Types walk.old walk.new walk.old.scope (past_texts (laid_out shape x) walk.old.at) (shape_data walk.old.scope walk.old.at.texts place shape x) answer) }
{
    let answer = global_data(walk.alloc, &walk.scope, &mut walk.notes, place, shape, init)?;
    Ok(answer)
}

/// A global of this shape, where no rule is broken.
fn global_of(fine: bool, shape: Shape, held: Option<Items<Datum>>) -> Option<GlobalData>
    ensures { result ≡ (if fine then (Some (a_global shape) <?> held) else None) }
{
    match held {
        Some(held) => {
            if fine {
                return Some(GlobalData { shape, held });
            }
            None
        }
        None => None,
    }
}

/// A global, which is known in its own initialiser.
fn global<'a>(walk: &mut Walk<'a, '_>, d: &'a Declarator) -> Result<Option<GlobalData>, AllocError>
    ensures { let x = source.decl_of d.now in
        IfOk result (λ answer. Types walk.old walk.new (with_global walk.old.at.variable x walk.old.scope) (past_global x walk.old.at)
        (global walk.old.scope walk.old.at.variable walk.old.at.texts x) answer) }
{
    let shape = shape_of(d)?;
    let number = walk.variable()?;
    let variable = Variable {
        shape,
        lives: Lives::InMemory(Storage::Global(number)),
    };
    walk.declare(&d.name, variable)?;
    let bad = is_bad_declarator(d)?;
    let fine = walk.keeps(bad, Rule::BadType, d.place);
    let held = held_first(walk, d.place, shape, &d.init)?;
    let answer = global_of(fine, shape, held);
    Ok(answer)
}

/// A list with one more at its end, where both are there.
fn and_global(
    list: Option<Vec<GlobalData>>,
    x: Option<GlobalData>,
) -> Result<Option<Vec<GlobalData>>, AllocError>
    ensures { IfOk result (λ longer. option_map (λ row. row.items) longer ≡ (Some and_global <?> option_map (λ row. row.items) list <?> x)) }
{
    match both(list, x) {
        Some((mut list, x)) => {
            list.push(x)?;
            Ok(Some(list))
        }
        None => Ok(None),
    }
}

/// The globals of a declaration, each of which is known behind its declarator.
pub(crate) fn globals<'a>(
    walk: &mut Walk<'a, '_>,
    list: &'a [Declarator],
) -> Result<Option<Vec<GlobalData>>, AllocError>
    ensures { let ds = map source.decl_of list.now in
        IfOk result (λ answer. Types walk.old walk.new (with_globals walk.old.at.variable ds walk.old.scope) (past_globals ds walk.old.at)
        (globals walk.old.scope walk.old.at.variable walk.old.at.texts ds) (option_map (λ row. row.items) answer)) }
{
    let mut made = Some(Vec::new(walk.alloc));
    for d in list {
        let x = global(walk, d)?;
        made = and_global(made, x)?;
    }
    Ok(made)
}
