//! The items of a file.

ghost use Rattle.std.specs.Prelude.{◌≡◌, ◌++◌, map, Some, None, IfOk, OnOk, if◌then◌else◌};
ghost use Rattle.std.specs.Option.{option_map};
ghost use Rattle.c_ast.specs.TreeViews as source;
ghost use Rattle.c_typed.specs.Views.{function_of};
ghost use Rattle.c_types_operators.specs.ScopeViews.{functions_of};
ghost use Rattle.c_types_functions.specs.Functions.{head_of};
ghost use Rattle.c_types_statements.specs.Keeping.{Types, ◌<?>◌};
ghost use Rattle.c_types.specs.Making.{with_items};
ghost use Rattle.c_types.specs.Views.{parts_of, piece_of};
ghost use Rattle.c_types_units.specs.Units.{no_parts, joined, one_function, only_globals, with_item, past_item, past_items, prototype, item, items};

use crate::functions::function;
use crate::globals::globals;
use crate::heads;
use c_ast::{FunctionHead, Item};
use c_layout::GlobalData;
use c_scopes::Table;
use c_typed::Function;
use c_types_functions::Head;
use c_types_operators::calls::both;
use c_types_operators::scope;
use c_types_statements::Walk;
use std::alloc::AllocError;

/// What an item means.
#[derive(Drop)]
enum Piece {
    Nothing,
    Function(Function),
    Globals(Vec<GlobalData>),
}

/// What the items so far mean.
#[derive(Drop)]
pub(crate) struct Made {
    pub functions: Vec<Function>,
    pub globals: Vec<GlobalData>,
}

/// What a prototype means, where no rule is broken.
fn nothing_if(fine: bool) -> Option<Piece>
    ensures { option_map piece_of result ≡ (if fine then (Some no_parts) else None) }
{
    if fine { Some(Piece::Nothing) } else { None }
}

/// A prototype has a body or is built in, and is like it.
fn prototype<'a>(
    walk: &mut Walk<'a, '_>,
    bodied: &Table<'_, scope::Function<'_>>,
    head: &'a FunctionHead,
) -> Result<Option<Piece>, AllocError>
    ensures { let h = head.now in
        IfOk result (λ answer. Types walk.old walk.new walk.old.scope walk.old.at
        (prototype (functions_of bodied.now) (head_of h.place (source.type_of h.result) h.name (map source.param_of h.params.items))) (option_map piece_of answer)) }
{
    let seen = Head::new(walk.alloc, head)?;
    let bad = !seen.is_good_prototype(bodied);
    let fine = heads::judge(walk, bad, head.place, &seen)?;
    let answer = nothing_if(fine);
    Ok(answer)
}

fn function_piece(made: Option<Function>) -> Option<Piece>
    ensures { option_map piece_of result ≡ (Some one_function <?> option_map function_of made) }
{
    match made {
        Some(made) => Some(Piece::Function(made)),
        None => None,
    }
}

fn globals_piece(made: Option<Vec<GlobalData>>) -> Option<Piece>
    ensures { option_map piece_of result ≡ (Some only_globals <?> option_map (λ row. row.items) made) }
{
    match made {
        Some(made) => Some(Piece::Globals(made)),
        None => None,
    }
}

fn item<'a>(
    walk: &mut Walk<'a, '_>,
    bodied: &Table<'_, scope::Function<'_>>,
    x: &'a Item,
) -> Result<Option<Piece>, AllocError>
    ensures { let all = source.item_of x.now in
        IfOk result (λ answer. Types walk.old walk.new (with_item walk.old.at.variable all walk.old.scope) (past_item all walk.old.at)
        (item (functions_of bodied.now) walk.old.scope walk.old.at all) (option_map piece_of answer)) }
{
    match x {
        Item::Prototype(head) => prototype(walk, bodied, head),
        Item::Function { head, body } => {
            let made = function(walk, head, body)?;
            let piece = function_piece(made);
            Ok(piece)
        }
        Item::Variables(list) => {
            let made = globals(walk, list)?;
            let piece = globals_piece(made);
            Ok(piece)
        }
    }
}

fn append(list: &mut Vec<GlobalData>, more: Vec<GlobalData>) -> Result<(), AllocError>
    ensures { OnOk result (list.new.items ≡ list.old.items ++ more.items) }
{
    list.extend(more)
}

fn with_piece(made: Made, piece: Piece) -> Result<Made, AllocError>
    ensures { IfOk result (λ longer. parts_of longer ≡ joined (parts_of made) (piece_of piece)) }
{
    let mut longer = made;
    match piece {
        Piece::Nothing => Ok(longer),
        Piece::Function(f) => {
            longer.functions.push(f)?;
            Ok(longer)
        }
        Piece::Globals(more) => {
            append(&mut longer.globals, more)?;
            Ok(longer)
        }
    }
}

/// What the items so far mean with one more, where both are there.
fn and_piece(made: Option<Made>, piece: Option<Piece>) -> Result<Option<Made>, AllocError>
    ensures { IfOk result (λ longer. option_map parts_of longer ≡ (Some joined <?> option_map parts_of made <?> option_map piece_of piece)) }
{
    match both(made, piece) {
        Some((made, piece)) => {
            let longer = with_piece(made, piece)?;
            Ok(Some(longer))
        }
        None => Ok(None),
    }
}

/// Items in their order, in a file whose functions with a body are these.
pub(crate) fn items<'a>(
    walk: &mut Walk<'a, '_>,
    bodied: &Table<'_, scope::Function<'_>>,
    list: &'a [Item],
) -> Result<Option<Made>, AllocError>
    ensures { let xs = map source.item_of list.now in
        IfOk result (λ answer. Types walk.old walk.new (with_items walk.old.at xs walk.old.scope) (past_items xs walk.old.at)
        (items (functions_of bodied.now) walk.old.scope walk.old.at xs) (option_map parts_of answer)) }
{
    let mut made = Some(Made {
        functions: Vec::new(walk.alloc),
        globals: Vec::new(walk.alloc),
    });
    for x in list {
        let piece = item(walk, bodied, x)?;
        made = and_piece(made, piece)?;
    }
    Ok(made)
}
