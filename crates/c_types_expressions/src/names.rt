//! What names mean.

ghost use Rattle.std.specs.Prelude.{[], IfOk};
ghost use Rattle.std.specs.Option.{option_map};
ghost use Rattle.c_types_operators.specs.Scopes.{found};
ghost use Rattle.c_types_operators.specs.ScopeViews.{function_of, meant_of};
ghost use Rattle.c_types_operators.specs.Operators.{used, used_as, called, called_as};
ghost use Rattle.c_types_operators.specs.Judging.{Judges};
ghost use Rattle.c_types_operators.specs.Views.{designated_of};

use c_typed::Rule;
use c_types_operators::designated::Designated;
use c_types_operators::notes::Notes;
use c_types_operators::operators::used_variable;
use c_types_operators::scope::{Function, Meant, Scope};
use ib_base::{Place, Text};
use std::alloc::{AllocError, Global};

fn used_as(
    alloc: Global,
    notes: &mut Notes<'_>,
    place: Place,
    meant: Meant<'_>,
) -> Result<Option<Designated>, AllocError>
    ensures { IfOk result (λ answer. Judges designated_of notes.old [] (used_as place (meant_of meant.entry)) answer notes.new) }
{
    match meant {
        Meant::Variable(variable) => Ok(Some(used_variable(alloc, variable)?)),
        Meant::Function(_) => {
            notes.breaks(Rule::NotAFunction, place);
            Ok(None)
        }
    }
}

/// A name that is used, but not called.
pub fn used(
    alloc: Global,
    scope: &Scope<'_, '_>,
    notes: &mut Notes<'_>,
    place: Place,
    name: &Text,
) -> Result<Option<Designated>, AllocError>
    ensures { IfOk result (λ answer. Judges designated_of notes.old [] (used place (found name.now scope.now)) answer notes.new) }
{
    match scope.find(name.list()) {
        Some(meant) => used_as(alloc, notes, place, meant),
        None => {
            notes.breaks(Rule::UnknownName, place);
            Ok(None)
        }
    }
}

fn called_as<'s>(
    notes: &mut Notes<'_>,
    place: Place,
    count: usize,
    meant: Meant<'s>,
) -> Option<Function<'s>>
    ensures { Judges function_of notes.old [] (called_as place count (meant_of meant.entry)) result notes.new }
{
    match meant {
        Meant::Function(function) => {
            if function.params.len() == count {
                return Some(function);
            }
            notes.breaks(Rule::ArgumentCount, place);
            None
        }
        Meant::Variable(_) => {
            notes.breaks(Rule::NotAFunction, place);
            None
        }
    }
}

/// A function, called with so many arguments.
pub fn called<'s>(
    notes: &mut Notes<'_>,
    place: Place,
    count: usize,
    meant: Option<Meant<'s>>,
) -> Option<Function<'s>>
    ensures { Judges function_of notes.old [] (called place count (option_map meant_of meant.entry)) result notes.new }
{
    match meant {
        Some(meant) => called_as(notes, place, count, meant),
        None => {
            notes.breaks(Rule::UnknownName, place);
            None
        }
    }
}
