//! What follows for a whole from its parts, each of which means something or breaks a rule.

ghost use Rattle.std.specs.Prelude.{◌≡◌, ◌++◌, ◌∷◌, [], None, if◌then◌else◌, IfOk};
ghost use Rattle.c_ast.specs.TreeViews as source;
ghost use Rattle.c_types_operators.specs.Rules.{Fine};
ghost use Rattle.c_types_operators.specs.Parts.{broken_if, ◌<*>◌};
ghost use Rattle.c_types_operators.specs.Judging.{Noted, noted, Carries, CarriesBoth};
ghost use Rattle.c_typed.specs.Views.{boxed_of};
ghost use Rattle.c_types_initial.specs.Constants.{datum_of, only, unfit};

use crate::constants;
use c_layout::Datum;
use c_typed::{Expr, Rule};
use c_types_operators::calls::both;
use c_types_operators::nodes;
use c_types_operators::notes::Notes;
use ib_base::Place;
use sqlite_items::Items;
use std::alloc::{AllocError, Global};

/// Notes a rule, where it is broken.
#[tactic(auto, using(crate::proofs::AlsoLemmas::nothing_noted))]
pub(crate) fn note_if(notes: &mut Notes<'_>, broken: bool, rule: Rule, place: Place)
    ensures { notes.new ≡ noted notes.old [] (broken_if broken rule place) }
{
    if broken {
        notes.breaks(rule, place);
    }
}

/// What a part means, where no rule is broken beside it.
pub(crate) fn unless<A: Drop>(broken: bool, part: Option<A>) -> Option<A>
    ensures { result ≡ (if broken then None else part) }
{
    if broken { None } else { part }
}

/// What an element holds that is given this value.
pub(crate) fn datum(part: Option<Box<Expr>>) -> Option<Datum>
    ensures { (now : Noted) → Carries boxed_of (λ held. held) part now (λ j. Fine datum_of <*> j) result now }
{
    match part {
        Some(x) => Some(constants::datum_of(&x)),
        None => None,
    }
}

/// The one element of a scalar.
pub(crate) fn only(alloc: Global, part: Option<Datum>) -> Result<Option<Items<Datum>>, AllocError>
    ensures { IfOk result (λ answer. (now : Noted) → Carries (λ held. held) (λ held. held) part now (λ j. Fine only <*> j) answer now) }
{
    match part {
        Some(x) => {
            let held = Items::from_slice(alloc, &[x])?;
            Ok(Some(held))
        }
        None => Ok(None),
    }
}

/// A list with one more at its end.
pub(crate) fn another(
    list: Option<Items<Datum>>,
    x: Option<Datum>,
) -> Result<Option<Items<Datum>>, AllocError>
    ensures { IfOk result (λ answer. (now : Noted) → CarriesBoth (λ held. held) (λ held. held) (λ held. held) list x now (λ held x. Fine (held ++ x ∷ [])) answer now) }
{
    match both(list, x) {
        Some((mut list, x)) => {
            list.push(x)?;
            Ok(Some(list))
        }
        None => Ok(None),
    }
}

/// A value that no array is given.
pub(crate) fn unfit(
    notes: &mut Notes<'_>,
    e: &c_ast::Expr,
    part: Option<Box<Expr>>,
) -> Option<Items<Datum>>
    ensures { Carries boxed_of (λ held. held) part notes.old (unfit (source.expr_of e.now)) result notes.new }
{
    match part {
        Some(x) => {
            notes.breaks(Rule::NotAssignable, nodes::anchor(e));
            drop(x);
            None
        }
        None => None,
    }
}
