//! The program of a source's tree, or why it has none.

ghost use Rattle.std.specs.Prelude.{◌≡◌, [], None, Some, not, is_some, IfOk, IfErr, OnOk, if◌then◌else◌};
ghost use Rattle.std.specs.Option.{option_map};
ghost use Rattle.c_ast.specs.TreeViews.{unit_of};
ghost use Rattle.c_types_functions.specs.Functions.{all_declared, functions_known, lacks_main, redeclared_after, with_body};
ghost use Rattle.c_types_operators.specs.Parts.{also};
ghost use Rattle.c_types_operators.specs.Rules.{breaches, first_from};
ghost use Rattle.c_types_operators.specs.ScopeViews.{functions_of};
ghost use Rattle.c_kept.specs.WellFormed.{FormedUnit};
ghost use Rattle.c_program.specs.Checked.{program};
ghost use Rattle.c_program.specs.Limits.{within};
ghost use Rattle.c_program.specs.Nodes.{nodes_unit};
ghost use Rattle.c_types_statements.specs.Keeping.{Finds, Types};
ghost use Rattle.c_types.specs.Making.{with_items};
ghost use Rattle.c_types_units.specs.Typing.{IsBreach, IsTyped, NamesFirst, Refused, keeps_rules, verdict};
ghost use Rattle.c_types_units.specs.Units.{items, judged, past_items, whole_breaches};
ghost use Rattle.c_types.specs.Views.{Tells, parts_of};

use crate::items::{Made, items};
use c_ast::Unit;
use c_program::{CheckErr, Program, node_count};
use c_scopes::Table;
use c_typed::Rule;
use c_types_functions::{bodies, known, lacks_main, prototypes, redeclared, with_body};
use c_types_operators::notes::Notes;
use c_types_operators::rule::Breach;
use c_types_operators::scope::{Function, Scope};
use c_types_statements::Walk;
use ib_base::Place;
use std::alloc::{AllocError, Global};

/// Where a file begins.
const START: Place = Place { line: 1, col: 1 };

/// Notes the names that a file declares twice.
fn note_redeclared(walk: &mut Walk<'_, '_>, unit: &Unit) -> Result<(), AllocError>
    ensures { OnOk result (walk.new ≡ record walk.old { first = first_from walk.old.first (redeclared_after [] (all_declared (unit_of unit.now))) }) }
{
    redeclared(walk.alloc, &mut walk.notes, unit)?;
    Ok(())
}

/// Whether no rule was found broken so far.
fn is_fine(walk: &Walk<'_, '_>) -> bool
    ensures { is_some walk.now.first ≡ not result }
{
    walk.notes.first().is_none()
}

/// Notes the rules that a file breaks as a whole, before all others, and says whether there are
/// none.
fn judge_whole(walk: &mut Walk<'_, '_>, no_main: bool, unit: &Unit) -> Result<bool, AllocError>
    requires before { walk.old.first ≡ None }
    ensures { IfOk result (λ fine. Finds walk.old walk.new walk.old.scope (whole_breaches no_main (unit_of unit.now)) fine) }
{
    walk.keeps(no_main, Rule::NoMain, START);
    note_redeclared(walk, unit)?;
    let fine = is_fine(walk);
    Ok(fine)
}

fn where_fine(fine: bool, made: Option<Made>) -> Option<Made>
    ensures { result ≡ (if fine then made else None) }
{
    if fine { made } else { None }
}

/// What a file means, if it breaks no rule.
fn judge<'a>(
    walk: &mut Walk<'a, '_>,
    bodied: &Table<'_, Function<'_>>,
    no_main: bool,
    unit: &'a Unit,
) -> Result<Option<Made>, AllocError>
    requires before { walk.old.first ≡ None }
    ensures { let xs = unit_of unit.now in
        IfOk result (λ answer. Types walk.old walk.new (with_items walk.old.at xs walk.old.scope) (past_items xs walk.old.at)
        (also (whole_breaches no_main xs) (items (functions_of bodied.now) walk.old.scope walk.old.at xs)) (option_map parts_of answer)) }
{
    let fine = judge_whole(walk, no_main, unit)?;
    let made = items(walk, bodied, &unit.items)?;
    let answer = where_fine(fine, made);
    Ok(answer)
}

fn refusal(breach: Breach) -> CheckErr
    ensures { IsBreach breach result }
{
    CheckErr::Rule {
        rule: breach.rule,
        place: breach.place,
    }
}

/// The program of what was made of a file, or the breach that was noted.
#[tactic(auto, using(crate::proofs::CheckLemmas::refused_broken, crate::proofs::CheckLemmas::no_memory, crate::proofs::FirstLemmas::names_no_memory, crate::proofs::CheckLemmas::noted_breach, crate::proofs::CheckLemmas::laid_out, crate::proofs::CheckLemmas::typed, crate::proofs::CheckLemmas::refused_large, crate::proofs::FirstLemmas::names_noted, crate::proofs::FirstLemmas::names_none))]
fn settle(
    alloc: Global,
    unit: &Unit,
    made: Option<Made>,
    notes: Notes<'_>,
) -> Result<Program, CheckErr>
    requires formed { FormedUnit (unit_of unit.now) }
    requires tells { Tells (unit_of unit.now) (option_map parts_of made) notes }
    ensures program { IfOk result (λ p. verdict (unit_of unit.now) ≡ keeps_rules (within (program p))) }
    ensures typed { IfOk result (λ p. IsTyped (unit_of unit.now) (program p)) }
    ensures nodes { IfOk result (λ p. p.nodes ≡ nodes_unit (unit_of unit.now)) }
    ensures refused { IfErr result (Refused (verdict (unit_of unit.now))) }
    ensures first { IfErr result (NamesFirst (breaches (judged (unit_of unit.now)))) }
{
    let Some(made) = made else {
        return Err(refusal(notes.first().unwrap()));
    };
    let nodes = node_count(unit)?;
    let (texts, places) = notes.into_parts();
    Program::lay_out(alloc, made.functions, &made.globals, &texts, places, nodes)
}

/// The program of a file with these functions.
#[tactic(auto, using(crate::proofs::CheckLemmas::told, crate::proofs::CheckLemmas::no_memory, crate::proofs::FirstLemmas::names_no_memory))]
fn check_with<'a>(
    alloc: Global,
    functions: &Table<'a, Function<'_>>,
    bodied: &Table<'_, Function<'_>>,
    no_main: bool,
    unit: &'a Unit,
) -> Result<Program, CheckErr>
    requires formed { FormedUnit (unit_of unit.now) }
    requires known { functions_of functions.now ≡ functions_known (unit_of unit.now) }
    requires bodied { functions_of bodied.now ≡ with_body (unit_of unit.now) }
    requires main { no_main ≡ lacks_main (unit_of unit.now) }
    ensures program { IfOk result (λ p. verdict (unit_of unit.now) ≡ keeps_rules (within (program p))) }
    ensures typed { IfOk result (λ p. IsTyped (unit_of unit.now) (program p)) }
    ensures nodes { IfOk result (λ p. p.nodes ≡ nodes_unit (unit_of unit.now)) }
    ensures refused { IfErr result (Refused (verdict (unit_of unit.now))) }
    ensures first { IfErr result (NamesFirst (breaches (judged (unit_of unit.now)))) }
{
    let mut walk = Walk::new(alloc, Scope::new(alloc, functions), Notes::new(alloc));
    let made = judge(&mut walk, bodied, no_main, unit)?;
    settle(alloc, unit, made, walk.into_notes())
}

/// The program of a source's tree, laid out in memory. `Rule` names the first anchor at which one
/// of the fourteen rules is broken, and the least rule there; where none is, `Globals` and `Frame`
/// give the bytes that pass a limit.
#[tactic(auto, using(crate::proofs::CheckLemmas::no_memory, crate::proofs::FirstLemmas::names_no_memory))]
pub fn check(alloc: Global, unit: &Unit) -> Result<Program, CheckErr>
    // The tree is one that a source spells.
    requires formed { FormedUnit (unit_of unit.now) }

    // What the tree means breaks no rule and is within the limits, and this is its program.
    ensures program { IfOk result (λ p. verdict (unit_of unit.now) ≡ keeps_rules (within (program p))) }

    // The program is typed as the tree says. A tree has no other.
    ensures typed { IfOk result (λ p. IsTyped (unit_of unit.now) (program p)) }
    ensures nodes { IfOk result (λ p. p.nodes ≡ nodes_unit (unit_of unit.now)) }

    // The first breach, or the part that is too large.
    ensures refused { IfErr result (Refused (verdict (unit_of unit.now))) }

    // No breach of the tree goes before the one that is answered.
    ensures first { IfErr result (NamesFirst (breaches (judged (unit_of unit.now)))) }
{
    let heads = bodies(alloc, unit)?;
    let declared = prototypes(alloc, unit)?;
    let bodied = with_body(alloc, heads.as_slice())?;
    let functions = known(alloc, heads.as_slice(), declared.as_slice())?;
    let no_main = lacks_main(heads.as_slice());
    check_with(alloc, &functions, &bodied, no_main, unit)
}
