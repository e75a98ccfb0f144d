//! The heads of a file's functions.

ghost use Rattle.std.specs.Prelude.{◌++◌, IfOk};
ghost use Rattle.c_typed.specs.declared.rule.Rule.TheVariants.{WrongSignature};
ghost use Rattle.c_types_operators.specs.Parts.{broken_if};
ghost use Rattle.c_types_functions.specs.Functions.{head_breaches};
ghost use Rattle.c_types_functions.specs.Views.{plain_head};
ghost use Rattle.c_types_statements.specs.Keeping.{Finds};

use c_typed::Rule;
use c_types_functions::Head;
use c_types_statements::Walk;
use ib_base::Place;
use std::alloc::AllocError;

/// Notes the rules that a head breaks by itself, and says whether there are none.
fn judge_alone(walk: &mut Walk<'_, '_>, head: &Head<'_>) -> Result<bool, AllocError>
    ensures { IfOk result (λ fine. Finds walk.old walk.new walk.old.scope (head_breaches (plain_head head.now)) fine) }
{
    let fine = head.judge(walk.alloc, &mut walk.notes)?;
    Ok(fine)
}

/// Notes whether the head at this place breaks the rule on signatures, and what it breaks by
/// itself, and says whether no rule is broken.
pub(crate) fn judge(
    walk: &mut Walk<'_, '_>,
    broken: bool,
    place: Place,
    head: &Head<'_>,
) -> Result<bool, AllocError>
    ensures { IfOk result (λ fine. Finds walk.old walk.new walk.old.scope (broken_if broken WrongSignature place ++ head_breaches (plain_head head.now)) fine) }
{
    let fits = walk.keeps(broken, Rule::WrongSignature, place);
    let good = judge_alone(walk, head)?;
    Ok(fits && good)
}
