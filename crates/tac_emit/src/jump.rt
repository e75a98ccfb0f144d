ghost use Rattle.std.specs.Prelude.{◌≡◌, [], true, false};
ghost use Rattle.tac_code.specs.Views.{code_of};
ghost use Rattle.tac_lowered.specs.Items.{is_jump};

use tac_code::{Code, Exit};

pub(crate) fn has_none(row: &[Code]) -> bool
    ensures none { result ≡ true → row.now ≡ [] }
    ensures some { result ≡ false → (row.now ≡ []) → ⊥ }
{
    row.is_empty()
}

/// Whether code does nothing but to go elsewhere.
#[tactic(auto, using(crate::proofs::Surveying::row_counted, crate::proofs::Surveying::row_alone, crate::proofs::Surveying::row_stays))]
pub(crate) fn is_jump(code: &Code) -> bool
    ensures { result ≡ is_jump (code_of code.now) }
{
    match code {
        Code::Nothing => true,
        Code::Leave { exit, .. } => match exit {
            Exit::Breaks | Exit::Continues => true,
            Exit::Returns(_) => false,
        },
        Code::Row { first, last } => has_none(first) && is_jump(last),
        Code::Does { .. }
        | Code::Both(..)
        | Code::Calls { .. }
        | Code::When { .. }
        | Code::Choose { .. }
        | Code::Repeat { .. }
        | Code::Until { .. } => false,
    }
}
