ghost use Rattle.std.specs.Prelude.{◌≡◌, IfOk, map};
ghost use Rattle.std.specs.List.{list_all};
ghost use Rattle.tac_lowered.specs.Expressions as e;
ghost use Rattle.tac_code.specs.Views.{boxed_of, code_of, nested};

use crate::code::Code;
use crate::parts::{boxed, does};
use ib_act::Act;
use std::alloc::{AllocError, Global};

/// Whether it does nothing.
#[cycle(emptiness)]
#[tactic(auto, using(crate::proofs::Rows::first_fewer, crate::proofs::Rows::last_fewer))]
pub(crate) fn is_empty(code: &Code) -> bool
    ensures { result ≡ e.is_empty (code_of code.now) }
{
    match code {
        Code::Nothing => true,
        Code::Both(a, b) => is_empty(a) && is_empty(b),
        Code::Row { first, last } => are_empty(first) && is_empty(last),
        Code::Does { .. } => false,
        Code::Calls { .. } => false,
        Code::When { .. } => false,
        Code::Choose { .. } => false,
        Code::Repeat { .. } => false,
        Code::Until { .. } => false,
        Code::Leave { .. } => false,
    }
}

#[cycle(emptiness)]
fn are_empty(list: &[Code]) -> bool
    ensures { result ≡ list_all e.is_empty (map code_of list.now) }
{
    for code in list {
        if !is_empty(code) {
            return false;
        }
    }
    true
}

/// The code, or a move of the slot to itself where it does nothing.
pub fn some_code(
    alloc: Global,
    stmt: u32,
    slot: u32,
    code: Box<Code>,
) -> Result<Box<Code>, AllocError>
    ensures { IfOk result (λ made. boxed_of made ≡ e.some_code stmt slot (boxed_of code)) }
{
    if is_empty(&code) {
        drop(code);
        return does(
            alloc,
            stmt,
            Act::Mov {
                to: slot,
                from: slot,
            },
        );
    }
    Ok(code)
}

/// Code one after the other, and then the last.
pub fn row(alloc: Global, first: Vec<Code>, last: Box<Code>) -> Result<Box<Code>, AllocError>
    ensures { IfOk result (λ made. boxed_of made ≡ nested (map code_of first.items) (boxed_of last)) }
{
    let made = boxed(alloc, Code::Row { first, last })?;
    Ok(made)
}
