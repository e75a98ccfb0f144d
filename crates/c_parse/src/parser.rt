//! The parser takes one token at a time, and needs no recursion: what is begun lies on stacks.

ghost use Rattle.std.specs.Prelude.{◌≡◌, IfOk, IfErr, None, List};
ghost use Rattle.c_ast.specs.Trees.{Top};
ghost use Rattle.c_ast.specs.TreeViews.{unit_of};
ghost use Rattle.c_ast.specs.Grammar.{IsUnit};
ghost use Rattle.c_ast.specs.Nesting as N;
ghost use Rattle.c_parse_machine.specs.Machine as M;
ghost use Rattle.c_parse_states.specs.Views.{state_of, IsNext};
ghost use Rattle.c_parse.specs.Parses.{Refuses, Answers};
ghost use Rattle.c_parse.specs.Ran.{Ran, IsFinished};

use crate::expressions::{go_on, step_called, step_opened};
use crate::statements::settle;
use c_ast::{Token, Unit};
use c_nesting::too_deep;
use c_parse_states::frames::{State, Use};
use c_parse_steps::declarations::{
    begin_item, begin_type, step_declared, step_element, step_init, step_long, step_named,
    step_params_done, step_params_open, step_params_void, step_size_given, step_size_open,
    step_sized, step_sizes, step_typed,
};
use c_parse_steps::operands::{begin, step_paren};
use c_parse_steps::statements::{
    begin_stmt, step_awaits, step_for_open, step_for_start, step_inside, step_semi, step_test,
};
use ib_base::Place;
use std::alloc::{AllocError, Global};
use thiserror::Error;

/// Why tokens are not parsed.
#[derive(Debug, Drop, Error)]
pub enum ParseErr {
    /// The token at this place nests deeper than is taken.
    #[error("{0}: constructs nest more than 200 deep")]
    TooDeep(Place),
    /// So many tokens begin a unit, and with the next they begin none, or they end there.
    #[error("no program goes on behind its first {0} tokens")]
    Syntax(usize),
    #[error("there is not enough memory to read the source")]
    NoMemory,
}

/// The state behind the token, or none where no unit goes on with it.
fn step(alloc: Global, state: State, token: &Token) -> Result<Option<State>, AllocError>
    ensures { IfOk result (λ next. IsNext next (M.step (state_of state) token.now)) }
{
    match state {
        State::Items(front) => begin_item(alloc, front, token),
        State::AfterLong(why) => step_long(alloc, why, token),
        State::Typed(why, base, kind) => step_typed(alloc, why, base, kind, token),
        State::NamedAt(declaring, place, kind, name) => step_named(
            alloc, declaring, place, kind, name, token,
        ),
        State::Sizes(sizing) => step_sizes(alloc, sizing, token),
        State::SizeOpen(sizing) => Ok(step_size_open(sizing, token)),
        State::SizeGiven(sizing, length) => Ok(step_size_given(sizing, length, token)),
        State::Sized(sizing, length) => step_sized(alloc, sizing, length, token),
        State::InitOpen(made) => step_init(alloc, made, token),
        State::ElementNext(made, front) => step_element(alloc, made, front, token),
        State::Declared(declaring) => step_declared(alloc, declaring, token),
        State::ParamsOpen(head) => Ok(step_params_open(head, token)),
        State::ParamsVoid(head) => Ok(step_params_void(head, token)),
        State::ParamNext(head) => Ok(begin_type(Use::Parameter(token.place, head), token)),
        State::ParamsDone(head) => step_params_done(alloc, head, token),
        State::Inside(inside) => step_inside(alloc, inside, token),
        State::Stmt(outer) => begin_stmt(alloc, outer, token),
        State::After(stmt, outer) => settle(alloc, stmt, outer, token),
        State::Test(test) => step_test(alloc, test, token),
        State::Awaits(role) => step_awaits(alloc, role, token),
        State::Semi(stmt, outer) => Ok(step_semi(stmt, outer, token)),
        State::ForOpen(place, outer) => Ok(step_for_open(place, outer, token)),
        State::ForStart(place, outer) => step_for_start(alloc, place, outer, token),
        State::Operand(casts, frames) => begin(alloc, casts, frames, token),
        State::Paren(casts, place, frames) => step_paren(alloc, casts, place, frames, token),
        State::Called(place, name, frames) => step_called(alloc, place, name, frames, token),
        State::Opened(place, name, frames) => step_opened(alloc, place, name, frames, token),
        State::Have(operand, frames) => go_on(alloc, operand, frames, token),
    }
}

fn finish(state: State) -> Option<Unit>
    ensures { IsFinished result (M.finish (state_of state)) }
{
    match state {
        State::Items(items) => Some(Unit { items }),
        other => {
            drop(other);
            None
        }
    }
}

/// The unit of the tokens, or how many of them begin one.
fn run(alloc: Global, tokens: &[Token]) -> Result<Unit, ParseErr>
    ensures { Ran tokens.now result }
{
    let mut state = State::Items(Vec::new(alloc));
    for (i, token) in tokens.iter().enumerate() {
        match step(alloc, state, token) {
            Ok(Some(next)) => state = next,
            Ok(None) => return Err(ParseErr::Syntax(i)),
            Err(_) => return Err(ParseErr::NoMemory),
        }
    }
    match finish(state) {
        Some(unit) => Ok(unit),
        None => Err(ParseErr::Syntax(tokens.len())),
    }
}

/// The unit of the tokens, in time that is linear in their number. `TooDeep` comes before `Syntax`.
pub fn parse(alloc: Global, tokens: &[Token]) -> Result<Unit, ParseErr>
    ensures ok { IfOk result (λ unit. IsUnit tokens.now (unit_of unit)) }
    ensures kept { IfOk result (λ unit. N.too_deep tokens.now ≡ None) }
    ensures refuses { IfErr result (λ e. Refuses tokens.now e) }

    // Whatever unit the tokens spell is what is answered, where memory is not wanting.
    ensures only { (unit : List Top) → IsUnit tokens.now unit → N.too_deep tokens.now ≡ None → Answers result unit }
{
    match too_deep(alloc, tokens) {
        Ok(None) => run(alloc, tokens),
        Ok(Some(place)) => Err(ParseErr::TooDeep(place)),
        Err(_) => Err(ParseErr::NoMemory),
    }
}
