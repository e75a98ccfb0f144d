//! What a complete expression is for.

ghost use Rattle.std.specs.Prelude.{◌≡◌, IfOk, map};
ghost use Rattle.c_ast.specs.TreeViews.{expr_of};
ghost use Rattle.c_parse_machine.specs.Machine as M;
ghost use Rattle.c_parse_states.specs.Views.{made_of, goal_of, role_of, test_of, state_of, IsTurn};

use c_ast::{Expr, Init, Mark, Part, Token};
use c_parse_states::frames::{Arm, Goal, Made, Role, State, Test, Turn};
use c_parse_states::nodes;
use c_parse_states::signs::is;
use c_parse_states::stacks::{pushed, within};
use c_parse_steps::declarations::{step_declared, with_init};
use c_parse_steps::statements::{closer, goes_on};
use std::alloc::{AllocError, Global};

/// Behind an expression that may be missing.
fn end_part(alloc: Global, role: Role, expr: Box<Expr>, token: &Token) -> Result<Turn, AllocError>
    ensures { IfOk result (λ turn. IsTurn turn (expr_of expr.value) (M.part (role_of role)) token.now) }
{
    if is(closer(&role), token) {
        let part = Part::Given(Box::into_inner(expr));
        return Ok(Turn::Next(goes_on(alloc, role, part)?));
    }
    drop(role);
    Ok(Turn::Stop)
}

fn passed(alloc: Global, test: Test, expr: Box<Expr>) -> Result<State, AllocError>
    ensures { IfOk result (λ next. state_of next ≡ M.passed (test_of test) (expr_of expr.value)) }
{
    match test {
        Test::If(place, outer) => {
            let outer = within(outer, Arm::Then(place, expr))?;
            Ok(State::Stmt(outer))
        }
        Test::While(place, outer) => {
            let outer = within(outer, Arm::While(place, expr))?;
            Ok(State::Stmt(outer))
        }
        Test::Do(place, body, outer) => {
            let made = nodes::do_while(alloc, place, body, expr)?;
            Ok(State::Semi(made, outer))
        }
    }
}

/// Behind an expression in the parentheses of a statement.
fn end_test(alloc: Global, test: Test, expr: Box<Expr>, token: &Token) -> Result<Turn, AllocError>
    ensures { IfOk result (λ turn. IsTurn turn (expr_of expr.value) (M.tested (test_of test)) token.now) }
{
    if is(Mark::RightParen, token) {
        return Ok(Turn::Next(passed(alloc, test, expr)?));
    }
    drop(test);
    Ok(Turn::Stop)
}

fn after_init(
    alloc: Global,
    made: Box<Made>,
    operand: Box<Expr>,
    token: &Token,
) -> Result<Turn, AllocError>
    ensures { IfOk result (λ turn. IsTurn turn (expr_of operand.value) (M.init_value (made_of made.value)) token.now) }
{
    let declaring = with_init(Box::into_inner(made), Init::Value(Box::into_inner(operand)))?;
    match step_declared(alloc, declaring, token)? {
        Some(next) => Ok(Turn::Next(next)),
        None => Ok(Turn::Stop),
    }
}

fn after_element(
    made: Box<Made>,
    front: Vec<Expr>,
    operand: Box<Expr>,
    token: &Token,
) -> Result<Turn, AllocError>
    ensures { IfOk result (λ turn. IsTurn turn (expr_of operand.value) (M.element (made_of made.value) (map expr_of front.items)) token.now) }
{
    if is(Mark::Comma, token) {
        let front = pushed(front, operand)?;
        return Ok(Turn::Next(State::ElementNext(made, front)));
    }
    if is(Mark::RightBrace, token) {
        let front = pushed(front, operand)?;
        let declaring = with_init(Box::into_inner(made), Init::List(front))?;
        return Ok(Turn::Next(State::Declared(declaring)));
    }
    Ok(Turn::Stop)
}

/// What the outermost expression is for, with an operand that is complete, before the token.
pub fn reach(
    alloc: Global,
    operand: Box<Expr>,
    goal: Goal,
    token: &Token,
) -> Result<Turn, AllocError>
    ensures { IfOk result (λ turn. IsTurn turn (expr_of operand.value) (goal_of goal) token.now) }
{
    match goal {
        Goal::Part(role) => end_part(alloc, role, operand, token),
        Goal::Tested(test) => end_test(alloc, test, operand, token),
        Goal::InitValue(made) => after_init(alloc, made, operand, token),
        Goal::Element(made, front) => after_element(made, front, operand, token),
    }
}
