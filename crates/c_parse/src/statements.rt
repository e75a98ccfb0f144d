//! What follows a statement.

ghost use Rattle.std.specs.Prelude.{◌≡◌, IfOk};
ghost use Rattle.c_ast.specs.TreeViews.{expr_of, stmt_of};
ghost use Rattle.c_parse_machine.specs.Machine as M;
ghost use Rattle.c_parse_states.specs.Views.{arm_of, outer_of, inside_of, IsNext, IsSettling};

use c_ast::{Expr, Keyword, Stmt, Token};
use c_parse_states::frames::{Arm, Innermost, Inside, Outer, Settling, State, Test};
use c_parse_states::nodes;
use c_parse_states::signs::says;
use c_parse_states::stacks::{innermost, within};
use c_parse_steps::statements::{step_inside, with_stmt};
use ib_base::Place;
use std::alloc::{AllocError, Global};

fn settle_in(
    alloc: Global,
    inside: Inside,
    stmt: Box<Stmt>,
    token: &Token,
) -> Result<Settling, AllocError>
    ensures { IfOk result (λ settling. IsSettling settling (stmt_of stmt.value) (M.outer_of (inside_of inside)) token.now) }
{
    let inside = with_stmt(inside, Box::into_inner(stmt))?;
    match step_inside(alloc, inside, token)? {
        Some(next) => Ok(Settling::Next(next)),
        None => Ok(Settling::Stop),
    }
}

fn settle_then(
    alloc: Global,
    place: Place,
    test: Box<Expr>,
    outer: Outer,
    stmt: Box<Stmt>,
    token: &Token,
) -> Result<Settling, AllocError>
    ensures { IfOk result (λ settling. IsSettling settling (stmt_of stmt.value) (M.then_arm place (expr_of test.value) (outer_of outer)) token.now) }
{
    if says(Keyword::Else, token) {
        let outer = within(outer, Arm::Else(place, test, stmt))?;
        return Ok(Settling::Next(State::Stmt(outer)));
    }
    Ok(Settling::Falls(nodes::if_then(alloc, place, test, stmt)?, outer))
}

fn settle_do(place: Place, outer: Outer, stmt: Box<Stmt>, token: &Token) -> Settling
    ensures { IsSettling result (stmt_of stmt.value) (M.do_body place (outer_of outer)) token.now }
{
    if says(Keyword::While, token) {
        return Settling::Next(State::Test(Test::Do(place, stmt, outer)));
    }
    Settling::Stop
}

/// What a statement does with its part that is complete, before the token.
fn settle_arm(
    alloc: Global,
    stmt: Box<Stmt>,
    arm: Arm,
    around: Outer,
    token: &Token,
) -> Result<Settling, AllocError>
    ensures { IfOk result (λ settling. IsSettling settling (stmt_of stmt.value) (arm_of arm (outer_of around)) token.now) }
{
    match arm {
        Arm::Braces(place, front) => settle_in(
            alloc,
            Inside::Braces(place, front, around),
            stmt,
            token,
        ),
        Arm::Then(place, test) => settle_then(alloc, place, test, around, stmt, token),
        Arm::Else(place, test, then) => Ok(Settling::Falls(
            nodes::if_else(alloc, place, test, then, stmt)?,
            around,
        )),
        Arm::While(place, test) => Ok(Settling::Falls(
            nodes::while_loop(alloc, place, test, stmt)?,
            around,
        )),
        Arm::Do(place) => Ok(settle_do(place, around, stmt, token)),
        Arm::For(place, start, test, next) => {
            Ok(Settling::Falls(
                nodes::for_loop(alloc, place, start, test, next, stmt)?,
                around,
            ))
        }
    }
}

fn settling(
    alloc: Global,
    stmt: Box<Stmt>,
    outer: Outer,
    token: &Token,
) -> Result<Settling, AllocError>
    ensures { IfOk result (λ settling. IsSettling settling (stmt_of stmt.value) (outer_of outer) token.now) }
{
    match innermost(outer) {
        Innermost::Body(head, front) => settle_in(alloc, Inside::Body(head, front), stmt, token),
        Innermost::Arm(arm, around) => settle_arm(alloc, stmt, arm, around, token),
    }
}

/// A statement is complete, and the token follows: statements that cannot take it end one after the other.
pub fn settle(
    alloc: Global,
    stmt: Box<Stmt>,
    outer: Outer,
    token: &Token,
) -> Result<Option<State>, AllocError>
    ensures { IfOk result (λ next. IsNext next (M.settle (stmt_of stmt.value) (outer_of outer) token.now)) }
{
    match settling(alloc, stmt, outer, token)? {
        Settling::Next(next) => Ok(Some(next)),
        Settling::Stop => Ok(None),
        Settling::Falls(stmt, around) => settle(alloc, stmt, around, token),
    }
}
