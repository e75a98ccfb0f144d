//! What statements are lowered to. Each function calls itself only on parts of its statement.

ghost use Rattle.std.specs.Prelude.{◌≡◌, ◌++◌, [], ◌∷◌, IfOk, MatchOption, map};
ghost use Rattle.c_typed.specs.Tree as t;
ghost use Rattle.c_typed.specs.Tree.{stms};
ghost use Rattle.c_typed.specs.Views.{expr_of, list_exps, part_of, stmt_of};
ghost use Rattle.c_program.specs.Checked as c;
ghost use Rattle.tac_lowered.specs.Code as code;
ghost use Rattle.tac_lowered.specs.Code.{◌⨾◌};
ghost use Rattle.tac_lowered.specs.Statements as s;
ghost use Rattle.tac_code.specs.Views.{boxed_of, boxed_test_of, exit_of};

use crate::going::goes_on;
use c_program::Program;
use c_typed::{Expr, Part, Stmt};
use std::alloc::{AllocError, Global};
use tac_code::{Code, Exit, Test, both, boxed, boxed_test, row};
use tac_trees::{At, effects, low, operand, tested};

/// The last of some statements, and those before it.
fn last_stmt<'a>(all: &'a [Stmt]) -> Option<(&'a Stmt, &'a [Stmt])>
    ensures { MatchOption result (all.now ≡ []) (λ it. all.now ≡ it.1.now ++ it.0.now ∷ []) }
{
    all.split_last()
}

fn leave(alloc: Global, stmt: u32, exit: Exit) -> Result<Box<Code>, AllocError>
    ensures { IfOk result (λ made. boxed_of made ≡ code.leave stmt (exit_of exit)) }
{
    boxed(alloc, Code::Leave { stmt, exit })
}

fn repeated(
    alloc: Global,
    stmt: u32,
    start: Box<Code>,
    own: bool,
    test: Box<Test>,
    body: Box<Code>,
    last: Box<Code>,
) -> Result<Box<Code>, AllocError>
    ensures { IfOk result (λ made. boxed_of made ≡ boxed_of start ⨾ code.repeat stmt own (boxed_test_of test) (boxed_of body) (boxed_of last)) }
{
    let repeat = boxed(
        alloc,
        Code::Repeat {
            stmt,
            own,
            test,
            body,
            last,
        },
    )?;
    both(alloc, start, repeat)
}

/// Where control goes by a loop's test. One that is missing holds.
fn test_part(
    alloc: Global,
    program: &Program,
    part: &Part,
    stmt: u32,
    free: u32,
) -> Result<Box<Test>, AllocError>
    ensures { IfOk result (λ made. boxed_test_of made ≡ s.test_part (c.program program.now) (part_of part.now) stmt free) }
{
    match part {
        Part::Missing => boxed_test(alloc, Test::Settled { stmt, holds: true }),
        Part::Given(expr) => tested(alloc, program, expr, stmt, free),
    }
}

fn returned_value(
    alloc: Global,
    program: &Program,
    expr: &Expr,
    stmt: u32,
    free: u32,
) -> Result<Box<Code>, AllocError>
    ensures { IfOk result (λ made. boxed_of made ≡ s.returned (c.program program.now) (t.given (expr_of expr.now)) stmt free) }
{
    let x = operand(alloc, program, true, expr, stmt, free)?;
    let last = leave(alloc, stmt, Exit::Returns(Some(x.register)))?;
    both(alloc, x.code, last)
}

fn returned(
    alloc: Global,
    program: &Program,
    part: &Part,
    stmt: u32,
    free: u32,
) -> Result<Box<Code>, AllocError>
    ensures { IfOk result (λ made. boxed_of made ≡ s.returned (c.program program.now) (part_of part.now) stmt free) }
{
    match part {
        Part::Missing => leave(alloc, stmt, Exit::Returns(None)),
        Part::Given(expr) => returned_value(alloc, program, expr, stmt, free),
    }
}

/// The code of a statement. Registers from `free` on are free.
#[cycle(statements)]
#[tactic(auto, using(crate::proofs::Blocks::block_weight))]
pub(crate) fn low_stm(
    alloc: Global,
    program: &Program,
    stmt: &Stmt,
    free: u32,
) -> Result<Box<Code>, AllocError>
    ensures { IfOk result (λ made. boxed_of made ≡ s.low_stm (c.program program.now) (stmt_of stmt.now) free) }
{
    match stmt {
        Stmt::Block { stmts } => low_stms(alloc, program, stmts, free),
        Stmt::Empty { .. } => boxed(alloc, Code::Nothing),
        Stmt::Expr { number, expr } => low(alloc, program, expr, At::effect(*number, free)),
        Stmt::If { number, test, then } => {
            if_then(alloc, program, test, then, At::effect(*number, free))
        }
        Stmt::IfElse {
            number,
            test,
            then,
            other,
        } => { if_else(alloc, program, test, then, other, At::effect(*number, free)) }
        Stmt::While { number, test, body } => {
            while_loop(alloc, program, test, body, At::effect(*number, free))
        }
        Stmt::DoWhile { number, body, test } => {
            do_while(alloc, program, body, test, At::effect(*number, free))
        }
        Stmt::For {
            number,
            start,
            test,
            next,
            body,
        } => {
            for_loop(
                alloc,
                program,
                start,
                test,
                next,
                body,
                At::effect(*number, free),
            )
        }
        Stmt::Break { number } => leave(alloc, *number, Exit::Breaks),
        Stmt::Continue { number } => leave(alloc, *number, Exit::Continues),
        Stmt::Return { number, value } => returned(alloc, program, value, *number, free),
        Stmt::Local { number, values } => effects(alloc, program, values, *number, free),
    }
}

#[cycle(statements)]
fn if_then(
    alloc: Global,
    program: &Program,
    test: &Expr,
    then: &Stmt,
    at: At,
) -> Result<Box<Code>, AllocError>
    ensures { IfOk result (λ made. boxed_of made ≡ s.low_stm (c.program program.now) (t.if_then at.stmt (expr_of test.now) (stmt_of «then».now)) at.free) }
{
    let test = tested(alloc, program, test, at.stmt, at.free)?;
    let then = low_stm(alloc, program, then, at.free)?;
    boxed(
        alloc,
        Code::When {
            stmt: at.stmt,
            test,
            then,
        },
    )
}

#[cycle(statements)]
fn if_else(
    alloc: Global,
    program: &Program,
    test: &Expr,
    then: &Stmt,
    other: &Stmt,
    at: At,
) -> Result<Box<Code>, AllocError>
    ensures { IfOk result (λ made. boxed_of made ≡ s.low_stm (c.program program.now) (t.if_else at.stmt (expr_of test.now) (stmt_of «then».now) (stmt_of other.now)) at.free) }
{
    let test = tested(alloc, program, test, at.stmt, at.free)?;
    let then = low_stm(alloc, program, then, at.free)?;
    let other = low_stm(alloc, program, other, at.free)?;
    boxed(
        alloc,
        Code::Choose {
            stmt: at.stmt,
            test,
            then,
            other,
        },
    )
}

#[cycle(statements)]
fn while_loop(
    alloc: Global,
    program: &Program,
    test: &Expr,
    body: &Stmt,
    at: At,
) -> Result<Box<Code>, AllocError>
    ensures { IfOk result (λ made. boxed_of made ≡ s.low_stm (c.program program.now) (t.while_loop at.stmt (expr_of test.now) (stmt_of body.now)) at.free) }
{
    let test = tested(alloc, program, test, at.stmt, at.free)?;
    let body = low_stm(alloc, program, body, at.free)?;
    let last = boxed(alloc, Code::Nothing)?;
    boxed(
        alloc,
        Code::Repeat {
            stmt: at.stmt,
            own: true,
            test,
            body,
            last,
        },
    )
}

#[cycle(statements)]
fn do_while(
    alloc: Global,
    program: &Program,
    body: &Stmt,
    test: &Expr,
    at: At,
) -> Result<Box<Code>, AllocError>
    ensures { IfOk result (λ made. boxed_of made ≡ s.low_stm (c.program program.now) (t.do_while at.stmt (stmt_of body.now) (expr_of test.now)) at.free) }
{
    let own = goes_on(body);
    let body = low_stm(alloc, program, body, at.free)?;
    let test = tested(alloc, program, test, at.stmt, at.free)?;
    boxed(
        alloc,
        Code::Until {
            stmt: at.stmt,
            own,
            body,
            test,
        },
    )
}

#[cycle(statements)]
fn for_loop(
    alloc: Global,
    program: &Program,
    start: &[Expr],
    test: &Part,
    next: &Part,
    body: &Stmt,
    at: At,
) -> Result<Box<Code>, AllocError>
    ensures { IfOk result (λ made. boxed_of made ≡ s.low_stm (c.program program.now) (t.for_loop at.stmt (list_exps start.now) (part_of test.now) (part_of next.now) (stmt_of body.now)) at.free) }
{
    let start = effects(alloc, program, start, at.stmt, at.free)?;
    let test = test_part(alloc, program, test, at.stmt, at.free)?;
    let turn = low_stm(alloc, program, body, at.free)?;
    match next {
        Part::Missing => {
            let last = boxed(alloc, Code::Nothing)?;
            repeated(alloc, at.stmt, start, true, test, turn, last)
        }
        Part::Given(next) => {
            let last = low(alloc, program, next, At::effect(at.stmt, at.free))?;
            repeated(alloc, at.stmt, start, goes_on(body), test, turn, last)
        }
    }
}

/// Statements one after the other.
#[cycle(statements)]
pub(crate) fn low_stms(
    alloc: Global,
    program: &Program,
    list: &[Stmt],
    free: u32,
) -> Result<Box<Code>, AllocError>
    ensures { IfOk result (λ made. boxed_of made ≡ s.low_stms (c.program program.now) (stms (map stmt_of list.now)) free) }
{
    match last_stmt(list) {
        None => boxed(alloc, Code::Nothing),
        Some((last, first)) => {
            let mut made = Vec::new(alloc);
            for stmt in first {
                let code = low_stm(alloc, program, stmt, free)?;
                made.push(Box::into_inner(code))?;
            }
            let last = low_stm(alloc, program, last, free)?;
            row(alloc, made, last)
        }
    }
}
