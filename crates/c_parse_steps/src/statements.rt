//! Where statements and blocks begin, and what goes on behind their parts.

ghost use Rattle.std.specs.Prelude.{◌≡◌, ◌++◌, ◌∷◌, [], IfOk, map, Some};
ghost use Rattle.c_ast.specs.Trees.{local};
ghost use Rattle.c_ast.specs.TreeViews.{stmt_of, part_of, decl_of, start_of};
ghost use Rattle.c_parse_machine.specs.Machine as M;
ghost use Rattle.c_parse_states.specs.Views.{outer_of, inside_of, role_of, test_of, state_of, IsNext};

use crate::declarations::{begin_type, declares};
use crate::operands::{begin_expr, begins_expr};
use c_ast::{Declarator, ForStart, Item, Keyword, Mark, Part, Stmt, Tok, Token};
use c_parse_states::frames::{Arm, Goal, Head, Inside, Outer, Role, State, Target, Test};
use c_parse_states::nodes;
use c_parse_states::signs::{is, is_type};
use c_parse_states::stacks::{outermost, within};
use ib_base::Place;
use std::alloc::{AllocError, Global};

/// The block with one more statement.
pub fn with_stmt(inside: Inside, last: Stmt) -> Result<Inside, AllocError>
    ensures { IfOk result (λ made. inside_of made ≡ M.with_stm (inside_of inside) (stmt_of last)) }
{
    match inside {
        Inside::Braces(place, front, outer) => {
            let mut front = front;
            front.push(last)?;
            Ok(Inside::Braces(place, front, outer))
        }
        Inside::Body(head, front) => {
            let mut front = front;
            front.push(last)?;
            Ok(Inside::Body(head, front))
        }
    }
}

/// The block with a declaration.
pub fn with_local(
    inside: Inside,
    place: Place,
    declarators: Vec<Declarator>,
) -> Result<Inside, AllocError>
    ensures { IfOk result (λ made. inside_of made ≡ M.with_stm (inside_of inside) (local place (map decl_of declarators.items))) }
{
    with_stmt(inside, Stmt::Local { place, declarators })
}

/// What ends a part that may be missing.
pub fn closer(role: &Role) -> Mark
    ensures { result ≡ M.closer (role_of role.now) }
{
    match role {
        Role::Statement(_, _) => Mark::Semicolon,
        Role::Value(_, _) => Mark::Semicolon,
        Role::First(_, _) => Mark::Semicolon,
        Role::Second(_, _, _) => Mark::Semicolon,
        Role::Third(_, _, _, _) => Mark::RightParen,
    }
}

fn statement(alloc: Global, place: Place, part: Part) -> Result<Box<Stmt>, AllocError>
    ensures { IfOk result (λ made. stmt_of made.value ≡ M.statement place (part_of part)) }
{
    match part {
        Part::Missing => nodes::boxed_stmt(alloc, Stmt::Empty { place }),
        Part::Given(expr) => nodes::boxed_stmt(alloc, Stmt::Expr { place, expr }),
    }
}

fn for_body(
    place: Place,
    start: ForStart,
    test: Part,
    next: Part,
    outer: Outer,
) -> Result<State, AllocError>
    ensures { IfOk result (λ state. state_of state ≡ M.stmt (M.for_body place (start_of start) (part_of test) (part_of next) (outer_of outer))) }
{
    Ok(State::Stmt(within(outer, Arm::For(place, start, test, next))?))
}

/// Behind such a part.
pub fn goes_on(alloc: Global, role: Role, part: Part) -> Result<State, AllocError>
    ensures { IfOk result (λ next. state_of next ≡ M.goes_on (role_of role) (part_of part)) }
{
    match role {
        Role::Statement(place, outer) => {
            let made = statement(alloc, place, part)?;
            Ok(State::After(made, outer))
        }
        Role::Value(place, outer) => {
            let made = nodes::boxed_stmt(alloc, Stmt::Return { place, value: part })?;
            Ok(State::After(made, outer))
        }
        Role::First(place, outer) => Ok(State::Awaits(Role::Second(
            place,
            ForStart::Expr(part),
            outer,
        ))),
        Role::Second(place, start, outer) => Ok(State::Awaits(Role::Third(
            place, start, part, outer,
        ))),
        Role::Third(place, start, test, outer) => for_body(place, start, test, part, outer),
    }
}

/// Where an expression may stand or be missing.
pub fn step_awaits(alloc: Global, role: Role, token: &Token) -> Result<Option<State>, AllocError>
    ensures { IfOk result (λ next. IsNext next (M.step_awaits (role_of role) token.now)) }
{
    if is(closer(&role), token) {
        return Ok(Some(goes_on(alloc, role, Part::Missing)?));
    }
    begin_expr(alloc, outermost(alloc, Goal::Part(role))?, token)
}

/// Behind the head of a statement that has a test.
pub fn step_test(alloc: Global, test: Test, token: &Token) -> Result<Option<State>, AllocError>
    ensures { IfOk result (λ next. IsNext next (M.step (M.test (test_of test)) token.now)) }
{
    if is(Mark::LeftParen, token) {
        let frames = begins_expr(outermost(alloc, Goal::Tested(test))?)?;
        return Ok(Some(State::Operand(true, frames)));
    }
    drop(test);
    Ok(None)
}

/// Behind `for`.
pub fn step_for_open(place: Place, outer: Outer, token: &Token) -> Option<State>
    ensures { IsNext result (M.step (M.for_open place (outer_of outer)) token.now) }
{
    if is(Mark::LeftParen, token) {
        return Some(State::ForStart(place, outer));
    }
    None
}

/// Behind the `(` of a `for`.
pub fn step_for_start(
    alloc: Global,
    place: Place,
    outer: Outer,
    token: &Token,
) -> Result<Option<State>, AllocError>
    ensures { IfOk result (λ next. IsNext next (M.step (M.for_start place (outer_of outer)) token.now)) }
{
    if is_type(token) {
        let why = declares(alloc, Target::For(place, outer))?;
        return Ok(begin_type(why, token));
    }
    step_awaits(alloc, Role::First(place, outer), token)
}

/// A statement that is no keyword's.
fn begin_other(alloc: Global, outer: Outer, token: &Token) -> Result<Option<State>, AllocError>
    ensures { IfOk result (λ next. IsNext next (M.begin_other (outer_of outer) token.now)) }
{
    if is(Mark::LeftBrace, token) {
        let front: Vec<Stmt> = Vec::new(alloc);
        return Ok(Some(State::Inside(Inside::Braces(token.place, front, outer))));
    }
    step_awaits(alloc, Role::Statement(token.place, outer), token)
}

/// A statement begins with the token.
pub fn begin_stmt(alloc: Global, outer: Outer, token: &Token) -> Result<Option<State>, AllocError>
    ensures { IfOk result (λ next. IsNext next (M.begin_stmt (outer_of outer) token.now)) }
{
    let place = token.place;
    match &token.kind {
        Tok::Word(word) => begin_stmt_word(alloc, *word, place, outer, token),
        Tok::Name(_)
        | Tok::Number { value: _, long: _ }
        | Tok::Char(_)
        | Tok::Str(_)
        | Tok::Mark(_)
        | Tok::Reserved(_) => begin_other(alloc, outer, token),
    }
}

/// A statement that lacks its `;` alone.
fn semi(alloc: Global, stmt: Stmt, outer: Outer) -> Result<Option<State>, AllocError>
    ensures { IfOk result (λ next. IsNext next (Some (M.semi (stmt_of stmt) (outer_of outer)))) }
{
    let stmt = nodes::boxed_stmt(alloc, stmt)?;
    Ok(Some(State::Semi(stmt, outer)))
}

fn begin_stmt_word(
    alloc: Global,
    word: Keyword,
    place: Place,
    outer: Outer,
    token: &Token,
) -> Result<Option<State>, AllocError>
    ensures { IfOk result (λ next. IsNext next (M.choose (M.stmt_word word place (outer_of outer)) (λ s. Some s) (M.begin_other (outer_of outer) token.now))) }
{
    match word {
        Keyword::If => Ok(Some(State::Test(Test::If(place, outer)))),
        Keyword::While => Ok(Some(State::Test(Test::While(place, outer)))),
        Keyword::Do => {
            let outer = within(outer, Arm::Do(place))?;
            Ok(Some(State::Stmt(outer)))
        }
        Keyword::For => Ok(Some(State::ForOpen(place, outer))),
        Keyword::Break => semi(alloc, Stmt::Break { place }, outer),
        Keyword::Continue => semi(alloc, Stmt::Continue { place }, outer),
        Keyword::Return => Ok(Some(State::Awaits(Role::Value(place, outer)))),
        _ => begin_other(alloc, outer, token),
    }
}

/// Where the `;` of a statement stands.
pub fn step_semi(stmt: Box<Stmt>, outer: Outer, token: &Token) -> Option<State>
    ensures { IsNext result (M.step (M.semi (stmt_of stmt.value) (outer_of outer)) token.now) }
{
    if is(Mark::Semicolon, token) {
        return Some(State::After(stmt, outer));
    }
    None
}

fn close(alloc: Global, inside: Inside) -> Result<State, AllocError>
    ensures { IfOk result (λ next. state_of next ≡ M.close (inside_of inside)) }
{
    match inside {
        Inside::Braces(place, front, outer) => {
            let made = nodes::block(alloc, place, front)?;
            Ok(State::After(made, outer))
        }
        Inside::Body(head, body) => {
            let Head { front, head } = Box::into_inner(head);
            let mut front = front;
            front.push(Item::Function { head, body })?;
            Ok(State::Items(front))
        }
    }
}

fn outer_in(alloc: Global, inside: Inside) -> Result<Outer, AllocError>
    ensures { IfOk result (λ outer. outer_of outer ≡ M.outer_of (inside_of inside)) }
{
    match inside {
        Inside::Braces(place, front, outer) => within(outer, Arm::Braces(place, front)),
        Inside::Body(head, front) => {
            let arms: Vec<Arm> = Vec::new(alloc);
            Ok(Outer { head, front, arms })
        }
    }
}

/// Where a statement, a declaration or the end of a block may stand.
pub fn step_inside(
    alloc: Global,
    inside: Inside,
    token: &Token,
) -> Result<Option<State>, AllocError>
    ensures { IfOk result (λ next. IsNext next (M.step_inside (inside_of inside) token.now)) }
{
    if is(Mark::RightBrace, token) {
        return Ok(Some(close(alloc, inside)?));
    }
    if is_type(token) {
        let why = declares(alloc, Target::Block(token.place, inside))?;
        return Ok(begin_type(why, token));
    }
    let outer = outer_in(alloc, inside)?;
    begin_stmt(alloc, outer, token)
}
