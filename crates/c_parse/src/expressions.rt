//! What follows an operand.

ghost use Rattle.std.specs.Prelude.{◌≡◌, IfOk, map};
ghost use Rattle.c_ast.specs.TreeViews.{type_of, expr_of};
ghost use Rattle.c_parse_machine.specs.Machine as M;
ghost use Rattle.c_parse_states.specs.Views.{frame_of, frames_of, IsNext, IsTurn};

use crate::goals::reach;
use c_ast::{AssignOp, BinaryOp, Expr, Mark, Token};
use c_parse_states::frames::{Frame, Frames, Inner, State, Turn};
use c_parse_states::nodes;
use c_parse_states::signs::{assign_op, binary_op, is, level, postfix_op};
use c_parse_states::stacks::{inner, pushed, under};
use c_parse_steps::operands::{begin, begins_assign, begins_expr};
use ib_base::{Place, Text};
use std::alloc::{AllocError, Global};

fn assign_if(opens: bool, token: &Token) -> Option<AssignOp>
    ensures { result ≡ M.assign_if opens token.now }
{
    if opens { assign_op(token) } else { None }
}

fn if_tighter(op: BinaryOp, found: Option<BinaryOp>) -> Option<BinaryOp>
    ensures { result ≡ M.if_tighter op found }
{
    match found {
        Some(found) => {
            if level(op) < level(found) {
                Some(found)
            } else {
                None
            }
        }
        None => None,
    }
}

fn after_cond(
    opens: bool,
    outer: Frames,
    operand: Box<Expr>,
    token: &Token,
) -> Result<Turn, AllocError>
    ensures { IfOk result (λ turn. IsTurn turn (expr_of operand.value) (M.cond opens (frames_of outer)) token.now) }
{
    let place = token.place;
    if let Some(op) = assign_if(opens, token) {
        let assigned = under(outer, Frame::Assigned(place, op, operand))?;
        return Ok(Turn::Next(State::Operand(true, begins_assign(assigned)?)));
    }
    if is(Mark::Question, token) {
        let middle = under(outer, Frame::Middle(place, operand))?;
        return Ok(Turn::Next(State::Operand(true, begins_expr(middle)?)));
    }
    if let Some(op) = binary_op(token) {
        let cond = under(outer, Frame::Cond(false))?;
        let right = under(cond, Frame::Right(place, op, operand))?;
        return Ok(Turn::Next(State::Operand(true, right)));
    }
    Ok(Turn::Falls(operand, outer))
}

fn after_right(
    alloc: Global,
    place: Place,
    op: BinaryOp,
    left: Box<Expr>,
    outer: Frames,
    operand: Box<Expr>,
    token: &Token,
) -> Result<Turn, AllocError>
    ensures { IfOk result (λ turn. IsTurn turn (expr_of operand.value) (M.right place op (expr_of left.value) (frames_of outer)) token.now) }
{
    if let Some(next) = if_tighter(op, binary_op(token)) {
        let right = under(outer, Frame::Right(place, op, left))?;
        let tighter = under(right, Frame::Right(token.place, next, operand))?;
        return Ok(Turn::Next(State::Operand(true, tighter)));
    }
    Ok(Turn::Falls(nodes::binary(alloc, place, op, left, operand)?, outer))
}

fn after_middle(
    place: Place,
    test: Box<Expr>,
    outer: Frames,
    operand: Box<Expr>,
    token: &Token,
) -> Result<Turn, AllocError>
    ensures { IfOk result (λ turn. IsTurn turn (expr_of operand.value) (M.middle place (expr_of test.value) (frames_of outer)) token.now) }
{
    if is(Mark::Colon, token) {
        let other = under(outer, Frame::Other(place, test, operand))?;
        return Ok(Turn::Next(State::Operand(true, under(other, Frame::Cond(false))?)));
    }
    Ok(Turn::Stop)
}

fn after_first(
    alloc: Global,
    outer: Frames,
    operand: Box<Expr>,
    token: &Token,
) -> Result<Turn, AllocError>
    ensures { IfOk result (λ turn. IsTurn turn (expr_of operand.value) (M.first (frames_of outer)) token.now) }
{
    if is(Mark::Comma, token) {
        let front = pushed(Vec::new(alloc), operand)?;
        let list = under(outer, Frame::List(token.place, front))?;
        return Ok(Turn::Next(State::Operand(true, begins_assign(list)?)));
    }
    Ok(Turn::Falls(operand, outer))
}

fn after_list(
    alloc: Global,
    place: Place,
    front: Vec<Expr>,
    outer: Frames,
    operand: Box<Expr>,
    token: &Token,
) -> Result<Turn, AllocError>
    ensures { IfOk result (λ turn. IsTurn turn (expr_of operand.value) (M.list place (map expr_of front.items) (frames_of outer)) token.now) }
{
    let front = pushed(front, operand)?;
    if is(Mark::Comma, token) {
        let list = under(outer, Frame::List(place, front))?;
        return Ok(Turn::Next(State::Operand(true, begins_assign(list)?)));
    }
    Ok(Turn::Falls(nodes::comma(alloc, place, front)?, outer))
}

fn after_parens(outer: Frames, operand: Box<Expr>, token: &Token) -> Turn
    ensures { IsTurn result (expr_of operand.value) (M.parens (frames_of outer)) token.now }
{
    if is(Mark::RightParen, token) {
        return Turn::Next(State::Have(operand, outer));
    }
    Turn::Stop
}

fn after_subscript(
    alloc: Global,
    place: Place,
    base: Box<Expr>,
    outer: Frames,
    operand: Box<Expr>,
    token: &Token,
) -> Result<Turn, AllocError>
    ensures { IfOk result (λ turn. IsTurn turn (expr_of operand.value) (M.subscript place (expr_of base.value) (frames_of outer)) token.now) }
{
    if is(Mark::RightBracket, token) {
        let index = nodes::index(alloc, place, base, operand)?;
        return Ok(Turn::Next(State::Have(index, outer)));
    }
    Ok(Turn::Stop)
}

fn after_arg(
    alloc: Global,
    place: Place,
    name: Text,
    front: Vec<Expr>,
    outer: Frames,
    operand: Box<Expr>,
    token: &Token,
) -> Result<Turn, AllocError>
    ensures { IfOk result (λ turn. IsTurn turn (expr_of operand.value) (M.arg place name (map expr_of front.items) (frames_of outer)) token.now) }
{
    let front = pushed(front, operand)?;
    if is(Mark::Comma, token) {
        let arg = under(outer, Frame::Arg(place, name, front))?;
        return Ok(Turn::Next(State::Operand(true, begins_assign(arg)?)));
    }
    if is(Mark::RightParen, token) {
        let call = nodes::call(alloc, place, name, front)?;
        return Ok(Turn::Next(State::Have(call, outer)));
    }
    Ok(Turn::Stop)
}

/// What a frame does with an operand that is complete, before the token.
fn turn(
    alloc: Global,
    operand: Box<Expr>,
    frame: Frame,
    outer: Frames,
    token: &Token,
) -> Result<Turn, AllocError>
    ensures { IfOk result (λ turn. IsTurn turn (expr_of operand.value) (frame_of frame (frames_of outer)) token.now) }
{
    match frame {
        Frame::Prefix(place, op) => Ok(Turn::Falls(
            nodes::unary(alloc, place, op, operand)?,
            outer,
        )),
        Frame::CastTo(place, to) => Ok(Turn::Falls(nodes::cast(alloc, place, to, operand)?, outer)),
        Frame::Cond(opens) => after_cond(opens, outer, operand, token),
        Frame::Right(place, op, left) => after_right(alloc, place, op, left, outer, operand, token),
        Frame::Assigned(place, op, target) => Ok(Turn::Falls(
            nodes::assign(alloc, place, op, target, operand)?,
            outer,
        )),
        Frame::Middle(place, test) => after_middle(place, test, outer, operand, token),
        Frame::Other(place, test, then) => {
            Ok(Turn::Falls(
                nodes::conditional(alloc, place, test, then, operand)?,
                outer,
            ))
        }
        Frame::First => after_first(alloc, outer, operand, token),
        Frame::List(place, front) => after_list(alloc, place, front, outer, operand, token),
        Frame::Parens => Ok(after_parens(outer, operand, token)),
        Frame::Subscript(place, base) => after_subscript(alloc, place, base, outer, operand, token),
        Frame::Arg(place, name, front) => after_arg(
            alloc, place, name, front, outer, operand, token,
        ),
    }
}

fn inner_turn(
    alloc: Global,
    operand: Box<Expr>,
    frames: Frames,
    token: &Token,
) -> Result<Turn, AllocError>
    ensures { IfOk result (λ turn. IsTurn turn (expr_of operand.value) (frames_of frames) token.now) }
{
    match inner(frames) {
        Inner::Goal(goal) => reach(alloc, operand, Box::into_inner(goal), token),
        Inner::Frame(frame, outer) => turn(alloc, operand, frame, outer, token),
    }
}

/// An operand is complete, and the token follows: frames that cannot take it are left one after the other.
fn follow(
    alloc: Global,
    operand: Box<Expr>,
    frames: Frames,
    token: &Token,
) -> Result<Option<State>, AllocError>
    ensures { IfOk result (λ next. IsNext next (M.follow (expr_of operand.value) (frames_of frames) token.now)) }
{
    match inner_turn(alloc, operand, frames, token)? {
        Turn::Next(next) => Ok(Some(next)),
        Turn::Stop => Ok(None),
        Turn::Falls(operand, outer) => follow(alloc, operand, outer, token),
    }
}

/// An operand is complete, unless the token goes on with it.
pub fn go_on(
    alloc: Global,
    operand: Box<Expr>,
    frames: Frames,
    token: &Token,
) -> Result<Option<State>, AllocError>
    ensures { IfOk result (λ next. IsNext next (M.go_on (expr_of operand.value) (frames_of frames) token.now)) }
{
    if is(Mark::LeftBracket, token) {
        let subscript = under(frames, Frame::Subscript(token.place, operand))?;
        return Ok(Some(State::Operand(true, begins_expr(subscript)?)));
    }
    if let Some(op) = postfix_op(token) {
        let made = nodes::postfix(alloc, token.place, op, operand)?;
        return Ok(Some(State::Have(made, frames)));
    }
    follow(alloc, operand, frames, token)
}

/// Behind a name.
pub fn step_called(
    alloc: Global,
    place: Place,
    name: Text,
    frames: Frames,
    token: &Token,
) -> Result<Option<State>, AllocError>
    ensures { IfOk result (λ next. IsNext next (M.step (M.called place name (frames_of frames)) token.now)) }
{
    if is(Mark::LeftParen, token) {
        return Ok(Some(State::Opened(place, name, frames)));
    }
    let operand = nodes::boxed(alloc, Expr::Name { place, name })?;
    go_on(alloc, operand, frames, token)
}

/// Behind a name and a `(`.
pub fn step_opened(
    alloc: Global,
    place: Place,
    name: Text,
    frames: Frames,
    token: &Token,
) -> Result<Option<State>, AllocError>
    ensures { IfOk result (λ next. IsNext next (M.step (M.opened place name (frames_of frames)) token.now)) }
{
    let front: Vec<Expr> = Vec::new(alloc);
    if is(Mark::RightParen, token) {
        let call = nodes::call(alloc, place, name, front)?;
        return Ok(Some(State::Have(call, frames)));
    }
    let arg = under(frames, Frame::Arg(place, name, front))?;
    let frames = begins_assign(arg)?;
    begin(alloc, true, frames, token)
}
