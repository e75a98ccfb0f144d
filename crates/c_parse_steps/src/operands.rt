//! Where an operand begins.

ghost use Rattle.std.specs.Prelude.{◌≡◌, IfOk, Some};
ghost use Rattle.c_ast.specs.TreeViews.{expr_of};
ghost use Rattle.c_parse_machine.specs.Machine as M;
ghost use Rattle.c_parse_states.specs.Views.{frames_of, IsNext};

use crate::declarations::begin_type;
use c_ast::{Expr, Keyword, Mark, Tok, Token};
use c_parse_states::frames::{Frame, Frames, State, Use};
use c_parse_states::nodes;
use c_parse_states::signs::{is, is_type, prefix_op, step_op};
use c_parse_states::stacks::{shut, under};
use ib_base::Place;
use std::alloc::{AllocError, Global};

/// An assignment begins.
pub fn begins_assign(frames: Frames) -> Result<Frames, AllocError>
    ensures { IfOk result (λ made. frames_of made ≡ M.begins_assign (frames_of frames)) }
{
    under(frames, Frame::Cond(true))
}

/// An expression begins, which may be a list.
pub fn begins_expr(frames: Frames) -> Result<Frames, AllocError>
    ensures { IfOk result (λ made. frames_of made ≡ M.begins_expr (frames_of frames)) }
{
    begins_assign(under(frames, Frame::First)?)
}

/// A leaf is an operand.
fn have(alloc: Global, leaf: Expr, frames: Frames) -> Result<Option<State>, AllocError>
    ensures { IfOk result (λ next. IsNext next (Some (M.have (expr_of leaf) (frames_of frames)))) }
{
    let leaf = nodes::boxed(alloc, leaf)?;
    Ok(Some(State::Have(leaf, frames)))
}

fn begin_word(
    alloc: Global,
    word: Keyword,
    place: Place,
    frames: Frames,
) -> Result<Option<State>, AllocError>
    ensures { IfOk result (λ next. IsNext next (M.begin_word word place (frames_of frames))) }
{
    match word {
        Keyword::Null => have(alloc, Expr::Null { place }, frames),
        Keyword::Eof => have(alloc, Expr::Eof { place }, frames),
        _ => Ok(None),
    }
}

fn begin_leaf(alloc: Global, token: &Token, frames: Frames) -> Result<Option<State>, AllocError>
    ensures { IfOk result (λ next. IsNext next (M.begin_leaf token.now.kind token.now.place (frames_of frames))) }
{
    let place = token.place;
    match &token.kind {
        Tok::Name(name) => {
            let name = name.copy(alloc)?;
            Ok(Some(State::Called(place, name, frames)))
        }
        Tok::Number { value, long } => {
            let (value, long) = (*value, *long);
            have(alloc, Expr::Number { place, value, long }, frames)
        }
        Tok::Char(value) => {
            let value = *value;
            have(alloc, Expr::Char { place, value }, frames)
        }
        Tok::Str(bytes) => {
            let bytes = bytes.copy(alloc)?;
            have(alloc, Expr::Str { place, bytes }, frames)
        }
        Tok::Word(word) => begin_word(alloc, *word, place, frames),
        Tok::Mark(_) => Ok(None),
        Tok::Reserved(_) => Ok(None),
    }
}

/// An operand begins with the token; `casts` says whether it may be a cast.
pub fn begin(
    alloc: Global,
    casts: bool,
    frames: Frames,
    token: &Token,
) -> Result<Option<State>, AllocError>
    ensures { IfOk result (λ next. IsNext next (M.begin casts (frames_of frames) token.now)) }
{
    if is(Mark::LeftParen, token) {
        return Ok(Some(State::Paren(casts, token.place, frames)));
    }
    if let Some(op) = step_op(token) {
        let frames = under(frames, Frame::Prefix(token.place, op))?;
        return Ok(Some(State::Operand(false, frames)));
    }
    if let Some(op) = prefix_op(token) {
        let frames = under(frames, Frame::Prefix(token.place, op))?;
        return Ok(Some(State::Operand(true, frames)));
    }
    begin_leaf(alloc, token, frames)
}

/// An expression begins with the token.
pub fn begin_expr(alloc: Global, frames: Frames, token: &Token) -> Result<Option<State>, AllocError>
    ensures { IfOk result (λ next. IsNext next (M.begin_expr (frames_of frames) token.now)) }
{
    let frames = begins_expr(frames)?;
    begin(alloc, true, frames, token)
}

/// Behind a `(`.
pub fn step_paren(
    alloc: Global,
    casts: bool,
    place: Place,
    frames: Frames,
    token: &Token,
) -> Result<Option<State>, AllocError>
    ensures { IfOk result (λ next. IsNext next (M.step (M.paren casts place (frames_of frames)) token.now)) }
{
    if casts && is_type(token) {
        let frames = shut(alloc, frames)?;
        return Ok(begin_type(Use::Cast(place, frames), token));
    }
    let parens = under(frames, Frame::Parens)?;
    begin_expr(alloc, parens, token)
}
