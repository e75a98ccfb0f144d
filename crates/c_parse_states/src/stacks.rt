//! What lies around a statement or an expression, with one more or one less.

ghost use Rattle.std.specs.Prelude.{◌≡◌, ◌++◌, ◌∷◌, [], IfOk, map};
ghost use Rattle.c_ast.specs.TreeViews.{expr_of};
ghost use Rattle.c_parse_machine.specs.Machine as M;
ghost use Rattle.c_parse_states.specs.Views.{arm_of, outer_of, goal_of, frame_of, frames_of, IsInnermost, IsInner};

use crate::frames::{Arm, Frame, Frames, Goal, Inner, Innermost, Outer};
use c_ast::Expr;
use std::alloc::{AllocError, Global};

/// One more statement is open.
#[tactic(auto, using(crate::proofs::StackLemmas::arms_snoc))]
pub fn within(outer: Outer, arm: Arm) -> Result<Outer, AllocError>
    ensures { IfOk result (λ made. outer_of made ≡ arm_of arm (outer_of outer)) }
{
    let Outer { head, front, arms } = outer;
    let mut arms = arms;
    arms.push(arm)?;
    Ok(Outer { head, front, arms })
}

/// The innermost statement that is open, or the body of the function.
#[tactic(auto, using(crate::proofs::StackLemmas::arms_snoc))]
pub fn innermost(outer: Outer) -> Innermost
    ensures { IsInnermost result (outer_of outer) }
{
    let Outer { head, front, arms } = outer;
    let mut arms = arms;
    match arms.pop() {
        Some(arm) => Innermost::Arm(arm, Outer { head, front, arms }),
        None => Innermost::Body(head, front),
    }
}

/// One more frame.
#[tactic(auto, using(crate::proofs::StackLemmas::frames_snoc))]
pub fn under(frames: Frames, frame: Frame) -> Result<Frames, AllocError>
    ensures { IfOk result (λ made. frames_of made ≡ frame_of frame (frames_of frames)) }
{
    let Frames { goal, frames } = frames;
    let mut frames = frames;
    frames.push(frame)?;
    Ok(Frames { goal, frames })
}

/// The innermost frame, or what the outermost expression is for.
#[tactic(auto, using(crate::proofs::StackLemmas::frames_snoc))]
pub fn inner(frames: Frames) -> Inner
    ensures { IsInner result (frames_of frames) }
{
    let Frames { goal, frames } = frames;
    let mut frames = frames;
    match frames.pop() {
        Some(frame) => Inner::Frame(frame, Frames { goal, frames }),
        None => Inner::Goal(goal),
    }
}

/// An outermost expression.
pub fn outermost(alloc: Global, goal: Goal) -> Result<Frames, AllocError>
    ensures { IfOk result (λ made. frames_of made ≡ goal_of goal) }
{
    let goal = Box::new(alloc, goal)?;
    Ok(alone(alloc, goal))
}

/// No frame but what the expression is for.
pub fn alone(alloc: Global, goal: Box<Goal>) -> Frames
    ensures { frames_of result ≡ goal_of goal.value }
{
    let frames: Vec<Frame> = Vec::new(alloc);
    Frames { goal, frames }
}

fn shut_frame(frame: Frame) -> Frame
    ensures { (σ : M.Frames) → frame_of result σ ≡ M.shut (frame_of frame σ) }
{
    match frame {
        Frame::Cond(_) => Frame::Cond(false),
        Frame::Prefix(place, op) => Frame::Prefix(place, op),
        Frame::CastTo(place, to) => Frame::CastTo(place, to),
        Frame::Right(place, op, left) => Frame::Right(place, op, left),
        Frame::Assigned(place, op, target) => Frame::Assigned(place, op, target),
        Frame::Middle(place, test) => Frame::Middle(place, test),
        Frame::Other(place, test, then) => Frame::Other(place, test, then),
        Frame::First => Frame::First,
        Frame::List(place, front) => Frame::List(place, front),
        Frame::Parens => Frame::Parens,
        Frame::Subscript(place, base) => Frame::Subscript(place, base),
        Frame::Arg(place, name, front) => Frame::Arg(place, name, front),
    }
}

/// What begins with a cast is the left side of no assignment.
#[tactic(auto, using(crate::proofs::GoalLemmas::shut_goal))]
pub fn shut(alloc: Global, frames: Frames) -> Result<Frames, AllocError>
    ensures { IfOk result (λ made. frames_of made ≡ M.shut (frames_of frames)) }
{
    match inner(frames) {
        Inner::Frame(frame, outer) => under(outer, shut_frame(frame)),
        Inner::Goal(goal) => Ok(alone(alloc, goal)),
    }
}

/// The expressions with one more.
pub fn pushed(front: Vec<Expr>, last: Box<Expr>) -> Result<Vec<Expr>, AllocError>
    ensures { IfOk result (λ all. map expr_of all.items ≡ map expr_of front.items ++ expr_of last.value ∷ []) }
{
    let mut front = front;
    front.push(Box::into_inner(last))?;
    Ok(front)
}
