ghost use Rattle.std.specs.Prelude.{◌≡◌, OnOk, List, [], ◌∷◌, ◌++◌, map};
ghost use Rattle.std.specs.List.{All};
ghost use Rattle.ib_act.specs.Acts.{HasGoodNumber};
ghost use Rattle.sb_form.specs.Growing.{Grown, act_drafts, HasGoodNumbers};
ghost use Rattle.sb_formed.specs.Formed.{op_draft, end_acts, end_drafts};
ghost use Rattle.sb_order.specs.Order.{InRange};
ghost use Rattle.tac_core.specs.Meaning.{place_of};
ghost use Rattle.tac_core.specs.declared.code.End.TheVariants.{Jump as Jumps, Branch as Branches, Call as Calls};
ghost use Rattle.wide_core.specs.Operation.{reg_of};
ghost use Rattle.wide_core.specs.declared.code.WideAct.TheVariants.{Do};

use crate::numbered::Numbered;
use ib_base::Place;
use sqlite_items::Items;
use std::alloc::{AllocError, Global};
use tac_core::{Act, Block, End, TacOp};
use wide_core::{Loc, WideAct};

fn place_at(places: &[Place], stmt: u32) -> Place
    ensures { result ≡ place_of places.now stmt }
{
    match sqlite_items::at(places, stmt as usize) {
        None => Place { line: 1, col: 1 },
        Some(place) => *place,
    }
}

/// An operation as an item. A constant is in range by its type.
fn item_act(act: Act) -> WideAct
    requires { HasGoodNumber act }
    ensures value { result ≡ Do act }
    ensures in_range { InRange result }
{
    match act {
        Act::Const { .. } | Act::FrameAddress { .. } => WideAct::Do(act),
        Act::Load { .. } | Act::Store { .. } => WideAct::Do(act),
        _ => WideAct::Do(act),
    }
}

fn push_ops(into: &mut Numbered, places: &[Place], ops: &[TacOp]) -> Result<(), AllocError>
    requires { All (λ op. HasGoodNumber op.act) ops.now }
    ensures { OnOk result (Grown (map (op_draft places.now) ops.now) into.old.next into.old.items into.new.next into.new.items) }
{
    for op in ops {
        let home = place_at(places, op.stmt);
        into.push(home, item_act(op.act))?;
    }
    Ok(())
}

/// A jump along the chain is no item.
fn push_jump(into: &mut Numbered, home: Place, to: u32, next: Option<u32>) -> Result<(), AllocError>
    ensures { OnOk result (Grown (act_drafts home (end_acts (Jumps to) next)) into.old.next into.old.items into.new.next into.new.items) }
{
    match next {
        None => into.push(home, WideAct::Jump { to }),
        Some(_) => Ok(()),
    }
}

/// A branch inside a chain goes elsewhere, or on along the chain; one at the end of a chain goes to either label.
fn push_branch(
    into: &mut Numbered,
    home: Place,
    reg: u32,
    yes: u32,
    no: u32,
    next: Option<u32>,
) -> Result<(), AllocError>
    ensures { OnOk result (Grown (act_drafts home (end_acts (Branches reg yes no) next)) into.old.next into.old.items into.new.next into.new.items) }
{
    match next {
        None => {
            into.push(home, WideAct::Branch { from: reg, to: yes })?;
            into.push(home, WideAct::Jump { to: no })
        }
        Some(next) => {
            if yes == next {
                into.push(home, WideAct::BranchZero { from: reg, to: no })
            } else {
                into.push(home, WideAct::Branch { from: reg, to: yes })
            }
        }
    }
}

fn reg_of(reg: Option<u32>) -> Option<Loc>
    ensures { result ≡ reg_of reg }
{
    match reg {
        None => None,
        Some(reg) => Some(Loc::Reg(reg)),
    }
}

fn push_end(
    alloc: Global,
    into: &mut Numbered,
    places: &[Place],
    block: &Block,
    next: Option<u32>,
) -> Result<(), AllocError>
    ensures { OnOk result (Grown (end_drafts places.now block.now next) into.old.next into.old.items into.new.next into.new.items) }
{
    let home = place_at(places, block.end_stmt);
    match &block.end {
        End::Jump(to) => push_jump(into, home, *to, next),
        End::Branch { reg, yes, no } => push_branch(into, home, *reg, *yes, *no, next),
        End::Call {
            dest,
            func,
            args,
            next,
        } => {
            let args = Items::from_slice(alloc, args.list())?;
            into.push(
                home,
                WideAct::Call {
                    result: reg_of(*dest),
                    func: *func,
                    next: *next,
                    args,
                },
            )
        }
        End::Ret(reg) => into.push(home, WideAct::Return(*reg)),
    }
}

/// Appends the items of a block behind which the chain goes on with another, or ends.
pub(crate) fn push_block(
    alloc: Global,
    into: &mut Numbered,
    places: &[Place],
    block: &Block,
    next: Option<u32>,
) -> Result<(), AllocError>
    requires { HasGoodNumbers block.now }
    ensures { OnOk result (Grown (map (op_draft places.now) block.now.ops ++ end_drafts places.now block.now next) into.old.next into.old.items into.new.next into.new.items) }
{
    push_ops(into, places, block.ops.as_slice())?;
    push_end(alloc, into, places, block, next)
}
