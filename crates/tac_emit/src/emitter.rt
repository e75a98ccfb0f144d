ghost use Rattle.std.specs.Prelude.{◌≡◌, ◌∷◌, [], suc, IfOk, OnOk, max};
ghost use Rattle.tac_lowered.specs.Items.{Do, Close, close, put};
ghost use Rattle.tac_lowered.specs.Lowered.{up_to, up_to_all, up_to_end};
ghost use Rattle.ib_act.specs.Acts.{target, first_source, second_source};
ghost use Rattle.tac_emit.specs.Emitted.{full_end, open_in, next_of, Adds, TakesNext};

use crate::survey::Targets;
use crate::ways::Next;
use ib_act::Act;
use sqlite_items::Items;
use std::alloc::{AllocError, Global};
use std::mem;
use tac_core::{Block, End, TacOp, number_at};

/// A block with more operations than these is full: its end is an operation too.
const MOST: usize = 510;

/// The blocks that are finished, the open block's operations, how many registers are named so far, and the targets that are
/// left of the constructs to come.
#[derive(Drop)]
pub(crate) struct Emitter<'a> {
    pub alloc: Global,
    pub blocks: Items<Block>,
    pub ops: Items<TacOp>,
    pub regs: u32,
    pub targets: &'a [Targets],
}

/// Behind a register, where it is named.
fn up_to(reg: Option<u32>, regs: u32) -> Result<u32, AllocError>
    ensures { IfOk result (λ n. n ≡ up_to reg regs) }
{
    match reg {
        None => Ok(regs),
        Some(reg) => {
            let behind = reg.checked_add(1).ok_or(AllocError)?;
            Ok(behind.max(regs))
        }
    }
}

#[tactic(auto, using(crate::proofs::Registers::all_later))]
fn up_to_all(list: &[u32], regs: u32) -> Result<u32, AllocError>
    ensures { IfOk result (λ n. n ≡ up_to_all list.now regs) }
{
    let mut most = regs;
    for reg in list {
        most = up_to(Some(*reg), most)?;
    }
    Ok(most)
}

fn up_to_act(act: Act, regs: u32) -> Result<u32, AllocError>
    ensures { IfOk result (λ n. n ≡ up_to (target act) (up_to (first_source act) (up_to (second_source act) regs))) }
{
    let second = up_to(act.second_source(), regs)?;
    let first = up_to(act.first_source(), second)?;
    up_to(act.target(), first)
}

fn up_to_end(end: &End, regs: u32) -> Result<u32, AllocError>
    ensures { IfOk result (λ n. n ≡ up_to_end end.now regs) }
{
    match end {
        End::Jump(_) => Ok(regs),
        End::Branch { reg, .. } => up_to(Some(*reg), regs),
        End::Call { dest, args, .. } => {
            let most = up_to_all(args.list(), regs)?;
            up_to(*dest, most)
        }
        End::Ret(reg) => up_to(*reg, regs),
    }
}

impl<'a> Emitter<'a> {
    /// The label of the block behind the open one.
    pub fn next_label(&self) -> Result<u32, AllocError>
        ensures { IfOk result (λ label. label ≡ suc (open_in self.now).label) }
    {
        let label = number_at(self.blocks.len())?;
        label.checked_add(1).ok_or(AllocError)
    }

    /// The targets of the construct that comes next.
    #[tactic(auto, using(crate::proofs::Emitting::taken))]
    pub fn take(&mut self) -> Targets
        ensures { TakesNext self.old self.new result }
    {
        match self.targets.split_first() {
            None => Targets::NONE,
            Some((first, rest)) => {
                self.targets = rest;
                *first
            }
        }
    }

    /// An operation onto the open block.
    fn push(&mut self, stmt: u32, act: Act) -> Result<(), AllocError>
        ensures { OnOk result (Adds self.old self.new (Do stmt act ∷ [])) }
    {
        self.regs = up_to_act(act, self.regs)?;
        self.ops.push(TacOp { stmt, act })?;
        Ok(())
    }

    /// Ends the open block, and opens the next.
    pub fn close(&mut self, stmt: u32, end: End) -> Result<(), AllocError>
        ensures { OnOk result (Adds self.old self.new (Close stmt end ∷ [])) }
    {
        let Ok(regs) = up_to_end(&end, self.regs) else {
            drop(end);
            return Err(AllocError);
        };
        self.regs = regs;
        let ops = mem::replace(&mut self.ops, Items::new(self.alloc));
        self.blocks.push(Block {
            ops,
            end,
            end_stmt: stmt,
        })?;
        Ok(())
    }

    fn close_if_full(&mut self, stmt: u32) -> Result<(), AllocError>
        ensures { OnOk result (Adds self.old self.new (full_end stmt (open_in self.old))) }
    {
        if MOST < self.ops.len() {
            let label = self.next_label()?;
            self.close(stmt, End::Jump(label))?;
        }
        Ok(())
    }

    /// An operation, in a new block where the open one is full.
    #[tactic(auto, using(crate::proofs::Emitting::adds_put))]
    pub fn put(&mut self, stmt: u32, act: Act) -> Result<(), AllocError>
        ensures { OnOk result (Adds self.old self.new (put stmt act (open_in self.old))) }
    {
        self.close_if_full(stmt)?;
        self.push(stmt, act)?;
        Ok(())
    }

    #[tactic(auto, using(crate::proofs::Emitting::adds_nothing))]
    pub fn go(&mut self, next: Next) -> Result<(), AllocError>
        ensures { OnOk result (Adds self.old self.new (close (next_of next))) }
    {
        match next {
            Next::Onward => Ok(()),
            Next::Jump { stmt, label } => self.close(stmt, End::Jump(label)),
        }
    }
}
