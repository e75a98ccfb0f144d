ghost use Rattle.std.specs.Prelude.{◌≡◌, ◌<◌, false, IfOk, length, replicate, slice_get, slice_index_or};
ghost use Rattle.tail_dup.specs.Tables.{AreBlocks, AreAllBlocks, AreEntered, is_aside, marked, marked_end};

use sqlite_items::Items;
use std::alloc::{AllocError, Global};
use tac_core::{Block, End};

/// Whether an edge leads into a chain elsewhere than from the block before its target.
fn is_aside(before: &[Option<u32>], from: usize, to: u32) -> bool
    ensures { result ≡ is_aside (slice_get before.now to) from }
{
    match sqlite_items::at(before, to as usize) {
        None => false,
        Some(prior) => match prior {
            None => false,
            Some(prior) => *prior as usize != from,
        },
    }
}

fn mark(entered: &mut Items<bool>, before: &[Option<u32>], from: usize, to: u32)
    requires { to < length entered.old }
    ensures { entered.new ≡ marked before.now from entered.old to }
{
    if is_aside(before, from, to) {
        entered.set(to as usize, true);
    }
}

fn mark_end(entered: &mut Items<bool>, before: &[Option<u32>], from: usize, end: &End)
    requires { AreBlocks (length entered.old) end.now }
    ensures { entered.new ≡ marked_end before.now from entered.old end.now }
{
    match end {
        End::Jump(next) => mark(entered, before, from, *next),
        End::Branch { yes, no, .. } => {
            mark(entered, before, from, *yes);
            mark(entered, before, from, *no);
        }
        End::Call { next, .. } => mark(entered, before, from, *next),
        End::Ret(_) => {}
    }
}

fn none_entered(alloc: Global, blocks: usize) -> Result<Items<bool>, AllocError>
    ensures { IfOk result (λ list. list ≡ replicate blocks false) }
{
    let mut list = Items::new(alloc);
    for _block in 0..blocks {
        list.push(false)?;
    }
    Ok(list)
}

/// Which blocks have side entrances, by label.
pub(crate) fn side_entered(
    alloc: Global,
    blocks: &[Block],
    before: &[Option<u32>],
) -> Result<Items<bool>, AllocError>
    requires { AreAllBlocks blocks.now }
    ensures { IfOk result (λ entered. AreEntered blocks.now before.now (length blocks.now) entered) }
{
    let mut entered = none_entered(alloc, blocks.len())?;
    for i in 0..blocks.len() {
        mark_end(&mut entered, before, i, &blocks[i].end);
    }
    Ok(entered)
}
