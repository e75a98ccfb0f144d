ghost use Rattle.std.specs.Prelude.{◌≡◌, None, IfOk, length, replicate, false};
ghost use Rattle.tac_core.specs.Counts.{AreCounts};
ghost use Rattle.trace_pick.specs.Best.{IsMutuallyBest};
ghost use Rattle.trace_pick.specs.Settled.{IsKnown, AreCut};
ghost use Rattle.trace_pick.specs.Tables.{IsTable};

use crate::back::start_of;
use crate::links::Links;
use crate::settle::settle;
use crate::walks::sum_at;
use sqlite_items::Items;
use std::alloc::{AllocError, Global};
use tac_core::{FuncCounts, TacFunc, in_weights, number_at};

/// By label: the block that each follows, cycles cut, and the operations of its trace up to it.
#[derive(Drop)]
pub(crate) struct Sums {
    pub prior: Items<Option<u32>>,
    pub sums: Items<u64>,
}

fn no_marks(alloc: Global, blocks: usize) -> Result<Items<bool>, AllocError>
    ensures { IfOk result (λ list. list ≡ replicate blocks false) }
{
    let mut list = Items::new(alloc);
    for _block in 0..blocks {
        list.push(false)?;
    }
    Ok(list)
}

fn no_sums(alloc: Global, blocks: usize) -> Result<Items<u64>, AllocError>
    ensures { IfOk result (λ list. list ≡ replicate blocks 0) }
{
    let mut list = Items::new(alloc);
    for _block in 0..blocks {
        list.push(0)?;
    }
    Ok(list)
}

/// Cuts cycles of best edges and sums up operations along the rest.
pub(crate) fn sums_of(
    alloc: Global,
    func: &TacFunc,
    counts: &FuncCounts,
    links: &Links,
) -> Result<Sums, AllocError>
    requires counts { AreCounts counts.now }
    requires known { IsKnown func.now counts.now }
    requires priors { IsTable (length func.now.blocks) (λ b a. IsMutuallyBest func.now counts.now a b) links.now.prior }
    requires nexts { IsTable (length func.now.blocks) (IsMutuallyBest func.now counts.now) links.now.next }
    ensures { IfOk result (λ sums. AreCut func.now counts.now sums.prior sums.sums) }
{
    let blocks = func.blocks.as_slice();
    let prior = links.prior.as_slice();
    let next = links.next.as_slice();
    let weights = in_weights(alloc, counts, blocks.len())?;
    let mut cut = Items::from_slice(alloc, prior)?;
    let mut seen = no_marks(alloc, blocks.len())?;
    let mut sums = no_sums(alloc, blocks.len())?;
    for i in 0..blocks.len() {
        let label = number_at(i)?;
        if sum_at(sums.as_slice(), label) == 0 {
            let first = start_of(prior, weights.as_slice(), &mut seen, label);
            cut.set(first as usize, None);
            settle(blocks, next, &mut sums, first);
        }
    }
    Ok(Sums { prior: cut, sums })
}
