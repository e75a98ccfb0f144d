ghost use Rattle.std.specs.Prelude.{◌≡◌, ◌<◌, ◌≤◌, None, Some, IfOk, length, replicate, slice_get};
ghost use Rattle.tac_core.specs.Traces.{ArePartition};
ghost use Rattle.tail_dup.specs.Tables.{AreBefore, AreApart, AreWithin, IsJoined};

use sqlite_items::Items;
use std::alloc::{AllocError, Global};
use tac_core::Chain;

/// No label for each of so many blocks.
pub(crate) fn no_labels(alloc: Global, blocks: usize) -> Result<Items<Option<u32>>, AllocError>
    ensures { IfOk result (λ list. list ≡ replicate blocks None) }
{
    let mut list = Items::new(alloc);
    for _block in 0..blocks {
        list.push(None)?;
    }
    Ok(list)
}

/// Sets for each block of a chain but the first the block before it.
fn join(before: &mut Items<Option<u32>>, chain: &[u32])
    requires apart { AreApart chain.now }
    requires within { AreWithin (length before.old) chain.now }
    ensures { IsJoined chain.now (length chain.now) before.old before.new }
{
    for i in 1..chain.len() {
        before.set(chain[i] as usize, Some(chain[i - 1]));
    }
}

/// The block before each block in its chain, by label: none before a chain's first.
pub(crate) fn blocks_before(
    alloc: Global,
    blocks: usize,
    chains: &[Chain],
) -> Result<Items<Option<u32>>, AllocError>
    requires { ArePartition blocks chains.now }
    ensures { IfOk result (λ before. AreBefore blocks chains.now before) }
{
    let mut before = no_labels(alloc, blocks)?;
    for chain in chains {
        join(&mut before, chain.list());
    }
    Ok(before)
}
