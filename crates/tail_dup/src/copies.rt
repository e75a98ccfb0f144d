ghost use Rattle.std.specs.Prelude.{◌≡◌, ◌<◌, ◌≤◌, ◌+◌, false, IfOk, drop, length, slice_get, slice_index_or};
ghost use Rattle.tail_dup.specs.Duplicated.{from_first, tails, labels_behind};
ghost use Rattle.tail_dup.specs.Tables.{AreCopyLabels, AreWithin, is_entered};

use crate::before::no_labels;
use sqlite_items::Items;
use std::alloc::{AllocError, Global};
use tac_core::{Chain, number_at};

fn is_entered(entered: &[bool], label: u32) -> bool
    ensures { result ≡ is_entered entered.now label }
{
    match sqlite_items::at(entered, label as usize) {
        None => false,
        Some(entered) => *entered,
    }
}

/// Where a chain's first block with a side entrance stands, or the chain's length.
fn first_entrance(chain: &[u32], entered: &[bool]) -> usize
    ensures part { drop result chain.now ≡ from_first (is_entered entered.now) chain.now }
    ensures within { result ≤ length chain.now }
{
    for (i, label) in chain.iter().enumerate() {
        if is_entered(entered, *label) {
            return i;
        }
    }
    chain.len()
}

/// The blocks that are copied: each chain from its first side entrance on.
pub(crate) fn copied_blocks(
    alloc: Global,
    chains: &[Chain],
    entered: &[bool],
) -> Result<Items<u32>, AllocError>
    ensures { IfOk result (λ copies. copies ≡ tails (is_entered entered.now) chains.now) }
{
    let mut copies = Items::new(alloc);
    for chain in chains {
        let list = chain.list();
        let first = first_entrance(list, entered);
        copies.append(Items::from_slice(alloc, &list[first..])?)?;
    }
    Ok(copies)
}

/// The label of a copy behind so many blocks.
pub(crate) fn copy_label(blocks: usize, copy: usize) -> Result<u32, AllocError>
    ensures { IfOk result (λ label. label ≡ blocks + copy) }
{
    match blocks.checked_add(copy) {
        None => Err(AllocError),
        Some(label) => number_at(label),
    }
}

/// The labels of so many copies behind so many blocks.
pub(crate) fn copy_labels(
    alloc: Global,
    blocks: usize,
    copies: usize,
) -> Result<Items<u32>, AllocError>
    ensures { IfOk result (λ labels. labels ≡ labels_behind blocks copies) }
{
    let mut labels = Items::new(alloc);
    for copy in 0..copies {
        labels.push(copy_label(blocks, copy)?)?;
    }
    Ok(labels)
}

/// The label of each block's copy, by label.
pub(crate) fn copies_of(
    alloc: Global,
    blocks: usize,
    copies: &[u32],
) -> Result<Items<Option<u32>>, AllocError>
    requires { AreWithin blocks copies.now }
    ensures { IfOk result (λ of. AreCopyLabels blocks copies.now (length copies.now) of) }
{
    let mut of = no_labels(alloc, blocks)?;
    for i in 0..copies.len() {
        let label = copy_label(blocks, i)?;
        of.set(copies[i] as usize, Some(label));
    }
    Ok(of)
}
