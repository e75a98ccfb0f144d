ghost use Rattle.std.specs.Prelude.{◌≡◌, ◌<◌, ◌+◌, IfOk, slice_index_or};
ghost use Rattle.tac_core.specs.Counts.{AreCounts};
ghost use Rattle.tac_core.specs.Weights.{AreByLabel, added, entries_at, in_weight, out_weight};

use crate::counts::FuncCounts;
use sqlite_items::Items;
use std::alloc::{AllocError, Global};

fn entries_at(entries: u64, label: usize) -> u128
    ensures { result ≡ entries_at entries label }
{
    if label == 0 { entries as u128 } else { 0 }
}

/// How often control came to each block from outside its function.
fn entered(alloc: Global, entries: u64, blocks: usize) -> Result<Items<u128>, AllocError>
    ensures { IfOk result (λ list. AreByLabel (entries_at entries) blocks list) }
{
    let mut list = Items::new(alloc);
    for label in 0..blocks {
        list.push(entries_at(entries, label))?;
    }
    Ok(list)
}

/// Adds a count to what a block has, if there is such a block.
fn add(list: &mut Items<u128>, label: u32, count: u64)
    requires { slice_index_or list.old label 0 + count < 340282366920938463463374607431768211456 }
    ensures { list.new ≡ added list.old label count }
{
    let at = label as usize;
    if at < list.len() {
        let number = list.as_slice()[at];
        list.set(at, number + count as u128);
    }
}

/// How often control left each block within its function: the sum of the counts of its edges, by label.
pub fn out_weights(
    alloc: Global,
    counts: &FuncCounts,
    blocks: usize,
) -> Result<Items<u128>, AllocError>
    requires { AreCounts counts.now }
    ensures { IfOk result (λ list. AreByLabel (out_weight counts.now) blocks list) }
{
    let edges = counts.edges.as_slice();
    let mut list = entered(alloc, 0, blocks)?;
    for i in 0..counts.edges.len() {
        add(&mut list, edges[i].from, edges[i].count);
    }
    Ok(list)
}

/// How often control came to each block: the sum of the counts of the edges to it, and the entries for the first, by label.
pub fn in_weights(
    alloc: Global,
    counts: &FuncCounts,
    blocks: usize,
) -> Result<Items<u128>, AllocError>
    requires { AreCounts counts.now }
    ensures { IfOk result (λ list. AreByLabel (in_weight counts.now) blocks list) }
{
    let edges = counts.edges.as_slice();
    let mut list = entered(alloc, counts.entries, blocks)?;
    for i in 0..counts.edges.len() {
        add(&mut list, edges[i].to, edges[i].count);
    }
    Ok(list)
}
