ghost use Rattle.std.specs.Prelude.{◌≡◌, ◌<◌, ◌≤◌, nat_le, IfOk, length, slice_get, slice_index_or};
ghost use Rattle.tac_core.specs.Traces.{ops_of};
ghost use Rattle.trace_pick.specs.Tables.{sum_at, has_room, begins, behind, IsWalk, AreWalks, AreFewOps, AreLow, Rise};

use sqlite_items::Items;
use std::alloc::{AllocError, Global};
use tac_core::{Block, Chain, number_at};

/// The operations of a block, its end included.
pub(crate) fn ops_at(blocks: &[Block], label: u32) -> u64
    requires { AreFewOps blocks.now }
    ensures { result ≡ ops_of (slice_get blocks.now label) }
{
    match sqlite_items::at(blocks, label as usize) {
        None => 0,
        Some(block) => block.ops.len() as u64 + 1,
    }
}

pub(crate) fn sum_at(sums: &[u64], label: u32) -> u64
    ensures { result ≡ sum_at sums.now label }
{
    match sqlite_items::at(sums, label as usize) {
        None => 0,
        Some(sum) => *sum,
    }
}

pub(crate) fn has_room(blocks: &[Block], sums: &[u64], from: u32, to: u32) -> bool
    requires few { AreFewOps blocks.now }
    requires low { AreLow sums.now }
    ensures { result ≡ has_room blocks.now sums.now from to }
{
    sum_at(sums, from) + ops_at(blocks, to) <= 2048
}

/// Whether a block is a trace's first.
fn begins(blocks: &[Block], prior: &[Option<u32>], sums: &[u64], label: u32) -> bool
    requires few { AreFewOps blocks.now }
    requires low { AreLow sums.now }
    ensures { result ≡ begins blocks.now prior.now sums.now label }
{
    match sqlite_items::at(prior, label as usize) {
        None => true,
        Some(before) => match before {
            None => true,
            Some(before) => !has_room(blocks, sums, *before, label),
        },
    }
}

/// The block behind a block in its trace.
fn behind(
    blocks: &[Block],
    prior: &[Option<u32>],
    next: &[Option<u32>],
    sums: &[u64],
    label: u32,
) -> Option<u32>
    requires few { AreFewOps blocks.now }
    requires low { AreLow sums.now }
    ensures { result ≡ behind blocks.now prior.now next.now sums.now label }
{
    match sqlite_items::at(next, label as usize) {
        None => None,
        Some(after) => match after {
            None => None,
            Some(after) => {
                if begins(blocks, prior, sums, *after) {
                    None
                } else {
                    Some(*after)
                }
            }
        },
    }
}

/// The trace that begins with a block.
fn trace_from(
    alloc: Global,
    blocks: &[Block],
    prior: &[Option<u32>],
    next: &[Option<u32>],
    sums: &[u64],
    first: u32,
) -> Result<Items<u32>, AllocError>
    requires few { AreFewOps blocks.now }
    requires low { AreLow sums.now }
    requires rise { Rise (behind blocks.now prior.now next.now sums.now) sums.now }
    ensures { IfOk result (λ chain. IsWalk (behind blocks.now prior.now next.now sums.now) first chain) }
{
    let mut chain = Items::new(alloc);
    chain.push(first)?;
    let mut at = first;
    'along: while let Some(label) = behind(blocks, prior, next, sums, at) {
        chain.push(label)?;
        at = label;
    }
    Ok(chain)
}

/// The traces of a function, in order of their first labels.
pub(crate) fn traces_of(
    alloc: Global,
    blocks: &[Block],
    prior: &[Option<u32>],
    next: &[Option<u32>],
    sums: &[u64],
) -> Result<Items<Chain>, AllocError>
    requires few { AreFewOps blocks.now }
    requires low { AreLow sums.now }
    requires rise { Rise (behind blocks.now prior.now next.now sums.now) sums.now }
    ensures { IfOk result (λ chains. AreWalks (behind blocks.now prior.now next.now sums.now) (begins blocks.now prior.now sums.now) (length blocks.now) chains) }
{
    let mut chains = Items::new(alloc);
    for i in 0..blocks.len() {
        let label = number_at(i)?;
        if begins(blocks, prior, sums, label) {
            chains.push(Chain::keep(trace_from(alloc, blocks, prior, next, sums, label)?))?;
        }
    }
    Ok(chains)
}
