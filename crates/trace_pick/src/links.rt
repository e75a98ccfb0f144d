ghost use Rattle.std.specs.Prelude.{◌≡◌, ◌<◌, None, Some, IfOk, length, replicate, slice_set};
ghost use Rattle.tac_core.specs.Counts.{AreCounts};
ghost use Rattle.trace_pick.specs.Tables.{AreLinks, AreWithin};

use crate::best::is_best;
use sqlite_items::Items;
use std::alloc::{AllocError, Global};
use tac_core::{Edge, FuncCounts, TacFunc, in_weights, out_weights};

/// Mutually best edges by label: for each block the one from which such an edge leads to it, and the one to which it leads.
#[derive(Drop)]
pub(crate) struct Links {
    pub prior: Items<Option<u32>>,
    pub next: Items<Option<u32>>,
}

/// No label for each of so many blocks.
fn no_labels(alloc: Global, blocks: usize) -> Result<Items<Option<u32>>, AllocError>
    ensures { IfOk result (λ list. list ≡ replicate blocks None) }
{
    let mut list = Items::new(alloc);
    for _block in 0..blocks {
        list.push(None)?;
    }
    Ok(list)
}

fn link(prior: &mut Items<Option<u32>>, next: &mut Items<Option<u32>>, edge: &Edge)
    requires to { edge.now.to < length prior.old }
    requires from { edge.now.from < length next.old }
    ensures prior { prior.new ≡ slice_set prior.old edge.now.to (Some edge.now.from) }
    ensures next { next.new ≡ slice_set next.old edge.now.from (Some edge.now.to) }
{
    prior.set(edge.to as usize, Some(edge.from));
    next.set(edge.from as usize, Some(edge.to));
}

/// The mutually best edges of a function.
pub(crate) fn links_of(
    alloc: Global,
    func: &TacFunc,
    counts: &FuncCounts,
) -> Result<Links, AllocError>
    requires counts { AreCounts counts.now }
    requires within { AreWithin (length func.now.blocks) counts.now.edges }
    ensures { IfOk result (λ links. AreLinks func.now counts.now (length counts.now.edges) links.prior links.next) }
{
    let blocks = func.blocks.len();
    let outs = out_weights(alloc, counts, blocks)?;
    let ins = in_weights(alloc, counts, blocks)?;
    let edges = counts.edges.as_slice();
    let mut prior = no_labels(alloc, blocks)?;
    let mut next = no_labels(alloc, blocks)?;
    for i in 0..edges.len() {
        let edge = &edges[i];
        if is_best(func, counts, outs.as_slice(), ins.as_slice(), edge) {
            link(&mut prior, &mut next, edge);
        }
    }
    Ok(Links { prior, next })
}
