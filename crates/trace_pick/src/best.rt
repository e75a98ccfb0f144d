ghost use Rattle.std.specs.Prelude.{◌≡◌, ◌<◌, ◌↔◌, IsTrue, length, slice_get};
ghost use Rattle.tac_core.specs.Counts.{edge_count};
ghost use Rattle.tac_core.specs.Traces.{GoesOn};
ghost use Rattle.tac_core.specs.Weights.{AreByLabel, in_weight, out_weight};
ghost use Rattle.trace_pick.specs.Best.{IsMost, IsMutuallyBest};

use tac_core::{Block, Edge, End, FuncCounts, TacFunc};

/// Whether a count is at least seven tenths of a weight.
fn is_most(count: u64, weight: u128) -> bool
    ensures { IsTrue result ↔ IsMost count weight }
{
    weight <= 10 * count as u128 / 7
}

fn goes_on(blocks: &[Block], label: u32) -> bool
    ensures { IsTrue result ↔ GoesOn (slice_get blocks.now label) }
{
    match sqlite_items::at(blocks, label as usize) {
        None => false,
        Some(block) => match &block.end {
            End::Jump(_) => true,
            End::Branch { .. } => true,
            End::Call { .. } => false,
            End::Ret(_) => false,
        },
    }
}

/// Whether an edge is mutually best, by the weights of its function's blocks.
pub(crate) fn is_best(
    func: &TacFunc,
    counts: &FuncCounts,
    outs: &[u128],
    ins: &[u128],
    edge: &Edge,
) -> bool
    requires outs { AreByLabel (out_weight counts.now) (length func.now.blocks) outs.now }
    requires ins { AreByLabel (in_weight counts.now) (length func.now.blocks) ins.now }
    requires from { edge.now.from < length func.now.blocks }
    requires to { edge.now.to < length func.now.blocks }
    requires taken { 0 < edge.now.count }
    requires counted { edge_count edge.now.from edge.now.to counts.now.edges ≡ edge.now.count }
    ensures { IsTrue result ↔ IsMutuallyBest func.now counts.now edge.now.from edge.now.to }
{
    edge.to > 0
        && goes_on(func.blocks.as_slice(), edge.from)
        && is_most(edge.count, outs[edge.from as usize])
        && is_most(edge.count, ins[edge.to as usize])
}
