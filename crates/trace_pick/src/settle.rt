ghost use Rattle.std.specs.Prelude.{◌≡◌, ◌<◌, List, Option, None, ℕ, length, slice_set};
ghost use Rattle.tac_core.specs.declared.code.TacFunc.{TacFunc};
ghost use Rattle.tac_core.specs.declared.counts.FuncCounts.{FuncCounts};
ghost use Rattle.trace_pick.specs.Settled.{AreInside, CanSettle, IsSettling, sum_behind, unsettled_behind};
ghost use Rattle.trace_pick.specs.Tables.{AreFewOps, AreLow};

use crate::tables::label_at;
use crate::walks::{has_room, ops_at, sum_at};
use sqlite_items::Items;
use tac_core::Block;

/// The sum of a block behind another: it goes on, or begins anew where the trace has no room.
fn sum_behind(blocks: &[Block], sums: &[u64], before: u32, label: u32) -> u64
    requires few { AreFewOps blocks.now }
    requires low { AreLow sums.now }
    ensures { result ≡ sum_behind blocks.now sums.now before label }
{
    if has_room(blocks, sums, before, label) {
        sum_at(sums, before) + ops_at(blocks, label)
    } else {
        ops_at(blocks, label)
    }
}

/// The block behind one, if it has no sum yet.
fn unsettled_behind(next: &[Option<u32>], sums: &[u64], label: u32) -> Option<u32>
    ensures { result ≡ unsettled_behind next.now sums.now label }
{
    match label_at(next, label) {
        None => None,
        Some(behind) => {
            if sum_at(sums, behind) == 0 {
                Some(behind)
            } else {
                None
            }
        }
    }
}

/// Gives each block from the first on its sum, as far as best edges lead.
pub(crate) fn settle(blocks: &[Block], next: &[Option<u32>], sums: &mut Items<u64>, first: u32)
    requires few { AreFewOps blocks.now }
    requires low { AreLow sums.old }
    requires many { length sums.old ≡ length blocks.now }
    requires inside { AreInside (length sums.old) next.now }
    requires within { first < length sums.old }
    ensures low { AreLow sums.new }
    ensures many { length sums.new ≡ length sums.old }
    ensures settled { (f : TacFunc) (c : FuncCounts) (cut : List (Option ℕ)) → CanSettle f c blocks.now next.now cut sums.old first → IsSettling f c (slice_set cut first None) sums.old sums.new first None }
{
    sums.set(first as usize, ops_at(blocks, first));
    let mut at = first;
    'along: while let Some(label) = unsettled_behind(next, sums.as_slice(), at) {
        let sum = sum_behind(blocks, sums.as_slice(), at, label);
        sums.set(label as usize, sum);
        at = label;
    }
}
