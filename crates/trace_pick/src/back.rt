ghost use Rattle.std.specs.Prelude.{◌≡◌, ◌<◌, length};
ghost use Rattle.tac_core.specs.declared.code.TacFunc.{TacFunc};
ghost use Rattle.tac_core.specs.declared.counts.FuncCounts.{FuncCounts};
ghost use Rattle.trace_pick.specs.Settled.{AreInside, CanWalkBack, IsStartOf};

use crate::tables::{earlier, label_at, unseen_before};
use sqlite_items::Items;

/// Where the traces of a label's chain begin: walks back along best edges to the block that none of them enters, or around a
/// cycle to the block before which it is cut.
pub(crate) fn start_of(
    prior: &[Option<u32>],
    weights: &[u128],
    seen: &mut Items<bool>,
    label: u32,
) -> u32
    requires inside { AreInside (length seen.old) prior.now }
    requires within { label < length seen.old }
    ensures many { length seen.new ≡ length seen.old }
    ensures within { result < length seen.old }
    ensures found { (f : TacFunc) (c : FuncCounts) → CanWalkBack f c prior.now weights.now seen.old label → IsStartOf f c seen.old seen.new label result }
{
    seen.set(label as usize, true);
    let mut at = label;
    let mut first = label;
    'back: while let Some(before) = unseen_before(prior, seen.as_slice(), at) {
        seen.set(before as usize, true);
        first = earlier(weights, before, first);
        at = before;
    }
    match label_at(prior, at) {
        None => at,
        Some(_) => first,
    }
}
