ghost use Rattle.std.specs.Prelude.{◌≡◌, ◌↔◌, ◌*◌, ◌<◌, ◌⊎◌, ℕ, length};
ghost use Rattle.ib_bits.specs.Bits.{Has};
ghost use Rattle.tac_live.specs.Before.{At, LiveBefore, LiveBehind, BlockReadsBelow};
ghost use Rattle.tac_live.specs.Rounds.{Even, Settles};

use crate::before::live_before;
use ib_bits::BitSet;
use tac_core::{Block, End};

fn join_row(rows: &[BitSet], label: u32, live: &mut BitSet)
    requires { Even (length live.old) rows.now }
    ensures holds { (r : ℕ) → Has live.new r ↔ (Has live.old r ⊎ At rows.now label r) }
    ensures size { length live.new ≡ length live.old }
{
    if (label as usize) < rows.len() {
        live.join(&rows[label as usize]);
    }
}

fn join_targets(end: &End, rows: &[BitSet], live: &mut BitSet)
    requires { Even (length live.old) rows.now }
    ensures holds { (r : ℕ) → Has live.new r ↔ (Has live.old r ⊎ LiveBehind end.now (At rows.now) r) }
    ensures size { length live.new ≡ length live.old }
{
    match end {
        End::Jump(label) => join_row(rows, *label, live),
        End::Branch { yes, no, .. } => {
            join_row(rows, *yes, live);
            join_row(rows, *no, live);
        }
        End::Call { next, .. } => join_row(rows, *next, live),
        End::Ret(_) => {}
    }
}

/// Makes `live` what is live before the block by the sets of its targets.
fn take_anew(block: &Block, rows: &[BitSet], live: &mut BitSet)
    requires even { Even (length live.old) rows.now }
    requires below { BlockReadsBelow (64 * length live.old) block.now }
    ensures holds { (r : ℕ) → Has live.new r ↔ LiveBefore block.now (LiveBehind block.now.«end» (At rows.now)) r }
    ensures size { length live.new ≡ length live.old }
{
    live.clear();
    join_targets(&block.end, rows, live);
    live_before(block, live);
}

/// Takes into a block's set what is live before it. Answers whether any of it is new. `live` is room to work in.
pub fn settle(block: &Block, label: usize, rows: &mut [BitSet], live: &mut BitSet) -> bool
    requires even { Even (length live.old) rows.old }
    requires below { BlockReadsBelow (64 * length live.old) block.now }
    requires there { label < length rows.old }
    ensures settles { Settles block.now rows.old rows.new label result }
    ensures size { length live.new ≡ length live.old }
{
    take_anew(block, rows, live);
    rows[label].join(live)
}
