ghost use Rattle.std.specs.Prelude.{◌≡◌, ◌≢◌, ◌↔◌, ◌*◌, ◌<◌, ◌⊎◌, ℕ, Some, length, slice_get};
ghost use Rattle.std.specs.List.{All};
ghost use Rattle.ib_act.specs.Acts.{target, first_source, second_source};
ghost use Rattle.ib_bits.specs.Bits.{Has};
ghost use Rattle.tac_core.specs.Live.{Reads};
ghost use Rattle.tac_core.specs.Rules.{IsRegister};
ghost use Rattle.tac_live.specs.Before.{BeforeEnd, BeforeOps, LiveBefore, ReadsBelow, EndReadsBelow, BlockReadsBelow};

use crate::sets::{insert_all, insert_some, remove_some};
use ib_bits::BitSet;
use tac_core::{Block, End, TacOp};

fn before_end(end: &End, live: &mut BitSet)
    requires { EndReadsBelow (64 * length live.old) end.now }
    ensures holds { (r : ℕ) → Has live.new r ↔ BeforeEnd end.now (Has live.old) r }
    ensures size { length live.new ≡ length live.old }
{
    match end {
        End::Jump(_) => {}
        End::Branch { reg, .. } => live.insert(*reg),
        End::Call { dest, args, .. } => {
            remove_some(live, *dest);
            insert_all(live, args.list());
        }
        End::Ret(reg) => insert_some(live, *reg),
    }
}

fn before_op(op: &TacOp, live: &mut BitSet)
    requires { ReadsBelow (64 * length live.old) op.now }
    ensures holds { (r : ℕ) → Has live.new r ↔ (Reads op.now.act r ⊎ ((target op.now.act ≢ Some r) × Has live.old r)) }
    ensures size { length live.new ≡ length live.old }
{
    remove_some(live, op.act.target());
    insert_some(live, op.act.first_source());
    insert_some(live, op.act.second_source());
}

fn op_at(ops: &[TacOp], at: usize) -> &TacOp
    requires { at < length ops.now }
    ensures { slice_get ops.now at ≡ Some result.now }
{
    &ops[at]
}

fn before_ops(ops: &[TacOp], live: &mut BitSet)
    requires { All (ReadsBelow (64 * length live.old)) ops.now }
    ensures holds { (r : ℕ) → Has live.new r ↔ BeforeOps ops.now (Has live.old) r }
    ensures size { length live.new ≡ length live.old }
{
    let mut left = ops.len();
    while left > 0 {
        left -= 1;
        let op = op_at(ops, left);
        before_op(op, live);
    }
}

/// Turns the registers that are live behind a block into those that are live before it.
pub fn live_before(block: &Block, live: &mut BitSet)
    requires { BlockReadsBelow (64 * length live.old) block.now }
    ensures exact { (r : ℕ) → Has live.new r ↔ LiveBefore block.now (Has live.old) r }
    ensures size { length live.new ≡ length live.old }
{
    before_end(&block.end, live);
    before_ops(block.ops.as_slice(), live);
}
