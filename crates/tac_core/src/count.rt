ghost use Rattle.std.specs.Prelude.{◌≡◌, ◌+◌, ◌≤◌};
ghost use Rattle.tac_core.specs.Program.{block_ops, func_ops, capped};

use crate::code::{Block, TacFunc};

fn block_ops(block: &Block) -> u64
    ensures { result ≡ block_ops block.now }
{
    block.ops.as_slice().len() as u64 + 1
}

/// A number with the operations of a function added.
pub fn with_func_ops(before: u64, func: &TacFunc) -> u64
    ensures { result ≡ capped (before + func_ops func.now) }
{
    let mut total = before;
    for block in func.blocks.as_slice() {
        total = total.saturating_add(block_ops(block));
    }
    total
}
