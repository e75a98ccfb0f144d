ghost use Rattle.std.specs.Prelude.{IfOk};
ghost use Rattle.tac_core.specs.Live.{AreLive};

use crate::rounds::live_rows;
use sqlite_items::Items;
use std::alloc::{AllocError, Global};
use tac_core::{Live, TacProgram};

/// The registers that are live where each block of each function begins.
pub fn live_in(alloc: Global, tac: &TacProgram) -> Result<Live, AllocError>
    ensures { IfOk result (λ live. AreLive tac.now.funcs live) }
{
    let mut sets = Items::new(alloc);
    for func in tac.funcs() {
        sets.push(live_rows(alloc, func)?)?;
    }
    Ok(Live::keep(sets))
}
