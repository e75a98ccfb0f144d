ghost use Rattle.std.specs.Prelude.{IfOk};
ghost use Rattle.tac_core.specs.Counts.{AreCounts, AreOf, HasEdges};
ghost use Rattle.tac_core.specs.Traces.{AreChainsOf};
ghost use Rattle.trace_pick.specs.Tables.{IsFit};
ghost use Rattle.trace_pick.specs.Traces.{AreTraces, AreTracesOf};

use crate::links::links_of;
use crate::sums::sums_of;
use crate::walks::traces_of;
use sqlite_items::Items;
use std::alloc::{AllocError, Global};
use tac_core::{Chain, Counts, FuncCounts, TacFunc, TacProgram, Traces};

/// The traces of a function.
fn pick_func(alloc: Global, func: &TacFunc, counts: &FuncCounts) -> Result<Items<Chain>, AllocError>
    requires counts { AreCounts counts.now }
    requires there { HasEdges func.now counts.now.edges }
    requires fit { IsFit func.now }
    ensures { IfOk result (λ chains. AreTraces func.now counts.now chains) }
{
    let links = links_of(alloc, func, counts)?;
    let sums = sums_of(alloc, func, counts, &links)?;
    let chains = traces_of(
        alloc,
        func.blocks.as_slice(),
        sums.prior.as_slice(),
        links.next.as_slice(),
        sums.sums.as_slice(),
    )?;
    Ok(chains)
}

/// The traces of each function, by how often its edges were taken. Only want of memory is refused.
pub fn pick(alloc: Global, tac: &TacProgram, counts: &Counts) -> Result<Traces, AllocError>
    requires { AreOf counts.now tac.now }
    ensures traces { IfOk result (λ traces. AreTracesOf tac.now.funcs counts.now traces) }
    ensures chains { IfOk result (λ traces. AreChainsOf tac.now.funcs traces) }
{
    let funcs = tac.funcs();
    let counted = counts.funcs();
    let mut traces = Items::new(alloc);
    for i in 0..funcs.len() {
        traces.push(pick_func(alloc, &funcs[i], &counted[i])?)?;
    }
    Ok(Traces::keep(traces))
}
