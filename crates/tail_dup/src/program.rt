ghost use Rattle.std.specs.Prelude.{◌≡◌, IfOk, Some, length, slice_get};
ghost use Rattle.ib_meaning.specs.Agreement.{Agrees, Within};
ghost use Rattle.tac_core.specs.Cover.{HasEachBlock, AreFew};
ghost use Rattle.tac_core.specs.Meaning.{tac_meaning};
ghost use Rattle.tac_core.specs.Traces.{AreChainsOf, AreFormed};
ghost use Rattle.tail_dup.specs.Duplicated.{AreDuplicated};
ghost use Rattle.tail_dup.specs.Tables.{AreAllTargets, AreParts};

use crate::function::{Duplicate, duplicate_func};
use sqlite_items::Items;
use std::alloc::{AllocError, Global};
use tac_core::{Chain, Copied, Formed, TacFunc, TacProgram, Traces, number_at};

/// The functions of a duplicate, their chains and the origins of their labels.
#[derive(Drop)]
struct Parts {
    funcs: Items<TacFunc>,
    traces: Items<Items<Chain>>,
    origins: Items<Items<u32>>,
}

fn duplicates(alloc: Global, all: &[TacFunc], given: &Traces) -> Result<Parts, AllocError>
    requires chained { AreChainsOf all.now given.now }
    requires targets { AreAllTargets all.now }
    ensures { IfOk result (λ parts. AreParts all.now given.now (length all.now) parts.funcs parts.traces parts.origins) }
{
    let mut funcs = Items::new(alloc);
    let mut traces = Items::new(alloc);
    let mut origins = Items::new(alloc);
    for i in 0..all.len() {
        let number = number_at(i)?;
        let Some(chains) = given.chains(number) else {
            unreachable!()
        };
        let made = duplicate_func(alloc, &all[i], chains)?;
        let Duplicate {
            func,
            chains,
            origins: from,
        } = made;
        funcs.push(func)?;
        traces.push(chains)?;
        origins.push(from)?;
    }
    Ok(Parts {
        funcs,
        traces,
        origins,
    })
}

/// The program with what stands in a chain behind a side entrance copied: control enters the chains of the result only at
/// their first blocks. Given labels stay, and given chains come first.
pub fn duplicate(alloc: Global, tac: &TacProgram, traces: &Traces) -> Result<Formed, AllocError>
    requires { AreChainsOf tac.now.funcs traces.now }
    ensures from { IfOk result (λ formed. formed.copied.from ≡ tac.now) }
    ensures duplicated { IfOk result (λ formed. AreDuplicated tac.now.funcs traces.now formed) }
    ensures all { IfOk result (λ formed. HasEachBlock formed.copied.origins tac.now) }
    ensures few { IfOk result (λ formed. AreFew 4 formed.copied.tac tac.now) }
    ensures formed { IfOk result (λ formed. AreFormed formed.copied.tac.funcs formed.traces) }
    ensures agrees { IfOk result (λ formed. Agrees (tac_meaning tac.now) (tac_meaning formed.copied.tac)) }
    ensures within { IfOk result (λ formed. Within (λ n. n) (tac_meaning tac.now) (tac_meaning formed.copied.tac)) }
{
    let parts = duplicates(alloc, tac.funcs(), traces)?;
    let Parts {
        funcs,
        traces,
        origins,
    } = parts;
    let copied = Copied::of(alloc, funcs, origins, tac)?;
    Ok(Formed::keep(copied, Traces::keep(traces)))
}
