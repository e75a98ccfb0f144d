//! Copies and chains, made as the passes above make them.
ghost use Rattle.std.specs.Prelude.{◌≡◌, IfOk, map};
ghost use Rattle.tac_core.specs.Traces.{apart};

use crate::three_address::branching;
use sqlite_items::Items;
use std::alloc::{AllocError, Global};
use tac_core::{Chain, Copied, Formed, TacProgram, Traces, labels_of};

fn copied_twice(alloc: Global, tac: &TacProgram) -> Result<Copied, AllocError>
    ensures { IfOk result (λ copied. copied.from ≡ tac.now) }
{
    let first = Copied::same(alloc, tac)?;
    let labels = labels_of(alloc, first.tac().funcs())?;
    let copy = first.tac().copy(alloc)?;
    first.again(alloc, copy, labels.as_slice())
}

/// Each block as a chain by itself.
fn chains_apart(alloc: Global, labels: &[u32]) -> Result<Items<Chain>, AllocError>
    ensures { IfOk result (λ chains. chains ≡ apart labels.now) }
{
    let mut chains = Items::new(alloc);
    for label in labels {
        chains.push(Chain::keep(Items::from_slice(alloc, &[*label])?))?;
    }
    Ok(chains)
}

fn traces_apart(alloc: Global, labels: &[Items<u32>]) -> Result<Traces, AllocError>
    ensures { IfOk result (λ traces. traces ≡ map apart labels.now) }
{
    let mut funcs = Items::new(alloc);
    for list in labels {
        funcs.push(chains_apart(alloc, list.as_slice())?)?;
    }
    Ok(Traces::keep(funcs))
}

fn formed_apart(alloc: Global, tac: &TacProgram) -> Result<Formed, AllocError> {
    let copied = Copied::same(alloc, tac)?;
    let labels = labels_of(alloc, tac.funcs())?;
    let traces = traces_apart(alloc, labels.as_slice())?;
    Ok(Formed::keep(copied, traces))
}

/// The operations of a copy of a copy, the origins of its last block and of none, and how many
/// chains its function has where each block is one.
fn copies(alloc: Global) -> Result<Option<(u64, [Option<u32>; 2], Option<usize>)>, AllocError> {
    let Some(tac) = branching(alloc, 2, 2)? else {
        return Ok(None);
    };
    let copied = copied_twice(alloc, &tac)?;
    let formed = formed_apart(alloc, &tac)?;
    Ok(Some((
        copied.tac().ops(),
        [copied.origin(0, 2), copied.origin(0, 3)],
        formed.traces().chains(0).map(|chains| chains.len()),
    )))
}

#[test]
fn copies_are_copied_and_cut_into_chains(rt: HostRuntime) {
    let want = (4, [Some(2), None], Some(3));
    assert_eq!(rt; copies(rt.alloc()), Ok(Some(want)));
}
