//! The registers that an item reads and writes.
ghost use Rattle.std.specs.Prelude.{◌≡◌, ◌++◌, IfOk};
ghost use Rattle.wide_core.specs.Uses.{opt_list, reads, result_of, written, writes_now};

use sqlite_items::Items;
use std::alloc::{AllocError, Global};
use wide_core::{Loc, WideAct};

fn two(alloc: Global, first: Option<u32>, second: Option<u32>) -> Result<Items<u32>, AllocError>
    ensures { IfOk result (λ list. list ≡ opt_list first ++ opt_list second) }
{
    let mut list = Items::new(alloc);
    if let Some(reg) = first {
        list.push(reg)?;
    }
    if let Some(reg) = second {
        list.push(reg)?;
    }
    Ok(list)
}

fn one(alloc: Global, reg: Option<u32>) -> Result<Items<u32>, AllocError>
    ensures { IfOk result (λ list. list ≡ opt_list reg) }
{
    match reg {
        None => Ok(Items::new(alloc)),
        Some(reg) => Items::from_slice(alloc, &[reg]),
    }
}

pub(crate) fn reads(alloc: Global, act: &WideAct) -> Result<Items<u32>, AllocError>
    ensures { IfOk result (λ list. list ≡ reads act.now) }
{
    match act {
        WideAct::Do(act) => two(alloc, act.first_source(), act.second_source()),
        WideAct::Spill { from, .. } => one(alloc, Some(*from)),
        WideAct::Reload { .. } => one(alloc, None),
        WideAct::Check { from } => one(alloc, Some(*from)),
        WideAct::Jump { .. } => one(alloc, None),
        WideAct::Branch { from, .. } => one(alloc, Some(*from)),
        WideAct::BranchZero { from, .. } => one(alloc, Some(*from)),
        WideAct::Call { args, .. } => Items::from_slice(alloc, args.as_slice()),
        WideAct::Return(from) => one(alloc, *from),
    }
}

fn result_of(place: Option<Loc>) -> Option<u32>
    ensures { result ≡ result_of place }
{
    match place {
        None => None,
        Some(Loc::Slot(_)) => None,
        Some(Loc::Reg(reg)) => Some(reg),
    }
}

/// The register that it defines, a call's destination too.
pub(crate) fn written(act: &WideAct) -> Option<u32>
    ensures { result ≡ written act.now }
{
    match act {
        WideAct::Do(act) => act.target(),
        WideAct::Reload { to, .. } => Some(*to),
        WideAct::Call { result, .. } => result_of(*result),
        WideAct::Spill { .. } => None,
        WideAct::Check { .. } => None,
        WideAct::Jump { .. } => None,
        WideAct::Branch { .. } => None,
        WideAct::BranchZero { .. } => None,
        WideAct::Return(_) => None,
    }
}
