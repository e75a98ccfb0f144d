//! The registers that carry a mark on to the next member of the chain.
ghost use Rattle.std.specs.Prelude.{◌≡◌, IfOk};
ghost use Rattle.dep_graph.specs.Carriers.{has, through, without};
ghost use Rattle.wide_core.specs.Uses.{in_list};

use sqlite_items::Items;
use std::alloc::{AllocError, Global};

fn contains(list: &[u32], reg: u32) -> bool
    ensures { result ≡ in_list reg list.now }
{
    for other in list {
        if reg == *other {
            return true;
        }
    }
    false
}

/// Whether one of the registers is this one.
pub(crate) fn has(list: &[u32], reg: Option<u32>) -> bool
    ensures { result ≡ has reg list.now }
{
    match reg {
        None => false,
        Some(reg) => contains(list, reg),
    }
}

fn without(alloc: Global, list: &[u32], reg: u32) -> Result<Items<u32>, AllocError>
    ensures { IfOk result (λ rest. rest ≡ without reg list.now) }
{
    let mut rest = Items::new(alloc);
    for other in list {
        if reg != *other {
            rest.push(*other)?;
        }
    }
    Ok(rest)
}

/// Those before an operation that writes a register from others, by those behind it.
pub(crate) fn through(
    alloc: Global,
    written: Option<u32>,
    mut reads: Items<u32>,
    behind: Items<u32>,
) -> Result<Items<u32>, AllocError>
    ensures { IfOk result (λ list. list ≡ through written reads behind) }
{
    let Some(reg) = written else {
        return Ok(behind);
    };
    if !contains(behind.as_slice(), reg) {
        return Ok(behind);
    }
    reads.append(without(alloc, behind.as_slice(), reg)?)?;
    Ok(reads)
}
