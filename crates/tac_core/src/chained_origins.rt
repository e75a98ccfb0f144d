ghost use Rattle.std.specs.Prelude.{◌≡◌, IfOk, slice_index_or};
ghost use Rattle.tac_core.specs.Cover.{origins_through, all_through};

use sqlite_items::Items;
use std::alloc::{AllocError, Global};

fn origin_or_entry(origins: &[u32], label: u32) -> u32
    ensures { result ≡ slice_index_or origins.now label 0 }
{
    match sqlite_items::at(origins, label as usize) {
        None => 0,
        Some(origin) => *origin,
    }
}

fn through(alloc: Global, first: &[u32], second: &[u32]) -> Result<Items<u32>, AllocError>
    ensures { IfOk result (λ list. list ≡ origins_through first.now second.now) }
{
    let mut list = Items::new(alloc);
    for label in first {
        list.push(origin_or_entry(second, *label))?;
    }
    Ok(list)
}

/// The origins of a copy's copy, by function and label.
pub fn all_origins(
    alloc: Global,
    first: &[Items<u32>],
    second: &[Items<u32>],
) -> Result<Items<Items<u32>>, AllocError>
    ensures { IfOk result (λ lists. lists ≡ all_through first.now second.now) }
{
    let count = first.len().min(second.len());
    let mut lists = Items::new(alloc);
    for i in 0..count {
        let list = through(alloc, first[i].as_slice(), second[i].as_slice())?;
        lists.push(list)?;
    }
    Ok(lists)
}
