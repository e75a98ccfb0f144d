ghost use Rattle.std.specs.Prelude.{◌≡◌, IfOk, length, slice_get};
ghost use Rattle.tac_core.specs.Cover.{upto, own_labels, origin_of, origins_through, all_through};

use crate::code::TacFunc;
use crate::index::number_at;
use sqlite_items::Items;
use std::alloc::{AllocError, Global};

/// The labels of so many blocks.
fn labels(alloc: Global, count: usize) -> Result<Items<u32>, AllocError>
    ensures { IfOk result (λ list. list ≡ upto count) }
{
    let mut list = Items::new(alloc);
    for label in 0..count {
        list.push(number_at(label)?)?;
    }
    Ok(list)
}

/// The labels of each function's blocks.
pub fn labels_of(alloc: Global, funcs: &[TacFunc]) -> Result<Items<Items<u32>>, AllocError>
    ensures { IfOk result (λ lists. lists ≡ own_labels funcs.now) }
{
    let mut lists = Items::new(alloc);
    for func in funcs {
        lists.push(labels(alloc, func.blocks.len())?)?;
    }
    Ok(lists)
}

/// The origin of a label, or `None` where there is no such function or label.
pub fn origin_in(origins: &[Items<u32>], func: u32, label: u32) -> Option<u32>
    ensures { result ≡ origin_of (slice_get origins.now func) label }
{
    match sqlite_items::at(origins, func as usize) {
        None => None,
        Some(list) => sqlite_items::at(list.as_slice(), label as usize).copied(),
    }
}
