ghost use Rattle.std.specs.Prelude.{◌≡◌, ◌<◌, ℕ, OnOk, IfOk, length};
ghost use Rattle.std.specs.List.{Contains};
ghost use Rattle.tac_core.specs.Counts.{IsTargetOf};
ghost use Rattle.tac_live.specs.Before.{row};
ghost use Rattle.tac_live.specs.Preds.{ArePreds};

use sqlite_items::Items;
use std::alloc::{AllocError, Global};
use tac_core::{End, TacFunc, number_at};

fn add(lists: &mut [Items<u32>], label: u32, from: u32) -> Result<(), AllocError>
    ensures kept { OnOk result ((l p : ℕ) → Contains (row lists.old l) p → Contains (row lists.new l) p) }
    ensures added { OnOk result (label < length lists.old → Contains (row lists.new label) from) }
    ensures size { length lists.new ≡ length lists.old }
{
    let at = label as usize;
    if at < lists.len() {
        lists[at].push(from)
    } else {
        Ok(())
    }
}

fn add_targets(lists: &mut [Items<u32>], end: &End, from: u32) -> Result<(), AllocError>
    ensures kept { OnOk result ((l p : ℕ) → Contains (row lists.old l) p → Contains (row lists.new l) p) }
    ensures added { OnOk result ((l : ℕ) → IsTargetOf end.now l → l < length lists.old → Contains (row lists.new l) from) }
    ensures size { length lists.new ≡ length lists.old }
{
    match end {
        End::Jump(label) => add(lists, *label, from),
        End::Branch { yes, no, .. } => {
            add(lists, *yes, from)?;
            add(lists, *no, from)
        }
        End::Call { next, .. } => add(lists, *next, from),
        End::Ret(_) => Ok(()),
    }
}

fn empty_lists(alloc: Global, count: usize) -> Result<Vec<Items<u32>>, AllocError>
    ensures { IfOk result (λ lists. length lists.items ≡ count) }
{
    let mut lists = Vec::new(alloc);
    for _label in 0..count {
        lists.push(Items::new(alloc))?;
    }
    Ok(lists)
}

/// The blocks that lead to each block, by label.
pub fn predecessors(alloc: Global, func: &TacFunc) -> Result<Vec<Items<u32>>, AllocError>
    ensures { IfOk result (λ lists. ArePreds func.now.blocks (length func.now.blocks) lists.items) }
{
    let mut lists = empty_lists(alloc, func.blocks.len())?;
    for (label, block) in func.blocks.as_slice().iter().enumerate() {
        let from = number_at(label)?;
        add_targets(lists.as_mut_slice(), &block.end, from)?;
    }
    Ok(lists)
}
