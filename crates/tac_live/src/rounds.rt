ghost use Rattle.std.specs.Prelude.{◌≡◌, ◌≢◌, ◌↔◌, ◌*◌, ◌+◌, ◌<◌, ◌≤◌, ◌⊎◌, ◌++◌, ℕ, OnOk, IfOk, length};
ghost use Rattle.std.specs.List.{All, Contains};
ghost use Rattle.ib_bits.specs.Bits.{IsEmpty};
ghost use Rattle.tac_core.specs.Live.{IsLive};
ghost use Rattle.tac_live.specs.Before.{At, row};
ghost use Rattle.tac_live.specs.Preds.{ArePreds};
ghost use Rattle.tac_live.specs.Rounds.{AllReadBelow, AreSound, IsRound, WaitsOrClosed, total_room};

use crate::behind::settle;
use crate::preds::predecessors;
use ib_bits::BitSet;
use sqlite_items::Items;
use std::alloc::{AllocError, Global};
use tac_core::{TacFunc, number_at};

fn push_all(next: &mut Items<u32>, labels: &[u32]) -> Result<(), AllocError>
    ensures { OnOk result (next.new ≡ next.old ++ labels.now) }
{
    for label in labels {
        next.push(*label)?;
    }
    Ok(())
}

fn push_preds(next: &mut Items<u32>, preds: &[Items<u32>], label: usize) -> Result<(), AllocError>
    requires { label < length preds.now }
    ensures { OnOk result (next.new ≡ next.old ++ row preds.now label) }
{
    push_all(next, preds[label].as_slice())
}

/// Takes one block's set anew. Where it grows, the blocks that lead to it wait next.
fn step(
    func: &TacFunc,
    preds: &[Items<u32>],
    label: u32,
    rows: &mut [BitSet],
    live: &mut BitSet,
    next: &mut Items<u32>,
) -> Result<(), AllocError>
    requires sound { AreSound func.now (length live.old) rows.old }
    requires below { AllReadBelow (64 * length live.old) func.now.blocks }
    requires preds { ArePreds func.now.blocks (length func.now.blocks) preds.now }
    ensures sound { OnOk result (AreSound func.now (length live.old) rows.new) }
    ensures waits { OnOk result ((l : ℕ) → ((l ≡ label) ⊎ WaitsOrClosed func.now rows.old next.old l) → WaitsOrClosed func.now rows.new next.new l) }
    ensures less { OnOk result (((next.new ≡ next.old) × (rows.new ≡ rows.old)) ⊎ (total_room rows.new < total_room rows.old)) }
    ensures size { length live.new ≡ length live.old }
{
    let at = label as usize;
    match sqlite_items::at(func.blocks.as_slice(), at) {
        None => Ok(()),
        Some(block) => {
            if settle(block, at, rows, live) {
                push_preds(next, preds, at)?;
            }
            Ok(())
        }
    }
}

/// Takes the set of each waiting block anew, and answers which blocks wait then.
fn round(
    alloc: Global,
    func: &TacFunc,
    preds: &[Items<u32>],
    waiting: &[u32],
    rows: &mut [BitSet],
    live: &mut BitSet,
) -> Result<Items<u32>, AllocError>
    requires sound { AreSound func.now (length live.old) rows.old }
    requires below { AllReadBelow (64 * length live.old) func.now.blocks }
    requires preds { ArePreds func.now.blocks (length func.now.blocks) preds.now }
    requires waits { (l : ℕ) → WaitsOrClosed func.now rows.old waiting.now l }
    ensures round { IfOk result (λ next. IsRound func.now (length live.old) rows.old rows.new next) }
    ensures size { length live.new ≡ length live.old }
{
    let mut next = Items::new(alloc);
    for label in waiting {
        step(func, preds, *label, rows, live, &mut next)?;
    }
    Ok(next)
}

fn empty_rows(alloc: Global, count: usize, words: usize) -> Result<Vec<BitSet>, AllocError>
    ensures { IfOk result (λ rows. (length rows.items ≡ count) × All (λ row. (length row ≡ words) × IsEmpty row) rows.items) }
{
    let mut rows = Vec::new(alloc);
    for _label in 0..count {
        rows.push(BitSet::new(alloc, words)?)?;
    }
    Ok(rows)
}

/// The labels of so many blocks, the greatest first: sets spread from the ends of a function to its beginning.
fn labels_down(alloc: Global, count: usize) -> Result<Items<u32>, AllocError>
    ensures { IfOk result (λ labels. (l : ℕ) → l < count → Contains labels l) }
{
    let mut labels = Items::new(alloc);
    let mut left = count;
    while left > 0 {
        left -= 1;
        labels.push(number_at(left)?)?;
    }
    Ok(labels)
}

/// The sets of registers that are live where each block of a function begins, by label.
pub fn live_rows(alloc: Global, func: &TacFunc) -> Result<Items<BitSet>, AllocError>
    requires { AllReadBelow func.now.regs func.now.blocks }
    ensures { IfOk result (λ rows. (l r : ℕ) → At rows l r ↔ IsLive func.now r l) }
{
    let words = func.regs as usize / 64 + 1;
    let preds = predecessors(alloc, func)?;
    let mut rows = empty_rows(alloc, func.blocks.len(), words)?;
    let mut live = BitSet::new(alloc, words)?;
    let mut waiting = labels_down(alloc, func.blocks.len())?;
    'settling: while !waiting.is_empty() {
        waiting = round(
            alloc,
            func,
            preds.as_slice(),
            waiting.as_slice(),
            rows.as_mut_slice(),
            &mut live,
        )?;
    }
    Ok(Items::from_vec(rows))
}
