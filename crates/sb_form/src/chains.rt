ghost use Rattle.std.specs.Prelude.{◌≡◌, ◌<◌, ℕ, OnOk, [], Some, length, slice_get};
ghost use Rattle.sb_form.specs.Growing.{Grown, GrownBy, GivesStraight, HasGoodOps};
ghost use Rattle.sb_form.specs.Heads.{AreLabels};
ghost use Rattle.sb_formed.specs.Formed.{block_drafts, chain_at, chain_drafts, drafted_chain, drafted_labels};
ghost use Rattle.tac_core.specs.Cover.{upto};

use crate::acts::push_block;
use crate::heads::{chain_of, heads_of};
use crate::numbered::Numbered;
use ib_base::Place;
use sb_core::Superblock;
use sqlite_items::Items;
use std::alloc::{AllocError, Global};
use tac_core::{Chain, TacFunc};

/// Superblocks one after the other, and the number of the next item.
#[derive(Drop)]
pub(crate) struct Forming {
    pub all: Items<Superblock>,
    pub next: u32,
}

fn label_at(chain: &[u32], at: usize) -> Option<u32>
    ensures { result ≡ slice_get chain.now at }
{
    match sqlite_items::at(chain, at) {
        None => None,
        Some(label) => Some(*label),
    }
}

fn push_label(
    alloc: Global,
    into: &mut Numbered,
    places: &[Place],
    func: &TacFunc,
    label: u32,
    next: Option<u32>,
) -> Result<(), AllocError>
    requires { HasGoodOps func.now }
    ensures { OnOk result (Grown (block_drafts places.now (slice_get func.now.blocks label) next []) into.old.next into.old.items into.new.next into.new.items) }
{
    match func.blocks.get(label as usize) {
        None => Ok(()),
        Some(block) => push_block(alloc, into, places, block, next),
    }
}

fn push_chain(
    alloc: Global,
    into: &mut Numbered,
    places: &[Place],
    func: &TacFunc,
    chain: &[u32],
) -> Result<(), AllocError>
    requires { HasGoodOps func.now }
    ensures { OnOk result (Grown (chain_drafts places.now func.now chain.now) into.old.next into.old.items into.new.next into.new.items) }
{
    for i in 0..chain.len() {
        let next = label_at(chain, i + 1);
        push_label(alloc, into, places, func, chain[i], next)?;
    }
    Ok(())
}

/// Appends the superblock of a chain that begins with this label.
fn form_headed(
    alloc: Global,
    forming: &mut Forming,
    places: &[Place],
    number: u32,
    func: &TacFunc,
    chain: &[u32],
    head: u32,
) -> Result<(), AllocError>
    requires good { HasGoodOps func.now }
    requires straight { GivesStraight places.now func.now chain.now }
    requires positive { 0 < forming.old.next }
    requires headed { slice_get chain.now 0 ≡ Some head }
    ensures { OnOk result (GrownBy (drafted_chain places.now number func.now chain.now) forming.old.next forming.old.all forming.new.next forming.new.all) }
{
    let mut into = Numbered {
        items: Items::new(alloc),
        next: forming.next,
    };
    push_chain(alloc, &mut into, places, func, chain)?;
    let Numbered { items, next } = into;
    forming.all.push(Superblock::keep(number, head, items))?;
    forming.next = next;
    Ok(())
}

/// Appends the superblock of a chain. An empty one has none.
fn form_chain(
    alloc: Global,
    forming: &mut Forming,
    places: &[Place],
    number: u32,
    func: &TacFunc,
    chain: &[u32],
) -> Result<(), AllocError>
    requires good { HasGoodOps func.now }
    requires straight { GivesStraight places.now func.now chain.now }
    requires positive { 0 < forming.old.next }
    ensures { OnOk result (GrownBy (drafted_chain places.now number func.now chain.now) forming.old.next forming.old.all forming.new.next forming.new.all) }
{
    match label_at(chain, 0) {
        None => Ok(()),
        Some(head) => form_headed(alloc, forming, places, number, func, chain, head),
    }
}

/// Appends the superblocks of a function by rising head.
pub(crate) fn form_func(
    alloc: Global,
    forming: &mut Forming,
    places: &[Place],
    number: u32,
    func: &TacFunc,
    chains: &[Chain],
) -> Result<(), AllocError>
    requires good { HasGoodOps func.now }
    requires labels { AreLabels (length func.now.blocks) chains.now }
    requires straight { (l : ℕ) → GivesStraight places.now func.now (chain_at chains.now l) }
    requires positive { 0 < forming.old.next }
    ensures { OnOk result (GrownBy (drafted_labels places.now number func.now chains.now (upto (length func.now.blocks))) forming.old.next forming.old.all forming.new.next forming.new.all) }
{
    let heads = heads_of(alloc, func.blocks.len(), chains)?;
    for label in 0..func.blocks.len() {
        let chain = chain_of(chains, heads.as_slice(), label);
        form_chain(alloc, forming, places, number, func, chain)?;
    }
    Ok(())
}
