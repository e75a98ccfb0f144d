ghost use Rattle.std.specs.Prelude.{◌≡◌, ◌++◌, IfOk, length};
ghost use Rattle.tac_core.specs.Cover.{upto};
ghost use Rattle.tac_core.specs.Traces.{AreChains, apart};
ghost use Rattle.tail_dup.specs.Duplicated.{IsDuplicate, chains_with, origins_with};
ghost use Rattle.tail_dup.specs.Tables.{AreAllBlocks, AreWithin, AreTables, AreGiven, AreMade, AreAll, IsRebuilt};

use crate::before::blocks_before;
use crate::copies::{copied_blocks, copies_of, copy_labels};
use crate::entrances::side_entered;
use crate::led::led_block;
use sqlite_items::Items;
use std::alloc::{AllocError, Global};
use tac_core::{Block, Chain, TacFunc, number_at};

/// What is known of a function's blocks: the block before each in its chain, the copied ones in order, and the label of each
/// block's copy.
#[derive(Drop)]
struct Tables {
    before: Items<Option<u32>>,
    copied: Items<u32>,
    copies: Items<Option<u32>>,
}

/// A function's duplicate, its chains and the origins of its labels.
#[derive(Drop)]
pub(crate) struct Duplicate {
    pub func: TacFunc,
    pub chains: Items<Chain>,
    pub origins: Items<u32>,
}

fn tables_of(alloc: Global, func: &TacFunc, chains: &[Chain]) -> Result<Tables, AllocError>
    requires chained { AreChains func.now chains.now }
    requires targets { AreAllBlocks func.now.blocks }
    ensures { IfOk result (λ tables. AreTables func.now chains.now tables.before tables.copied tables.copies) }
{
    let blocks = func.blocks.as_slice();
    let before = blocks_before(alloc, blocks.len(), chains)?;
    let entered = side_entered(alloc, blocks, before.as_slice())?;
    let copied = copied_blocks(alloc, chains, entered.as_slice())?;
    let copies = copies_of(alloc, blocks.len(), copied.as_slice())?;
    Ok(Tables {
        before,
        copied,
        copies,
    })
}

/// The given blocks, with their edges led.
fn given_blocks(
    alloc: Global,
    blocks: &[Block],
    before: &[Option<u32>],
    copies: &[Option<u32>],
) -> Result<Items<Block>, AllocError>
    ensures { IfOk result (λ made. AreGiven blocks.now before.now copies.now (length blocks.now) made) }
{
    let mut made = Items::new(alloc);
    for i in 0..blocks.len() {
        let label = number_at(i)?;
        made.push(led_block(alloc, before, copies, Some(label), &blocks[i])?)?;
    }
    Ok(made)
}

/// The copies, with their edges led.
fn made_blocks(
    alloc: Global,
    blocks: &[Block],
    copied: &[u32],
    before: &[Option<u32>],
    copies: &[Option<u32>],
) -> Result<Items<Block>, AllocError>
    requires { AreWithin (length blocks.now) copied.now }
    ensures { IfOk result (λ made. AreMade blocks.now copied.now before.now copies.now (length copied.now) made) }
{
    let mut made = Items::new(alloc);
    for i in 0..copied.len() {
        let at = copied[i] as usize;
        made.push(led_block(alloc, before, copies, None, &blocks[at])?)?;
    }
    Ok(made)
}

fn all_blocks(
    alloc: Global,
    blocks: &[Block],
    copied: &[u32],
    before: &[Option<u32>],
    copies: &[Option<u32>],
) -> Result<Items<Block>, AllocError>
    requires { AreWithin (length blocks.now) copied.now }
    ensures { IfOk result (λ all. AreAll blocks.now copied.now before.now copies.now all) }
{
    let mut all = given_blocks(alloc, blocks, before, copies)?;
    let made = made_blocks(alloc, blocks, copied, before, copies)?;
    all.append(made)?;
    Ok(all)
}

fn rebuilt(
    alloc: Global,
    func: &TacFunc,
    copied: &[u32],
    before: &[Option<u32>],
    copies: &[Option<u32>],
) -> Result<TacFunc, AllocError>
    requires { AreWithin (length func.now.blocks) copied.now }
    ensures { IfOk result (λ made. IsRebuilt func.now copied.now before.now copies.now made) }
{
    let name = func.name.copy(alloc)?;
    let params = Items::from_slice(alloc, func.params.as_slice())?;
    let blocks = all_blocks(alloc, func.blocks.as_slice(), copied, before, copies)?;
    Ok(TacFunc {
        name,
        params,
        regs: func.regs,
        frame: func.frame,
        blocks,
    })
}

fn same_chains(alloc: Global, chains: &[Chain]) -> Result<Items<Chain>, AllocError>
    ensures { IfOk result (λ list. list ≡ chains.now) }
{
    let mut list = Items::new(alloc);
    for chain in chains {
        list.push(Chain::keep(Items::from_slice(alloc, chain.list())?))?;
    }
    Ok(list)
}

fn chains_apart(alloc: Global, labels: &[u32]) -> Result<Items<Chain>, AllocError>
    ensures { IfOk result (λ list. list ≡ apart labels.now) }
{
    let mut list = Items::new(alloc);
    for label in labels {
        list.push(Chain::keep(Items::from_slice(alloc, &[*label])?))?;
    }
    Ok(list)
}

/// The chains given, and behind them each of these labels as a chain by itself.
fn chains_behind(
    alloc: Global,
    chains: &[Chain],
    labels: &[u32],
) -> Result<Items<Chain>, AllocError>
    ensures { IfOk result (λ list. list ≡ chains.now ++ apart labels.now) }
{
    let mut list = same_chains(alloc, chains)?;
    list.append(chains_apart(alloc, labels)?)?;
    Ok(list)
}

fn own_labels(alloc: Global, blocks: usize) -> Result<Items<u32>, AllocError>
    ensures { IfOk result (λ labels. labels ≡ upto blocks) }
{
    let mut labels = Items::new(alloc);
    for label in 0..blocks {
        labels.push(number_at(label)?)?;
    }
    Ok(labels)
}

fn origins(alloc: Global, blocks: usize, copied: &[u32]) -> Result<Items<u32>, AllocError>
    ensures { IfOk result (λ list. list ≡ origins_with blocks copied.now) }
{
    let mut list = own_labels(alloc, blocks)?;
    list.append(Items::from_slice(alloc, copied)?)?;
    Ok(list)
}

/// The duplicate of a function.
pub(crate) fn duplicate_func(
    alloc: Global,
    func: &TacFunc,
    chains: &[Chain],
) -> Result<Duplicate, AllocError>
    requires chained { AreChains func.now chains.now }
    requires targets { AreAllBlocks func.now.blocks }
    ensures { IfOk result (λ made. IsDuplicate func.now chains.now made.func made.chains made.origins) }
{
    let tables = tables_of(alloc, func, chains)?;
    let blocks = func.blocks.len();
    let labels = copy_labels(alloc, blocks, tables.copied.len())?;
    let chains = chains_behind(alloc, chains, labels.as_slice())?;
    let origins = origins(alloc, blocks, tables.copied.as_slice())?;
    let func = rebuilt(
        alloc,
        func,
        tables.copied.as_slice(),
        tables.before.as_slice(),
        tables.copies.as_slice(),
    )?;
    Ok(Duplicate {
        func,
        chains,
        origins,
    })
}
