ghost use Rattle.std.specs.Prelude.{◌≡◌, ◌++◌, ◌&&◌, not, true, [], ◌∷◌, suc, List, IfOk};
ghost use Rattle.dep_graph.specs.Carriers.{AreBehind, backwards, has, through};
ghost use Rattle.sb_core.specs.Chain.{chain};
ghost use Rattle.wide_core.specs.Classes.{is_register, traps};
ghost use Rattle.wide_core.specs.Uses.{reads, written};
ghost use Rattle.wide_core.specs.declared.code.WideOp.{WideOp};

use crate::carriers::{has, through};
use crate::uses::{reads, written};
use sb_core::{Item, Plan, Superblock, traps};
use sqlite_items::Items;
use std::alloc::{AllocError, Global};

/// The chain of what stands behind, its last member first, and the registers of which its first member reads a carrier.
#[derive(Drop)]
struct Behind {
    chain: Items<u32>,
    carriers: Items<u32>,
}

/// A member of the chain.
fn member(alloc: Global, item: &Item, behind: Behind) -> Result<Behind, AllocError>
    ensures { IfOk result (λ new. (new.chain ≡ behind.chain ++ item.now.number ∷ []) × (new.carriers ≡ reads item.now.act)) }
{
    let Behind {
        mut chain,
        carriers,
    } = behind;
    drop(carriers);
    chain.push(item.number)?;
    let carriers = reads(alloc, &item.act)?;
    Ok(Behind { chain, carriers })
}

/// A register operation whose check is a member.
fn checked(alloc: Global, item: &Item, behind: Behind) -> Result<Behind, AllocError>
    ensures { IfOk result (λ new. (new.chain ≡ behind.chain ++ suc item.now.number ∷ []) × (new.carriers ≡ reads item.now.act)) }
{
    let Behind {
        mut chain,
        carriers,
    } = behind;
    drop(carriers);
    let number = item.number.checked_add(1).ok_or(AllocError)?;
    chain.push(number)?;
    let carriers = reads(alloc, &item.act)?;
    Ok(Behind { chain, carriers })
}

/// A register operation without a check.
fn passed(alloc: Global, item: &Item, behind: Behind) -> Result<Behind, AllocError>
    ensures { IfOk result (λ new. (new.chain ≡ behind.chain) × (new.carriers ≡ through (written item.now.act) (reads item.now.act) behind.carriers)) }
{
    let Behind { chain, carriers } = behind;
    let from = reads(alloc, &item.act)?;
    let carriers = through(alloc, written(&item.act), from, carriers)?;
    Ok(Behind { chain, carriers })
}

/// Whether no member behind reads a carrier of what the item gives.
fn needs_check(item: &Item, carriers: &[u32]) -> bool
    ensures { result ≡ (traps item.now.act && not (has (written item.now.act) carriers.now)) }
{
    traps(&item.act) && !has(carriers, written(&item.act))
}

fn step_register(alloc: Global, item: &Item, behind: Behind) -> Result<Behind, AllocError>
    requires { is_register item.now.act ≡ true }
    ensures { IfOk result (λ new. (items : List WideOp) → AreBehind items behind.chain behind.carriers → AreBehind (item.now ∷ items) new.chain new.carriers) }
{
    let check = needs_check(item, behind.carriers.as_slice());
    if check {
        return checked(alloc, item, behind);
    }
    passed(alloc, item, behind)
}

fn step(alloc: Global, item: &Item, behind: Behind) -> Result<Behind, AllocError>
    ensures { IfOk result (λ new. (items : List WideOp) → AreBehind items behind.chain behind.carriers → AreBehind (item.now ∷ items) new.chain new.carriers) }
{
    let register = item.act.is_register();
    if register {
        return step_register(alloc, item, behind);
    }
    member(alloc, item, behind)
}

fn reversed(alloc: Global, list: &[u32]) -> Result<Items<u32>, AllocError>
    ensures { IfOk result (λ back. back ≡ backwards list.now) }
{
    let mut back = Items::new(alloc);
    let mut left = list.len();
    while left > 0 {
        left -= 1;
        back.push(list[left])?;
    }
    Ok(back)
}

fn behind_all(alloc: Global, items: &[Item]) -> Result<Behind, AllocError>
    ensures { IfOk result (λ behind. AreBehind items.now behind.chain behind.carriers) }
{
    let mut behind = Behind {
        chain: Items::new(alloc),
        carriers: Items::new(alloc),
    };
    let mut left = items.len();
    while left > 0 {
        left -= 1;
        behind = step(alloc, &items[left], behind)?;
    }
    Ok(behind)
}

/// The chain of the superblock, with the checks that no member stands in for.
pub fn plan(alloc: Global, superblock: &Superblock) -> Result<Plan, AllocError>
    ensures { IfOk result (λ plan. plan ≡ chain superblock.now.items) }
{
    let behind = behind_all(alloc, superblock.items())?;
    let chain = reversed(alloc, behind.chain.as_slice())?;
    Ok(Plan::keep(chain))
}
