ghost use Rattle.std.specs.Prelude.{◌≡◌, None, IfOk, length, replicate, slice_get};
ghost use Rattle.sb_form.specs.Heads.{AreHeads, AreLabels, IsLabel, chain_by, marked, told};

use sqlite_items::Items;
use std::alloc::{AllocError, Global};
use tac_core::Chain;

fn no_chains(alloc: Global, blocks: usize) -> Result<Items<Option<usize>>, AllocError>
    ensures { IfOk result (λ list. list ≡ replicate blocks None) }
{
    let mut list = Items::new(alloc);
    for _block in 0..blocks {
        list.push(None)?;
    }
    Ok(list)
}

/// Notes that a chain begins with its first label.
fn mark(heads: &mut Items<Option<usize>>, chain: &[u32], at: usize)
    requires { IsLabel (length heads.old) chain.now }
    ensures { heads.new ≡ marked heads.old chain.now at }
{
    if let [label, ..] = chain {
        heads.set(*label as usize, Some(at));
    }
}

/// By label the chain that begins with it.
pub(crate) fn heads_of(
    alloc: Global,
    blocks: usize,
    chains: &[Chain],
) -> Result<Items<Option<usize>>, AllocError>
    requires { AreLabels blocks chains.now }
    ensures { IfOk result (λ heads. AreHeads blocks chains.now 0 heads) }
{
    let mut heads = no_chains(alloc, blocks)?;
    let mut left = chains.len();
    while left > 0 {
        left -= 1;
        mark(&mut heads, chains[left].list(), left);
    }
    Ok(heads)
}

fn head_at(heads: &[Option<usize>], label: usize) -> Option<usize>
    ensures { result ≡ told (slice_get heads.now label) }
{
    match sqlite_items::at(heads, label) {
        None => None,
        Some(head) => *head,
    }
}

/// The chain of that number, an empty one where there is none.
fn chain_at(chains: &[Chain], at: Option<usize>) -> &[u32]
    ensures { result.now ≡ chain_by chains.now at }
{
    match at {
        None => &[],
        Some(at) => match sqlite_items::at(chains, at) {
            None => &[],
            Some(chain) => chain.list(),
        },
    }
}

/// The chain that begins with the label, an empty one where none does.
pub(crate) fn chain_of<'a>(chains: &'a [Chain], heads: &[Option<usize>], label: usize) -> &'a [u32]
    ensures { result.now ≡ chain_by chains.now (told (slice_get heads.now label)) }
{
    chain_at(chains, head_at(heads, label))
}
