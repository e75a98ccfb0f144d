ghost use Rattle.std.specs.Prelude.{◌≡◌, IfOk};
ghost use Rattle.std.specs.List.{All};
ghost use Rattle.wide_plain.specs.Emitted.{AreStarts, PassesFew, word_of};

use crate::homes::Homes;
use sqlite_items::Items;
use std::alloc::{AllocError, Global};
use tac_core::Block;

/// The first word of each of a function's labels, and the word behind them all.
#[derive(Drop)]
pub(crate) struct Starts {
    pub(crate) of: Items<u32>,
    pub(crate) behind: u32,
}

impl Starts {
    /// The table of these blocks. Words have numbers of 32 bits; what would need more finds no memory.
    pub(crate) fn of_blocks(
        alloc: Global,
        homes: Homes,
        blocks: &[Block],
    ) -> Result<Starts, AllocError>
        requires { All PassesFew blocks.now }
        ensures { IfOk result (AreStarts homes.low blocks.now) }
    {
        let mut of = Items::new(alloc);
        let mut behind = 0;
        for block in blocks {
            of.push(behind)?;
            behind = homes.behind_block(behind, block)?;
        }
        Ok(Starts { of, behind })
    }

    /// The first word of a label.
    pub(crate) fn word_of(&self, label: u32) -> u32
        ensures { result ≡ word_of self.now label }
    {
        match sqlite_items::at(self.of.as_slice(), label as usize) {
            None => self.behind,
            Some(word) => *word,
        }
    }
}
