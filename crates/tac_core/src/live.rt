use ib_bits::BitSet;
use sqlite_items::Items;
use std::marker::Model;

/// The registers that are live at the start of each block: a set for each label of each function.
#[derive(Drop)]
pub struct Live {
    funcs: Items<Items<BitSet>>,
}

impl Model for Live {
    ghost use Rattle.std.specs.Prelude.{List, ℕ};

    ghost Value = { List (List (List ℕ)) };

    ghost view = { λ live. live.funcs };
}

impl Live {
    ghost use Rattle.std.specs.Prelude.{◌≡◌, ◌↔◌, IsTrue};
    ghost use Rattle.tac_core.specs.Live.{IsAt};

    pub fn keep(funcs: Items<Items<BitSet>>) -> Live
        ensures { result ≡ funcs }
    {
        Live { funcs }
    }

    /// Whether the sets hold the register at the block.
    pub fn at(&self, func: u32, label: u32, reg: u32) -> bool
        ensures { IsTrue result ↔ IsAt self.now func label reg }
    {
        match sqlite_items::at(self.funcs.as_slice(), func as usize) {
            None => false,
            Some(labels) => match sqlite_items::at(labels.as_slice(), label as usize) {
                None => false,
                Some(set) => set.contains(reg),
            },
        }
    }
}
