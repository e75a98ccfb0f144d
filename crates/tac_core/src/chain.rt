ghost use Rattle.std.specs.Prelude.{◌≡◌, ◌↔◌, None, slice_get, length, ◌≤◌};
ghost use Rattle.std.specs.Option.{option_copied};

use sqlite_items::Items;
use std::marker::Model;

/// Labels of blocks, one behind the other.
#[derive(Drop)]
pub struct Chain {
    list: Items<u32>,
}

impl Model for Chain {
    ghost use Rattle.std.specs.Prelude.{List, ℕ};

    ghost Value = { List ℕ };

    ghost view = { λ chain. chain.list };
}

impl Chain {
    pub fn keep(list: Items<u32>) -> Chain
        ensures { result ≡ list }
    {
        Chain { list }
    }

    pub fn list(&self) -> &[u32]
        ensures { result.now ≡ self.now }
    {
        self.list.as_slice()
    }
}

/// The chains of each function.
#[derive(Drop)]
pub struct Traces {
    funcs: Items<Items<Chain>>,
}

impl Model for Traces {
    ghost use Rattle.std.specs.Prelude.{List, ℕ};

    ghost Value = { List (List (List ℕ)) };

    ghost view = { λ traces. traces.funcs };
}

impl Traces {
    pub fn keep(funcs: Items<Items<Chain>>) -> Traces
        ensures { result ≡ funcs }
    {
        Traces { funcs }
    }

    /// The chains of a function, or `None` where there is no such function.
    pub fn chains(&self, func: u32) -> Option<&[Chain]>
        ensures value { option_copied result ≡ slice_get self.now func }
        ensures missing { (result ≡ None) ↔ (length self.now ≤ func) }
    {
        match sqlite_items::at(self.funcs.as_slice(), func as usize) {
            None => None,
            Some(chains) => Some(chains.as_slice()),
        }
    }
}
