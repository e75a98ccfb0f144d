use std::alloc::{AllocFailed, Global};
use std::marker::Model;

/// The arguments of a call, the last to have come first.
#[derive(Drop)]
pub(crate) struct Arguments {
    values: Vec<i64>,
}

impl Model for Arguments {
    ghost use Rattle.std.specs.Prelude.{List, ℤ, reverse};

    ghost Value = { List ℤ };

    ghost view = { λ a. reverse a.values.items };
}

impl Arguments {
    ghost use Rattle.std.specs.Prelude.{◌≡◌, [], ◌∷◌, OnOk, OnErr, MatchOption};

    pub(crate) fn new(alloc: Global) -> Arguments
        ensures { result ≡ [] }
    {
        Arguments {
            values: Vec::new(alloc),
        }
    }

    pub(crate) fn push(&mut self, value: i64) -> Result<(), AllocFailed<i64>>
        ensures ok { OnOk result (self.new ≡ value ∷ self.old) }
        ensures err { OnErr result (self.new ≡ self.old) }
    {
        self.values.push(value)
    }

    /// Takes the last that has come.
    pub(crate) fn pop(&mut self) -> Option<i64>
        ensures { MatchOption result ((self.old ≡ []) × (self.new ≡ [])) (λ last. self.old ≡ last ∷ self.new) }
    {
        self.values.pop()
    }

    pub(crate) fn clear(&mut self)
        ensures { self.new ≡ [] }
    {
        self.values.clear();
    }
}
