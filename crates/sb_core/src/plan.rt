ghost use Rattle.std.specs.Prelude.{◌≡◌};

use sqlite_items::Items;
use std::marker::Model;

/// The chain of reports and effects of a superblock: the numbers of its members in order, a check by its own.
#[derive(Drop)]
pub struct Plan {
    chain: Items<u32>,
}

impl Model for Plan {
    ghost use Rattle.std.specs.Prelude.{List, ℕ};

    ghost Value = { List ℕ };

    ghost view = { λ plan. plan.chain };
}

impl Plan {
    pub fn keep(chain: Items<u32>) -> Plan
        ensures { result ≡ chain }
    {
        Plan { chain }
    }

    pub fn chain(&self) -> &[u32]
        ensures { result.now ≡ self.now }
    {
        self.chain.as_slice()
    }
}
