ghost use Rattle.std.specs.Prelude.{◌≡◌, IfOk};

use smallvec::SmallVec;
use std::alloc::{AllocError, Global};
use std::marker::Model;

/// The registers that a call passes. Few need no allocation.
#[derive(Drop)]
pub struct Regs {
    list: SmallVec<u32, 4>,
}

impl Model for Regs {
    ghost use Rattle.std.specs.Prelude.{List, ℕ};

    ghost Value = { List ℕ };

    ghost view = { λ regs. regs.list.items };
}

impl Regs {
    pub fn keep(list: SmallVec<u32, 4>) -> Regs
        ensures { result ≡ list.items }
    {
        Regs { list }
    }

    pub fn list(&self) -> &[u32]
        ensures { result.now ≡ self.now }
    {
        self.list.as_slice()
    }

    pub fn copy(&self, alloc: Global) -> Result<Regs, AllocError>
        ensures { IfOk result (λ regs. regs ≡ self.now) }
    {
        let list = SmallVec::from_slice(alloc, self.list())?;
        Ok(Regs { list })
    }
}
