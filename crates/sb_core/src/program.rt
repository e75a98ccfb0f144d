use crate::superblock::Superblock;
use sqlite_items::Items;
use std::marker::Model;
use tac_core::Copied;

/// A copied program in superblocks, by function and rising head.
#[derive(Drop)]
pub struct SbProgram {
    copied: Copied,
    all: Items<Superblock>,
}

impl Model for SbProgram {
    ghost use Rattle.sb_core.specs.Facts.{AreSuperblocks};
    ghost use Rattle.sb_core.specs.Program.{SuperblockProgram};

    ghost Value = { SuperblockProgram };

    ghost view = { λ p. record { copied = p.copied; all = p.all } };

    ghost invariant = { λ p. AreSuperblocks p.copied.tac.funcs p.all };
}

impl SbProgram {
    ghost use Rattle.std.specs.Prelude.{◌≡◌};
    ghost use Rattle.sb_core.specs.Facts.{AreSuperblocks};

    pub fn keep(copied: Copied, all: Items<Superblock>) -> SbProgram
        requires { AreSuperblocks copied.tac.funcs all }
        ensures { result ≡ record { copied = copied; all = all } }
    {
        SbProgram { copied, all }
    }

    pub fn copied(&self) -> &Copied
        ensures value { result.now ≡ self.now.copied }
        ensures superblocks { AreSuperblocks self.now.copied.tac.funcs self.now.all }
    {
        &self.copied
    }

    /// The superblocks of the first function by rising head, then those of the next.
    pub fn all(&self) -> &[Superblock]
        ensures value { result.now ≡ self.now.all }
        ensures superblocks { AreSuperblocks self.now.copied.tac.funcs self.now.all }
    {
        self.all.as_slice()
    }
}
