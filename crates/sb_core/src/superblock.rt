use sqlite_items::Items;
use std::marker::Model;
use wide_core::WideOp;

/// The items of a superblock in source order. Its registers are without bound, and its targets are labels of its function.
#[derive(Drop)]
pub struct Superblock {
    func: u32,
    head: u32,
    items: Items<WideOp>,
}

impl Model for Superblock {
    ghost use Rattle.sb_core.specs.Facts.{IsStraight};
    ghost use Rattle.sb_core.specs.Program.{SuperblockCode};

    ghost Value = { SuperblockCode };

    ghost view = { λ b. record { func = b.func; head = b.head; items = b.items } };

    ghost invariant = { λ b. IsStraight b.items };
}

impl Superblock {
    ghost use Rattle.std.specs.Prelude.{◌≡◌};
    ghost use Rattle.sb_core.specs.Facts.{IsStraight};

    pub fn keep(func: u32, head: u32, items: Items<WideOp>) -> Superblock
        requires { IsStraight items }
        ensures { result ≡ record { func = func; head = head; items = items } }
    {
        Superblock { func, head, items }
    }

    /// The number of its function.
    pub fn func(&self) -> u32
        ensures { result ≡ self.now.func }
    {
        self.func
    }

    /// The label at which control enters it.
    pub fn head(&self) -> u32
        ensures { result ≡ self.now.head }
    {
        self.head
    }

    pub fn items(&self) -> &[WideOp]
        ensures value { result.now ≡ self.now.items }
        ensures straight { IsStraight self.now.items }
    {
        self.items.as_slice()
    }
}
