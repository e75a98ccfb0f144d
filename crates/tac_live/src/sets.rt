//! Registers that may be missing, and lists of them, into and out of a set.
ghost use Rattle.std.specs.Prelude.{◌≡◌, ◌≢◌, ◌↔◌, ◌*◌, ◌<◌, ◌⊎◌, ℕ, Some, length};
ghost use Rattle.std.specs.List.{All, Contains};
ghost use Rattle.ib_bits.specs.Bits.{Has};
ghost use Rattle.tac_core.specs.Rules.{IsRegister};

use ib_bits::BitSet;

pub fn insert_some(live: &mut BitSet, reg: Option<u32>)
    requires { IsRegister (64 * length live.old) reg }
    ensures holds { (r : ℕ) → Has live.new r ↔ ((reg ≡ Some r) ⊎ Has live.old r) }
    ensures size { length live.new ≡ length live.old }
{
    if let Some(reg) = reg {
        live.insert(reg);
    }
}

pub fn remove_some(live: &mut BitSet, reg: Option<u32>)
    ensures holds { (r : ℕ) → Has live.new r ↔ ((reg ≢ Some r) × Has live.old r) }
    ensures size { length live.new ≡ length live.old }
{
    if let Some(reg) = reg {
        live.remove(reg);
    }
}

pub fn insert_all(live: &mut BitSet, regs: &[u32])
    requires { All (λ r. r < 64 * length live.old) regs.now }
    ensures holds { (r : ℕ) → Has live.new r ↔ (Contains regs.now r ⊎ Has live.old r) }
    ensures size { length live.new ≡ length live.old }
{
    for reg in regs {
        live.insert(*reg);
    }
}
