ghost use Rattle.std.specs.Prelude.{◌≡◌, ◌≤◌, ◌+◌, ◌-◌, ◌<◌, length, IfOk};
ghost use Rattle.plain_code.specs.Plain.{found_in, index, left_in, place};

use machine_desc::Machine;
use std::alloc::AllocError;
use wide_core::Loc;

/// So many of a machine's registers carry values of slots.
const CARRIERS: usize = 8;

/// So many slots a function of valid code may have.
const MOST_SLOTS: u32 = 1_048_576;

/// Where three-address registers live on a machine: those below `low` in its registers, the others in slots. Its
/// registers from `low` on carry the values of slots.
#[derive(Clone, Copy)]
pub(crate) struct Homes {
    pub(crate) low: u32,
    ghost small: { low ≤ 1048576 },
}

impl Homes {
    /// The homes on the machine `M`.
    pub(crate) fn of<M: Machine>() -> Homes
        ensures { result.low + 8 ≡ M.REGS }
    {
        Homes {
            low: (M::REGS - CARRIERS) as u32,
        }
    }

    /// Where a register lives.
    pub(crate) fn place(self, reg: u32) -> Loc
        ensures { result ≡ place self.low reg }
    {
        if reg < self.low {
            Loc::Reg(reg)
        } else {
            Loc::Slot(reg - self.low)
        }
    }

    /// The machine's register in which an operation with these sources finds one of them.
    pub(crate) fn found_in(self, sources: &[u32], reg: u32) -> u32
        requires { length sources.now ≤ 8 }
        ensures { result ≡ found_in self.low sources.now reg }
    {
        if reg < self.low {
            reg
        } else {
            self.low + index(sources, reg)
        }
    }

    /// The machine's register in which an operation leaves what it gives.
    pub(crate) fn left_in(self, reg: u32) -> u32
        ensures { result ≡ left_in self.low reg }
    {
        if reg < self.low { reg } else { self.low }
    }

    /// How many slots a function with so many registers needs, where valid code may have so many.
    pub(crate) fn slots(self, regs: u32) -> Result<u32, AllocError>
        ensures slots { IfOk result (λ slots. slots ≡ regs - self.low) }
        ensures few { IfOk result (λ slots. slots ≤ 1048576) }
    {
        let slots = regs.saturating_sub(self.low);
        if slots <= MOST_SLOTS {
            Ok(slots)
        } else {
            Err(AllocError)
        }
    }
}

fn index(sources: &[u32], reg: u32) -> u32
    requires { length sources.now ≤ 8 }
    ensures index { result ≡ index reg sources.now }
    ensures few { result ≤ 8 }
{
    let mut at = 0;
    for source in sources {
        if reg == *source {
            return at;
        }
        at += 1;
    }
    at
}
