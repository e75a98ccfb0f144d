ghost use Rattle.std.specs.Prelude.{◌≡◌, ◌+◌, [], ◌∷◌, IfOk, OnOk};
ghost use Rattle.sb_order.specs.Order.{InRange};
ghost use Rattle.sb_form.specs.Growing.{Grown, taken};

use ib_base::Place;
use sb_core::traps;
use sqlite_items::Items;
use std::alloc::{AllocError, Global};
use wide_core::{WideAct, WideOp};

/// Items that are numbered one after the other, and the number of the next.
#[derive(Drop)]
pub(crate) struct Numbered {
    pub items: Items<WideOp>,
    pub next: u32,
}

/// How many numbers an operation takes: its own and, where it traps, that of its check.
fn numbers_of(act: &WideAct) -> u32
    ensures { result ≡ taken act.now }
{
    if traps(act) { 2 } else { 1 }
}

fn number_behind(number: u32, act: &WideAct) -> Result<u32, AllocError>
    ensures { IfOk result (λ next. next ≡ number + taken act.now) }
{
    number.checked_add(numbers_of(act)).ok_or(AllocError)
}

impl Numbered {
    /// Appends an item. The number behind a trapping operation is left free.
    pub(crate) fn push(&mut self, home: Place, act: WideAct) -> Result<(), AllocError>
        requires { InRange act }
        ensures { OnOk result (Grown (record { home = home; act = act } ∷ []) self.old.next self.old.items self.new.next self.new.items) }
    {
        let flagged = act.is_register();
        let Ok(next) = number_behind(self.next, &act) else {
            drop(act);
            return Err(AllocError);
        };
        let number = self.next;
        self.items.push(WideOp {
            number,
            home,
            flagged,
            act,
        })?;
        self.next = next;
        Ok(())
    }
}
