ghost use Rattle.std.specs.Prelude.{◌≡◌, ◌<◌, ◌^◌, ℕ, length, true, IfOk, replicate, slice_get};
ghost use Rattle.wide_sim.specs.Store.{held, holds, with_held};

use sqlite_items::{Items, at};
use std::alloc::{AllocError, Global};
use wide_core::Loc;

/// One thing for each register and slot of a call.
#[derive(Drop)]
pub struct Store<T> {
    pub regs: Items<T>,
    pub slots: Items<T>,
}

impl<T: Copy + Drop> Store<T> {
    pub fn filled(alloc: Global, regs: usize, slots: usize, item: T) -> Result<Store<T>, AllocError>
        ensures regs { IfOk result (λ store. store.regs ≡ replicate regs item) }
        ensures slots { IfOk result (λ store. store.slots ≡ replicate slots item) }
    {
        Ok(Store {
            regs: repeated(alloc, regs, item)?,
            slots: repeated(alloc, slots, item)?,
        })
    }

    pub fn get(&self, loc: Loc) -> T
        requires { holds self.now loc ≡ true }
        ensures { (d : T) → result ≡ held d self.now loc }
    {
        match loc {
            Loc::Reg(reg) => self.regs.as_slice()[reg as usize],
            Loc::Slot(slot) => self.slots.as_slice()[slot as usize],
        }
    }

    pub fn reg(&self, reg: u32) -> Option<T>
        ensures { result ≡ slice_get self.now.regs reg }
    {
        at(self.regs.as_slice(), reg as usize).copied()
    }

    pub fn set(&mut self, loc: Loc, item: T)
        requires { holds self.old loc ≡ true }
        ensures { self.new ≡ with_held self.old loc item }
    {
        match loc {
            Loc::Reg(reg) => self.regs.set(reg as usize, item),
            Loc::Slot(slot) => self.slots.set(slot as usize, item),
        }
    }
}

fn repeated<T: Copy + Drop>(alloc: Global, count: usize, item: T) -> Result<Items<T>, AllocError>
    ensures { IfOk result (λ items. items ≡ replicate count item) }
{
    let mut items = Vec::new(alloc);
    items.resize(count, item)?;
    Ok(Items::from_vec(items))
}
