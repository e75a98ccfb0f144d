ghost use Rattle.std.specs.Prelude.{◌≡◌, true, replicate, IfOk};
ghost use Rattle.wide_sim.specs.Ready.{AreBy};
ghost use Rattle.wide_sim.specs.Store.{held, holds, with_held};

use crate::store::Store;
use std::alloc::{AllocError, Global};
use std::marker::Model;
use wide_core::Loc;

/// When the registers and slots of a call are ready, and a time by which all of them are.
#[derive(Drop)]
pub struct Ready {
    times: Store<u64>,
    last: u64,
}

impl Model for Ready {
    ghost use Rattle.std.specs.Prelude.{ℕ};
    ghost use Rattle.wide_sim.specs.declared.store.Store.{Store};
    ghost use Rattle.wide_sim.specs.Ready.{AreBy};
    ghost use Rattle.wide_sim.specs.Store.{held};

    ghost Value = { Store ℕ };

    ghost view = { λ ready. ready.times };

    ghost invariant = { λ ready. AreBy (held 0 ready.times) ready.last };
}

impl Ready {
    /// All are ready from the start.
    #[tactic(auto, using(crate::proofs::Late::first_are_by))]
    pub(crate) fn first(alloc: Global, regs: usize, slots: usize) -> Result<Ready, AllocError>
        ensures regs { IfOk result (λ ready. ready.regs ≡ replicate regs 0) }
        ensures slots { IfOk result (λ ready. ready.slots ≡ replicate slots 0) }
    {
        let times = Store::filled(alloc, regs, slots, 0)?;
        Ok(Ready { times, last: 0 })
    }

    /// Whether all are known to be ready.
    pub(crate) fn are_by(&self, now: u64) -> bool
        ensures { result ≡ true → AreBy (held 0 self.now) now }
    {
        self.last <= now
    }

    pub(crate) fn get(&self, loc: Loc) -> u64
        requires { holds self.now loc ≡ true }
        ensures { result ≡ held 0 self.now loc }
    {
        self.times.get(loc)
    }

    #[tactic(auto, using(crate::proofs::Late::set_are_by))]
    pub(crate) fn set(&mut self, loc: Loc, time: u64)
        requires { holds self.old loc ≡ true }
        ensures { self.new ≡ with_held self.old loc time }
    {
        self.times.set(loc, time);
        if self.last < time {
            self.last = time;
        }
    }
}
