use crate::frame::Suspended;
use std::alloc::{AllocError, Global};
use std::marker::Model;

/// So many calls may wait.
const ROOM: usize = 4096;

/// The calls that wait for the one at hand, the last to have come first. They have room from the start, so that a call
/// takes memory for its own registers and slots alone.
#[derive(Drop)]
pub struct Callers {
    items: Vec<Suspended>,
}

impl Model for Callers {
    ghost use Rattle.std.specs.Prelude.{◌≤◌, List, reverse, vec_capacity};
    ghost use Rattle.wide_sim.specs.declared.frame.Suspended.{Suspended};

    ghost Value = { List Suspended };

    ghost view = { λ callers. reverse callers.items.items };

    ghost invariant = { λ callers. 4096 ≤ vec_capacity callers.items };
}

impl Callers {
    ghost use Rattle.std.specs.Prelude.{◌≡◌, ◌<◌, [], ◌∷◌, length, IfOk, MatchOption};

    pub fn new(alloc: Global) -> Result<Callers, AllocError>
        ensures { IfOk result (λ callers. callers ≡ []) }
    {
        Ok(Callers {
            items: Vec::with_capacity(alloc, ROOM)?,
        })
    }

    /// How many wait.
    pub fn len(&self) -> usize
        ensures { result ≡ length self.now }
    {
        self.items.len()
    }

    pub fn push(&mut self, caller: Suspended)
        requires { length self.old < 4096 }
        ensures { self.new ≡ caller ∷ self.old }
    {
        self.items.push_reserved(caller);
    }

    /// Takes the last that has come.
    pub fn pop(&mut self) -> Option<Suspended>
        ensures { MatchOption result ((self.old ≡ []) × (self.new ≡ [])) (λ last. self.old ≡ last ∷ self.new) }
    {
        self.items.pop()
    }
}
