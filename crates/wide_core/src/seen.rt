ghost use Rattle.std.specs.Prelude.{◌≡◌, ◌==◌, ◌++◌, ◌∷◌, [], true, not, IfOk, OnOk, bytes_eq, if◌then◌else◌};
ghost use Rattle.std.specs.List.{list_any};
ghost use Rattle.wide_core.specs.Places.{same_loc};

use crate::code::Loc;
use indexmap::IndexSet;
use std::alloc::{AllocError, Global};
use std::marker::Model;

/// The numbers of operations that were met, each once, in order.
#[derive(Drop)]
pub(crate) struct Numbers {
    numbers: IndexSet<u32>,
}

impl Model for Numbers {
    ghost use Rattle.std.specs.Prelude.{List, ℕ};

    ghost Value = { List ℕ };

    ghost view = { λ seen. seen.numbers.keys };
}

impl Numbers {
    pub fn new(alloc: Global) -> Numbers
        ensures { result ≡ [] }
    {
        Numbers {
            numbers: IndexSet::new(alloc),
        }
    }

    /// Adds a number, unless it is there, and says whether it was added.
    pub fn add(&mut self, number: u32) -> Result<bool, AllocError>
        ensures added { IfOk result (λ added. added ≡ not (list_any (λ other. number == other) self.old)) }
        ensures numbers { IfOk result (λ added. added ≡ true → self.new ≡ self.old ++ number ∷ []) }
    {
        let (_, added) = self.numbers.insert_full(number)?;
        Ok(added)
    }
}

/// The names of functions that were met, each once, in order.
#[derive(Drop)]
pub(crate) struct Names<'a> {
    names: IndexSet<&'a [u8]>,
}

impl<'a> Model for Names<'a> {
    ghost use Rattle.std.specs.Prelude.{List, ℕ, map};

    ghost Value = { List (List ℕ) };

    ghost view = { λ seen. map (λ name. name.now) seen.names.keys };
}

impl<'a> Names<'a> {
    pub fn new(alloc: Global) -> Names<'a>
        ensures { result ≡ [] }
    {
        Names {
            names: IndexSet::new(alloc),
        }
    }

    /// Adds a name, unless it is there, and says whether it was added.
    pub fn add(&mut self, name: &'a [u8]) -> Result<bool, AllocError>
        ensures added { IfOk result (λ added. added ≡ not (list_any (bytes_eq name.now) self.old)) }
        ensures names { IfOk result (λ added. added ≡ true → self.new ≡ self.old ++ name.now ∷ []) }
    {
        let (_, added) = self.names.insert_full(name)?;
        Ok(added)
    }
}

/// The places that were met, each once, in order.
#[derive(Drop)]
pub(crate) struct Places {
    places: IndexSet<Loc>,
}

impl Model for Places {
    ghost use Rattle.std.specs.Prelude.{List};
    ghost use Rattle.wide_core.specs.declared.code.Loc.{Loc};

    ghost Value = { List Loc };

    ghost view = { λ seen. seen.places.keys };
}

impl Places {
    pub fn new(alloc: Global) -> Places
        ensures { result ≡ [] }
    {
        Places {
            places: IndexSet::new(alloc),
        }
    }

    /// Adds a place, unless it is there, and says whether it was added.
    pub fn add(&mut self, loc: Loc) -> Result<bool, AllocError>
        ensures added { IfOk result (λ added. added ≡ not (list_any (same_loc loc) self.old)) }
        ensures places { IfOk result (λ added. added ≡ true → self.new ≡ self.old ++ loc ∷ []) }
    {
        let (_, added) = self.places.insert_full(loc)?;
        Ok(added)
    }
}
