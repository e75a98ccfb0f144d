ghost use Rattle.std.specs.Prelude.{◌≡◌, [], not, is_some, IfOk, OnOk, OnErr};
ghost use Rattle.c_scopes.specs.Scopes.{meaning, with_name};

use indexmap::IndexMap;
use std::alloc::{AllocError, Global};
use std::marker::Model;

/// What the names of one scope mean, in the order of their declarations.
#[derive(Drop)]
pub struct Table<'a, T: Copy> {
    meanings: IndexMap<&'a [u8], T>,
}

impl<'a, T: Copy> Model for Table<'a, T> {
    ghost use Rattle.c_scopes.specs.Scopes.{Scope, scope_of};

    ghost Value = { Scope T };

    ghost view = { λ table. scope_of table.meanings.entries };
}

impl<'a, T: Copy> Table<'a, T> {
    pub fn new(alloc: Global) -> Table<'a, T>
        ensures { result ≡ [] }
    {
        Table {
            meanings: IndexMap::new(alloc),
        }
    }

    /// Forgets all names.
    pub fn clear(&mut self)
        ensures { self.new ≡ [] }
    {
        self.meanings.clear();
    }

    /// What a name means here.
    pub fn find(&self, name: &[u8]) -> Option<T>
        ensures { result ≡ meaning name.now self.now }
    {
        self.meanings.get(&name).copied()
    }

    /// Declares a name that is new, and says whether it is.
    pub fn declare(&mut self, name: &'a [u8], meant: T) -> Result<bool, AllocError>
        ensures new { IfOk result (λ new. new ≡ not (is_some (meaning name.now self.old))) }
        ensures names { OnOk result (self.new ≡ with_name name.now meant self.old) }
        ensures same { OnErr result (self.new ≡ self.old) }
    {
        if self.find(name).is_some() {
            return Ok(false);
        }
        self.meanings.insert(name, meant)?;
        Ok(true)
    }
}
