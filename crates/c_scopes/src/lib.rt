//! The scopes of a block-structured language.
#![tactic(auto)]

mod table;

ghost use Rattle.std.specs.Prelude.{◌≡◌, not, IfOk, OnErr, OnOk, reverse};
ghost use Rattle.c_scopes.specs.Scopes.{declared, entered, first_meaning, found, is_own, left, outermost};

use std::alloc::{AllocError, Global};
use std::marker::Model;
use std::mem;
pub use table::Table;

/// What names mean where scopes are open. A name is looked up in one table for each open scope.
#[derive(Drop)]
pub struct Scopes<'a, T: Copy> {
    innermost: Table<'a, T>,
    around: Vec<Table<'a, T>>,
}

impl<'a, T: Copy> Model for Scopes<'a, T> {
    ghost use Rattle.std.specs.Prelude.{reverse};
    ghost use Rattle.c_scopes.specs.Scopes as s;

    ghost Value = { s.Scopes T };

    ghost view = { λ scopes. record { innermost = scopes.innermost; around = reverse scopes.around.items } };
}

impl<'a, T: Copy> Scopes<'a, T> {
    /// The outermost scope, which is always open.
    pub fn new(alloc: Global) -> Scopes<'a, T>
        ensures { result ≡ outermost }
    {
        Scopes {
            innermost: Table::new(alloc),
            around: Vec::new(alloc),
        }
    }

    /// Opens a scope within the innermost.
    pub fn enter(&mut self, alloc: Global) -> Result<(), AllocError>
        ensures { OnOk result (self.new ≡ entered self.old) }
    {
        let before = mem::replace(&mut self.innermost, Table::new(alloc));
        self.around.push(before)?;
        Ok(())
    }

    /// Closes the innermost scope. The outermost stays open, without its names.
    pub fn leave(&mut self)
        ensures { self.new ≡ left self.old }
    {
        match self.around.pop() {
            Some(scope) => drop(mem::replace(&mut self.innermost, scope)),
            None => self.innermost.clear(),
        }
    }

    /// What a name means: what the innermost scope says that declares it.
    pub fn find(&self, name: &[u8]) -> Option<T>
        ensures { result ≡ found name.now self.now }
    {
        match self.innermost.find(name) {
            Some(meant) => Some(meant),
            None => find_in(&self.around, name),
        }
    }

    /// Declares a name in the innermost scope, and says whether the name is new there. A name that
    /// is not new keeps its meaning.
    pub fn declare(&mut self, name: &'a [u8], meant: T) -> Result<bool, AllocError>
        ensures new { IfOk result (λ new. new ≡ not (is_own name.now self.old)) }
        ensures names { OnOk result (self.new ≡ declared name.now meant self.old) }
        ensures same { OnErr result (self.new ≡ self.old) }
    {
        self.innermost.declare(name, meant)
    }
}

// The last table is the innermost scope of these.
fn find_in<T: Copy>(tables: &[Table<'_, T>], name: &[u8]) -> Option<T>
    ensures { result ≡ first_meaning name.now (reverse tables.now) }
{
    let Some((innermost, around)) = tables.split_last() else {
        return None;
    };
    match innermost.find(name) {
        Some(meant) => Some(meant),
        None => find_in(around, name),
    }
}
