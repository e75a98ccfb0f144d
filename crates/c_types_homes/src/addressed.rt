ghost use Rattle.std.specs.Prelude.{◌≡◌, [], ◌∷◌, ◌++◌, OnOk};
ghost use Rattle.c_scopes.specs.Scopes.{declared, entered, found, left, outermost};
ghost use Rattle.c_types_homes.specs.Addressed.{number_in};
ghost use Rattle.c_types_homes.specs.Walking.{Seen, Walks};

use c_layout::Shape;
use c_scopes::Scopes;
use ib_base::Text;
use sqlite_items::Items;
use std::alloc::{AllocError, Global};
use std::marker::Model;

/// A walk through a function: the variables that it declares, and the numbers of those whose
/// address it takes.
#[derive(Drop)]
pub(crate) struct Walk<'a> {
    alloc: Global,
    names: Scopes<'a, u32>,
    next: u32,
    shapes: Items<Shape>,
    taken: Items<u32>,
}

impl<'a> Model for Walk<'a> {
    ghost use Rattle.c_types_homes.specs.Walking.{Seen};

    ghost Value = { Seen };

    ghost view = { λ walk. record { names = walk.names; next = walk.next; shapes = walk.shapes; taken = walk.taken } };
}

impl<'a> Walk<'a> {
    /// A walk that begins in the outermost scope of a function.
    pub(crate) fn new(alloc: Global) -> Walk<'a>
        ensures { result ≡ record { names = outermost; next = 0; shapes = []; taken = [] } }
    {
        Walk {
            alloc,
            names: Scopes::new(alloc),
            next: 0,
            shapes: Items::new(alloc),
            taken: Items::new(alloc),
        }
    }

    /// The variables, and those whose address was taken.
    pub(crate) fn finish(self) -> (Items<Shape>, Items<u32>)
        ensures { result ≡ (self.entry.shapes, self.entry.taken) }
    {
        (self.shapes, self.taken)
    }

    pub(crate) fn enter(&mut self) -> Result<(), AllocError>
        ensures { OnOk result (Walks self.old self.new (entered self.old.names) [] []) }
    {
        self.names.enter(self.alloc)
    }

    pub(crate) fn leave(&mut self)
        ensures { Walks self.old self.new (left self.old.names) [] [] }
    {
        self.names.leave();
    }

    /// A variable without a name.
    pub(crate) fn add(&mut self, shape: Shape) -> Result<(), AllocError>
        ensures { OnOk result (Walks self.old self.new self.old.names (shape ∷ []) []) }
    {
        self.next = self.next.checked_add(1).ok_or(AllocError)?;
        self.shapes.push(shape)
    }

    pub(crate) fn declare(&mut self, name: &'a Text, shape: Shape) -> Result<(), AllocError>
        ensures { OnOk result (Walks self.old self.new (declared name.now self.old.next self.old.names) (shape ∷ []) []) }
    {
        self.names.declare(name.list(), self.next)?;
        self.add(shape)
    }

    /// Takes the address of the variable that a name means.
    pub(crate) fn take(&mut self, name: &Text) -> Result<(), AllocError>
        ensures { OnOk result (Walks self.old self.new self.old.names [] (number_in (found name.now self.old.names))) }
    {
        match self.names.find(name.list()) {
            Some(number) => self.taken.push(number),
            None => Ok(()),
        }
    }
}
