ghost use Rattle.std.specs.Prelude.{◌≡◌, ◌+◌, IfOk};
ghost use Rattle.c_typed.specs.Values.{width_of};
ghost use Rattle.tac_lowered.specs.Code as c;
ghost use Rattle.tac_lowered.specs.Code.{◌⨾◌};
ghost use Rattle.tac_lowered.specs.Operators as o;
ghost use Rattle.tac_code.specs.Views.{boxed_of};

use crate::code::Code;
use crate::operators::{converted, cut, given_by, narrows, operated};
use crate::parts::{behind, both, does};
use c_typed::{Operation, ValueType};
use c_values::width_of;
use std::alloc::{AllocError, Global};

/// The operator that an assignment holds: the variable's type, the type that the operation works on, and the operation.
#[derive(Clone, Copy)]
pub struct Update {
    pub ty: ValueType,
    pub within: ValueType,
    pub op: Operation,
}

impl Update {
    /// What the operation gives of the old value in `x`, which is cut first, and of `y`.
    fn of_cut(
        self,
        alloc: Global,
        stmt: u32,
        to: u32,
        free: u32,
        x: u32,
        y: u32,
    ) -> Result<Box<Code>, AllocError>
        ensures { IfOk result (λ made. boxed_of made ≡ (c.does stmt (o.cut (width_of self.within) free x) ⨾ (o.operated self.op stmt (free + 1) (free + 2) free y ⨾ o.converted (o.given_by self.op) (width_of self.ty) stmt to (free + 1)))) }
    {
        let second = behind(free, 1)?;
        let third = behind(free, 2)?;
        let old = does(alloc, stmt, cut(width_of(self.within), free, x))?;
        let new = operated(alloc, self.op, stmt, second, third, free, y)?;
        let last = converted(
            alloc,
            given_by(self.op),
            width_of(self.ty),
            stmt,
            to,
            second,
        )?;
        let rest = both(alloc, new, last)?;
        both(alloc, old, rest)
    }

    /// What the operation gives, cut to the variable's type.
    fn then_cut(
        self,
        alloc: Global,
        stmt: u32,
        to: u32,
        free: u32,
        x: u32,
        y: u32,
    ) -> Result<Box<Code>, AllocError>
        ensures { IfOk result (λ made. boxed_of made ≡ (o.operated self.op stmt free (free + 1) x y ⨾ c.does stmt (o.cut (width_of self.ty) to free))) }
    {
        let second = behind(free, 1)?;
        let new = operated(alloc, self.op, stmt, free, second, x, y)?;
        let last = does(alloc, stmt, cut(width_of(self.ty), to, free))?;
        both(alloc, new, last)
    }

    /// What the operation gives of the old value in `x`, as the operation's type has it, and of `y`, in `to`, as the
    /// variable's type has it. Registers from `free` on are free.
    pub fn assigned(
        self,
        alloc: Global,
        stmt: u32,
        to: u32,
        free: u32,
        x: u32,
        y: u32,
    ) -> Result<Box<Code>, AllocError>
        ensures { IfOk result (λ made. boxed_of made ≡ o.assigned self.ty self.within self.op stmt to free x y) }
    {
        if narrows(width_of(self.ty), width_of(self.within)) {
            self.of_cut(alloc, stmt, to, free, x, y)
        } else if narrows(given_by(self.op), width_of(self.ty)) {
            self.then_cut(alloc, stmt, to, free, x, y)
        } else {
            operated(alloc, self.op, stmt, to, free, x, y)
        }
    }
}
