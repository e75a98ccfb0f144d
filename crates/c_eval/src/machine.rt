ghost use Rattle.std.specs.Prelude.{◌≡◌, pos, slice_index_or, unwrap_or, IfOk, OnOk};
ghost use Rattle.std.specs.Option.{MatchOption};
ghost use Rattle.c_typed.specs.Views.{expr_of};
ghost use Rattle.c_eval.specs.Pending as p;
ghost use Rattle.c_eval.specs.Pending.{Machine as Plain, Goes};
ghost use Rattle.c_eval.specs.Machines.{machine_of};
ghost use Rattle.c_eval.specs.Moves as m;
ghost use Rattle.c_eval.specs.Views.{frame_of, task_of, move_of};

use crate::arguments::Arguments;
use crate::frame::{Frame, Move, Task};
use c_typed::{Expr, ValueType};
use c_values::{converted, size_of, width_of};
use ib_base::{FaultKind, wrap};
use ib_mem::Memory;
use ib_run::Stack;
use sqlite_items::Items;
use std::alloc::AllocError;

/// A run: what waits, the call at hand with its frame and its environment, and the memory.
#[derive(Drop)]
pub(crate) struct Machine<'a> {
    pub frames: Stack<Frame<'a>>,
    pub arguments: Arguments,
    pub depth: u32,
    pub base: u32,
    pub top: u32,
    pub slots: Items<i64>,
    pub memory: Memory,
}

pub(crate) fn give<'a>(value: i64) -> Move<'a>
    ensures { result ≡ Move.Goes (Task.Give value) }
{
    Move::Goes {
        task: Task::Give { value },
    }
}

/// A value, or its fault.
pub(crate) fn given_or<'a>(value: Result<i64, FaultKind>, number: u32) -> Move<'a>
    ensures { (machine : Plain) → move_of result machine ≡ m.given_or value number machine }
{
    match value {
        Ok(value) => give(value),
        Err(kind) => Move::Faults { number, kind },
    }
}

impl<'a> Machine<'a> {
    /// Something waits for what comes.
    pub(crate) fn push(&mut self, frame: Frame<'a>) -> Result<(), AllocError>
        ensures { OnOk result (machine_of self.new ≡ m.push (frame_of frame.entry) (machine_of self.old)) }
    {
        self.frames.push(frame)?;
        Ok(())
    }

    /// A task, while something waits for what it gives.
    pub(crate) fn wait(&mut self, frame: Frame<'a>, task: Task<'a>) -> Result<Move<'a>, AllocError>
        ensures { IfOk result (λ r. move_of r (machine_of self.new) ≡ Goes (task_of task.entry) (m.push (frame_of frame.entry) (machine_of self.old))) }
    {
        self.push(frame)?;
        Ok(Move::Goes { task })
    }

    /// An expression is evaluated, while something waits for its value.
    pub(crate) fn operand(
        &mut self,
        frame: Frame<'a>,
        expr: &'a Expr,
        number: u32,
    ) -> Result<Move<'a>, AllocError>
        ensures { IfOk result (λ r. move_of r (machine_of self.new) ≡ Goes (p.eval (expr_of expr.now) number) (m.push (frame_of frame.entry) (machine_of self.old))) }
    {
        self.wait(frame, Task::Eval { expr, number })
    }

    /// The number in a variable of the environment.
    pub(crate) fn slot(&self, slot: u32) -> i64
        ensures { result ≡ slice_index_or self.now.slots slot (pos 0) }
    {
        match self.slots.as_slice().get(slot as usize) {
            Some(value) => *value,
            None => 0,
        }
    }

    pub(crate) fn set_slot(&mut self, slot: u32, value: i64)
        ensures { (machine_of self.new) ≡ m.with_slot slot value (machine_of self.old) }
    {
        if (slot as usize) < self.slots.len() {
            self.slots.set(slot as usize, value);
        }
    }

    /// Sets a variable to the converted value, and gives `given`, or what was set.
    pub(crate) fn set_or(
        &mut self,
        value: Result<i64, FaultKind>,
        ty: ValueType,
        slot: u32,
        given: Option<i64>,
        number: u32,
    ) -> Move<'a>
        ensures { move_of result (machine_of self.new) ≡ m.set_or value ty slot (λ new. unwrap_or given new) number (machine_of self.old) }
    {
        match value {
            Ok(value) => {
                let new = converted(ty, value);
                self.set_slot(slot, new);
                give(given.unwrap_or(new))
            }
            Err(kind) => Move::Faults { number, kind },
        }
    }

    /// The value at an address.
    pub(crate) fn read(&self, ty: ValueType, address: i64) -> Result<i64, FaultKind>
        ensures { result ≡ m.read ty address (machine_of self.now) }
    {
        match self.memory.load(address, size_of(ty)) {
            Some(number) => Ok(wrap(width_of(ty), i128::from(number))),
            None => Err(FaultKind::BadAddress),
        }
    }

    /// Stores a value, and gives `given`.
    pub(crate) fn store(
        &mut self,
        ty: ValueType,
        address: i64,
        value: i64,
        given: i64,
        number: u32,
    ) -> Move<'a>
        ensures { move_of result (machine_of self.new) ≡ m.store ty address value given number (machine_of self.old) }
    {
        if self
            .memory
            .store(address, size_of(ty), value.cast_unsigned())
        {
            give(given)
        } else {
            Move::Faults {
                number,
                kind: FaultKind::BadAddress,
            }
        }
    }

    /// Stores the converted value, and gives `given`, or what was stored.
    pub(crate) fn store_or(
        &mut self,
        value: Result<i64, FaultKind>,
        ty: ValueType,
        address: i64,
        given: Option<i64>,
        number: u32,
    ) -> Move<'a>
        ensures { move_of result (machine_of self.new) ≡ m.store_or value ty address (λ new. unwrap_or given new) number (machine_of self.old) }
    {
        match value {
            Ok(value) => {
                let new = converted(ty, value);
                self.store(ty, address, new, given.unwrap_or(new), number)
            }
            Err(kind) => Move::Faults { number, kind },
        }
    }
}
