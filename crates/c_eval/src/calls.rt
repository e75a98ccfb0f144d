ghost use Rattle.std.specs.Prelude.{◌≡◌, ◌<◌, ◌≤◌, ◌+◌, replicate, pos, false, map, slice_get, IfOk, MatchOption, [], ◌∷◌};
ghost use Rattle.c_typed.specs.Views.{function_of};
ghost use Rattle.c_eval.specs.Machines.{machine_of};
ghost use Rattle.c_eval.specs.Moves as m;
ghost use Rattle.c_eval.specs.Views.{move_of};

use crate::frame::{Caller, Frame, Move};
use crate::machine::Machine;
use c_typed::{Function, Home, Param};
use c_values::{in_frame, size_of};
use ib_base::FaultKind;
use sqlite_items::Items;
use std::alloc::{AllocError, Global};
use std::mem;

/// How many calls may be open.
const MOST_CALLS: u32 = 4096;

/// How many bytes the memory has.
const MEMORY: u128 = 1_048_576;

/// Variables that hold 0.
pub(crate) fn zeros(alloc: Global, count: u32) -> Result<Items<i64>, AllocError>
    ensures { IfOk result (λ slots. slots ≡ replicate count (pos 0)) }
{
    Ok(Items::from_vec(vec![in alloc; 0; count as usize]?))
}

fn first_param<'a>(all: &'a [Param]) -> Option<(Param, &'a [Param])>
    ensures { MatchOption result (all.now ≡ []) (λ it. all.now ≡ it.0 ∷ it.1.now) }
{
    match all.split_first() {
        None => None,
        Some((first, rest)) => Some((*first, rest)),
    }
}

impl<'a> Machine<'a> {
    /// Whether one call more would be too deep, or its frame would not end within the memory.
    fn is_full(&self, function: &Function) -> bool
        ensures { result ≡ m.is_full (function_of function.now) (machine_of self.now) }
    {
        MOST_CALLS <= self.depth || MEMORY < u128::from(self.top) + u128::from(function.frame)
    }

    fn set_parameter(&mut self, param: Param, value: i64)
        ensures { (machine_of self.new) ≡ m.parameter_set param value (machine_of self.old) }
    {
        match param.home {
            Home::Slot(slot) => self.set_slot(slot, value),
            Home::Frame(offset) => {
                let address = in_frame(self.base, offset);
                let number = value.cast_unsigned();
                let _within = self.memory.store(address, size_of(param.ty), number);
            }
        }
    }

    /// Sets the parameters to the arguments, as far as there are any.
    fn set_parameters(&mut self, params: &[Param])
        ensures { (machine_of self.new) ≡ m.with_parameters params.now self.old.arguments (machine_of self.old) }
    {
        match first_param(params) {
            None => self.arguments.clear(),
            Some((param, rest)) => match self.arguments.pop() {
                None => {}
                Some(value) => {
                    self.set_parameter(param, value);
                    self.set_parameters(rest);
                }
            },
        }
    }

    /// Opens the frame of a function, whose environment is there.
    pub(crate) fn open(&mut self, function: &Function)
        requires few { self.old.depth < 4096 }
        requires fits { self.old.top + function.now.frame ≤ 1048576 }
        ensures { (machine_of self.new) ≡ m.opened (function_of function.now) (machine_of self.old) }
    {
        let frame = function.frame as u32;
        self.memory.clear(self.top, frame);
        self.depth += 1;
        self.base = self.top;
        self.top += frame;
        self.set_parameters(function.params.as_slice());
    }

    fn enter(&mut self, alloc: Global, function: &'a Function) -> Result<Move<'a>, AllocError>
        requires { m.is_full (function_of function.now) (machine_of self.old) ≡ false }
        ensures { IfOk result (λ r. move_of r (machine_of self.new) ≡ m.rest_first (function_of function.now).body (m.entered (function_of function.now) (machine_of self.old))) }
    {
        let slots = zeros(alloc, function.slots)?;
        let caller = Caller {
            depth: self.depth,
            base: self.base,
            top: self.top,
            slots: mem::replace(&mut self.slots, slots),
        };
        self.push(Frame::Called { caller })?;
        self.open(function);
        self.rest_first(function.body.as_slice())
    }

    /// Calls a function, a unit having been spent on it.
    pub(crate) fn call_function(
        &mut self,
        alloc: Global,
        functions: &'a [Function],
        function: u32,
        number: u32,
    ) -> Result<Move<'a>, AllocError>
        ensures { IfOk result (λ r. move_of r (machine_of self.new) ≡ m.called (slice_get (map function_of functions.now) function) number (machine_of self.old)) }
    {
        let Some(function) = functions.get(function as usize) else {
            return Ok(Move::Stops);
        };
        if self.is_full(function) {
            return Ok(Move::Faults {
                number,
                kind: FaultKind::StackOverflow,
            });
        }
        self.enter(alloc, function)
    }
}
