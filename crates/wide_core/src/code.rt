ghost use Rattle.std.specs.Prelude.{◌≡◌, [], ◌∷◌, false, IfOk};

use ib_act::Act;
use ib_base::{FaultKind, Place, Text};
use sqlite_items::Items;
use std::alloc::{AllocError, Global};

/// What a register or slot holds: a number, or the mark of an operation that was done early and faulted.
#[derive(Clone, Copy, PartialEq, Eq, Debug)]
pub enum Tagged {
    Clear(i64),
    Mark { number: u32, kind: FaultKind },
}

/// A register or slot of a call.
#[derive(Clone, Copy, PartialEq, Eq, Hash, Debug)]
pub enum Loc {
    Reg(u32),
    Slot(u32),
}

/// What an operation does. `from` names a register, but for the slot that `Reload` reads; `to` of a control operation
/// is a word of its function.
#[derive(Drop)]
pub enum WideAct {
    Do(Act),
    /// Copies a register, number or mark, to a slot.
    Spill {
        to: u32,
        from: u32,
    },
    /// Copies a slot, number or mark, to a register.
    Reload {
        to: u32,
        from: u32,
    },
    /// Reports a mark, and does nothing else.
    Check {
        from: u32,
    },
    Jump {
        to: u32,
    },
    /// Goes to a word if the register is not 0.
    Branch {
        from: u32,
        to: u32,
    },
    /// Goes to a word if the register is 0.
    BranchZero {
        from: u32,
        to: u32,
    },
    /// Calls a function by its number, and goes on at the word `next` with the result in its place.
    Call {
        result: Option<Loc>,
        func: u32,
        next: u32,
        args: Items<u32>,
    },
    /// Returns a register's number, or 0.
    Return(Option<u32>),
}

/// An operation with its number in the whole code, its statement's place, and whether its fault is kept as a mark.
#[derive(Drop)]
pub struct WideOp {
    pub number: u32,
    pub home: Place,
    pub flagged: bool,
    pub act: WideAct,
}

impl WideOp {
    /// An operation that reports its fault.
    pub fn unflagged(number: u32, home: Place, act: WideAct) -> WideOp
        ensures { result ≡ record { number = number; home = home; flagged = false; act = act } }
    {
        WideOp {
            number,
            home,
            flagged: false,
            act,
        }
    }
}

/// Operations that are done in one cycle; all of them read before any of them writes.
#[derive(Drop)]
pub struct Word {
    pub ops: Items<WideOp>,
}

impl Word {
    /// A word with one operation.
    pub fn of_one(alloc: Global, op: WideOp) -> Result<Word, AllocError>
        ensures { IfOk result (λ word. word ≡ record { ops = op ∷ [] }) }
    {
        let mut ops = Items::new(alloc);
        ops.push(op)?;
        Ok(Word { ops })
    }
}

/// A function: where it takes its parameters, its frame's bytes, its slots and its words.
#[derive(Drop)]
pub struct WideFunc {
    pub name: Text,
    pub params: Items<Loc>,
    pub frame: u32,
    pub slots: u32,
    pub words: Items<Word>,
}

/// Code that nobody has validated: the memory's first bytes, and the functions.
#[derive(Drop)]
pub struct RawCode {
    pub image: Items<u8>,
    pub funcs: Items<WideFunc>,
}
