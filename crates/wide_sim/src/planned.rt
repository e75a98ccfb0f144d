use ib_base::{FaultKind, Width};
use wide_core::{Loc, Tagged};

/// What an operation of a word is to do once all of the word's operations have read.
#[derive(Clone, Copy)]
pub enum Planned<'a> {
    Idle,
    Write {
        to: Loc,
        value: Tagged,
    },
    Save {
        width: Width,
        address: i64,
        value: i64,
    },
    /// Takes the next byte of the input into a register.
    Take {
        to: u32,
    },
    PutByte(u8),
    PutNumber(i64),
    Jump {
        to: u32,
    },
    /// The registers in `args` are those before the word.
    Call {
        result: Option<Loc>,
        func: u32,
        next: u32,
        args: &'a [u32],
    },
    Return(i64),
    Report {
        number: u32,
        kind: FaultKind,
    },
}
