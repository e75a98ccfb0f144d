ghost use Rattle.std.specs.Prelude.{◌≡◌, slice_index_or, pos, IfOk, Some, None, if◌then◌else◌};
ghost use Rattle.std.specs.Option.{option_map};
ghost use Rattle.c_typed.specs.Views.{expr_of};
ghost use Rattle.c_typed.specs.Values as v;
ghost use Rattle.c_program.specs.Checked as c;
ghost use Rattle.tac_lowered.specs.Expressions as e;
ghost use Rattle.tac_lowered.specs.Operators as o;
ghost use Rattle.tac_code.specs.Views.{boxed_of};

use c_program::Program;
use c_typed::{Expr, Reach, Storage};
use c_values::{element, further};
use ib_act::{Act, Size};
use std::alloc::{AllocError, Global};
use tac_code::{Code, behind, both, bound, does, scaled, scaled_in};

/// An array that is declared, and which indices are within its bounds.
#[derive(Clone, Copy)]
pub(crate) struct Array {
    pub storage: Storage,
    pub length: u64,
    pub size: u32,
    pub reach: Reach,
}

/// Where code stands: its statement's number, the register that its value is wanted in, and the first that is free.
#[derive(Clone, Copy)]
pub struct At {
    pub stmt: u32,
    pub to: Option<u32>,
    pub free: u32,
}

impl At {
    /// Where no value is wanted.
    pub fn effect(stmt: u32, free: u32) -> At
        ensures { result ≡ record { stmt = stmt; to = None; free = free } }
    {
        At {
            stmt,
            to: None,
            free,
        }
    }

    /// The register that is wanted, or the first that is free.
    pub(crate) fn target(self) -> u32
        ensures { result ≡ o.or_else self.to self.free }
    {
        match self.to {
            Some(to) => to,
            None => self.free,
        }
    }
}

/// The number at an index, or 0.
fn number_at(numbers: &[u32], at: u32) -> u32
    ensures { result ≡ slice_index_or numbers.now at 0 }
{
    match numbers.get(at as usize) {
        Some(number) => *number,
        None => 0,
    }
}

/// The address of a string that is laid out.
pub(crate) fn string_address(program: &Program, ordinal: u32) -> i64
    ensures { result ≡ pos (slice_index_or (c.program program.now).strings ordinal 0) }
{
    i64::from(number_at(&program.layout().strings, ordinal))
}

fn global_address(program: &Program, number: u32) -> i64
    ensures { result ≡ pos (slice_index_or (c.program program.now).globals number 0) }
{
    i64::from(number_at(&program.layout().globals, number))
}

/// The address of what lies in memory. One past an `i64` finds no memory.
pub(crate) fn address(
    alloc: Global,
    program: &Program,
    stmt: u32,
    to: u32,
    of: Storage,
) -> Result<Box<Code>, AllocError>
    ensures { IfOk result (λ made. boxed_of made ≡ e.address (c.program program.now) stmt to of) }
{
    match of {
        Storage::Global(number) => {
            let value = global_address(program, number);
            does(alloc, stmt, Act::Const { to, value })
        }
        Storage::Frame(offset) => {
            let offset = i64::try_from(offset).ok().ok_or(AllocError)?;
            does(alloc, stmt, Act::FrameAddress { to, offset })
        }
    }
}

/// The address so many bytes further on. One past an `i64` finds no memory.
fn address_at(
    alloc: Global,
    program: &Program,
    stmt: u32,
    to: u32,
    of: Storage,
    bytes: i64,
) -> Result<Box<Code>, AllocError>
    ensures { IfOk result (λ made. boxed_of made ≡ e.address_at (c.program program.now) stmt to of bytes) }
{
    match of {
        Storage::Global(number) => {
            let value = further(global_address(program, number), bytes);
            does(alloc, stmt, Act::Const { to, value })
        }
        Storage::Frame(offset) => {
            let offset = i64::try_from(offset).ok().ok_or(AllocError)?;
            let offset = offset.checked_add(bytes).ok_or(AllocError)?;
            does(alloc, stmt, Act::FrameAddress { to, offset })
        }
    }
}

/// Where the element at an index begins, in bytes behind the array's start, if the index is within bounds.
#[tactic(auto, using(crate::proofs::Elements::first_element))]
fn element_bytes(array: Array, index: i64) -> Option<i64>
    ensures { result ≡ (if v.in_bounds array.reach array.length index then Some (v.scaled array.size index) else None) }
{
    element(0, array.length, array.size, array.reach, index).ok()
}

/// The same of an index that is a constant.
pub(crate) fn known_bytes(array: Array, index: &Expr) -> Option<i64>
    ensures { result ≡ option_map (v.scaled array.size) (e.known array.reach array.length (expr_of index.now)) }
{
    match index {
        Expr::Constant { value, .. } => element_bytes(array, *value),
        Expr::Text { .. } => None,
        Expr::Address { .. } => None,
        Expr::Element { .. } => None,
        Expr::Slot { .. } => None,
        Expr::Load { .. } => None,
        Expr::Convert { .. } => None,
        Expr::Unary { .. } => None,
        Expr::Not { .. } => None,
        Expr::Binary { .. } => None,
        Expr::And { .. } => None,
        Expr::Or { .. } => None,
        Expr::Conditional { .. } => None,
        Expr::SetSlot { .. } => None,
        Expr::Store { .. } => None,
        Expr::UpdateSlot { .. } => None,
        Expr::Update { .. } => None,
        Expr::StepSlot { .. } => None,
        Expr::Step { .. } => None,
        Expr::Call { .. } => None,
        Expr::GetByte => None,
        Expr::PutByte { .. } => None,
        Expr::PutNumber { .. } => None,
        Expr::Comma { .. } => None,
    }
}

/// The address of an element so many bytes behind the array's start.
pub(crate) fn known_element(
    alloc: Global,
    program: &Program,
    array: Array,
    bytes: i64,
    at: At,
) -> Result<Box<Code>, AllocError>
    ensures { IfOk result (λ made. boxed_of made ≡ e.address_at (c.program program.now) at.stmt (o.or_else at.to at.free) array.storage bytes) }
{
    address_at(alloc, program, at.stmt, at.target(), array.storage, bytes)
}

/// The address of an element whose index code leaves in `x`.
pub(crate) fn indexed(
    alloc: Global,
    program: &Program,
    array: Array,
    index: Box<Code>,
    x: u32,
    at: At,
) -> Result<Box<Code>, AllocError>
    ensures { IfOk result (λ made. boxed_of made ≡ e.indexed (c.program program.now) at.stmt at.to at.free array.storage array.length array.size array.reach None (boxed_of index) x) }
{
    let second = behind(at.free, 1)?;
    let third = behind(at.free, 2)?;
    let bound = bound(array.reach, array.length)?;
    let within = does(
        alloc,
        at.stmt,
        Act::Bounds {
            to: at.free,
            from: x,
            bound,
        },
    )?;
    let bytes = scaled(alloc, at.stmt, second, array.size, at.free)?;
    let start = address(alloc, program, at.stmt, third, array.storage)?;
    let sum = does(
        alloc,
        at.stmt,
        Act::Add {
            size: Size::Eight,
            to: at.target(),
            left: third,
            right: scaled_in(second, array.size, at.free),
        },
    )?;
    let rest = both(alloc, start, sum)?;
    let rest = both(alloc, bytes, rest)?;
    let rest = both(alloc, within, rest)?;
    both(alloc, index, rest)
}
