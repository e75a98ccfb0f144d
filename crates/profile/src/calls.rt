ghost use Rattle.std.specs.Prelude.{◌≡◌, List, ℕ, ◌<◌, ◌≤◌, ◌+◌, ◌^◌, Some, length, map, slice_get, replicate, take, drop, pos, IfOk};
ghost use Rattle.std.specs.List.{All};
ghost use Rattle.tac_core.specs.Meaning.{Waiting, reg_of, first_regs, first_frame, go, overflows, In};
ghost use Rattle.tac_core.specs.Rules.{IsValid};
ghost use Rattle.profile.specs.Sound.{IsCall, IsHere, IsBlock};

use sqlite_items::Items;
use std::alloc::{AllocError, Global};
use std::marker::Model;
use tac_core::{Block, TacFunc, TacOp, TacProgram};

/// Where the image begins in the memory.
pub(crate) const FIRST: u32 = 4096;

/// How many calls may be open.
const MOST_CALLS: usize = 4096;

/// How many bytes the memory has.
const MEMORY: u32 = 1_048_576;

/// A call of a function: the block in which it stands, its frame, its registers, and the operations that are left.
#[derive(Drop)]
pub(crate) struct Call<'a> {
    pub func: u32,
    pub label: u32,
    pub base: u32,
    pub regs: Items<i64>,
    pub ops: &'a [TacOp],
}

impl<'a> Model for Call<'a> {
    ghost use Rattle.tac_core.specs.Meaning.{Here};

    ghost Value = { Here };

    ghost view = { λ call. record { func = call.func; label = call.label; base = call.base; regs = call.regs; ops = call.ops.now } };
}

/// A call that waits for another: where its result goes, and the block that is next.
#[derive(Drop)]
pub(crate) struct Pending {
    pub func: u32,
    pub label: u32,
    pub base: u32,
    pub regs: Items<i64>,
    pub dest: Option<u32>,
    pub next: u32,
}

impl Model for Pending {
    ghost use Rattle.tac_core.specs.Meaning.{Waiting};

    ghost Value = { Waiting };

    ghost view = { λ w. record { func = w.func; label = w.label; base = w.base; regs = w.regs; dest = w.dest; next = w.next } };
}

impl<'a> Call<'a> {
    ghost use Rattle.std.specs.Prelude.{◌≡◌};

    /// The call as it waits for another.
    pub(crate) fn waiting(self, dest: Option<u32>, next: u32) -> Pending
        ensures { result ≡ record { func = self.entry.func; label = self.entry.label; base = self.entry.base; regs = self.entry.regs; dest = dest; next = next } }
    {
        let Call {
            func,
            label,
            base,
            regs,
            ..
        } = self;
        Pending {
            func,
            label,
            base,
            regs,
            dest,
            next,
        }
    }
}

/// A function of the program.
pub(crate) fn func_at<'a>(tac: &'a TacProgram, func: u32) -> &'a TacFunc
    requires { func < length tac.now.funcs }
    ensures there { slice_get tac.now.funcs func ≡ Some result.now }
    ensures valid { IsValid tac.now }
{
    &tac.funcs()[func as usize]
}

pub(crate) fn block_at<'a>(func: &'a TacFunc, label: u32) -> &'a Block
    requires { label < length func.now.blocks }
    ensures { slice_get func.now.blocks label ≡ Some result.now }
{
    &func.blocks.as_slice()[label as usize]
}

/// A call at the start of a block.
pub(crate) fn enter<'a>(
    tac: &'a TacProgram,
    func: u32,
    label: u32,
    base: u32,
    regs: Items<i64>,
) -> Call<'a>
    requires call { IsCall tac.now func base regs }
    requires block { IsBlock tac.now func label }
    ensures state { (waiting : List Waiting) (memory : List ℕ) → In result waiting memory ≡ go tac.now.funcs func label base regs waiting memory }
    ensures sound { IsHere tac.now result }
    ensures func { result.func ≡ func }
{
    let block = block_at(func_at(tac, func), label);
    Call {
        func,
        label,
        base,
        regs,
        ops: block.ops.as_slice(),
    }
}

/// The registers of a call that begins: zeros, but for the parameters.
fn first_regs(alloc: Global, func: &TacFunc, values: &[i64]) -> Result<Items<i64>, AllocError>
    requires params { All (λ r. r < func.now.regs) func.now.params }
    requires values { length values.now ≡ length func.now.params }
    ensures regs { IfOk result (λ regs. regs ≡ first_regs (Some func.now) values.now) }
    ensures many { IfOk result (λ regs. length regs ≡ func.now.regs) }
{
    let mut regs = zeros(alloc, func.regs)?;
    for (i, register) in func.params.as_slice().iter().enumerate() {
        regs.set(*register as usize, values[i]);
    }
    Ok(regs)
}

/// The registers of a call that begins, to which the caller's registers are passed.
pub(crate) fn callee_regs(
    alloc: Global,
    func: &TacFunc,
    regs: &[i64],
    args: &[u32],
) -> Result<Items<i64>, AllocError>
    requires params { All (λ r. r < func.now.regs) func.now.params }
    requires args { All (λ r. r < length regs.now) args.now }
    requires count { length args.now ≡ length func.now.params }
    ensures regs { IfOk result (λ own. own ≡ first_regs (Some func.now) (map (reg_of regs.now) args.now)) }
    ensures many { IfOk result (λ own. length own ≡ func.now.regs) }
{
    let values = passed(alloc, regs, args)?;
    first_regs(alloc, func, values.as_slice())
}

/// Registers that hold 0.
pub(crate) fn zeros(alloc: Global, count: u32) -> Result<Items<i64>, AllocError>
    ensures { IfOk result (λ regs. regs ≡ replicate count (pos 0)) }
{
    Ok(Items::from_vec(vec![in alloc; 0; count as usize]?))
}

/// Where the first frame begins behind an image of so many bytes: at a multiple of 16.
pub(crate) fn first_frame(image: usize) -> u32
    requires { image ≤ 524288 }
    ensures is { result ≡ first_frame image }
    ensures fits { result ≤ 528384 }
{
    FIRST + 16 * ((image as u32 + 15) / 16)
}

/// The numbers that a call passes.
fn passed(alloc: Global, regs: &[i64], args: &[u32]) -> Result<Items<i64>, AllocError>
    requires { All (λ r. r < length regs.now) args.now }
    ensures { IfOk result (λ values. values ≡ map (reg_of regs.now) args.now) }
{
    let mut values = Items::new(alloc);
    for register in args {
        values.push(regs[*register as usize])?;
    }
    Ok(values)
}

/// Whether one call more would be too deep, or its frame would not end within the memory.
pub(crate) fn overflows(waiting: usize, base: u32, frame: u32) -> bool
    requires room { base + frame < 2 ^ 32 }
    requires few { waiting + 1 < 2 ^ 64 }
    ensures { result ≡ overflows (waiting) base frame }
{
    MOST_CALLS <= waiting + 1 || MEMORY < base + frame
}
