ghost use Rattle.std.specs.Prelude.{◌≡◌, ◌+◌, ◌≤◌, ℕ, true, pos, List, [], ◌∷◌, ◌++◌, length, map, replicate, IfOk};
ghost use Rattle.std.specs.List.{list_all};
ghost use Rattle.wide_core.specs.Meaning.{put_all};
ghost use Rattle.wide_core.specs.Places.{put};
ghost use Rattle.wide_core.specs.Tagged.{number_of};
ghost use Rattle.wide_core.specs.Valid.{is_within};
ghost use Rattle.wide_sim.specs.Frames.{IsEntered};
ghost use Rattle.wide_sim.specs.Store.{held, holds};

use crate::ready::Ready;
use crate::store::Store;
use std::alloc::{AllocError, Global};
use wide_core::{Loc, Tagged, WideFunc};

/// A call: its function, where its frame begins, its word at hand, and its registers and slots with the times at which
/// they are ready.
#[derive(Drop)]
pub struct Frame {
    pub func: usize,
    pub base: u32,
    pub at: usize,
    pub values: Store<Tagged>,
    pub ready: Ready,
}

/// A call that waits for one that it made, and the place of the result.
#[derive(Drop)]
pub struct Suspended {
    pub frame: Frame,
    pub result: Option<Loc>,
}

/// A call of a function as it begins, with no numbers.
pub(crate) fn fresh(
    alloc: Global,
    regs: usize,
    callee: &WideFunc,
    func: usize,
    base: u32,
) -> Result<Frame, AllocError>
    ensures { IfOk result (IsEntered regs callee.now func base []) }
{
    let values = Store::filled(alloc, regs, callee.slots as usize, Tagged::Clear(0))?;
    let ready = Ready::first(alloc, regs, callee.slots as usize)?;
    Ok(Frame {
        func,
        base,
        at: 0,
        values,
        ready,
    })
}

/// A call of a function as it begins, with the numbers of the caller's registers.
pub(crate) fn entered(
    alloc: Global,
    regs: usize,
    callee: &WideFunc,
    func: usize,
    base: u32,
    caller: &Store<Tagged>,
    args: &[u32],
) -> Result<Frame, AllocError>
    requires passed { list_all (is_within (length caller.now.regs) (length caller.now.slots)) (map (λ r. Loc.Reg r) args.now) ≡ true }
    requires params { list_all (is_within regs callee.now.slots) callee.now.params ≡ true }
    requires count { length args.now ≡ length callee.now.params }
    ensures { IfOk result (IsEntered regs callee.now func base (map (λ r. number_of (held (Tagged.Clear (pos 0)) caller.now (Loc.Reg r))) args.now)) }
{
    let mut frame = fresh(alloc, regs, callee, func, base)?;
    pass(&mut frame.values, callee.params.as_slice(), caller, args);
    Ok(frame)
}

/// Puts the numbers of the caller's registers into the parameters' places.
fn pass(values: &mut Store<Tagged>, params: &[Loc], caller: &Store<Tagged>, args: &[u32])
    requires passed { list_all (is_within (length caller.now.regs) (length caller.now.slots)) (map (λ r. Loc.Reg r) args.now) ≡ true }
    requires params { list_all (is_within (length values.old.regs) (length values.old.slots)) params.now ≡ true }
    requires count { length args.now ≡ length params.now }
    ensures places { held (Tagged.Clear (pos 0)) values.new ≡ put_all params.now (map (λ r. number_of (held (Tagged.Clear (pos 0)) caller.now (Loc.Reg r))) args.now) (held (Tagged.Clear (pos 0)) values.old) }
    ensures regs { length values.new.regs ≡ length values.old.regs }
    ensures slots { length values.new.slots ≡ length values.old.slots }
{
    for (i, param) in params.iter().enumerate() {
        pass_one(values, *param, caller.get(Loc::Reg(args[i])));
    }
}

#[tactic(auto, using(crate::proofs::Places::held_put))]
fn pass_one(values: &mut Store<Tagged>, param: Loc, value: Tagged)
    requires { holds values.old param ≡ true }
    ensures places { held (Tagged.Clear (pos 0)) values.new ≡ put param (Tagged.Clear (number_of value)) (held (Tagged.Clear (pos 0)) values.old) }
    ensures regs { length values.new.regs ≡ length values.old.regs }
    ensures slots { length values.new.slots ≡ length values.old.slots }
{
    values.set(param, cleared_mark(value));
}

/// The value's number, without a mark.
fn cleared_mark(value: Tagged) -> Tagged
    ensures { result ≡ Tagged.Clear (number_of value) }
{
    match value {
        Tagged::Clear(_) => value,
        Tagged::Mark { .. } => Tagged::Clear(0),
    }
}
