//! What follows for a whole expression from the code of its operands.

ghost use Rattle.std.specs.Prelude.{◌≡◌, ◌+◌, ◌++◌, [], ◌∷◌, pos, Some, None, IfOk, MatchOption};
ghost use Rattle.c_typed.specs.declared.types.ValueType.{ValueType};
ghost use Rattle.c_typed.specs.Tree as t;
ghost use Rattle.c_typed.specs.Values.{width_of};
ghost use Rattle.c_program.specs.Checked as c;
ghost use Rattle.ib_act.specs.declared.act.Act.TheVariants as act;
ghost use Rattle.tac_lowered.specs.Code as code;
ghost use Rattle.tac_lowered.specs.Code.{◌⨾◌};
ghost use Rattle.tac_lowered.specs.Operators as o;
ghost use Rattle.tac_lowered.specs.Expressions as e;
ghost use Rattle.c_typed.specs.Program as typed;
ghost use Rattle.tac_code.specs.Views.{boxed_of, boxed_test_of};

use crate::addresses::At;
use c_typed::Expr;
use c_values::width_of;
use ib_act::Act;
use ib_base::Width;
use std::alloc::{AllocError, Global};
use tac_code::{Code, Test, Update, behind, both, boxed, does, moved};

/// An operand's code, and the register that its value is in.
#[derive(Drop)]
pub struct Operand {
    pub code: Box<Code>,
    pub register: u32,
}

/// The first of some expressions, and the others.
pub(crate) fn first_expr<'a>(all: &'a [Expr]) -> Option<(&'a Expr, &'a [Expr])>
    ensures { MatchOption result (all.now ≡ []) (λ it. all.now ≡ it.0.now ∷ it.1.now) }
{
    all.split_first()
}

/// The last of some expressions, and those before it.
pub(crate) fn last_expr<'a>(all: &'a [Expr]) -> Option<(&'a Expr, &'a [Expr])>
    ensures { MatchOption result (all.now ≡ []) (λ it. all.now ≡ it.1.now ++ it.0.now ∷ []) }
{
    all.split_last()
}

pub(crate) fn chosen(
    alloc: Global,
    stmt: u32,
    test: Box<Test>,
    then: Box<Code>,
    other: Box<Code>,
) -> Result<Box<Code>, AllocError>
    ensures { IfOk result (λ made. boxed_of made ≡ code.choose stmt (boxed_test_of test) (boxed_of «then») (boxed_of other)) }
{
    boxed(
        alloc,
        Code::Choose {
            stmt,
            test,
            then,
            other,
        },
    )
}

/// 1 where a test holds, 0 where not.
pub(crate) fn truth(
    alloc: Global,
    stmt: u32,
    to: u32,
    test: Box<Test>,
) -> Result<Box<Code>, AllocError>
    ensures { IfOk result (λ made. boxed_of made ≡ code.choose stmt (boxed_test_of test) (code.does stmt (act.Const to (pos 1))) (code.does stmt (act.Const to (pos 0)))) }
{
    let one = does(alloc, stmt, Act::Const { to, value: 1 })?;
    let zero = does(alloc, stmt, Act::Const { to, value: 0 })?;
    chosen(alloc, stmt, test, one, zero)
}

/// A slot's value before an assignment: in the slot, where nothing sets it before it is read, or in a register.
pub(crate) fn old_slot(
    alloc: Global,
    is_kept: bool,
    stmt: u32,
    slot: u32,
    register: u32,
) -> Result<Operand, AllocError>
    ensures code { (ty : ValueType) → IfOk result (λ x. boxed_of x.code ≡ e.held is_kept (t.slot ty slot) (code.does stmt (act.Mov register slot))) }
    ensures register { (ty : ValueType) → IfOk result (λ x. x.register ≡ e.at is_kept (t.slot ty slot) register) }
{
    if is_kept {
        let code = boxed(alloc, Code::Nothing)?;
        return Ok(Operand {
            code,
            register: slot,
        });
    }
    let code = does(
        alloc,
        stmt,
        Act::Mov {
            to: register,
            from: slot,
        },
    )?;
    Ok(Operand { code, register })
}

/// Stores a register's value, which is then the expression's.
pub(crate) fn stored(
    alloc: Global,
    width: Width,
    base: u32,
    from: u32,
    at: At,
) -> Result<Box<Code>, AllocError>
    ensures { IfOk result (λ made. boxed_of made ≡ (code.does at.stmt (act.Store width base (pos 0) from) ⨾ o.moved at.stmt at.to from)) }
{
    let store = does(
        alloc,
        at.stmt,
        Act::Store {
            width,
            base,
            offset: 0,
            from,
        },
    )?;
    let last = moved(alloc, at.stmt, at.to, from)?;
    both(alloc, store, last)
}

/// An assignment of an operator to what lies at an address, behind the code of the address and before that of the value.
pub(crate) fn updated(
    alloc: Global,
    how: Update,
    address: Operand,
    value: Operand,
    at: At,
) -> Result<Box<Code>, AllocError>
    ensures { let r = at.free in
        IfOk result (λ made. boxed_of made ≡
        (boxed_of address.code
        ⨾ (code.does at.stmt (act.Load (width_of how.ty) (r + 1) address.register (pos 0))
        ⨾ (boxed_of value.code
        ⨾ (o.assigned how.ty how.within how.op at.stmt (r + 1) (r + 3) (r + 1) value.register
        ⨾ (code.does at.stmt (act.Store (width_of how.ty) address.register (pos 0) (r + 1)) ⨾ o.moved at.stmt at.to (r + 1))))))) }
{
    let old = behind(at.free, 1)?;
    let free = behind(at.free, 3)?;
    let width = width_of(how.ty);
    let load = does(
        alloc,
        at.stmt,
        Act::Load {
            width,
            to: old,
            base: address.register,
            offset: 0,
        },
    )?;
    let new = how.assigned(alloc, at.stmt, old, free, old, value.register)?;
    let store = stored(alloc, width, address.register, old, at)?;
    let rest = both(alloc, new, store)?;
    let rest = both(alloc, value.code, rest)?;
    let rest = both(alloc, load, rest)?;
    both(alloc, address.code, rest)
}

/// `++` or `--` behind what lies at an address.
pub(crate) fn stepped(
    alloc: Global,
    how: Update,
    address: Operand,
    at: At,
) -> Result<Box<Code>, AllocError>
    ensures { let r = at.free in
        IfOk result (λ made. boxed_of made ≡
        (boxed_of address.code
        ⨾ (code.does at.stmt (act.Load (width_of how.ty) (r + 1) address.register (pos 0))
        ⨾ (code.does at.stmt (act.Const (r + 2) (pos 1))
        ⨾ (o.assigned how.ty how.within how.op at.stmt (r + 2) (r + 3) (r + 1) (r + 2)
        ⨾ (code.does at.stmt (act.Store (width_of how.ty) address.register (pos 0) (r + 2)) ⨾ o.moved at.stmt at.to (r + 1))))))) }
{
    let old = behind(at.free, 1)?;
    let new = behind(at.free, 2)?;
    let free = behind(at.free, 3)?;
    let width = width_of(how.ty);
    let base = address.register;
    let load = does(
        alloc,
        at.stmt,
        Act::Load {
            width,
            to: old,
            base,
            offset: 0,
        },
    )?;
    let one = does(alloc, at.stmt, Act::Const { to: new, value: 1 })?;
    let sum = how.assigned(alloc, at.stmt, new, free, old, new)?;
    let store = does(
        alloc,
        at.stmt,
        Act::Store {
            width,
            base,
            offset: 0,
            from: new,
        },
    )?;
    let last = moved(alloc, at.stmt, at.to, old)?;
    let rest = both(alloc, store, last)?;
    let rest = both(alloc, sum, rest)?;
    let rest = both(alloc, one, rest)?;
    let rest = both(alloc, load, rest)?;
    both(alloc, address.code, rest)
}

/// `++` or `--` behind a variable in a slot, where its old value is wanted.
fn stepped_slot(
    alloc: Global,
    how: Update,
    slot: u32,
    to: u32,
    at: At,
) -> Result<Box<Code>, AllocError>
    ensures { (p : typed.Program) → IfOk result (λ made. boxed_of made ≡ e.low p (t.step_slot how.ty slot how.within how.op) at.stmt (Some to) at.free) }
{
    let second = behind(at.free, 1)?;
    let third = behind(at.free, 2)?;
    let old = does(
        alloc,
        at.stmt,
        Act::Mov {
            to: at.free,
            from: slot,
        },
    )?;
    let one = does(
        alloc,
        at.stmt,
        Act::Const {
            to: second,
            value: 1,
        },
    )?;
    let new = how.assigned(alloc, at.stmt, slot, third, at.free, second)?;
    let last = moved(alloc, at.stmt, Some(to), at.free)?;
    let rest = both(alloc, new, last)?;
    let rest = both(alloc, one, rest)?;
    both(alloc, old, rest)
}

/// `++` or `--` behind a variable in a slot.
pub(crate) fn step_slot(
    alloc: Global,
    how: Update,
    slot: u32,
    at: At,
) -> Result<Box<Code>, AllocError>
    ensures { (p : typed.Program) → IfOk result (λ made. boxed_of made ≡ e.low p (t.step_slot how.ty slot how.within how.op) at.stmt at.to at.free) }
{
    match at.to {
        None => {
            let free = behind(at.free, 1)?;
            let one = does(
                alloc,
                at.stmt,
                Act::Const {
                    to: at.free,
                    value: 1,
                },
            )?;
            let new = how.assigned(alloc, at.stmt, slot, free, slot, at.free)?;
            both(alloc, one, new)
        }
        Some(to) => stepped_slot(alloc, how, slot, to, at),
    }
}
