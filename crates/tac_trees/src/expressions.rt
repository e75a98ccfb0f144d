//! What expressions are lowered to. Each function calls itself only on parts of its expression.

ghost use Rattle.std.specs.Prelude.{◌≡◌, ◌+◌, ◌++◌, true, Some, None, IfOk, OnOk, map};
ghost use Rattle.c_typed.specs.Tree as t;
ghost use Rattle.c_typed.specs.declared.types.ValueType.{ValueType};
ghost use Rattle.c_typed.specs.Views.{expr_of, list_exps};
ghost use Rattle.c_program.specs.Checked as c;
ghost use Rattle.tac_lowered.specs.Expressions as e;
ghost use Rattle.tac_lowered.specs.Code.{on};
ghost use Rattle.tac_code.specs.Views.{boxed_of, boxed_test_of};

use crate::addresses::{Array, At, address, indexed, known_bytes, known_element, string_address};
use crate::joins::{
    Operand, chosen, first_expr, last_expr, old_slot, step_slot, stepped, stored, truth, updated,
};
use crate::operands::{are_quiet, behind_operand, is_quiet, own_slot, width_in};
use c_program::Program;
use c_typed::{Expr, Operation, Rank, Sign, Storage, ValueType};
use c_values::{is_true, width_of};
use ib_act::Act;
use smallvec::SmallVec;
use std::alloc::{AllocError, Global};
use tac_code::{
    Code, Test, Update, behind, both, boxed, boxed_test, cut, does, moved, narrows, number,
    operated, row, sign, some_code,
};
use tac_core::Regs;

/// The code of an expression. Registers from `at.free` on are free; where a value is wanted in a register, the last thing that is done is to write it there.
#[cycle(expressions)]
#[tactic(auto, using(crate::proofs::Rows::call_weight, crate::proofs::Rows::comma_weighs))]
pub fn low(alloc: Global, program: &Program, expr: &Expr, at: At) -> Result<Box<Code>, AllocError>
    ensures { IfOk result (λ made. boxed_of made ≡ e.low (c.program program.now) (expr_of expr.now) at.stmt at.to at.free) }
{
    match expr {
        Expr::Constant { value, .. } => number(alloc, at.stmt, at.to, *value),
        Expr::Text { ordinal } => number(alloc, at.stmt, at.to, string_address(program, *ordinal)),
        Expr::Address { of, .. } => wanted_address(alloc, program, *of, at),
        Expr::Element {
            array,
            length,
            size,
            reach,
            index,
            ..
        } => {
            let array = Array {
                storage: *array,
                length: *length,
                size: *size,
                reach: *reach,
            };
            element(alloc, program, array, index, at)
        }
        Expr::Slot { slot, .. } => moved(alloc, at.stmt, at.to, *slot),
        Expr::Load { ty, address } => load(alloc, program, *ty, address, at),
        Expr::Convert { to, operand } => convert(alloc, program, *to, operand, at),
        Expr::Unary { op, rank, operand } => unary(alloc, program, *op, *rank, operand, at),
        Expr::Not { operand } => not(alloc, program, operand, at),
        Expr::Binary {
            op,
            left,
            right,
            ..
        } => binary(alloc, program, *op, left, right, at),
        Expr::And { left, right } => and(alloc, program, left, right, at),
        Expr::Or { left, right } => or(alloc, program, left, right, at),
        Expr::Conditional {
            test,
            then,
            other,
            ..
        } => { conditional(alloc, program, test, then, other, at) }
        Expr::SetSlot { slot, value, .. } => set_slot(alloc, program, *slot, value, at),
        Expr::Store { ty, address, value } => store(alloc, program, *ty, address, value, at),
        Expr::UpdateSlot {
            ty,
            slot,
            within,
            op,
            value,
        } => {
            let how = Update {
                ty: *ty,
                within: *within,
                op: *op,
            };
            update_slot(alloc, program, how, *slot, value, at)
        }
        Expr::Update {
            ty,
            address,
            within,
            op,
            value,
        } => {
            let how = Update {
                ty: *ty,
                within: *within,
                op: *op,
            };
            update(alloc, program, how, address, value, at)
        }
        Expr::StepSlot {
            ty,
            slot,
            within,
            op,
        } => {
            let how = Update {
                ty: *ty,
                within: *within,
                op: *op,
            };
            step_slot(alloc, how, *slot, at)
        }
        Expr::Step {
            ty,
            address,
            within,
            op,
        } => {
            let how = Update {
                ty: *ty,
                within: *within,
                op: *op,
            };
            step(alloc, program, how, address, at)
        }
        Expr::Call {
            function,
            arguments,
            ..
        } => call(alloc, program, *function, arguments, at),
        Expr::GetByte => does(alloc, at.stmt, Act::Get { to: at.target() }),
        Expr::PutByte { value } => put_byte(alloc, program, value, at),
        Expr::PutNumber { value } => put_number(alloc, program, value, at),
        Expr::Comma { parts, last } => comma(alloc, program, parts, last, at),
    }
}

/// An operand's code, and where its value is: in a slot of its own, where nothing sets it before it is read, or in the register.
#[cycle(expressions)]
pub fn operand(
    alloc: Global,
    program: &Program,
    is_kept: bool,
    expr: &Expr,
    stmt: u32,
    register: u32,
) -> Result<Operand, AllocError>
    ensures code { IfOk result (λ x. boxed_of x.code ≡ e.held is_kept (expr_of expr.now) (e.low (c.program program.now) (expr_of expr.now) stmt (Some register) register)) }
    ensures register { IfOk result (λ x. x.register ≡ e.at is_kept (expr_of expr.now) register) }
{
    match own_slot(is_kept, expr) {
        Some(slot) => {
            let code = boxed(alloc, Code::Nothing)?;
            Ok(Operand {
                code,
                register: slot,
            })
        }
        None => {
            let at = At {
                stmt,
                to: Some(register),
                free: register,
            };
            let code = low(alloc, program, expr, at)?;
            Ok(Operand { code, register })
        }
    }
}

/// Where control goes by an expression's value. No number is made of a condition.
#[cycle(expressions)]
pub fn tested(
    alloc: Global,
    program: &Program,
    expr: &Expr,
    stmt: u32,
    free: u32,
) -> Result<Box<Test>, AllocError>
    ensures { IfOk result (λ made. boxed_test_of made ≡ e.tested (c.program program.now) (expr_of expr.now) stmt free) }
{
    match expr {
        Expr::Constant { value, .. } => boxed_test(
            alloc,
            Test::Settled {
                stmt,
                holds: is_true(*value),
            },
        ),
        Expr::Not { operand } => {
            let test = tested(alloc, program, operand, stmt, free)?;
            boxed_test(alloc, Test::Inverse(test))
        }
        Expr::And { left, right } => {
            let first = tested(alloc, program, left, stmt, free)?;
            let second = tested(alloc, program, right, stmt, free)?;
            boxed_test(alloc, Test::AllOf(first, second))
        }
        Expr::Or { left, right } => {
            let first = tested(alloc, program, left, stmt, free)?;
            let second = tested(alloc, program, right, stmt, free)?;
            boxed_test(alloc, Test::OneOf(first, second))
        }
        Expr::Text { .. } => by_value(alloc, program, expr, stmt, free),
        Expr::Address { .. } => by_value(alloc, program, expr, stmt, free),
        Expr::Element { .. } => by_value(alloc, program, expr, stmt, free),
        Expr::Slot { .. } => by_value(alloc, program, expr, stmt, free),
        Expr::Load { .. } => by_value(alloc, program, expr, stmt, free),
        Expr::Convert { .. } => by_value(alloc, program, expr, stmt, free),
        Expr::Unary { .. } => by_value(alloc, program, expr, stmt, free),
        Expr::Binary { .. } => by_value(alloc, program, expr, stmt, free),
        Expr::Conditional { .. } => by_value(alloc, program, expr, stmt, free),
        Expr::SetSlot { .. } => by_value(alloc, program, expr, stmt, free),
        Expr::Store { .. } => by_value(alloc, program, expr, stmt, free),
        Expr::UpdateSlot { .. } => by_value(alloc, program, expr, stmt, free),
        Expr::Update { .. } => by_value(alloc, program, expr, stmt, free),
        Expr::StepSlot { .. } => by_value(alloc, program, expr, stmt, free),
        Expr::Step { .. } => by_value(alloc, program, expr, stmt, free),
        Expr::Call { .. } => by_value(alloc, program, expr, stmt, free),
        Expr::GetByte => by_value(alloc, program, expr, stmt, free),
        Expr::PutByte { .. } => by_value(alloc, program, expr, stmt, free),
        Expr::PutNumber { .. } => by_value(alloc, program, expr, stmt, free),
        Expr::Comma { .. } => by_value(alloc, program, expr, stmt, free),
    }
}

/// The same of an expression that is no condition.
#[cycle(expressions)]
fn by_value(
    alloc: Global,
    program: &Program,
    expr: &Expr,
    stmt: u32,
    free: u32,
) -> Result<Box<Test>, AllocError>
    ensures { IfOk result (λ made. boxed_test_of made ≡ on stmt (e.held true (expr_of expr.now) (e.low (c.program program.now) (expr_of expr.now) stmt (Some free) free)) (e.at true (expr_of expr.now) free)) }
{
    let x = operand(alloc, program, true, expr, stmt, free)?;
    boxed_test(
        alloc,
        Test::On {
            stmt,
            code: x.code,
            register: x.register,
        },
    )
}

fn wanted_address(
    alloc: Global,
    program: &Program,
    of: Storage,
    at: At,
) -> Result<Box<Code>, AllocError>
    ensures { (ty : ValueType) → IfOk result (λ made. boxed_of made ≡ e.low (c.program program.now) (t.address ty of) at.stmt at.to at.free) }
{
    match at.to {
        None => boxed(alloc, Code::Nothing),
        Some(to) => address(alloc, program, at.stmt, to, of),
    }
}

#[cycle(expressions)]
fn element(
    alloc: Global,
    program: &Program,
    array: Array,
    index: &Expr,
    at: At,
) -> Result<Box<Code>, AllocError>
    ensures { (ty : ValueType) → IfOk result (λ made. boxed_of made ≡ e.low (c.program program.now) (t.element ty array.storage array.length array.size array.reach (expr_of index.now)) at.stmt at.to at.free) }
{
    match known_bytes(array, index) {
        Some(bytes) => known_element(alloc, program, array, bytes, at),
        None => {
            let x = operand(alloc, program, true, index, at.stmt, at.free)?;
            indexed(alloc, program, array, x.code, x.register, at)
        }
    }
}

#[cycle(expressions)]
fn load(
    alloc: Global,
    program: &Program,
    ty: ValueType,
    address: &Expr,
    at: At,
) -> Result<Box<Code>, AllocError>
    ensures { IfOk result (λ made. boxed_of made ≡ e.low (c.program program.now) (t.load ty (expr_of address.now)) at.stmt at.to at.free) }
{
    let x = operand(alloc, program, true, address, at.stmt, at.free)?;
    let width = width_of(ty);
    let load = does(
        alloc,
        at.stmt,
        Act::Load {
            width,
            to: at.target(),
            base: x.register,
            offset: 0,
        },
    )?;
    both(alloc, x.code, load)
}

/// A conversion does nothing where no value is lost, or none is wanted.
#[cycle(expressions)]
fn convert(
    alloc: Global,
    program: &Program,
    ty: ValueType,
    inner: &Expr,
    at: At,
) -> Result<Box<Code>, AllocError>
    ensures { IfOk result (λ made. boxed_of made ≡ e.low (c.program program.now) (t.convert ty (expr_of inner.now)) at.stmt at.to at.free) }
{
    match at.to {
        None => low(alloc, program, inner, at),
        Some(to) => {
            if narrows(width_in(inner), width_of(ty)) {
                let x = operand(alloc, program, true, inner, at.stmt, at.free)?;
                let last = does(alloc, at.stmt, cut(width_of(ty), to, x.register))?;
                both(alloc, x.code, last)
            } else {
                low(alloc, program, inner, at)
            }
        }
    }
}

#[cycle(expressions)]
fn unary(
    alloc: Global,
    program: &Program,
    op: Sign,
    rank: Rank,
    inner: &Expr,
    at: At,
) -> Result<Box<Code>, AllocError>
    ensures { IfOk result (λ made. boxed_of made ≡ e.low (c.program program.now) (t.unary op rank (expr_of inner.now)) at.stmt at.to at.free) }
{
    let second = behind(at.free, 1)?;
    let x = operand(alloc, program, true, inner, at.stmt, at.free)?;
    let last = sign(alloc, op, rank, at.stmt, at.target(), second, x.register)?;
    both(alloc, x.code, last)
}

#[cycle(expressions)]
fn not(alloc: Global, program: &Program, inner: &Expr, at: At) -> Result<Box<Code>, AllocError>
    ensures { IfOk result (λ made. boxed_of made ≡ e.low (c.program program.now) (t.not (expr_of inner.now)) at.stmt at.to at.free) }
{
    let second = behind(at.free, 1)?;
    let x = operand(alloc, program, true, inner, at.stmt, at.free)?;
    let zero = does(
        alloc,
        at.stmt,
        Act::Const {
            to: second,
            value: 0,
        },
    )?;
    let last = does(
        alloc,
        at.stmt,
        Act::Equal {
            to: at.target(),
            left: x.register,
            right: second,
        },
    )?;
    let rest = both(alloc, zero, last)?;
    both(alloc, x.code, rest)
}

#[cycle(expressions)]
fn binary(
    alloc: Global,
    program: &Program,
    op: Operation,
    left: &Expr,
    right: &Expr,
    at: At,
) -> Result<Box<Code>, AllocError>
    ensures { (ty : ValueType) → IfOk result (λ made. boxed_of made ≡ e.low (c.program program.now) (t.binary ty op (expr_of left.now) (expr_of right.now)) at.stmt at.to at.free) }
{
    let second = behind(at.free, 1)?;
    let third = behind(at.free, 2)?;
    let x = operand(alloc, program, is_quiet(right), left, at.stmt, at.free)?;
    let y = operand(alloc, program, true, right, at.stmt, second)?;
    let last = operated(
        alloc,
        op,
        at.stmt,
        at.target(),
        third,
        x.register,
        y.register,
    )?;
    let rest = both(alloc, y.code, last)?;
    both(alloc, x.code, rest)
}

#[cycle(expressions)]
fn and(
    alloc: Global,
    program: &Program,
    left: &Expr,
    right: &Expr,
    at: At,
) -> Result<Box<Code>, AllocError>
    ensures { IfOk result (λ made. boxed_of made ≡ e.low (c.program program.now) (t.both (expr_of left.now) (expr_of right.now)) at.stmt at.to at.free) }
{
    match at.to {
        None => {
            let test = tested(alloc, program, left, at.stmt, at.free)?;
            let then = low(alloc, program, right, at)?;
            boxed(
                alloc,
                Code::When {
                    stmt: at.stmt,
                    test,
                    then,
                },
            )
        }
        Some(to) => {
            let first = tested(alloc, program, left, at.stmt, at.free)?;
            let second = tested(alloc, program, right, at.stmt, at.free)?;
            let test = boxed_test(alloc, Test::AllOf(first, second))?;
            truth(alloc, at.stmt, to, test)
        }
    }
}

#[cycle(expressions)]
fn or(
    alloc: Global,
    program: &Program,
    left: &Expr,
    right: &Expr,
    at: At,
) -> Result<Box<Code>, AllocError>
    ensures { IfOk result (λ made. boxed_of made ≡ e.low (c.program program.now) (t.either (expr_of left.now) (expr_of right.now)) at.stmt at.to at.free) }
{
    match at.to {
        None => {
            let test = tested(alloc, program, left, at.stmt, at.free)?;
            let test = boxed_test(alloc, Test::Inverse(test))?;
            let then = low(alloc, program, right, at)?;
            boxed(
                alloc,
                Code::When {
                    stmt: at.stmt,
                    test,
                    then,
                },
            )
        }
        Some(to) => {
            let first = tested(alloc, program, left, at.stmt, at.free)?;
            let second = tested(alloc, program, right, at.stmt, at.free)?;
            let test = boxed_test(alloc, Test::OneOf(first, second))?;
            truth(alloc, at.stmt, to, test)
        }
    }
}

#[cycle(expressions)]
fn conditional(
    alloc: Global,
    program: &Program,
    test: &Expr,
    then: &Expr,
    other: &Expr,
    at: At,
) -> Result<Box<Code>, AllocError>
    ensures { (ty : ValueType) → IfOk result (λ made. boxed_of made ≡ e.low (c.program program.now) (t.conditional ty (expr_of test.now) (expr_of «then».now) (expr_of other.now)) at.stmt at.to at.free) }
{
    let test = tested(alloc, program, test, at.stmt, at.free)?;
    let then = low(alloc, program, then, at)?;
    let other = low(alloc, program, other, at)?;
    chosen(alloc, at.stmt, test, then, other)
}

#[cycle(expressions)]
fn set_slot(
    alloc: Global,
    program: &Program,
    slot: u32,
    value: &Expr,
    at: At,
) -> Result<Box<Code>, AllocError>
    ensures { (ty : ValueType) → IfOk result (λ made. boxed_of made ≡ e.low (c.program program.now) (t.set_slot ty slot (expr_of value.now)) at.stmt at.to at.free) }
{
    let code = low(
        alloc,
        program,
        value,
        At {
            stmt: at.stmt,
            to: Some(slot),
            free: at.free,
        },
    )?;
    let code = some_code(alloc, at.stmt, slot, code)?;
    let last = moved(alloc, at.stmt, at.to, slot)?;
    both(alloc, code, last)
}

#[cycle(expressions)]
fn store(
    alloc: Global,
    program: &Program,
    ty: ValueType,
    address: &Expr,
    value: &Expr,
    at: At,
) -> Result<Box<Code>, AllocError>
    ensures { IfOk result (λ made. boxed_of made ≡ e.low (c.program program.now) (t.store ty (expr_of address.now) (expr_of value.now)) at.stmt at.to at.free) }
{
    let second = behind(at.free, 1)?;
    let x = operand(alloc, program, is_quiet(value), address, at.stmt, at.free)?;
    let y = operand(alloc, program, true, value, at.stmt, second)?;
    let rest = stored(alloc, width_of(ty), x.register, y.register, at)?;
    let rest = both(alloc, y.code, rest)?;
    both(alloc, x.code, rest)
}

#[cycle(expressions)]
fn update_slot(
    alloc: Global,
    program: &Program,
    how: Update,
    slot: u32,
    value: &Expr,
    at: At,
) -> Result<Box<Code>, AllocError>
    ensures { IfOk result (λ made. boxed_of made ≡ e.low (c.program program.now) (t.update_slot how.ty slot how.within how.op (expr_of value.now)) at.stmt at.to at.free) }
{
    let second = behind(at.free, 1)?;
    let third = behind(at.free, 2)?;
    let x = old_slot(alloc, is_quiet(value), at.stmt, slot, at.free)?;
    let y = operand(alloc, program, true, value, at.stmt, second)?;
    let new = how.assigned(alloc, at.stmt, slot, third, x.register, y.register)?;
    let last = moved(alloc, at.stmt, at.to, slot)?;
    let rest = both(alloc, new, last)?;
    let rest = both(alloc, y.code, rest)?;
    both(alloc, x.code, rest)
}

#[cycle(expressions)]
fn update(
    alloc: Global,
    program: &Program,
    how: Update,
    address: &Expr,
    value: &Expr,
    at: At,
) -> Result<Box<Code>, AllocError>
    ensures { IfOk result (λ made. boxed_of made ≡ e.low (c.program program.now) (t.update how.ty (expr_of address.now) how.within how.op (expr_of value.now)) at.stmt at.to at.free) }
{
    let third = behind(at.free, 2)?;
    let x = operand(alloc, program, is_quiet(value), address, at.stmt, at.free)?;
    let y = operand(alloc, program, true, value, at.stmt, third)?;
    updated(alloc, how, x, y, at)
}

#[cycle(expressions)]
fn step(
    alloc: Global,
    program: &Program,
    how: Update,
    address: &Expr,
    at: At,
) -> Result<Box<Code>, AllocError>
    ensures { IfOk result (λ made. boxed_of made ≡ e.low (c.program program.now) (t.step how.ty (expr_of address.now) how.within how.op) at.stmt at.to at.free) }
{
    let x = operand(alloc, program, true, address, at.stmt, at.free)?;
    stepped(alloc, how, x, at)
}

#[cycle(expressions)]
fn call(
    alloc: Global,
    program: &Program,
    function: u32,
    arguments: &[Expr],
    at: At,
) -> Result<Box<Code>, AllocError>
    ensures { (ty : ValueType) → IfOk result (λ made. boxed_of made ≡ e.low (c.program program.now) (t.call ty function (list_exps arguments.now)) at.stmt at.to at.free) }
{
    let mut registers = Vec::new(alloc);
    let code = passed(alloc, program, arguments, at.stmt, at.free, &mut registers)?;
    let args = Regs::keep(SmallVec::from_slice(alloc, registers.as_slice())?);
    let last = boxed(
        alloc,
        Code::Calls {
            stmt: at.stmt,
            to: at.to,
            func: function,
            args,
        },
    )?;
    both(alloc, code, last)
}

/// The code of arguments, and the registers that their values are in. A call has few.
#[cycle(expressions)]
#[tactic(auto, using(crate::proofs::Lists::weighs, crate::proofs::Lists::first_weighs))]
fn passed(
    alloc: Global,
    program: &Program,
    list: &[Expr],
    stmt: u32,
    free: u32,
    registers: &mut Vec<u32>,
) -> Result<Box<Code>, AllocError>
    ensures code { IfOk result (λ made. boxed_of made ≡ e.low_all (c.program program.now) (list_exps list.now) stmt free) }
    ensures registers { OnOk result (registers.new.items ≡ registers.old.items ++ e.passed (list_exps list.now) free) }
{
    match first_expr(list) {
        None => boxed(alloc, Code::Nothing),
        Some((first, others)) => {
            let is_kept = are_quiet(others);
            let next = behind_operand(is_kept, first, free)?;
            let x = operand(alloc, program, is_kept, first, stmt, free)?;
            registers.push(x.register)?;
            let rest = passed(alloc, program, others, stmt, next, registers)?;
            both(alloc, x.code, rest)
        }
    }
}

#[cycle(expressions)]
fn put_byte(alloc: Global, program: &Program, value: &Expr, at: At) -> Result<Box<Code>, AllocError>
    ensures { IfOk result (λ made. boxed_of made ≡ e.low (c.program program.now) (t.put_byte (expr_of value.now)) at.stmt at.to at.free) }
{
    let x = operand(alloc, program, true, value, at.stmt, at.free)?;
    let put = does(alloc, at.stmt, Act::PutByte { from: x.register })?;
    let rest = match at.to {
        None => put,
        Some(to) => {
            let byte = does(
                alloc,
                at.stmt,
                Act::ExtByte {
                    to,
                    from: x.register,
                },
            )?;
            both(alloc, put, byte)?
        }
    };
    both(alloc, x.code, rest)
}

#[cycle(expressions)]
fn put_number(
    alloc: Global,
    program: &Program,
    value: &Expr,
    at: At,
) -> Result<Box<Code>, AllocError>
    ensures { IfOk result (λ made. boxed_of made ≡ e.low (c.program program.now) (t.put_number (expr_of value.now)) at.stmt at.to at.free) }
{
    let x = operand(alloc, program, true, value, at.stmt, at.free)?;
    let put = does(alloc, at.stmt, Act::PutNumber { from: x.register })?;
    let last = number(alloc, at.stmt, at.to, 0)?;
    let rest = both(alloc, put, last)?;
    both(alloc, x.code, rest)
}

#[cycle(expressions)]
fn comma(
    alloc: Global,
    program: &Program,
    parts: &[Expr],
    last: &Expr,
    at: At,
) -> Result<Box<Code>, AllocError>
    ensures { IfOk result (λ made. boxed_of made ≡ e.low (c.program program.now) (t.comma (list_exps parts.now) (expr_of last.now)) at.stmt at.to at.free) }
{
    let first = effects(alloc, program, parts, at.stmt, at.free)?;
    let last = low(alloc, program, last, at)?;
    both(alloc, first, last)
}

/// Expressions one after the other, for what they do.
#[cycle(expressions)]
pub fn effects(
    alloc: Global,
    program: &Program,
    list: &[Expr],
    stmt: u32,
    free: u32,
) -> Result<Box<Code>, AllocError>
    ensures { IfOk result (λ made. boxed_of made ≡ e.effects (c.program program.now) (list_exps list.now) stmt free) }
{
    let at = At {
        stmt,
        to: None,
        free,
    };
    match last_expr(list) {
        None => boxed(alloc, Code::Nothing),
        Some((last, first)) => {
            let mut made = Vec::new(alloc);
            for expr in first {
                let code = low(alloc, program, expr, at)?;
                made.push(Box::into_inner(code))?;
            }
            let last = low(alloc, program, last, at)?;
            row(alloc, made, last)
        }
    }
}
