ghost use Rattle.std.specs.Prelude.{◌≡◌, ℕ, ◌+◌, ◌<◌, ◌^◌, ◌==◌, ◌||◌, ◌&&◌, not, nat_le, List, ◌++◌, ◌∷◌, [], map, length, None, slice_get, bytes_eq, IfOk};
ghost use Rattle.std.specs.List.{list_all, list_any};
ghost use Rattle.machine_desc.specs.declared.machine.OpClass.{OpClass};
ghost use Rattle.wide_core.specs.Valid.{always_leaves, broken, count_of, fits_word, limits, lines_of_words, numbers_in, numbers_of, of_ops, of_word, of_words, rules_of_word, same_class};

use crate::code::{WideAct, WideOp, Word};
use crate::rule::{BrokenRule, Rule, first_broken};
use crate::rules::Scope;
use crate::seen::Numbers;
use machine_desc::{Machine, OpClass};
use std::alloc::AllocError;

/// The first rule that is broken in a word, from the line of its number of operations on.
fn broken_word<M: Machine>(
    scope: &Scope,
    numbers: &mut Numbers,
    line: u32,
    last: bool,
    ops: &[WideOp],
) -> Result<Option<BrokenRule>, AllocError>
    requires { line + length ops.now + 1 < 2 ^ 32 }
    ensures first { IfOk result (λ first. first ≡ slice_get (of_word (limits M.WIDTH M.REGS M.units_of) scope.now numbers.old line last ops.now) 0) }
    ensures numbers { IfOk result (λ first. first ≡ None → numbers.new ≡ numbers.old ++ numbers_of ops.now) }
{
    let rules = [
        Rule::new(2, fits_word::<M>(ops)),
        Rule::new(4, !last || leaves(ops)),
    ];
    let first = first_broken(line, &rules);
    if first.is_some() {
        return Ok(first);
    }
    broken_ops(scope, numbers, line + 1, ops)
}

/// The first rule that is broken in a function's words.
pub(crate) fn broken_words<M: Machine>(
    scope: &Scope,
    numbers: &mut Numbers,
    line: u32,
    words: &[Word],
) -> Result<Option<BrokenRule>, AllocError>
    requires { line + lines_of_words words.now < 2 ^ 32 }
    ensures first { IfOk result (λ first. first ≡ slice_get (of_words (limits M.WIDTH M.REGS M.units_of) scope.now numbers.old line words.now) 0) }
    ensures numbers { IfOk result (λ first. first ≡ None → numbers.new ≡ numbers.old ++ numbers_in words.now) }
{
    let mut at = line;
    for (i, word) in words.iter().enumerate() {
        let ops = word.ops.as_slice();
        let first = broken_word::<M>(scope, numbers, at, i + 1 == words.len(), ops)?;
        if first.is_some() {
            return Ok(first);
        }
        at += ops.len() as u32 + 1;
    }
    Ok(None)
}

fn broken_ops(
    scope: &Scope,
    numbers: &mut Numbers,
    line: u32,
    ops: &[WideOp],
) -> Result<Option<BrokenRule>, AllocError>
    requires { line + length ops.now < 2 ^ 32 }
    ensures first { IfOk result (λ first. first ≡ slice_get (of_ops scope.now numbers.old [] line ops.now) 0) }
    ensures numbers { IfOk result (λ first. first ≡ None → numbers.new ≡ numbers.old ++ numbers_of ops.now) }
{
    for (i, op) in ops.iter().enumerate() {
        let first = scope.broken_op(numbers, &ops[..i], line + i as u32, op)?;
        if first.is_some() {
            return Ok(first);
        }
    }
    Ok(None)
}

fn leaves(ops: &[WideOp]) -> bool
    ensures { result ≡ list_any always_leaves ops.now }
{
    for op in ops {
        if always_leaves(op) {
            return true;
        }
    }
    false
}

fn always_leaves(op: &WideOp) -> bool
    ensures { result ≡ always_leaves op.now }
{
    match op.act {
        WideAct::Jump { .. } => true,
        WideAct::Call { .. } => true,
        WideAct::Return(_) => true,
        _ => false,
    }
}

fn same_class(a: OpClass, b: OpClass) -> bool
    ensures { result ≡ same_class a b }
{
    a == b
}

fn count_of(class: OpClass, ops: &[WideOp]) -> usize
    ensures { result ≡ count_of class ops.now }
{
    let mut count = 0;
    for op in ops {
        if same_class(class, op.act.class()) {
            count += 1;
        }
    }
    count
}

fn has_units<M: Machine>(class: OpClass, ops: &[WideOp]) -> bool
    ensures { result ≡ nat_le (count_of class ops.now) (M.units_of class) }
{
    count_of(class, ops) <= M::units(class)
}

fn fits_word<M: Machine>(ops: &[WideOp]) -> bool
    ensures { result ≡ fits_word (limits M.WIDTH M.REGS M.units_of) ops.now }
{
    1 <= ops.len()
        && ops.len() <= M::WIDTH
        && has_units::<M>(OpClass::Alu, ops)
        && has_units::<M>(OpClass::Mul, ops)
        && has_units::<M>(OpClass::Mem, ops)
        && has_units::<M>(OpClass::Io, ops)
        && has_units::<M>(OpClass::Control, ops)
}
