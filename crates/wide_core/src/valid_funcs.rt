ghost use Rattle.std.specs.Prelude.{◌≡◌, ℕ, ◌+◌, ◌<◌, ◌^◌, ◌||◌, ◌&&◌, List, ◌++◌, ◌∷◌, [], length, None, slice_get, bytes_eq, not, IfOk};
ghost use Rattle.std.specs.List.{list_all, list_any};
ghost use Rattle.wide_core.specs.Valid.{broken, differ, has_good_sizes, is_digit, is_letter, is_name, is_within, limits, lines_of_func, lines_of_funcs, numbers_in, of_func, of_funcs, rules_of_func};

use crate::code::{Loc, WideFunc};
use crate::rule::{BrokenRule, Rule, first_broken};
use crate::rules::{Scope, is_within};
use crate::seen::{Names, Numbers, Places};
use crate::valid::broken_words;
use machine_desc::Machine;
use std::alloc::{AllocError, Global};

const MOST_FRAME: u32 = 262_144;

const MOST_SLOTS: u32 = 1_048_576;

const MOST_PARAMS: usize = 8;

/// The names of functions and the numbers of operations that were met.
#[derive(Drop)]
pub(crate) struct Seen<'a> {
    pub names: Names<'a>,
    pub numbers: Numbers,
}

/// The first rule that is broken in functions, from the line of the first of them on.
pub(crate) fn broken_funcs<'a, M: Machine>(
    alloc: Global,
    funcs: &'a [WideFunc],
    seen: &mut Seen<'a>,
    line: u32,
) -> Result<Option<BrokenRule>, AllocError>
    requires { line + lines_of_funcs funcs.now < 2 ^ 32 }
    ensures { IfOk result (λ first. first ≡ slice_get (of_funcs (limits M.WIDTH M.REGS M.units_of) funcs.now seen.old.names seen.old.numbers line funcs.now) 0) }
{
    let mut at = line;
    for func in funcs {
        let first = broken_func::<M>(alloc, funcs, seen, at, func)?;
        if first.is_some() {
            return Ok(first);
        }
        at += lines_of_func(func);
    }
    Ok(None)
}

pub(crate) fn lines_of_func(func: &WideFunc) -> u32
    requires { lines_of_func func.now < 2 ^ 32 }
    ensures { result ≡ lines_of_func func.now }
{
    let mut lines = 1;
    for word in func.words.as_slice() {
        lines += word.ops.len() as u32 + 1;
    }
    lines
}

fn broken_func<'a, M: Machine>(
    alloc: Global,
    funcs: &'a [WideFunc],
    seen: &mut Seen<'a>,
    line: u32,
    func: &'a WideFunc,
) -> Result<Option<BrokenRule>, AllocError>
    requires { line + lines_of_func func.now < 2 ^ 32 }
    ensures first { IfOk result (λ first. first ≡ slice_get (of_func (limits M.WIDTH M.REGS M.units_of) funcs.now seen.old.names seen.old.numbers line func.now) 0) }
    ensures names { IfOk result (λ first. first ≡ None → seen.new.names ≡ seen.old.names ++ func.now.name ∷ []) }
    ensures numbers { IfOk result (λ first. first ≡ None → seen.new.numbers ≡ seen.old.numbers ++ numbers_in func.now.words) }
{
    let first = broken_head::<M>(alloc, &mut seen.names, line, func)?;
    if first.is_some() {
        return Ok(first);
    }
    let scope = Scope::new(M::REGS, funcs, func);
    broken_words::<M>(&scope, &mut seen.numbers, line + 1, func.words.as_slice())
}

/// The first rule that is broken at a function's own line.
fn broken_head<'a, M: Machine>(
    alloc: Global,
    names: &mut Names<'a>,
    line: u32,
    func: &'a WideFunc,
) -> Result<Option<BrokenRule>, AllocError>
    ensures first { IfOk result (λ first. first ≡ slice_get (broken line (rules_of_func (limits M.WIDTH M.REGS M.units_of) names.old func.now)) 0) }
    ensures names { IfOk result (λ first. first ≡ None → names.new ≡ names.old ++ func.now.name ∷ []) }
{
    let params = func.params.as_slice();
    let are_apart = differ(alloc, params)?;
    let is_new = names.add(func.name.list())?;
    let rules = [
        Rule::new(1, are_within(M::REGS, func.slots, params)),
        Rule::new(3, are_apart),
        Rule::new(8, is_name(func.name.list()) && is_new),
        Rule::new(9, has_good_sizes(func)),
    ];
    Ok(first_broken(line, &rules))
}

fn are_within(regs: usize, slots: u32, locs: &[Loc]) -> bool
    ensures { result ≡ list_all (is_within regs slots) locs.now }
{
    for loc in locs {
        if !is_within(regs, slots, *loc) {
            return false;
        }
    }
    true
}

fn differ(alloc: Global, locs: &[Loc]) -> Result<bool, AllocError>
    ensures { IfOk result (λ apart. apart ≡ differ [] locs.now) }
{
    let mut places = Places::new(alloc);
    for loc in locs {
        let is_new = places.add(*loc)?;
        if !is_new {
            return Ok(false);
        }
    }
    Ok(true)
}

fn is_letter(byte: u8) -> bool
    ensures { result ≡ is_letter byte }
{
    (65 <= byte && byte <= 90) || (97 <= byte && byte <= 122) || byte == 95
}

fn is_digit(byte: u8) -> bool
    ensures { result ≡ is_digit byte }
{
    48 <= byte && byte <= 57
}

fn are_name_bytes(bytes: &[u8]) -> bool
    ensures { result ≡ list_all (λ c. is_letter c || is_digit c) bytes.now }
{
    for byte in bytes {
        if !(is_letter(*byte) || is_digit(*byte)) {
            return false;
        }
    }
    true
}

fn is_name(bytes: &[u8]) -> bool
    ensures { result ≡ is_name bytes.now }
{
    match bytes {
        [] => false,
        [first, rest @ ..] => is_letter(*first) && are_name_bytes(rest),
    }
}

fn has_good_sizes(func: &WideFunc) -> bool
    ensures { result ≡ has_good_sizes func.now }
{
    func.frame <= MOST_FRAME
        && func.frame % 16 == 0
        && func.slots <= MOST_SLOTS
        && func.params.len() <= MOST_PARAMS
        && 1 <= func.words.len()
}
