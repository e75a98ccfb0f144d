ghost use Rattle.std.specs.Prelude.{◌≡◌, ◌+◌, ◌<◌, ◌^◌, nat_le, length, [], ◌∷◌, slice_get, IfOk, IfErr};
ghost use Rattle.std.specs.List.{list_any};
ghost use Rattle.wide_core.specs.Valid.{IsValid, broken, broken_rules, first_func_line, image_line, is_entry, limits, lines_of_funcs, notes_line, of_funcs, rule, text_lines};
ghost use Rattle.wide_core.specs.Refusals.{Refuses};

use crate::code::{RawCode, WideFunc};
use crate::rule::{BrokenRule, Rule, first_broken};
use crate::seen::{Names, Numbers};
use crate::valid_funcs::{Seen, broken_funcs, lines_of_func};
use machine_desc::Machine;
use std::alloc::{AllocError, Global};
use std::marker::{Model, PhantomData};
use thiserror::Error;

const MOST_IMAGE: usize = 524_288;

/// The line of the code's text that has the image's length.
const IMAGE_LINE: u32 = 3;

/// Why code is not taken.
#[derive(Clone, Copy, PartialEq, Eq, Debug, Error)]
pub enum ValidErr {
    /// A rule is broken: the first line of the code's text where one is, and the least rule there.
    #[error("line {line} of the code breaks rule {rule}")]
    Broken { line: u32, rule: u8 },
    #[error("there is not enough memory to check the code")]
    NoMemory,
}

impl From<AllocError> for ValidErr {
    ghost use Rattle.std.specs.Prelude.{◌≡◌};
    ghost use Rattle.wide_core.specs.declared.wide_code.ValidErr.{ValidErr};

    ghost from_gives = { λ error result. result ≡ ValidErr.NoMemory };

    fn from(_error: AllocError) -> ValidErr {
        ValidErr::NoMemory
    }
}

/// Code that keeps the rules on the machine `M`.
#[derive(Drop)]
pub struct WideCode<M: Machine> {
    raw: RawCode,
    machine: PhantomData<M>,
}

impl<M: Machine> Model for WideCode<M> {
    ghost use Rattle.wide_core.specs.declared.code.RawCode.{RawCode};
    ghost use Rattle.wide_core.specs.Valid.{IsValid, limits};

    ghost Value = { RawCode };

    ghost view = { λ code. code.raw };

    ghost invariant = { λ code. IsValid (limits M.WIDTH M.REGS M.units_of) code.raw };
}

impl<M: Machine> WideCode<M> {
    /// The code, if it keeps the rules; else it is dropped.
    pub fn validate(alloc: Global, raw: RawCode) -> Result<WideCode<M>, ValidErr>
        requires { text_lines raw < 2 ^ 32 }
        ensures code { IfOk result (λ code. code ≡ raw) }
        ensures valid { IfOk result (λ code. IsValid (limits M.WIDTH M.REGS M.units_of) raw) }
        ensures broken { IfErr result (Refuses (broken_rules (limits M.WIDTH M.REGS M.units_of) raw)) }
    {
        match broken_code::<M>(alloc, &raw)? {
            Some(first) => Err(ValidErr::Broken {
                line: first.line,
                rule: first.rule,
            }),
            None => Ok(WideCode {
                raw,
                machine: PhantomData,
            }),
        }
    }

    /// Code that is known to keep the rules.
    pub fn keep(raw: RawCode) -> WideCode<M>
        requires { IsValid (limits M.WIDTH M.REGS M.units_of) raw }
        ensures { result ≡ raw }
    {
        WideCode {
            raw,
            machine: PhantomData,
        }
    }

    /// The code, to be read.
    pub fn raw(&self) -> &RawCode
        ensures code { result.now ≡ self.now }
        ensures valid { IsValid (limits M.WIDTH M.REGS M.units_of) self.now }
    {
        &self.raw
    }
}

fn broken_code<M: Machine>(alloc: Global, code: &RawCode) -> Result<Option<BrokenRule>, AllocError>
    requires { text_lines code.now < 2 ^ 32 }
    ensures { IfOk result (λ first. first ≡ slice_get (broken_rules (limits M.WIDTH M.REGS M.units_of) code.now) 0) }
{
    let first = broken_image(code);
    if first.is_some() {
        return Ok(first);
    }
    let first = broken_in_funcs::<M>(alloc, code.funcs.as_slice(), first_func_line(code))?;
    if first.is_some() {
        return Ok(first);
    }
    Ok(broken_notes(code))
}

fn broken_image(code: &RawCode) -> Option<BrokenRule>
    ensures { result ≡ slice_get (broken image_line (rule 9 (nat_le (length code.now.image) 524288) ∷ [])) 0 }
{
    let kept = code.image.len() <= MOST_IMAGE;
    first_broken(IMAGE_LINE, &[Rule::new(9, kept)])
}

fn broken_in_funcs<M: Machine>(
    alloc: Global,
    funcs: &[WideFunc],
    line: u32,
) -> Result<Option<BrokenRule>, AllocError>
    requires { line + lines_of_funcs funcs.now < 2 ^ 32 }
    ensures { IfOk result (λ first. first ≡ slice_get (of_funcs (limits M.WIDTH M.REGS M.units_of) funcs.now [] [] line funcs.now) 0) }
{
    let mut seen = Seen {
        names: Names::new(alloc),
        numbers: Numbers::new(alloc),
    };
    broken_funcs::<M>(alloc, funcs, &mut seen, line)
}

fn broken_notes(code: &RawCode) -> Option<BrokenRule>
    requires { text_lines code.now < 2 ^ 32 }
    ensures { result ≡ slice_get (broken (notes_line code.now) (rule 8 (list_any is_entry code.now.funcs) ∷ [])) 0 }
{
    let kept = has_entry(code.funcs.as_slice());
    first_broken(notes_line(code), &[Rule::new(8, kept)])
}

fn first_func_line(code: &RawCode) -> u32
    requires { notes_line code.now < 2 ^ 32 }
    ensures { result ≡ first_func_line code.now }
{
    ((code.image.len() + 31) / 32 + 5) as u32
}

fn notes_line(code: &RawCode) -> u32
    requires { notes_line code.now < 2 ^ 32 }
    ensures { result ≡ notes_line code.now }
{
    let mut line = first_func_line(code);
    for func in code.funcs.as_slice() {
        line += lines_of_func(func);
    }
    line
}

fn is_entry(func: &WideFunc) -> bool
    ensures { result ≡ is_entry func.now }
{
    func.name.list() == b"main".as_slice() && func.params.is_empty()
}

fn has_entry(funcs: &[WideFunc]) -> bool
    ensures { result ≡ list_any is_entry funcs.now }
{
    for func in funcs {
        if is_entry(func) {
            return true;
        }
    }
    false
}
