ghost use Rattle.std.specs.Prelude.{◌≡◌, ℕ, ◌==◌, ◌||◌, ◌&&◌, not, nat_lt, List, ◌++◌, ◌∷◌, [], map, length, None, slice_get, IfOk};
ghost use Rattle.wide_core.specs.Classes.{is_register};
ghost use Rattle.std.specs.List.{list_all, list_any};
ghost use Rattle.wide_core.specs.Cycle.{target_if, touched};
ghost use Rattle.wide_core.specs.Operation.{reg_if, sources, target};
ghost use Rattle.wide_core.specs.Places.{same_loc};
ghost use Rattle.wide_core.specs.Valid.{broken, calls_well, goes_within, has_good_number, is_offset, is_within, rules_of_op, same_target, takes};

use crate::code::{Loc, WideAct, WideFunc, WideOp};
use crate::rule::{BrokenRule, Rule, first_broken};
use crate::seen::Numbers;
use ib_act::Act;
use sqlite_items::at;
use std::alloc::AllocError;
use std::marker::Model;

/// How far an access may reach from its base, in bytes.
const REACH: i64 = 1_048_576;

/// What the operations of a function may name.
#[derive(Drop)]
pub(crate) struct Scope<'a> {
    regs: usize,
    slots: u32,
    words: usize,
    funcs: &'a [WideFunc],
}

impl<'a> Model for Scope<'a> {
    ghost use Rattle.wide_core.specs.Valid.{Scope};

    ghost Value = { Scope };

    ghost view = { λ s. record { regs = s.regs; slots = s.slots; words = s.words; funcs = s.funcs.now } };
}

impl<'a> Scope<'a> {
    pub fn new(regs: usize, funcs: &'a [WideFunc], func: &WideFunc) -> Scope<'a>
        ensures { result ≡ record { regs = regs; slots = func.now.slots; words = length func.now.words; funcs = funcs.now } }
    {
        Scope {
            regs,
            slots: func.slots,
            words: func.words.len(),
            funcs,
        }
    }

    /// The first rule that is broken at an operation behind others of its word, and behind operations with these numbers.
    pub fn broken_op(
        &self,
        numbers: &mut Numbers,
        earlier: &[WideOp],
        line: u32,
        op: &WideOp,
    ) -> Result<Option<BrokenRule>, AllocError>
        ensures first { IfOk result (λ first. first ≡ slice_get (broken line (rules_of_op self.now numbers.old earlier.now op.now)) 0) }
        ensures numbers { IfOk result (λ first. first ≡ None → numbers.new ≡ numbers.old ++ op.now.number ∷ []) }
    {
        let is_new = numbers.add(op.number)?;
        let rules = self.rules_of_op(is_new, earlier, op);
        Ok(first_broken(line, &rules))
    }

    fn rules_of_op(&self, is_new: bool, earlier: &[WideOp], op: &WideOp) -> [Rule; 7]
        ensures { (numbers : List ℕ) → is_new ≡ not (list_any (λ other. op.now.number == other) numbers) → result ≡ rules_of_op self.now numbers earlier.now op.now }
    {
        [
            Rule::new(1, touches_within(self.regs, self.slots, &op.act)),
            Rule::new(3, !is_written(earlier, op.act.target())),
            Rule::new(4, goes_within(self.words, &op.act)),
            Rule::new(5, calls_well(self.funcs, &op.act)),
            Rule::new(6, is_flagged_well(op)),
            Rule::new(7, is_number(op.number, is_new)),
            Rule::new(10, has_good_number(&op.act)),
        ]
    }
}

fn is_flagged_well(op: &WideOp) -> bool
    ensures { result ≡ (not op.now.flagged || is_register op.now.act) }
{
    !op.flagged || op.act.is_register()
}

fn is_number(number: u32, is_new: bool) -> bool
    ensures { result ≡ (nat_lt 0 number && is_new) }
{
    0 < number && is_new
}

/// Whether the place is among so many registers and slots.
pub(crate) fn is_within(regs: usize, slots: u32, loc: Loc) -> bool
    ensures { result ≡ is_within regs slots loc }
{
    match loc {
        Loc::Reg(reg) => (reg as usize) < regs,
        Loc::Slot(slot) => slot < slots,
    }
}

fn target_within(regs: usize, slots: u32, target: Option<Loc>) -> bool
    ensures { result ≡ list_all (is_within regs slots) (target_if target) }
{
    match target {
        None => true,
        Some(loc) => is_within(regs, slots, loc),
    }
}

fn reg_within(regs: usize, slots: u32, reg: Option<u32>) -> bool
    ensures { result ≡ list_all (is_within regs slots) (reg_if reg) }
{
    match reg {
        None => true,
        Some(reg) => is_within(regs, slots, Loc::Reg(reg)),
    }
}

fn args_within(regs: usize, slots: u32, args: &[u32]) -> bool
    ensures { result ≡ list_all (is_within regs slots) (map (λ r. Loc.Reg r) args.now) }
{
    for arg in args {
        if !is_within(regs, slots, Loc::Reg(*arg)) {
            return false;
        }
    }
    true
}

fn sources_within(regs: usize, slots: u32, act: &WideAct) -> bool
    ensures { result ≡ list_all (is_within regs slots) (sources act.now) }
{
    match act {
        WideAct::Do(act) => {
            reg_within(regs, slots, act.first_source())
                && reg_within(regs, slots, act.second_source())
        }
        WideAct::Spill { from, .. } => is_within(regs, slots, Loc::Reg(*from)),
        WideAct::Reload { from, .. } => is_within(regs, slots, Loc::Slot(*from)),
        WideAct::Check { from } => is_within(regs, slots, Loc::Reg(*from)),
        WideAct::Jump { .. } => true,
        WideAct::Branch { from, .. } => is_within(regs, slots, Loc::Reg(*from)),
        WideAct::BranchZero { from, .. } => is_within(regs, slots, Loc::Reg(*from)),
        WideAct::Call { args, .. } => args_within(regs, slots, args.as_slice()),
        WideAct::Return(from) => reg_within(regs, slots, *from),
    }
}

fn touches_within(regs: usize, slots: u32, act: &WideAct) -> bool
    ensures { result ≡ list_all (is_within regs slots) (touched act.now) }
{
    target_within(regs, slots, act.target()) && sources_within(regs, slots, act)
}

fn same_loc(a: Loc, b: Loc) -> bool
    ensures { result ≡ same_loc a b }
{
    match (a, b) {
        (Loc::Reg(a), Loc::Reg(b)) => a == b,
        (Loc::Slot(a), Loc::Slot(b)) => a == b,
        (Loc::Reg(_), Loc::Slot(_)) => false,
        (Loc::Slot(_), Loc::Reg(_)) => false,
    }
}

fn same_target(a: Option<Loc>, b: Option<Loc>) -> bool
    ensures { result ≡ same_target a b }
{
    match (a, b) {
        (Some(a), Some(b)) => same_loc(a, b),
        _ => false,
    }
}

fn is_written(ops: &[WideOp], loc: Option<Loc>) -> bool
    ensures { result ≡ list_any (λ (other : WideOp). same_target loc (target other.act)) ops.now }
{
    for op in ops {
        if same_target(loc, op.act.target()) {
            return true;
        }
    }
    false
}

fn goes_within(words: usize, act: &WideAct) -> bool
    ensures { result ≡ goes_within words act.now }
{
    match act {
        WideAct::Jump { to } => (*to as usize) < words,
        WideAct::Branch { to, .. } => (*to as usize) < words,
        WideAct::BranchZero { to, .. } => (*to as usize) < words,
        WideAct::Call { next, .. } => (*next as usize) < words,
        _ => true,
    }
}

fn takes(funcs: &[WideFunc], func: u32, args: usize) -> bool
    ensures { result ≡ takes (slice_get funcs.now func) args }
{
    match at(funcs, func as usize) {
        None => false,
        Some(func) => args == func.params.len(),
    }
}

fn calls_well(funcs: &[WideFunc], act: &WideAct) -> bool
    ensures { result ≡ calls_well funcs.now act.now }
{
    match act {
        WideAct::Call { func, args, .. } => takes(funcs, *func, args.len()),
        _ => true,
    }
}

fn is_offset(offset: i64) -> bool
    ensures { result ≡ is_offset offset }
{
    -REACH <= offset && offset <= REACH
}

fn has_good_number(act: &WideAct) -> bool
    ensures { result ≡ has_good_number act.now }
{
    match act {
        WideAct::Do(Act::Load { offset, .. }) => is_offset(*offset),
        WideAct::Do(Act::Store { offset, .. }) => is_offset(*offset),
        WideAct::Do(Act::Bounds { bound, .. }) => 1 <= *bound,
        _ => true,
    }
}
