ghost use Rattle.std.specs.Prelude.{◌≡◌, ℕ, Bool, Option, true, pos, ◌∷◌, [], length, map, Some, None, Ok, Err, if◌then◌else◌};
ghost use Rattle.std.specs.List.{list_all};
ghost use Rattle.ib_act.specs.Acts.{bytes_in, first_source, second_source};
ghost use Rattle.ib_mem.specs.Memory.{can_access};
ghost use Rattle.wide_core.specs.Bytes.{byte_of};
ghost use Rattle.wide_core.specs.Operation.{Around, by_rule, does_act, is_zero, keeps_mark, own_by, reg_if, reg_of, sources, value_of, writes};
ghost use Rattle.wide_core.specs.Tagged.{evaluated, least_mark, number_of};
ghost use Rattle.wide_core.specs.Valid.{is_within};
ghost use Rattle.wide_core.specs.Word.{effect};
ghost use Rattle.wide_sim.specs.Next.{has_args};
ghost use Rattle.wide_sim.specs.Planned.{effect_of, shown_call};
ghost use Rattle.wide_sim.specs.Quiet.{is_quiet, is_quiet_act, is_quiet_plan};
ghost use Rattle.wide_sim.specs.Site.{around, room_at};
ghost use Rattle.wide_sim.specs.Store.{held, holds};

use crate::planned::Planned;
use crate::site::Site;
use crate::store::Store;
use ib_act::{Act, address, bytes_in};
use ib_base::{FaultKind, Width};
use ib_mem::Memory;
use wide_core::{Done, Loc, Tagged, WideAct, WideOp, evaluate, first_mark};

pub(crate) fn number_of(value: Tagged) -> i64
    ensures { result ≡ number_of value }
{
    match value {
        Tagged::Clear(number) => number,
        Tagged::Mark { .. } => 0,
    }
}

/// The value of a register that may be missing.
fn value_if(values: &Store<Tagged>, reg: Option<u32>) -> Tagged
    requires { list_all (is_within (length values.now.regs) (length values.now.slots)) (reg_if reg) ≡ true }
    ensures { result ≡ value_of (map (held (Tagged.Clear (pos 0)) values.now) (reg_if reg)) }
{
    match reg {
        Some(reg) => values.get(Loc::Reg(reg)),
        None => Tagged::Clear(0),
    }
}

/// An operation's own value or fault, from its sources' numbers.
fn own_by(act: Act, base: u32, memory: &Memory, x: i64, y: i64) -> Result<i64, FaultKind>
    ensures { result ≡ own_by act base memory.now x y }
{
    match act {
        Act::Store { width, offset, .. } => stored(memory, width, address(x, offset), y),
        _ => act.value(base, memory, x, y),
    }
}

fn stored(memory: &Memory, width: Width, at: i64, value: i64) -> Result<i64, FaultKind>
    ensures { result ≡ (if can_access at (bytes_in width) then Ok value else Err FaultKind.BadAddress) }
{
    match memory.load(at, bytes_in(width)) {
        Some(_) => Ok(value),
        None => Err(FaultKind::BadAddress),
    }
}

fn byte_of(number: i64) -> u8
    ensures { result ≡ byte_of number }
{
    number.rem_euclid(256) as u8
}

/// The tag rule where no source is marked.
fn unmarked(op: &WideOp, own: Result<i64, FaultKind>) -> Done
    ensures { result ≡ evaluated op.now.flagged op.now.number (Tagged.Clear (pos 0)) own }
{
    match own {
        Ok(value) => Done::Value(value),
        Err(kind) if op.flagged => Done::Marked {
            number: op.number,
            kind,
        },
        Err(kind) => Done::Report {
            number: op.number,
            kind,
        },
    }
}

/// The tag rule of an operation with one source, which gives its number.
fn done_by_one(op: &WideOp, value: Tagged) -> Done
    ensures { result ≡ evaluated op.now.flagged op.now.number (least_mark (value ∷ [])) (Ok (number_of value)) }
{
    match value {
        Tagged::Clear(number) => Done::Value(number),
        Tagged::Mark { .. } => evaluate(op, &[value], Ok(0)),
    }
}

/// The tag rule of an operation with two sources, or fewer where one is a clear number.
fn done_by_two(op: &WideOp, first: Tagged, second: Tagged, own: Result<i64, FaultKind>) -> Done
    ensures { result ≡ evaluated op.now.flagged op.now.number (least_mark (first ∷ second ∷ [])) own }
{
    match (first, second) {
        (Tagged::Clear(_), Tagged::Clear(_)) => unmarked(op, own),
        _ => evaluate(op, &[first, second], own),
    }
}

/// What the operation is to do, from the state before its word.
pub(crate) fn plan_op<'a>(
    site: &Site,
    memory: &Memory,
    values: &Store<Tagged>,
    op: &'a WideOp,
) -> Planned<'a>
    requires { list_all (is_within (length values.now.regs) (length values.now.slots)) (sources op.now.act) ≡ true }
    ensures effect { effect_of (held (Tagged.Clear (pos 0)) values.now) result ≡ effect (around site.now memory.now) (held (Tagged.Clear (pos 0)) values.now) op.now }
    ensures args { has_args (length values.now.regs) (length values.now.slots) result ≡ true }
    ensures quiet { is_quiet op.now.act ≡ true → is_quiet_plan result ≡ true }
{
    match &op.act {
        WideAct::Do(act) => plan_act(site.base(), memory, values, op, *act),
        WideAct::Spill { to, from } => Planned::Write {
            to: Loc::Slot(*to),
            value: values.get(Loc::Reg(*from)),
        },
        WideAct::Reload { to, from } => Planned::Write {
            to: Loc::Reg(*to),
            value: values.get(Loc::Slot(*from)),
        },
        WideAct::Check { from } => plan_check(op, values.get(Loc::Reg(*from))),
        WideAct::Jump { to } => Planned::Jump { to: *to },
        WideAct::Branch { from, to } => plan_branch(op, values.get(Loc::Reg(*from)), *to),
        WideAct::BranchZero { from, to } => plan_branch_zero(op, values.get(Loc::Reg(*from)), *to),
        WideAct::Call {
            result,
            func,
            next,
            args,
        } => {
            let args = args.as_slice();
            let call = Planned::Call {
                result: *result,
                func: *func,
                next: *next,
                args,
            };
            let done = evaluate(op, &[least_mark(values, args)], own_call(site, *func));
            plan_call(*result, call, done)
        }
        WideAct::Return(from) => plan_return(op, value_if(values, *from)),
    }
}

fn plan_act(
    base: u32,
    memory: &Memory,
    values: &Store<Tagged>,
    op: &WideOp,
    act: Act,
) -> Planned<'static>
    requires first { list_all (is_within (length values.now.regs) (length values.now.slots)) (reg_if (first_source act)) ≡ true }
    requires second { list_all (is_within (length values.now.regs) (length values.now.slots)) (reg_if (second_source act)) ≡ true }
    ensures effect { (places : Loc → Tagged) (room : ℕ → Bool) → effect_of places result ≡ by_rule (WideAct.Do act) op.now (record { base = base; memory = memory.now; room = room }) (map (held (Tagged.Clear (pos 0)) values.now) (sources (WideAct.Do act))) }
    ensures args { (regs slots : ℕ) → has_args regs slots result ≡ true }
    ensures quiet { is_quiet_act act ≡ true → is_quiet_plan result ≡ true }
{
    let first = value_if(values, act.first_source());
    let second = value_if(values, act.second_source());
    let x = number_of(first);
    let own = own_by(act, base, memory, x, number_of(second));
    match done_by_two(op, first, second, own) {
        Done::Value(value) => does_act(act, x, value),
        Done::Marked { number, kind } => marked(register(act.target()), number, kind),
        Done::Report { number, kind } => Planned::Report { number, kind },
    }
}

fn register(reg: Option<u32>) -> Option<Loc>
    ensures { result ≡ reg_of reg }
{
    match reg {
        Some(reg) => Some(Loc::Reg(reg)),
        None => None,
    }
}

fn plan_check(op: &WideOp, value: Tagged) -> Planned<'static>
    ensures effect { (places : Loc → Tagged) (a : Around) (from : ℕ) → effect_of places result ≡ by_rule (WideAct.Check from) op.now a (value ∷ []) }
    ensures args { (regs slots : ℕ) → has_args regs slots result ≡ true }
    ensures quiet { is_quiet_plan result ≡ true }
{
    match done_by_one(op, value) {
        Done::Value(_) => Planned::Idle,
        Done::Marked { number, kind } => Planned::Report { number, kind },
        Done::Report { number, kind } => Planned::Report { number, kind },
    }
}

fn plan_branch(op: &WideOp, value: Tagged, to: u32) -> Planned<'static>
    ensures effect { (places : Loc → Tagged) (a : Around) (from : ℕ) → effect_of places result ≡ by_rule (WideAct.Branch from to) op.now a (value ∷ []) }
    ensures args { (regs slots : ℕ) → has_args regs slots result ≡ true }
    ensures quiet { is_quiet_plan result ≡ true }
{
    match done_by_one(op, value) {
        Done::Value(value) => {
            if is_zero(value) {
                Planned::Idle
            } else {
                Planned::Jump { to }
            }
        }
        Done::Marked { number, kind } => Planned::Report { number, kind },
        Done::Report { number, kind } => Planned::Report { number, kind },
    }
}

fn plan_branch_zero(op: &WideOp, value: Tagged, to: u32) -> Planned<'static>
    ensures effect { (places : Loc → Tagged) (a : Around) (from : ℕ) → effect_of places result ≡ by_rule (WideAct.BranchZero from to) op.now a (value ∷ []) }
    ensures args { (regs slots : ℕ) → has_args regs slots result ≡ true }
    ensures quiet { is_quiet_plan result ≡ true }
{
    match done_by_one(op, value) {
        Done::Value(value) => {
            if is_zero(value) {
                Planned::Jump { to }
            } else {
                Planned::Idle
            }
        }
        Done::Marked { number, kind } => Planned::Report { number, kind },
        Done::Report { number, kind } => Planned::Report { number, kind },
    }
}

fn plan_return(op: &WideOp, value: Tagged) -> Planned<'static>
    ensures effect { (places : Loc → Tagged) (a : Around) (from : Option ℕ) → effect_of places result ≡ by_rule (WideAct.Return from) op.now a (value ∷ []) }
    ensures args { (regs slots : ℕ) → has_args regs slots result ≡ true }
    ensures quiet { is_quiet_plan result ≡ true }
{
    match done_by_one(op, value) {
        Done::Value(value) => Planned::Return(value),
        Done::Marked { number, kind } => Planned::Report { number, kind },
        Done::Report { number, kind } => Planned::Report { number, kind },
    }
}

fn plan_call<'a>(to: Option<Loc>, call: Planned<'a>, done: Done) -> Planned<'a>
    ensures effect { (places : Loc → Tagged) → effect_of places result ≡ shown_call to (effect_of places call.entry) done }
    ensures args { (regs slots : ℕ) → has_args regs slots call.entry ≡ true → has_args regs slots result ≡ true }
{
    match done {
        Done::Value(_) => call,
        Done::Marked { number, kind } => marked(to, number, kind),
        Done::Report { number, kind } => Planned::Report { number, kind },
    }
}

fn is_zero(value: i64) -> bool
    ensures { result ≡ is_zero value }
{
    value == 0
}

/// Where there is room for a call.
fn own_call(site: &Site, func: u32) -> Result<i64, FaultKind>
    ensures { result ≡ (if room_at site.now func then Ok (pos 0) else Err FaultKind.StackOverflow) }
{
    if site.has_room(func) {
        Ok(0)
    } else {
        Err(FaultKind::StackOverflow)
    }
}

/// What an operation does with its value, from its first source's number.
fn does_act(act: Act, x: i64, value: i64) -> Planned<'static>
    ensures effect { (places : Loc → Tagged) → effect_of places result ≡ does_act act x value }
    ensures args { (regs slots : ℕ) → has_args regs slots result ≡ true }
    ensures quiet { is_quiet_act act ≡ true → is_quiet_plan result ≡ true }
{
    match act {
        Act::Store { width, offset, .. } => Planned::Save {
            width,
            address: address(x, offset),
            value,
        },
        Act::Get { to } => Planned::Take { to },
        Act::PutByte { .. } => Planned::PutByte(byte_of(value)),
        Act::PutNumber { .. } => Planned::PutNumber(value),
        _ => written(act.target(), value),
    }
}

fn written(to: Option<u32>, value: i64) -> Planned<'static>
    ensures effect { (places : Loc → Tagged) → effect_of places result ≡ writes to value }
    ensures args { (regs slots : ℕ) → has_args regs slots result ≡ true }
    ensures quiet { is_quiet_plan result ≡ true }
{
    match to {
        None => Planned::Idle,
        Some(to) => Planned::Write {
            to: Loc::Reg(to),
            value: Tagged::Clear(value),
        },
    }
}

fn marked(to: Option<Loc>, number: u32, kind: FaultKind) -> Planned<'static>
    ensures effect { (places : Loc → Tagged) → effect_of places result ≡ keeps_mark to number kind }
    ensures args { (regs slots : ℕ) → has_args regs slots result ≡ true }
    ensures quiet { is_quiet_plan result ≡ true }
{
    match to {
        None => Planned::Report { number, kind },
        Some(to) => Planned::Write {
            to,
            value: Tagged::Mark { number, kind },
        },
    }
}

/// The least mark among the registers, or a clear number.
fn least_mark(values: &Store<Tagged>, regs: &[u32]) -> Tagged
    requires { list_all (is_within (length values.now.regs) (length values.now.slots)) (map (λ r. Loc.Reg r) regs.now) ≡ true }
    ensures { result ≡ least_mark (map (held (Tagged.Clear (pos 0)) values.now) (map (λ r. Loc.Reg r) regs.now)) }
{
    let mut least = Tagged::Clear(0);
    let mut behind = regs.len();
    while behind > 0 {
        behind -= 1;
        least = first_mark(values.get(Loc::Reg(regs[behind])), least);
    }
    least
}
