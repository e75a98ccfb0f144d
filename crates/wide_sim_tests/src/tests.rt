use ib_act::{Act, Size};
use ib_base::{FaultKind, MemHost, Place, Text, Width};
use machine_desc::{Four, Machine, Narrow};
use sqlite_items::Items;
use std::alloc::{AllocError, Global};
use wide_core::{Loc, RawCode, Tagged, WideAct, WideCode, WideFunc, WideOp, Word};
use wide_sim::{Sim, SimErr, SimOutcome, Stepped, simulate};

/// An operation. The text marks it with `s` where it is early.
#[derive(Clone, Copy)]
enum Step {
    Early(Act),
    Plain(Act),
    Spill { to: u32, from: u32 },
    Reload { to: u32, from: u32 },
    Check(u32),
    /// Passes the registers 0 and 1 to the function 1.
    Call { to: Loc, next: u32 },
    /// Passes nothing to `main`.
    Again { next: u32 },
    Jump(u32),
    Give(u32),
    Stop,
}

fn act_of(alloc: Global, step: Step) -> Result<WideAct, AllocError> {
    match step {
        Step::Early(act) | Step::Plain(act) => Ok(WideAct::Do(act)),
        Step::Spill { to, from } => Ok(WideAct::Spill { to, from }),
        Step::Reload { to, from } => Ok(WideAct::Reload { to, from }),
        Step::Check(from) => Ok(WideAct::Check { from }),
        Step::Call { to, next } => Ok(WideAct::Call {
            result: Some(to),
            func: 1,
            next,
            args: Items::from_slice(alloc, &[0, 1])?,
        }),
        Step::Again { next } => Ok(WideAct::Call {
            result: None,
            func: 0,
            next,
            args: Items::new(alloc),
        }),
        Step::Jump(to) => Ok(WideAct::Jump { to }),
        Step::Give(from) => Ok(WideAct::Return(Some(from))),
        Step::Stop => Ok(WideAct::Return(None)),
    }
}

/// The operation with the number, at the place (number, 3).
fn op_of(alloc: Global, row: (u32, Step)) -> Result<WideOp, AllocError> {
    let (number, step) = row;
    let home = Place {
        line: number,
        col: 3,
    };
    let flagged = match step {
        Step::Early(_) => true,
        _ => false,
    };
    let act = act_of(alloc, step)?;
    Ok(WideOp {
        number,
        home,
        flagged,
        act,
    })
}

/// The operations, one in a word.
fn alone(alloc: Global, rows: &[(u32, Step)]) -> Result<Items<Word>, AllocError> {
    let mut words = Items::new(alloc);
    for row in rows {
        let mut ops = Items::new(alloc);
        ops.push(op_of(alloc, *row)?)?;
        words.push(Word { ops })?;
    }
    Ok(words)
}

/// The operations, two in a word, and behind them the end.
fn pairs(alloc: Global, rows: &[((u32, Step), (u32, Step))]) -> Result<Items<Word>, AllocError> {
    let mut words = Items::new(alloc);
    for row in rows {
        let mut ops = Items::new(alloc);
        ops.push(op_of(alloc, row.0)?)?;
        ops.push(op_of(alloc, row.1)?)?;
        words.push(Word { ops })?;
    }
    let mut ops = Items::new(alloc);
    ops.push(op_of(alloc, (99, Step::Stop))?)?;
    words.push(Word { ops })?;
    Ok(words)
}

fn main_of(alloc: Global, frame: u32, words: Items<Word>) -> Result<WideFunc, AllocError> {
    Ok(WideFunc {
        name: Text::from_bytes(alloc, b"main")?,
        params: Items::new(alloc),
        frame,
        slots: 2,
        words,
    })
}

fn code_of(alloc: Global, main: WideFunc) -> Result<RawCode, AllocError> {
    let mut funcs = Items::new(alloc);
    funcs.push(main)?;
    Ok(RawCode {
        image: Items::new(alloc),
        funcs,
    })
}

/// How `main` of these words comes out on a machine.
fn outcome<M: Machine>(
    alloc: Global,
    code: RawCode,
    host: &mut MemHost,
) -> Result<SimOutcome, SimErr> {
    match code.text_lines() {
        Some(_) => match WideCode::<M>::validate(alloc, code) {
            Ok(code) => simulate(alloc, &code, host, 1_000_000),
            Err(_) => Err(SimErr::NoMemory),
        },
        None => Err(SimErr::NoMemory),
    }
}

fn comes_out<M: Machine>(
    alloc: Global,
    words: Items<Word>,
    input: &[u8],
    wanted: SimOutcome,
    text: &[u8],
) -> Result<bool, SimErr> {
    let mut host = MemHost::new(alloc, input)?;
    let main = main_of(alloc, 16, words)?;
    let code = code_of(alloc, main)?;
    let how = outcome::<M>(alloc, code, &mut host)?;
    Ok(how == wanted && host.output() == text)
}

fn row<M: Machine>(
    alloc: Global,
    rows: &[(u32, Step)],
    wanted: SimOutcome,
    text: &[u8],
) -> Result<bool, SimErr> {
    let words = alone(alloc, rows)?;
    comes_out::<M>(alloc, words, b"x", wanted, text)
}

fn pair_row(
    alloc: Global,
    rows: &[((u32, Step), (u32, Step))],
    wanted: SimOutcome,
    text: &[u8],
) -> Result<bool, SimErr> {
    let words = pairs(alloc, rows)?;
    comes_out::<Four>(alloc, words, b"", wanted, text)
}

fn ended(value: i32, cycles: u64) -> SimOutcome {
    SimOutcome::Ended {
        result: value,
        cycles,
    }
}

fn reported(line: u32, kind: FaultKind, cycles: u64) -> SimOutcome {
    SimOutcome::Reported {
        place: Place { line, col: 3 },
        kind,
        cycles,
    }
}

fn number(to: u32, value: i64) -> Step {
    Step::Early(Act::Const { to, value })
}

fn load(width: Width, to: u32, base: u32) -> Step {
    Step::Early(Act::Load {
        width,
        to,
        base,
        offset: 0,
    })
}

fn store(width: Width, base: u32, from: u32) -> Step {
    Step::Plain(Act::Store {
        width,
        base,
        offset: 0,
        from,
    })
}

fn square(to: u32, from: u32) -> Step {
    Step::Early(Act::Mul {
        size: Size::Eight,
        to,
        left: from,
        right: from,
    })
}

fn copy(to: u32, from: u32) -> Step {
    Step::Early(Act::Mov { to, from })
}

fn quotient(size: Size, to: u32, left: u32, right: u32) -> Act {
    Act::Div {
        size,
        to,
        left,
        right,
    }
}

fn show(from: u32) -> Step {
    Step::Plain(Act::PutNumber { from })
}

fn late_reads(alloc: Global) -> Result<bool, SimErr> {
    let six = [
        (1, number(0, 6)),
        (2, square(1, 0)),
        (3, show(1)),
        (4, Step::Give(1)),
    ];
    row::<Narrow>(alloc, &six, ended(36, 6), b"36")
}

#[test]
fn words_wait_for_what_is_late(rt: HostRuntime) {
    assert!(rt; matches!(late_reads(rt.alloc()), Ok(true)));
}

fn late_writes(alloc: Global) -> Result<bool, SimErr> {
    let rows = [
        (1, number(0, 6)),
        (2, square(1, 0)),
        (3, number(1, 7)),
        (4, show(1)),
        (5, Step::Give(1)),
    ];
    row::<Four>(alloc, &rows, ended(7, 8), b"7")
}

#[test]
fn words_wait_for_what_they_write(rt: HostRuntime) {
    assert!(rt; matches!(late_writes(rt.alloc()), Ok(true)));
}

fn unread_mark(alloc: Global) -> Result<bool, SimErr> {
    let rows = [
        (1, number(0, 0)),
        (2, load(Width::W4, 1, 0)),
        (3, Step::Give(0)),
    ];
    row::<Narrow>(alloc, &rows, ended(0, 3), b"")
}

#[test]
fn a_mark_that_nothing_reads_is_never_seen(rt: HostRuntime) {
    assert!(rt; matches!(unread_mark(rt.alloc()), Ok(true)));
}

fn checked_mark(alloc: Global) -> Result<bool, SimErr> {
    let rows = [
        (1, number(0, 0)),
        (2, load(Width::W4, 1, 0)),
        (4, Step::Check(1)),
        (3, Step::Give(0)),
    ];
    let wanted = reported(2, FaultKind::BadAddress, 4);
    row::<Narrow>(alloc, &rows, wanted, b"")
}

#[test]
fn a_check_reports_a_mark(rt: HostRuntime) {
    assert!(rt; matches!(checked_mark(rt.alloc()), Ok(true)));
}

fn two_marks(alloc: Global) -> Result<bool, SimErr> {
    let rows = [
        (1, number(0, 0)),
        (2, load(Width::W4, 1, 0)),
        (3, Step::Early(quotient(Size::Four, 2, 0, 0))),
        (4, store(Width::W4, 2, 1)),
        (5, Step::Give(0)),
    ];
    let wanted = reported(2, FaultKind::BadAddress, 6);
    row::<Narrow>(alloc, &rows, wanted, b"")
}

#[test]
fn of_two_marks_the_least_is_reported(rt: HostRuntime) {
    assert!(rt; matches!(two_marks(rt.alloc()), Ok(true)));
}

fn spilled_mark(alloc: Global) -> Result<bool, SimErr> {
    let rows = [
        (1, number(0, 0)),
        (2, load(Width::W4, 1, 0)),
        (3, Step::Spill { to: 1, from: 1 }),
        (4, Step::Reload { to: 5, from: 1 }),
        (5, Step::Give(5)),
    ];
    let wanted = reported(2, FaultKind::BadAddress, 8);
    row::<Narrow>(alloc, &rows, wanted, b"")
}

#[test]
fn slots_keep_marks(rt: HostRuntime) {
    assert!(rt; matches!(spilled_mark(rt.alloc()), Ok(true)));
}

fn taken_input(alloc: Global) -> Result<bool, SimErr> {
    let rows = [
        (1, Step::Plain(Act::Get { to: 0 })),
        (2, Step::Plain(Act::PutByte { from: 0 })),
        (3, Step::Plain(Act::Get { to: 1 })),
        (4, show(1)),
        (5, Step::Stop),
    ];
    row::<Four>(alloc, &rows, ended(0, 5), b"x-1")
}

#[test]
fn input_is_taken_byte_by_byte(rt: HostRuntime) {
    assert!(rt; matches!(taken_input(rt.alloc()), Ok(true)));
}

fn swapped(alloc: Global) -> Result<bool, SimErr> {
    let rows = [
        ((1, number(0, 1)), (2, number(1, 2))),
        ((3, copy(0, 1)), (4, copy(1, 0))),
        ((5, show(0)), (6, number(2, 0))),
        (
            (7, show(1)),
            (8, Step::Plain(quotient(Size::Eight, 3, 0, 2))),
        ),
    ];
    let wanted = reported(8, FaultKind::DivZero, 4);
    pair_row(alloc, &rows, wanted, b"21")
}

#[test]
fn words_read_before_they_write(rt: HostRuntime) {
    assert!(rt; matches!(swapped(rt.alloc()), Ok(true)));
}

fn reported_first(alloc: Global) -> Result<bool, SimErr> {
    let rows = [
        ((1, number(0, i64::MIN)), (2, number(1, -1))),
        (
            (3, Step::Plain(quotient(Size::Eight, 2, 0, 1))),
            (4, show(1)),
        ),
    ];
    let wanted = reported(3, FaultKind::DivOverflow, 2);
    pair_row(alloc, &rows, wanted, b"")
}

#[test]
fn nothing_behind_a_report_is_done(rt: HostRuntime) {
    assert!(rt; matches!(reported_first(rt.alloc()), Ok(true)));
}

/// Whether 1, shifted by the count, prints so.
fn shifts(alloc: Global, size: Size, count: i64, text: &[u8]) -> Result<bool, SimErr> {
    let shift = Act::ShiftLeft {
        size,
        to: 2,
        left: 0,
        right: 1,
    };
    let rows = [
        (1, number(0, 1)),
        (2, number(1, count)),
        (3, Step::Early(shift)),
        (4, show(2)),
        (5, Step::Stop),
    ];
    row::<Four>(alloc, &rows, ended(0, 5), text)
}

fn shifts_of_four(alloc: Global) -> Result<bool, SimErr> {
    Ok(
        shifts(alloc, Size::Four, 31, b"-2147483648")?
            && shifts(alloc, Size::Four, 32, b"1")?
            && shifts(alloc, Size::Four, 33, b"2")?
            && shifts(alloc, Size::Four, -1, b"-2147483648")?,
    )
}

#[test]
fn shifts_of_four_bytes_take_their_count_modulo_32(rt: HostRuntime) {
    assert!(rt; matches!(shifts_of_four(rt.alloc()), Ok(true)));
}

fn shifts_of_eight(alloc: Global) -> Result<bool, SimErr> {
    Ok(
        shifts(alloc, Size::Eight, 33, b"8589934592")?
            && shifts(alloc, Size::Eight, 63, b"-9223372036854775808")?
            && shifts(alloc, Size::Eight, 64, b"1")?
            && shifts(alloc, Size::Eight, -1, b"-9223372036854775808")?,
    )
}

#[test]
fn shifts_of_eight_bytes_take_their_count_modulo_64(rt: HostRuntime) {
    assert!(rt; matches!(shifts_of_eight(rt.alloc()), Ok(true)));
}

/// Whether a `main` that prints a byte and calls itself comes so deep.
fn deepest(alloc: Global, frame: u32, calls: usize, cycles: u64) -> Result<bool, SimErr> {
    let rows = [
        (1, number(0, 120)),
        (2, Step::Plain(Act::PutByte { from: 0 })),
        (3, Step::Again { next: 3 }),
        (4, Step::Stop),
    ];
    let words = alone(alloc, &rows)?;
    let main = main_of(alloc, frame, words)?;
    let code = code_of(alloc, main)?;
    let mut host = MemHost::new(alloc, b"")?;
    let how = outcome::<Four>(alloc, code, &mut host)?;
    Ok(host.output().len() == calls && how == reported(3, FaultKind::StackOverflow, cycles))
}

fn deepest_calls(alloc: Global) -> Result<bool, SimErr> {
    Ok(
        deepest(alloc, 0, 4096, 12_288)?
            && deepest(alloc, 262_144, 3, 9)?
            && deepest(alloc, 261_120, 4, 12)?,
    )
}

#[test]
fn calls_go_4096_deep_and_frames_to_the_end_of_memory(rt: HostRuntime) {
    assert!(rt; matches!(deepest_calls(rt.alloc()), Ok(true)));
}

/// A function that prints the first eight bytes of its frame, puts its first parameter there, and returns the second.
fn printer(alloc: Global) -> Result<WideFunc, AllocError> {
    let rows = [
        (11, Step::Early(Act::FrameAddress { to: 1, offset: 0 })),
        (12, load(Width::W8, 2, 1)),
        (13, show(2)),
        (14, store(Width::W8, 1, 0)),
        (15, Step::Reload { to: 3, from: 0 }),
        (16, Step::Give(3)),
    ];
    Ok(WideFunc {
        name: Text::from_bytes(alloc, b"printer")?,
        params: Items::from_slice(alloc, &[Loc::Reg(0), Loc::Slot(0)])?,
        frame: 16,
        slots: 1,
        words: alone(alloc, &rows)?,
    })
}

/// A `main` that calls the printer twice.
fn two_calls(alloc: Global) -> Result<RawCode, AllocError> {
    let rows = [
        (1, number(0, 5)),
        (2, number(1, 8)),
        (
            3,
            Step::Call {
                to: Loc::Slot(1),
                next: 3,
            },
        ),
        (
            4,
            Step::Call {
                to: Loc::Reg(4),
                next: 4,
            },
        ),
        (5, Step::Reload { to: 5, from: 1 }),
        (6, show(4)),
        (7, show(5)),
        (8, Step::Give(4)),
    ];
    let words = alone(alloc, &rows)?;
    let main = main_of(alloc, 16, words)?;
    let mut code = code_of(alloc, main)?;
    code.funcs.push(printer(alloc)?)?;
    Ok(code)
}

fn calls_twice(alloc: Global) -> Result<bool, SimErr> {
    let code = two_calls(alloc)?;
    let mut host = MemHost::new(alloc, b"")?;
    let how = outcome::<Four>(alloc, code, &mut host)?;
    Ok(how == ended(8, 24) && host.output() == b"0088".as_slice())
}

#[test]
fn calls_pass_and_return_over_frames_of_zeros(rt: HostRuntime) {
    assert!(rt; matches!(calls_twice(rt.alloc()), Ok(true)));
}

fn one_cycle(sim: &mut Sim<Narrow>, host: &mut MemHost) -> Result<Stepped, SimErr> {
    if sim.cycle() < 1000 {
        sim.step(host)
    } else {
        Err(SimErr::NoMemory)
    }
}

fn goes(sim: &mut Sim<Narrow>, host: &mut MemHost) -> bool {
    one_cycle(sim, host) == Ok(Stepped::Going) && !sim.finished()
}

fn fails(sim: &mut Sim<Narrow>, host: &mut MemHost) -> bool {
    let before = sim.cycle();
    one_cycle(sim, host) == Err(SimErr::HostFailed) && sim.cycle() == before
}

fn ends(sim: &mut Sim<Narrow>, host: &mut MemHost) -> bool {
    one_cycle(sim, host) == Ok(Stepped::Ended(6)) && sim.finished() && sim.cycle() == 3
}

fn keeps_registers(sim: &Sim<Narrow>) -> bool {
    sim.reg(0) == Some(Tagged::Clear(6)) && sim.reg(16).is_none()
}

/// Of code whose second cycle prints, over a host that fails once.
fn goes_on(sim: &mut Sim<Narrow>, host: &mut MemHost) -> bool {
    if !goes(sim, host) || !fails(sim, host) || !goes(sim, host) {
        return false;
    }
    ends(sim, host) && ends(sim, host) && keeps_registers(sim)
}

fn loads_and_goes_on(
    alloc: Global,
    code: &WideCode<Narrow>,
    host: &mut MemHost,
) -> Result<bool, SimErr> {
    let mut sim = Sim::load(alloc, code)?;
    Ok(goes_on(&mut sim, host))
}

fn tries_again(alloc: Global) -> Result<bool, SimErr> {
    let words = alone(
        alloc,
        &[(1, number(0, 6)), (2, show(0)), (3, Step::Give(0))],
    )?;
    let main = main_of(alloc, 0, words)?;
    let code = code_of(alloc, main)?;
    let mut host = MemHost::new(alloc, b"")?;
    host.fail_at(1, 0)?;
    match code.text_lines() {
        Some(_) => match WideCode::<Narrow>::validate(alloc, code) {
            Ok(code) => loads_and_goes_on(alloc, &code, &mut host),
            Err(_) => Err(SimErr::NoMemory),
        },
        None => Err(SimErr::NoMemory),
    }
}

#[test]
fn a_cycle_that_fails_can_be_done_again(rt: HostRuntime) {
    assert!(rt; matches!(tries_again(rt.alloc()), Ok(true)));
}

fn late_behind_a_jump(alloc: Global) -> Result<bool, SimErr> {
    let rows = [
        ((1, number(0, 6)), (2, number(2, 0))),
        ((3, Step::Jump(2)), (4, square(1, 0))),
        ((5, show(1)), (6, number(2, 1))),
    ];
    pair_row(alloc, &rows, ended(0, 7), b"36")
}

#[test]
fn what_stands_beside_a_jump_is_done_and_waited_for(rt: HostRuntime) {
    assert!(rt; matches!(late_behind_a_jump(rt.alloc()), Ok(true)));
}

fn holds(sim: &Sim<Four>, reg: u32, number: i64) -> bool {
    sim.reg(reg) == Some(Tagged::Clear(number))
}

/// Whether the registers 0, 1 and 2 hold these numbers once the code is over.
fn stands(alloc: Global, code: &WideCode<Four>, wanted: (i64, i64, i64)) -> Result<bool, SimErr> {
    let mut host = MemHost::new(alloc, b"")?;
    let mut sim = Sim::load(alloc, code)?;
    sim.run(&mut host, 1000)?;
    let (first, second, third) = wanted;
    Ok(sim.finished() && holds(&sim, 0, first) && holds(&sim, 1, second) && holds(&sim, 2, third))
}

fn at_end(alloc: Global, code: RawCode, wanted: (i64, i64, i64)) -> Result<bool, SimErr> {
    match code.text_lines() {
        Some(_) => match WideCode::<Four>::validate(alloc, code) {
            Ok(code) => stands(alloc, &code, wanted),
            Err(_) => Err(SimErr::NoMemory),
        },
        None => Err(SimErr::NoMemory),
    }
}

/// Whether a second word of these operations leaves the registers so, which held 5, 0 and 0 before it.
fn last_word(
    alloc: Global,
    ops: ((u32, Step), (u32, Step)),
    wanted: (i64, i64, i64),
) -> Result<bool, SimErr> {
    let words = pairs(alloc, &[((1, number(0, 5)), (2, number(1, 0))), ops])?;
    let main = main_of(alloc, 0, words)?;
    at_end(alloc, code_of(alloc, main)?, wanted)
}

fn ends_of_words(alloc: Global) -> Result<bool, SimErr> {
    let divide = (3, Step::Plain(quotient(Size::Eight, 2, 0, 1)));
    Ok(
        last_word(alloc, ((3, Step::Give(0)), (4, number(2, 7))), (5, 0, 7))?
            && last_word(alloc, ((4, number(0, 8)), divide), (8, 0, 0))?
            && last_word(alloc, (divide, (4, number(0, 8))), (5, 0, 0))?,
    )
}

#[test]
fn registers_keep_what_the_last_word_wrote(rt: HostRuntime) {
    assert!(rt; matches!(ends_of_words(rt.alloc()), Ok(true)));
}

fn ends_in_main(alloc: Global) -> Result<bool, SimErr> {
    at_end(alloc, two_calls(alloc)?, (5, 8, 0))
}

#[test]
fn behind_its_end_the_machine_shows_the_registers_of_main(rt: HostRuntime) {
    assert!(rt; matches!(ends_in_main(rt.alloc()), Ok(true)));
}
