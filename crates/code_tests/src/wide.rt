use ib_act::{Act, Size};
use ib_base::{Place, Text, Width};
use machine_desc::Four;
use sqlite_items::Items;
use std::alloc::{AllocError, Global};
use wide_core::{Loc, RawCode, ValidErr, WideAct, WideCode, WideFunc, WideOp, Word};

/// Of a table the first row that comes out otherwise, and what comes.
type Wrong = Option<(usize, (u32, u8))>;

/// This row, where it comes out otherwise.
fn wrong(row: usize, found: (u32, u8), want: (u32, u8)) -> Wrong {
    if found == want {
        None
    } else {
        Some((row, found))
    }
}

fn op(number: u32, flagged: bool, act: WideAct) -> WideOp {
    WideOp {
        number,
        home: Place { line: 1, col: 1 },
        flagged,
        act,
    }
}

fn alone(alloc: Global, op: WideOp) -> Result<Word, AllocError> {
    let ops = vec![in alloc; op]?;
    Ok(Word {
        ops: Items::from_vec(ops),
    })
}

fn pair(alloc: Global, first: WideAct, second: WideAct) -> Result<Word, AllocError> {
    let ops = vec![in alloc; op(1, false, first), op(2, false, second)]?;
    Ok(Word {
        ops: Items::from_vec(ops),
    })
}

fn end(alloc: Global) -> Result<Word, AllocError> {
    alone(alloc, op(3, false, WideAct::Return(None)))
}

fn func(
    alloc: Global,
    name: &[u8],
    params: &[Loc],
    sizes: (u32, u32),
    words: Vec<Word>,
) -> Result<WideFunc, AllocError> {
    let (frame, slots) = sizes;
    Ok(WideFunc {
        name: Text::from_bytes(alloc, name)?,
        params: Items::from_slice(alloc, params)?,
        frame,
        slots,
        words: Items::from_vec(words),
    })
}

/// What `validate` finds, or (0, 0) where it finds nothing. Behind no image the function's line is 5, its first word's 6.
fn found(alloc: Global, image: usize, funcs: Vec<WideFunc>) -> Result<(u32, u8), AllocError> {
    let code = RawCode {
        image: Items::from_vec(vec![in alloc; 0; image]?),
        funcs: Items::from_vec(funcs),
    };
    match code.text_lines() {
        Some(_) => match WideCode::<Four>::validate(alloc, code) {
            Ok(_) => Ok((0, 0)),
            Err(ValidErr::Broken { line, rule }) => Ok((line, rule)),
            Err(ValidErr::NoMemory) => Err(AllocError),
        },
        None => Err(AllocError),
    }
}

fn found_in_words(alloc: Global, first: Word, last: Word) -> Result<(u32, u8), AllocError> {
    let main = func(alloc, b"main", &[], (16, 2), vec![in alloc; first, last]?)?;
    found(alloc, 0, vec![in alloc; main]?)
}

fn found_in_op(alloc: Global, op: WideOp) -> Result<(u32, u8), AllocError> {
    found_in_words(alloc, alone(alloc, op)?, end(alloc)?)
}

fn found_in_func(
    alloc: Global,
    name: &[u8],
    params: &[Loc],
    sizes: (u32, u32),
) -> Result<(u32, u8), AllocError> {
    let main = func(alloc, b"main", &[], (16, 2), vec![in alloc; end(alloc)?]?)?;
    let last = alone(alloc, op(4, false, WideAct::Return(None)))?;
    let other = func(alloc, name, params, sizes, vec![in alloc; last]?)?;
    found(alloc, 0, vec![in alloc; main, other]?)
}

fn op_row(row: usize) -> (bool, u32, WideAct, (u32, u8)) {
    match row {
        0 => (true, 1, WideAct::Do(Act::Mov { to: 31, from: 0 }), (0, 0)),
        1 => (true, 1, WideAct::Do(Act::Mov { to: 32, from: 0 }), (7, 1)),
        2 => (true, 1, WideAct::Do(Act::Mov { to: 0, from: 32 }), (7, 1)),
        3 => (true, 1, WideAct::Do(access(1_048_576)), (0, 0)),
        4 => (true, 1, WideAct::Do(access(1_048_577)), (7, 10)),
        5 => (true, 1, WideAct::Do(access(-1_048_577)), (7, 10)),
        6 => (true, 1, WideAct::Do(bounds(1)), (0, 0)),
        7 => (true, 1, WideAct::Do(bounds(0)), (7, 10)),
        8 => (true, 1, WideAct::Do(Act::PutNumber { from: 0 }), (7, 6)),
        9 => (false, 0, WideAct::Check { from: 0 }, (7, 7)),
        10 => (false, 3, WideAct::Check { from: 0 }, (9, 7)),
        11 => (false, 1, WideAct::Spill { to: 2, from: 0 }, (7, 1)),
        _ => (false, 1, WideAct::Jump { to: 2 }, (7, 4)),
    }
}

fn wrong_op(alloc: Global) -> Result<Wrong, AllocError> {
    for row in 0..13 {
        let (flagged, number, act, want) = op_row(row);
        let found = found_in_op(alloc, op(number, flagged, act))?;
        if let Some(first) = wrong(row, found, want) {
            return Ok(Some(first));
        }
    }
    Ok(None)
}

#[test]
fn operations_are_refused_at_their_lines(rt: HostRuntime) {
    assert_eq!(rt; wrong_op(rt.alloc()), Ok(None));
}

fn access(offset: i64) -> Act {
    Act::Load {
        width: Width::W1,
        to: 0,
        base: 0,
        offset,
    }
}

fn bounds(bound: i64) -> Act {
    Act::Bounds {
        to: 0,
        from: 0,
        bound,
    }
}

fn call(alloc: Global, func: u32, args: &[u32]) -> Result<WideAct, AllocError> {
    Ok(WideAct::Call {
        result: None,
        func,
        next: 1,
        args: Items::from_slice(alloc, args)?,
    })
}

/// What is found in a word with a call of this function with these arguments.
fn found_in_call(alloc: Global, func: u32, args: &[u32]) -> Result<(u32, u8), AllocError> {
    found_in_op(alloc, op(1, false, call(alloc, func, args)?))
}

fn found_in_pair(alloc: Global, first: WideAct, second: WideAct) -> Result<(u32, u8), AllocError> {
    found_in_words(alloc, pair(alloc, first, second)?, end(alloc)?)
}

/// A word without an operation, and a word behind the last that leaves.
fn found_in_odd_words(alloc: Global) -> Result<[(u32, u8); 2], AllocError> {
    let empty = Word {
        ops: Items::new(alloc),
    };
    let behind = alone(alloc, op(1, false, divide(5)))?;
    Ok([
        found_in_words(alloc, empty, end(alloc)?)?,
        found_in_words(alloc, end(alloc)?, behind)?,
    ])
}

#[test]
fn calls_are_refused_at_their_lines(rt: HostRuntime) {
    assert_eq!(rt; found_in_call(rt.alloc(), 0, &[]), Ok((0, 0)));
    assert_eq!(rt; found_in_call(rt.alloc(), 1, &[]), Ok((7, 5)));
    assert_eq!(rt; found_in_call(rt.alloc(), 0, &[0]), Ok((7, 5)));
}

#[test]
fn words_are_refused_at_their_lines(rt: HostRuntime) {
    let jump = || WideAct::Jump { to: 1 };
    assert_eq!(rt; found_in_pair(rt.alloc(), jump(), jump()), Ok((6, 2)));
    assert_eq!(rt; found_in_pair(rt.alloc(), divide(5), divide(5)), Ok((8, 3)));
    assert_eq!(rt; found_in_pair(rt.alloc(), divide(5), divide(6)), Ok((0, 0)));
    assert_eq!(rt; found_in_odd_words(rt.alloc()), Ok([(6, 2), (8, 4)]));
}

fn divide(to: u32) -> WideAct {
    WideAct::Do(Act::Div {
        size: Size::Four,
        to,
        left: 0,
        right: 1,
    })
}

type FuncRow = (&'static [u8], &'static [Loc], (u32, u32), (u32, u8));

const FEW: &[Loc] = &[Loc::Reg(1), Loc::Slot(1)];

const FUNCS: [FuncRow; 11] = [
    (b"other", FEW, (262_144, 2), (0, 0)),
    (b"other", FEW, (262_160, 2), (8, 9)),
    (b"other", FEW, (8, 2), (8, 9)),
    (b"other", FEW, (16, 1), (8, 1)),
    (b"other", &[], (16, 1_048_576), (0, 0)),
    (b"other", &[], (16, 1_048_577), (8, 9)),
    (b"other", &[Loc::Reg(1); 9], (16, 2), (8, 3)),
    (b"_o9", &[], (0, 0), (0, 0)),
    (b"9o", &[], (0, 0), (8, 8)),
    (b"", &[], (0, 0), (8, 8)),
    (b"main", &[], (0, 0), (8, 8)),
];

fn wrong_func(alloc: Global) -> Result<Wrong, AllocError> {
    for (row, (name, params, sizes, want)) in FUNCS.iter().enumerate() {
        let found = found_in_func(alloc, name, params, *sizes)?;
        if let Some(first) = wrong(row, found, *want) {
            return Ok(Some(first));
        }
    }
    Ok(None)
}

#[test]
fn functions_are_refused_at_their_lines(rt: HostRuntime) {
    assert_eq!(rt; wrong_func(rt.alloc()), Ok(None));
}

/// What is found in a `main` with a parameter, in one without a word, and in code without functions
/// whose image is of two lines and too large.
fn found_in_odd_codes(alloc: Global) -> Result<[(u32, u8); 4], AllocError> {
    let words = vec![in alloc; end(alloc)?]?;
    let taking = func(alloc, b"main", &[Loc::Reg(0)], (0, 0), words)?;
    let empty = func(alloc, b"main", &[], (0, 0), Vec::new(alloc))?;
    Ok([
        found(alloc, 0, vec![in alloc; taking]?)?,
        found(alloc, 0, vec![in alloc; empty]?)?,
        found(alloc, 33, Vec::new(alloc))?,
        found(alloc, 524_289, Vec::new(alloc))?,
    ])
}

#[test]
fn codes_are_refused_at_their_lines(rt: HostRuntime) {
    let want = [(8, 8), (5, 9), (7, 8), (3, 9)];
    assert_eq!(rt; found_in_odd_codes(rt.alloc()), Ok(want));
}
