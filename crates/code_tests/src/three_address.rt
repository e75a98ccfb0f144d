use ib_base::{Place, Text, Width};
use ib_bits::BitSet;
use smallvec::SmallVec;
use sqlite_items::Items;
use std::alloc::{AllocError, Global};
use tac_core::{
    Act, Block, Chain, Counts, End, Live, Regs, Size, TacFunc, TacOp, TacProgram, Traces,
};

/// The image's bytes, the second function and the frame of `main`.
#[derive(Clone, Copy)]
struct Shape {
    image: usize,
    main: &'static [u8],
    second: &'static [u8],
    params: &'static [u32],
    frame: u32,
}

/// The operations of block 0.
#[derive(Clone, Copy)]
struct Code {
    stmt: u32,
    to: u32,
    from: u32,
    offset: i64,
    bound: i64,
    more: usize,
}

/// The ends of blocks 0 and 1: a branch and a call.
#[derive(Clone, Copy)]
struct Ends {
    stmt: u32,
    reg: u32,
    yes: u32,
    no: u32,
    dest: u32,
    func: u32,
    args: &'static [u32],
    next: u32,
}

const SHAPE: Shape = Shape {
    image: 3,
    main: b"main",
    second: b"_f1",
    params: &[1, 0],
    frame: 32,
};

const CODE: Code = Code {
    stmt: 1,
    to: 1,
    from: 0,
    offset: -1_048_576,
    bound: 1,
    more: 509,
};

const ENDS: Ends = Ends {
    stmt: 0,
    reg: 0,
    yes: 1,
    no: 2,
    dest: 1,
    func: 1,
    args: &[0, 0],
    next: 2,
};

fn add_op(ops: &mut Items<TacOp>, stmt: u32, act: Act) -> Result<(), AllocError> {
    ops.push(TacOp { stmt, act })
}

fn ops_of(alloc: Global, code: &Code) -> Result<Items<TacOp>, AllocError> {
    let stmt = code.stmt;
    let mut ops = Items::new(alloc);
    add_op(
        &mut ops,
        stmt,
        Act::Const {
            to: code.to,
            value: 1,
        },
    )?;
    let load = Act::Load {
        width: Width::W4,
        to: 1,
        base: code.from,
        offset: code.offset,
    };
    add_op(&mut ops, stmt, load)?;
    add_op(
        &mut ops,
        stmt,
        Act::Bounds {
            to: 1,
            from: 0,
            bound: code.bound,
        },
    )?;
    for _ in 0..code.more {
        add_op(
            &mut ops,
            stmt,
            Act::Add {
                size: Size::Four,
                to: 0,
                left: 0,
                right: 1,
            },
        )?;
    }
    Ok(ops)
}

fn empty_block(alloc: Global, end: End) -> Block {
    Block {
        ops: Items::new(alloc),
        end,
        end_stmt: 0,
    }
}

fn call_of(alloc: Global, ends: &Ends) -> Result<End, AllocError> {
    let args = Regs::keep(SmallVec::from_slice(alloc, ends.args)?);
    Ok(End::Call {
        dest: Some(ends.dest),
        func: ends.func,
        args,
        next: ends.next,
    })
}

fn blocks_of(alloc: Global, code: &Code, ends: &Ends) -> Result<Items<Block>, AllocError> {
    let mut blocks = Items::new(alloc);
    let ops = ops_of(alloc, code)?;
    let end = End::Branch {
        reg: ends.reg,
        yes: ends.yes,
        no: ends.no,
    };
    blocks.push(Block {
        ops,
        end,
        end_stmt: ends.stmt,
    })?;
    let call = call_of(alloc, ends)?;
    blocks.push(empty_block(alloc, call))?;
    blocks.push(empty_block(alloc, End::Ret(Some(1))))?;
    Ok(blocks)
}

fn returning(alloc: Global, name: &[u8], params: &[u32]) -> Result<TacFunc, AllocError> {
    let name = Text::from_bytes(alloc, name)?;
    let params = Items::from_slice(alloc, params)?;
    let mut blocks = Items::new(alloc);
    blocks.push(empty_block(alloc, End::Ret(None)))?;
    Ok(TacFunc {
        name,
        params,
        regs: 9,
        frame: 0,
        blocks,
    })
}

fn main_of(alloc: Global, shape: &Shape, blocks: Items<Block>) -> Result<TacFunc, AllocError> {
    let name = Text::from_bytes(alloc, shape.main)?;
    let params = Items::new(alloc);
    Ok(TacFunc {
        name,
        params,
        regs: 2,
        frame: shape.frame,
        blocks,
    })
}

fn assembled(
    alloc: Global,
    image: usize,
    main: TacFunc,
    second: TacFunc,
) -> Result<Option<TacProgram>, AllocError> {
    let mut funcs = Vec::new(alloc);
    funcs.push(main)?;
    funcs.push(second)?;
    let mut places = Vec::new(alloc);
    places.push(Place { line: 1, col: 1 })?;
    places.push(Place { line: 2, col: 3 })?;
    let mut bytes = Vec::new(alloc);
    bytes.resize(image, 7)?;
    Ok(TacProgram::assemble(bytes, places, funcs))
}

fn program(
    alloc: Global,
    shape: &Shape,
    code: &Code,
    ends: &Ends,
) -> Result<Option<TacProgram>, AllocError> {
    let blocks = blocks_of(alloc, code, ends)?;
    let main = main_of(alloc, shape, blocks)?;
    let second = returning(alloc, shape.second, shape.params)?;
    assembled(alloc, shape.image, main, second)
}

fn is_valid(alloc: Global, shape: &Shape, code: &Code, ends: &Ends) -> Result<bool, AllocError> {
    let program = program(alloc, shape, code, ends)?;
    Ok(program.is_some())
}

/// A row for each rule on functions.
fn wrong_shape(row: u32) -> Shape {
    match row {
        0 => Shape {
            image: 524_289,
            ..SHAPE
        },
        1 => Shape {
            main: b"main2",
            ..SHAPE
        },
        2 => Shape {
            second: b"main",
            ..SHAPE
        },
        3 => Shape {
            second: b"",
            ..SHAPE
        },
        4 => Shape {
            second: b"1f",
            ..SHAPE
        },
        5 => Shape {
            second: b"f-",
            ..SHAPE
        },
        6 => Shape {
            params: &[1, 1],
            ..SHAPE
        },
        7 => Shape {
            params: &[1, 9],
            ..SHAPE
        },
        8 => Shape { frame: 8, ..SHAPE },
        9 => Shape {
            main: b"f",
            second: b"main",
            ..SHAPE
        },
        _ => Shape {
            frame: 262_160,
            ..SHAPE
        },
    }
}

/// A row for each rule on operations.
fn wrong_code(row: u32) -> Code {
    match row {
        0 => Code { stmt: 2, ..CODE },
        1 => Code { to: 2, ..CODE },
        2 => Code { from: 2, ..CODE },
        3 => Code {
            offset: -1_048_577,
            ..CODE
        },
        4 => Code {
            offset: 1_048_577,
            ..CODE
        },
        5 => Code { bound: 0, ..CODE },
        _ => Code { more: 510, ..CODE },
    }
}

/// A row for each rule on ends.
fn wrong_ends(row: u32) -> Ends {
    match row {
        0 => Ends { stmt: 2, ..ENDS },
        1 => Ends { reg: 2, ..ENDS },
        2 => Ends { yes: 0, ..ENDS },
        3 => Ends { no: 3, ..ENDS },
        4 => Ends { no: 1, ..ENDS },
        5 => Ends { func: 2, ..ENDS },
        6 => Ends { args: &[0], ..ENDS },
        7 => Ends {
            args: &[0, 2],
            ..ENDS
        },
        8 => Ends { dest: 2, ..ENDS },
        _ => Ends { next: 0, ..ENDS },
    }
}

/// The first row of the three tables that is taken.
fn first_taken(alloc: Global) -> Result<Option<(&'static str, u32)>, AllocError> {
    for row in 0..11 {
        if is_valid(alloc, &wrong_shape(row), &CODE, &ENDS)? {
            return Ok(Some(("function", row)));
        }
    }
    for row in 0..7 {
        if is_valid(alloc, &SHAPE, &wrong_code(row), &ENDS)? {
            return Ok(Some(("operation", row)));
        }
    }
    for row in 0..10 {
        if is_valid(alloc, &SHAPE, &CODE, &wrong_ends(row))? {
            return Ok(Some(("end", row)));
        }
    }
    Ok(None)
}

#[test]
fn what_breaks_a_rule_is_refused(rt: HostRuntime) {
    assert_eq!(rt; first_taken(rt.alloc()), Ok(None));
}

const WIDEST: Shape = Shape {
    image: 524_288,
    frame: 262_144,
    second: b"while",
    ..SHAPE
};

const FARTHEST: Code = Code {
    offset: 1_048_576,
    ..CODE
};

const EIGHT: Shape = Shape {
    params: &[0, 1, 2, 3, 4, 5, 6, 7],
    ..SHAPE
};

const WITH_EIGHT: Ends = Ends {
    args: &[0, 0, 0, 0, 0, 0, 0, 1],
    ..ENDS
};

const NINE: Shape = Shape {
    params: &[0, 1, 2, 3, 4, 5, 6, 7, 8],
    ..SHAPE
};

const WITH_NINE: Ends = Ends {
    args: &[0, 0, 0, 0, 0, 0, 0, 1, 1],
    ..ENDS
};

/// Whether what is just within the limits is taken: as it is, at the limits, and with eight
/// parameters; and whether nine are.
fn limits(alloc: Global) -> Result<[bool; 4], AllocError> {
    Ok([
        is_valid(alloc, &SHAPE, &CODE, &ENDS)?,
        is_valid(alloc, &WIDEST, &FARTHEST, &ENDS)?,
        is_valid(alloc, &EIGHT, &CODE, &WITH_EIGHT)?,
        is_valid(alloc, &NINE, &CODE, &WITH_NINE)?,
    ])
}

#[test]
fn what_is_just_within_is_taken(rt: HostRuntime) {
    assert_eq!(rt; limits(rt.alloc()), Ok([true, true, true, false]));
}

/// Operations, functions, places and bytes of the program of the tables, and the counts with which
/// it begins.
fn parts(alloc: Global) -> Result<Option<[u64; 6]>, AllocError> {
    let Some(program) = program(alloc, &SHAPE, &CODE, &ENDS)? else {
        return Ok(None);
    };
    let counts = Counts::zero(alloc, &program)?;
    Ok(Some([
        program.ops(),
        program.funcs().len() as u64,
        program.places().len() as u64,
        program.image().len() as u64,
        counts.edge(0, 0, 1),
        counts.entries(1),
    ]))
}

#[test]
fn a_program_tells_its_parts(rt: HostRuntime) {
    assert_eq!(rt; parts(rt.alloc()), Ok(Some([516, 2, 2, 3, 0, 0])));
}

/// `const r0 1` and a branch on r0, and blocks that return.
pub(crate) fn branching(
    alloc: Global,
    no: u32,
    returns: usize,
) -> Result<Option<TacProgram>, AllocError> {
    let mut ops = Items::new(alloc);
    add_op(&mut ops, 0, Act::Const { to: 0, value: 1 })?;
    let mut blocks = Items::new(alloc);
    let end = End::Branch { reg: 0, yes: 1, no };
    blocks.push(Block {
        ops,
        end,
        end_stmt: 0,
    })?;
    for _ in 0..returns {
        blocks.push(empty_block(alloc, End::Ret(None)))?;
    }
    let main = main_of(alloc, &SHAPE, blocks)?;
    let mut funcs = Vec::new(alloc);
    funcs.push(main)?;
    let mut places = Vec::new(alloc);
    places.push(Place { line: 1, col: 1 })?;
    Ok(TacProgram::assemble(Vec::new(alloc), places, funcs))
}

/// A function `main` of so many blocks that return.
fn returns_only(alloc: Global, blocks: usize) -> Result<Option<TacProgram>, AllocError> {
    let mut list = Items::new(alloc);
    for _ in 0..blocks {
        list.push(empty_block(alloc, End::Ret(None)))?;
    }
    let main = main_of(alloc, &SHAPE, list)?;
    let funcs = vec![in alloc; main]?;
    let places = vec![in alloc; Place { line: 1, col: 1 }]?;
    Ok(TacProgram::assemble(Vec::new(alloc), places, funcs))
}

/// The operations of programs of no block, of one, of a branch with one target and of one with two.
fn sizes(alloc: Global) -> Result<[Option<u64>; 4], AllocError> {
    Ok([
        returns_only(alloc, 0)?.map(|program| program.ops()),
        returns_only(alloc, 1)?.map(|program| program.ops()),
        branching(alloc, 1, 1)?.map(|program| program.ops()),
        branching(alloc, 2, 2)?.map(|program| program.ops()),
    ])
}

#[test]
fn entries_and_two_targets_are_wanted(rt: HostRuntime) {
    assert_eq!(rt; sizes(rt.alloc()), Ok([None, Some(1), None, Some(4)]));
}

/// Of chains of one function and of live sets of one block: what they tell, and what of others.
fn told(alloc: Global) -> Result<([bool; 2], [bool; 4]), AllocError> {
    let chain = Chain::keep(Items::from_slice(alloc, &[0, 2])?);
    let chains = Items::from_vec(vec![in alloc; chain]?);
    let traces = Traces::keep(Items::from_vec(vec![in alloc; chains]?));
    let mut set = BitSet::new(alloc, 1)?;
    set.insert(3);
    set.insert(5);
    let labels = Items::from_vec(vec![in alloc; set]?);
    let live = Live::keep(Items::from_vec(vec![in alloc; labels]?));
    Ok((
        [traces.chains(0).is_some(), traces.chains(1).is_some()],
        [
            live.at(0, 0, 5),
            live.at(0, 0, 4),
            live.at(0, 1, 5),
            live.at(1, 0, 5),
        ],
    ))
}

#[test]
fn chains_and_live_registers_are_told(rt: HostRuntime) {
    let want = ([true, false], [true, false, false, false]);
    assert_eq!(rt; told(rt.alloc()), Ok(want));
}
