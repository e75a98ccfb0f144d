use ib_base::{FaultKind, MemHost, Outcome, Place, Text};
use profile::run_counting;
use smallvec::SmallVec;
use sqlite_items::Items;
use std::alloc::{AllocError, Global};
use tac_core::{Act, Block, Counts, End, Regs, Size, TacFunc, TacOp, TacProgram};

fn ops_of(alloc: Global, acts: &[Act]) -> Result<Items<TacOp>, AllocError> {
    let mut ops = Items::new(alloc);
    for act in acts {
        ops.push(TacOp { stmt: 0, act: *act })?;
    }
    Ok(ops)
}

/// Appends a block.
fn add(blocks: &mut Vec<Block>, ops: Items<TacOp>, end: End) -> Result<(), AllocError> {
    blocks.push(Block {
        ops,
        end,
        end_stmt: 1,
    })?;
    Ok(())
}

fn func(alloc: Global, name: &[u8], blocks: Vec<Block>) -> Result<TacFunc, AllocError> {
    Ok(TacFunc {
        name: Text::from_bytes(alloc, name)?,
        params: Items::new(alloc),
        regs: 4,
        frame: 0,
        blocks: Items::from_vec(blocks),
    })
}

fn program(alloc: Global, funcs: Vec<TacFunc>) -> Result<Option<TacProgram>, AllocError> {
    let places = vec![in alloc; Place { line: 3, col: 5 }, Place { line: 4, col: 7 }]?;
    Ok(TacProgram::assemble(Vec::new(alloc), places, funcs))
}

/// A program of `main` alone.
fn main_alone(alloc: Global, blocks: Vec<Block>) -> Result<Option<TacProgram>, AllocError> {
    let mut funcs = Vec::new(alloc);
    funcs.push(func(alloc, b"main", blocks)?)?;
    program(alloc, funcs)
}

/// A call without arguments.
fn call(alloc: Global, dest: Option<u32>, func: u32, next: u32) -> End {
    End::Call {
        dest,
        func,
        args: Regs::keep(SmallVec::new(alloc)),
        next,
    }
}

/// Three turns of a loop that counts to 3.
fn loop_of_three(alloc: Global) -> Result<Option<TacProgram>, AllocError> {
    let first = [
        Act::Const { to: 0, value: 0 },
        Act::Const { to: 1, value: 3 },
        Act::Const { to: 2, value: 1 },
    ];
    let turn = [
        Act::Add {
            size: Size::Four,
            to: 0,
            left: 0,
            right: 2,
        },
        Act::Less {
            to: 3,
            left: 0,
            right: 1,
        },
    ];
    let mut blocks = Vec::new(alloc);
    add(&mut blocks, ops_of(alloc, &first)?, End::Jump(1))?;
    let ops = ops_of(alloc, &turn)?;
    let again = End::Branch {
        reg: 3,
        yes: 1,
        no: 2,
    };
    add(&mut blocks, ops, again)?;
    add(&mut blocks, Items::new(alloc), End::Ret(Some(0)))?;
    main_alone(alloc, blocks)
}

/// `main` reads a number and writes it, then calls itself.
fn echo_for_ever(alloc: Global) -> Result<Option<TacProgram>, AllocError> {
    let echo = [Act::Get { to: 0 }, Act::PutNumber { from: 0 }];
    let mut blocks = Vec::new(alloc);
    let ops = ops_of(alloc, &echo)?;
    add(&mut blocks, ops, call(alloc, None, 0, 1))?;
    add(&mut blocks, Items::new(alloc), End::Ret(None))?;
    main_alone(alloc, blocks)
}

/// `main` divides by zero in a function that it calls a second time.
fn quotient(alloc: Global) -> Result<Option<TacProgram>, AllocError> {
    let divide = [
        Act::Get { to: 0 },
        Act::Div {
            size: Size::Four,
            to: 1,
            left: 0,
            right: 0,
        },
    ];
    let mut funcs = Vec::new(alloc);
    funcs.push(func(alloc, b"main", two_calls(alloc)?)?)?;
    let mut blocks = Vec::new(alloc);
    add(&mut blocks, ops_of(alloc, &divide)?, End::Ret(Some(1)))?;
    funcs.push(func(alloc, b"f", blocks)?)?;
    program(alloc, funcs)
}

/// Blocks that call the second function twice, and return.
fn two_calls(alloc: Global) -> Result<Vec<Block>, AllocError> {
    let mut blocks = Vec::new(alloc);
    add(&mut blocks, Items::new(alloc), call(alloc, Some(0), 1, 1))?;
    add(&mut blocks, Items::new(alloc), call(alloc, Some(0), 1, 2))?;
    add(&mut blocks, Items::new(alloc), End::Ret(None))?;
    Ok(blocks)
}

/// How a run has to come out: its outcome, how many bytes it prints, how often functions are entered, and how often edges
/// are taken, each by its function and its two blocks.
#[derive(Clone, Copy)]
struct Wanted<'a> {
    outcome: Outcome,
    printed: usize,
    entries: &'a [(u32, u64)],
    edges: &'a [(u32, u32, u32, u64)],
}

fn has(counts: &Counts, wanted: Wanted<'_>) -> bool {
    for (func, times) in wanted.entries {
        if counts.entries(*func) != *times {
            return false;
        }
    }
    for (func, from, to, times) in wanted.edges {
        if counts.edge(*func, *from, *to) != *times {
            return false;
        }
    }
    true
}

fn comes_out(
    alloc: Global,
    tac: &TacProgram,
    input: &[u8],
    budget: u64,
    wanted: Wanted<'_>,
) -> Result<bool, AllocError> {
    let mut host = MemHost::new(alloc, input)?;
    let counted = is_counted(alloc, tac, &mut host, budget, wanted);
    Ok(counted && host.output().len() == wanted.printed)
}

/// Whether a run has this outcome and these counts.
fn is_counted(
    alloc: Global,
    tac: &TacProgram,
    host: &mut MemHost,
    budget: u64,
    wanted: Wanted<'_>,
) -> bool {
    match run_counting(alloc, tac, host, budget) {
        Ok((outcome, counts)) => outcome == wanted.outcome && has(&counts, wanted),
        Err(_) => false,
    }
}

fn loop_comes_out(alloc: Global, budget: u64, outcome: Outcome) -> Result<bool, AllocError> {
    let wanted = Wanted {
        outcome,
        printed: 0,
        entries: &[(0, 1)],
        edges: &[(0, 0, 1, 1), (0, 1, 1, 2), (0, 1, 2, 1), (0, 2, 0, 0)],
    };
    match loop_of_three(alloc)? {
        Some(tac) => comes_out(alloc, &tac, b"", budget, wanted),
        None => Ok(false),
    }
}

fn echo_comes_out(alloc: Global) -> Result<bool, AllocError> {
    let place = Place { line: 4, col: 7 };
    let kind = FaultKind::StackOverflow;
    let wanted = Wanted {
        outcome: Outcome::Faulted { place, kind },
        printed: 2 + 2 * 4095,
        entries: &[(0, 4096)],
        edges: &[(0, 0, 1, 0)],
    };
    match echo_for_ever(alloc)? {
        Some(tac) => comes_out(alloc, &tac, b"A", 100_000, wanted),
        None => Ok(false),
    }
}

fn quotient_comes_out(alloc: Global) -> Result<bool, AllocError> {
    let place = Place { line: 3, col: 5 };
    let kind = FaultKind::DivZero;
    let wanted = Wanted {
        outcome: Outcome::Faulted { place, kind },
        printed: 0,
        entries: &[(0, 1), (1, 2)],
        edges: &[(0, 0, 1, 1), (0, 1, 2, 0)],
    };
    match quotient(alloc)? {
        Some(tac) => comes_out(alloc, &tac, b"\x09\x00", 100, wanted),
        None => Ok(false),
    }
}

#[test]
fn edges_are_counted_up_to_the_budget(rt: HostRuntime) {
    assert!(rt; matches!(loop_comes_out(rt.alloc(), 13, Outcome::Spent), Ok(true)));
    assert!(rt; matches!(loop_comes_out(rt.alloc(), 14, Outcome::Ended(3)), Ok(true)));
}

#[test]
fn calls_count_where_they_enter(rt: HostRuntime) {
    assert!(rt; matches!(echo_comes_out(rt.alloc()), Ok(true)));
}

#[test]
fn calls_count_where_they_return(rt: HostRuntime) {
    assert!(rt; matches!(quotient_comes_out(rt.alloc()), Ok(true)));
}
