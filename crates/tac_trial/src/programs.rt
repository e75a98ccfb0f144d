use ib_base::{Place, Text};
use smallvec::SmallVec;
use sqlite_items::Items;
use std::alloc::{AllocError, Global};
use tac_core::{Act, Block, End, Regs, Size, TacFunc, TacOp, TacProgram};

fn ops_of(alloc: Global, acts: &[Act]) -> Result<Items<TacOp>, AllocError> {
    let mut ops = Items::new(alloc);
    for act in acts {
        ops.push(TacOp { stmt: 0, act: *act })?;
    }
    Ok(ops)
}

/// Appends a block.
fn add(blocks: &mut Items<Block>, ops: Items<TacOp>, end: End) -> Result<(), AllocError> {
    blocks.push(Block {
        ops,
        end,
        end_stmt: 0,
    })
}

/// A function with 4 registers and no frame.
pub fn func(alloc: Global, name: &str, blocks: Items<Block>) -> Result<TacFunc, AllocError> {
    Ok(TacFunc {
        name: Text::from_bytes(alloc, name.as_bytes())?,
        params: Items::new(alloc),
        regs: 4,
        frame: 0,
        blocks,
    })
}

fn program(alloc: Global, funcs: Vec<TacFunc>) -> Result<Option<TacProgram>, AllocError> {
    let places = vec![in alloc; Place { line: 1, col: 1 }]?;
    Ok(TacProgram::assemble(Vec::new(alloc), places, funcs))
}

/// Turns of a loop that adds 1 and compares. It returns how many there were.
pub fn counting_loop(alloc: Global, turns: i64) -> Result<Option<TacProgram>, AllocError> {
    let first = [
        Act::Const { to: 0, value: 0 },
        Act::Const {
            to: 1,
            value: turns,
        },
        Act::Const { to: 2, value: 1 },
    ];
    let turn = [
        Act::Add {
            size: Size::Four,
            to: 0,
            left: 0,
            right: 2,
        },
        Act::Less {
            to: 3,
            left: 0,
            right: 1,
        },
    ];
    let mut blocks = Items::new(alloc);
    add(&mut blocks, ops_of(alloc, &first)?, End::Jump(1))?;
    let ops = ops_of(alloc, &turn)?;
    let again = End::Branch {
        reg: 3,
        yes: 1,
        no: 2,
    };
    add(&mut blocks, ops, again)?;
    add(&mut blocks, Items::new(alloc), End::Ret(Some(0)))?;
    let mut funcs = Vec::new(alloc);
    funcs.push(func(alloc, "main", blocks)?)?;
    program(alloc, funcs)
}

/// `main` calls `f`, which returns, again and again.
pub fn calls_without_end(alloc: Global) -> Result<Option<TacProgram>, AllocError> {
    let mut funcs = Vec::new(alloc);
    funcs.push(func(alloc, "main", blocks_that_call(alloc)?)?)?;
    let mut returns = Items::new(alloc);
    add(&mut returns, Items::new(alloc), End::Ret(None))?;
    funcs.push(func(alloc, "f", returns)?)?;
    program(alloc, funcs)
}

/// Blocks that call the second function in turns.
fn blocks_that_call(alloc: Global) -> Result<Items<Block>, AllocError> {
    let mut blocks = Items::new(alloc);
    add(&mut blocks, Items::new(alloc), End::Jump(1))?;
    let call = End::Call {
        dest: None,
        func: 1,
        args: Regs::keep(SmallVec::new(alloc)),
        next: 2,
    };
    add(&mut blocks, Items::new(alloc), call)?;
    add(&mut blocks, Items::new(alloc), End::Jump(1))?;
    Ok(blocks)
}
