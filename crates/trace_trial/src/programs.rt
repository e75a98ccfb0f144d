use crate::rows::{Goes, Shape};
use ib_base::{Place, Text};
use smallvec::SmallVec;
use sqlite_items::Items;
use std::alloc::{AllocError, Global};
use tac_core::{Act, Block, End, Regs, TacFunc, TacOp, TacProgram};

/// A function with one register and no frame.
pub fn func(alloc: Global, name: &str, blocks: Items<Block>) -> Result<TacFunc, AllocError> {
    Ok(TacFunc {
        name: Text::from_bytes(alloc, name.as_bytes())?,
        params: Items::new(alloc),
        regs: 1,
        frame: 0,
        blocks,
    })
}

pub fn program(alloc: Global, funcs: Vec<TacFunc>) -> Result<Option<TacProgram>, AllocError> {
    let places = vec![in alloc; Place { line: 1, col: 1 }]?;
    Ok(TacProgram::assemble(Vec::new(alloc), places, funcs))
}

fn ops_of(alloc: Global, many: u32) -> Result<Items<TacOp>, AllocError> {
    let mut ops = Items::new(alloc);
    for _op in 0..many {
        let act = Act::Const { to: 0, value: 0 };
        ops.push(TacOp { stmt: 0, act })?;
    }
    Ok(ops)
}

fn end_of(alloc: Global, goes: Goes) -> End {
    match goes {
        Goes::Jump(to) => End::Jump(to),
        Goes::Branch(yes, no) => End::Branch { reg: 0, yes, no },
        Goes::Call(next) => End::Call {
            dest: None,
            func: 1,
            args: Regs::keep(SmallVec::new(alloc)),
            next,
        },
        Goes::Ret => End::Ret(None),
    }
}

fn blocks_of(alloc: Global, shapes: &[Shape]) -> Result<Items<Block>, AllocError> {
    let mut blocks = Items::new(alloc);
    for (many, goes) in shapes {
        let ops = ops_of(alloc, *many)?;
        blocks.push(Block {
            ops,
            end: end_of(alloc, *goes),
            end_stmt: 0,
        })?;
    }
    Ok(blocks)
}

/// `main` of these blocks, and a function `f` that returns.
pub fn program_of(alloc: Global, shapes: &[Shape]) -> Result<Option<TacProgram>, AllocError> {
    let mut funcs = Vec::new(alloc);
    funcs.push(func(alloc, "main", blocks_of(alloc, shapes)?)?)?;
    funcs.push(func(alloc, "f", blocks_of(alloc, &[(0, Goes::Ret)])?)?)?;
    program(alloc, funcs)
}
