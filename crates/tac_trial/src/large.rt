use crate::programs::func;
use sqlite_items::Items;
use std::alloc::{AllocError, Global};
use std::fmt::Write;
use tac_core::{Act, Block, End, TacFunc, TacOp};

/// A block goes to one of the next two; the last two go back.
fn block_at(alloc: Global, label: u32, blocks: u32) -> Block {
    let next = label.saturating_add(1);
    let then = label.saturating_add(2);
    let end = if then < blocks {
        End::Branch {
            reg: 0,
            yes: then,
            no: next,
        }
    } else {
        End::Jump(1)
    };
    Block {
        ops: Items::new(alloc),
        end,
        end_stmt: 0,
    }
}

fn blocks_of(alloc: Global, blocks: u32) -> Result<Items<Block>, AllocError> {
    let mut list = Items::new(alloc);
    for label in 0..blocks {
        list.push(block_at(alloc, label, blocks))?;
    }
    Ok(list)
}

/// `main` comes last.
fn name_of(alloc: Global, number: u32, funcs: u32) -> Result<String, AllocError> {
    if number.saturating_add(1) == funcs {
        String::from_str(alloc, "main")
    } else {
        format!(in alloc; "f{number}")
    }
}

/// So many functions, each of so many blocks without operations.
pub fn funcs_of(alloc: Global, funcs: u32, blocks: u32) -> Result<Vec<TacFunc>, AllocError> {
    let mut list = Vec::new(alloc);
    for number in 0..funcs {
        let name = name_of(alloc, number, funcs)?;
        list.push(func(alloc, name.as_str(), blocks_of(alloc, blocks)?)?)?;
    }
    Ok(list)
}

fn write_edges(text: &mut String, label: u32, blocks: u32) -> Result<(), AllocError> {
    let next = label.saturating_add(1);
    let then = label.saturating_add(2);
    if then < blocks {
        write!(text, "edge {label} {next} 9223372036854775807\n")?;
        write!(text, "edge {label} {then} 9223372036854775807\n")
    } else {
        write!(text, "edge {label} 1 9223372036854775807\n")
    }
}

/// The profile of these functions in which each edge has the greatest count.
pub fn profile_of(alloc: Global, funcs: u32, blocks: u32) -> Result<String, AllocError> {
    let mut text = String::from_str(alloc, "impactc profile 1\n")?;
    for number in 0..funcs {
        let name = name_of(alloc, number, funcs)?;
        write!(&mut text, "func {} {blocks} 1\n", name.as_str())?;
        for label in 0..blocks {
            write_edges(&mut text, label, blocks)?;
        }
    }
    text.push_str("end\n")?;
    Ok(text)
}

/// `main` of so many blocks, each of which reads a register of its own.
pub fn main_of_registers(alloc: Global, blocks: u32) -> Result<TacFunc, AllocError> {
    let mut list = Items::new(alloc);
    for label in 0..blocks {
        let mut block = block_at(alloc, label, blocks);
        let act = Act::Mov { to: 0, from: label };
        block.ops.push(TacOp { stmt: 0, act })?;
        list.push(block)?;
    }
    let mut func = func(alloc, "main", list)?;
    func.regs = blocks;
    Ok(func)
}
