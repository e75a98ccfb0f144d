use crate::regs::Regs;
use ib_act::Act;
use ib_base::Text;
use sqlite_items::Items;

/// An operation, and the number of the statement that its fault belongs to.
#[derive(Clone, Copy)]
pub struct TacOp {
    pub stmt: u32,
    pub act: Act,
}

/// How a block ends. Labels are the numbers of the function's blocks.
#[derive(Drop)]
pub enum End {
    Jump(u32),
    /// Goes to `yes` where the register is not 0, else to `no`.
    Branch {
        reg: u32,
        yes: u32,
        no: u32,
    },
    /// Calls a function by its number; its result goes to `dest`, and then the block `next` runs.
    Call {
        dest: Option<u32>,
        func: u32,
        args: Regs,
        next: u32,
    },
    /// Returns a register's number, or 0.
    Ret(Option<u32>),
}

/// Operations that run one after the other, and the end, which is of a statement too.
#[derive(Drop)]
pub struct Block {
    pub ops: Items<TacOp>,
    pub end: End,
    pub end_stmt: u32,
}

/// A function: the registers of its parameters, how many registers it has, its frame's bytes, its blocks by label.
#[derive(Drop)]
pub struct TacFunc {
    pub name: Text,
    pub params: Items<u32>,
    pub regs: u32,
    pub frame: u32,
    pub blocks: Items<Block>,
}
