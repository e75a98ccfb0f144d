ghost use Rattle.std.specs.Prelude.{◌≡◌, IfOk};

use crate::code::{Block, End, TacFunc};
use sqlite_items::Items;
use std::alloc::{AllocError, Global};

impl End {
    pub fn copy(&self, alloc: Global) -> Result<End, AllocError>
        ensures { IfOk result (λ end'. end' ≡ self.now) }
    {
        match self {
            End::Jump(label) => Ok(End::Jump(*label)),
            End::Branch { reg, yes, no } => Ok(End::Branch {
                reg: *reg,
                yes: *yes,
                no: *no,
            }),
            End::Call {
                dest,
                func,
                args,
                next,
            } => {
                let args = args.copy(alloc)?;
                Ok(End::Call {
                    dest: *dest,
                    func: *func,
                    args,
                    next: *next,
                })
            }
            End::Ret(reg) => Ok(End::Ret(*reg)),
        }
    }
}

impl Block {
    pub fn copy(&self, alloc: Global) -> Result<Block, AllocError>
        ensures { IfOk result (λ block. block ≡ self.now) }
    {
        let ops = Items::from_slice(alloc, self.ops.as_slice())?;
        let end = self.end.copy(alloc)?;
        Ok(Block {
            ops,
            end,
            end_stmt: self.end_stmt,
        })
    }
}

fn copy_blocks(alloc: Global, blocks: &[Block]) -> Result<Items<Block>, AllocError>
    ensures { IfOk result (λ copies. copies ≡ blocks.now) }
{
    let mut copies = Items::new(alloc);
    for block in blocks {
        copies.push(block.copy(alloc)?)?;
    }
    Ok(copies)
}

impl TacFunc {
    pub fn copy(&self, alloc: Global) -> Result<TacFunc, AllocError>
        ensures { IfOk result (λ func. func ≡ self.now) }
    {
        let name = self.name.copy(alloc)?;
        let params = Items::from_slice(alloc, self.params.as_slice())?;
        let blocks = copy_blocks(alloc, self.blocks.as_slice())?;
        Ok(TacFunc {
            name,
            params,
            regs: self.regs,
            frame: self.frame,
            blocks,
        })
    }
}

pub(crate) fn copy_funcs(alloc: Global, funcs: &[TacFunc]) -> Result<Items<TacFunc>, AllocError>
    ensures { IfOk result (λ copies. copies ≡ funcs.now) }
{
    let mut copies = Items::new(alloc);
    for func in funcs {
        copies.push(func.copy(alloc)?)?;
    }
    Ok(copies)
}
