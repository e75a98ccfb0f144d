ghost use Rattle.std.specs.Prelude.{◌≡◌, ◌≤◌, ◌+◌, length, IfOk};
ghost use Rattle.wide_plain.specs.Emitted.{args_of};
ghost use Rattle.wide_plain.specs.Sizes.{act_size, block_size, end_size, opt_size, reg_size, regs_size};

use crate::homes::Homes;
use ib_act::Act;
use std::alloc::AllocError;
use tac_core::{Block, End};

impl Homes {
    /// The words that a register costs: one where it lives in a slot.
    fn reg_size(self, reg: u32) -> u32
        ensures size { result ≡ reg_size self.low reg }
        ensures few { result ≤ 1 }
    {
        if reg < self.low { 0 } else { 1 }
    }

    fn opt_size(self, reg: Option<u32>) -> u32
        ensures size { result ≡ opt_size self.low reg }
        ensures few { result ≤ 1 }
    {
        match reg {
            None => 0,
            Some(reg) => self.reg_size(reg),
        }
    }

    fn regs_size(self, regs: &[u32]) -> u32
        requires { length regs.now ≤ 8 }
        ensures size { result ≡ regs_size self.low regs.now }
        ensures few { result ≤ 8 }
    {
        let mut size = 0;
        for reg in regs {
            size += self.reg_size(*reg);
        }
        size
    }

    fn act_size(self, act: Act) -> u32
        ensures { result ≡ act_size self.low act }
    {
        self.opt_size(act.first_source())
            + self.opt_size(act.second_source())
            + 1
            + self.opt_size(act.target())
    }

    fn end_size(self, end: &End) -> u32
        requires { args_of end.now ≤ 8 }
        ensures { result ≡ end_size self.low end.now }
    {
        match end {
            End::Jump(_) => 1,
            End::Branch { reg, .. } => self.reg_size(*reg) + 2,
            End::Call { args, .. } => self.regs_size(args.list()) + 1,
            End::Ret(reg) => self.opt_size(*reg) + 1,
        }
    }

    /// The word behind a block that begins at this one.
    pub(crate) fn behind_block(self, first: u32, block: &Block) -> Result<u32, AllocError>
        requires { args_of block.now.«end» ≤ 8 }
        ensures { IfOk result (λ behind. behind ≡ first + block_size self.low block.now) }
    {
        let mut behind = first;
        for op in block.ops.as_slice() {
            behind = behind.checked_add(self.act_size(op.act)).ok_or(AllocError)?;
        }
        behind
            .checked_add(self.end_size(&block.end))
            .ok_or(AllocError)
    }
}
