ghost use Rattle.std.specs.Prelude.{◌≡◌};
ghost use Rattle.wide_core.specs.Classes.{class_of, class_of_act, is_register, is_register_act};
ghost use Rattle.wide_core.specs.Operation.{reg_of, target};

use crate::code::{Loc, WideAct};
use ib_act::Act;
use machine_desc::OpClass;

impl WideAct {
    /// The register or slot that it writes, a call's when it returns.
    pub fn target(&self) -> Option<Loc>
        ensures { result ≡ target self.now }
    {
        match self {
            WideAct::Do(act) => register(act.target()),
            WideAct::Spill { to, .. } => Some(Loc::Slot(*to)),
            WideAct::Reload { to, .. } => Some(Loc::Reg(*to)),
            WideAct::Call { result, .. } => *result,
            WideAct::Check { .. } => None,
            WideAct::Jump { .. } => None,
            WideAct::Branch { .. } => None,
            WideAct::BranchZero { .. } => None,
            WideAct::Return(_) => None,
        }
    }

    /// The kind of unit that executes it.
    pub fn class(&self) -> OpClass
        ensures { result ≡ class_of self.now }
    {
        match self {
            WideAct::Do(act) => class_of_act(*act),
            WideAct::Spill { .. } => OpClass::Mem,
            WideAct::Reload { .. } => OpClass::Mem,
            WideAct::Check { .. } => OpClass::Alu,
            WideAct::Jump { .. } => OpClass::Control,
            WideAct::Branch { .. } => OpClass::Control,
            WideAct::BranchZero { .. } => OpClass::Control,
            WideAct::Call { .. } => OpClass::Control,
            WideAct::Return(_) => OpClass::Control,
        }
    }

    /// Whether it changes nothing but a register, so that it may be flagged.
    pub fn is_register(&self) -> bool
        ensures { result ≡ is_register self.now }
    {
        match self {
            WideAct::Do(act) => is_register_act(*act),
            _ => false,
        }
    }
}

fn register(reg: Option<u32>) -> Option<Loc>
    ensures { result ≡ reg_of reg }
{
    match reg {
        Some(reg) => Some(Loc::Reg(reg)),
        None => None,
    }
}

fn class_of_act(act: Act) -> OpClass
    ensures { result ≡ class_of_act act }
{
    match act {
        Act::Mul { .. } | Act::Div { .. } | Act::Rem { .. } => OpClass::Mul,
        Act::Load { .. } | Act::Store { .. } => OpClass::Mem,
        Act::Get { .. } | Act::PutByte { .. } | Act::PutNumber { .. } => OpClass::Io,
        _ => OpClass::Alu,
    }
}

fn is_register_act(act: Act) -> bool
    ensures { result ≡ is_register_act act }
{
    match act {
        Act::Store { .. } | Act::Get { .. } | Act::PutByte { .. } | Act::PutNumber { .. } => false,
        _ => true,
    }
}
