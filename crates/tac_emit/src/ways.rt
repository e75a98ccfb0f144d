ghost use Rattle.std.specs.Prelude.{◌≡◌, if◌then◌else◌};
ghost use Rattle.tac_code.specs.Views.{code_of, exit_of};
ghost use Rattle.tac_lowered.specs.Items.{branch, entry, exit, jump, label_of, onward};
ghost use Rattle.tac_emit.specs.Emitted.{loop_of, next_of};

use crate::jump::has_none;
use tac_code::{Code, Exit};
use tac_core::End;

/// The innermost loop's labels.
#[derive(Clone, Copy)]
pub(crate) struct Loop {
    pub on_break: u32,
    pub on_continue: u32,
}

/// Where code goes behind its end: on in the open block, or to a label.
#[derive(Clone, Copy)]
pub(crate) enum Next {
    Onward,
    Jump { stmt: u32, label: u32 },
}

impl Next {
    /// The label, or that of the block behind.
    pub fn label_or(self, behind: u32) -> u32
        ensures { result ≡ label_of (next_of self) behind }
    {
        match self {
            Next::Onward => behind,
            Next::Jump { label, .. } => label,
        }
    }

    /// To a label where it is in a block of its own, and else on in the open one.
    pub fn to_own(own: bool, stmt: u32, label: u32) -> Next
        ensures { next_of result ≡ (if own then jump stmt label else onward) }
    {
        if own {
            return Next::Jump { stmt, label };
        }
        Next::Onward
    }
}

/// The labels of the loop around code, and where it goes behind its end.
#[derive(Clone, Copy)]
pub(crate) struct Ways {
    pub around: Loop,
    pub next: Next,
}

impl Ways {
    /// Where no loop is around, and code goes on in the open block.
    pub const NOWHERE: Ways = Ways {
        around: Loop {
            on_break: 0,
            on_continue: 0,
        },
        next: Next::Onward,
    };
}

/// The end that leaves a part of a body.
pub(crate) fn exit(around: Loop, way: Exit) -> End
    ensures { result ≡ exit (loop_of around) (exit_of way) }
{
    match way {
        Exit::Breaks => End::Jump(around.on_break),
        Exit::Continues => End::Jump(around.on_continue),
        Exit::Returns(reg) => End::Ret(reg),
    }
}

/// An end that goes to one label where the register is not 0, and else to the other.
pub(crate) fn branch(reg: u32, yes: u32, no: u32) -> End
    ensures { result ≡ branch reg yes no }
{
    if yes == no {
        return End::Jump(yes);
    }
    End::Branch { reg, yes, no }
}

/// Where to go for code that has the block `label` of its own.
#[tactic(auto, using(crate::proofs::Surveying::row_counted, crate::proofs::Surveying::row_alone, crate::proofs::Surveying::row_enters))]
pub(crate) fn entry(code: &Code, around: Loop, next: u32, label: u32) -> u32
    ensures { result ≡ entry (code_of code.now) (loop_of around) next label }
{
    match code {
        Code::Nothing => next,
        Code::Leave { exit, .. } => match exit {
            Exit::Breaks => around.on_break,
            Exit::Continues => around.on_continue,
            Exit::Returns(_) => label,
        },
        Code::Row { first, last } => {
            if has_none(first) {
                return entry(last, around, next, label);
            }
            label
        }
        Code::Does { .. }
        | Code::Both(..)
        | Code::Calls { .. }
        | Code::When { .. }
        | Code::Choose { .. }
        | Code::Repeat { .. }
        | Code::Until { .. } => label,
    }
}
