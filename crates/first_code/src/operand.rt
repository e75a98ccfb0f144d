ghost use Rattle.std.specs.Prelude.{◌≡◌};
ghost use Rattle.first_code.specs.Operand.{operand_of, load};

use first_form::Factor;
use ib_act::Act;
use wide_core::WideAct;

/// Where the value of an operator or a factor is.
#[derive(Clone, Copy)]
pub(crate) enum Operand {
    InSlot(u32),
    Constant(i64),
}

impl Operand {
    pub(crate) fn of_factor(factor: Factor) -> Operand
        ensures { result ≡ operand_of factor }
    {
        match factor {
            Factor::Variable(variable) => Operand::InSlot(variable),
            Factor::Number(n) => Operand::Constant(i64::from(n)),
            Factor::Negative(n) => Operand::Constant(-i64::from(n)),
        }
    }

    /// The operation that brings the operand to a register.
    pub(crate) fn load(self, to: u32) -> WideAct
        ensures { result ≡ load to self }
    {
        match self {
            Operand::InSlot(slot) => WideAct::Reload { to, from: slot },
            Operand::Constant(value) => WideAct::Do(Act::Const { to, value }),
        }
    }
}
