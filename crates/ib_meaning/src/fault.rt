ghost use Rattle.std.specs.Prelude.{◌≡◌};
ghost use Rattle.ib_meaning.specs.FaultKind.{kind_name, kind_number};

use std::fmt;

/// Why a program of the source ends before its return.
#[derive(Clone, Copy, PartialEq, Eq, Debug)]
pub enum FaultKind {
    /// `/` or `%` with a right operand 0.
    DivZero,
    /// `/` or `%` of the least number of its type by -1.
    DivOverflow,
    /// An access that is not wholly mapped, or not aligned.
    BadAddress,
    /// An index outside a declared array.
    Bounds,
    /// A call too deep, or with no room for its frame.
    StackOverflow,
}

impl FaultKind {
    /// The name that a note shows.
    pub fn name(self) -> &'static str
        ensures { result.now ≡ kind_name self }
    {
        match self {
            FaultKind::DivZero => "DivZero",
            FaultKind::DivOverflow => "DivOverflow",
            FaultKind::BadAddress => "BadAddress",
            FaultKind::Bounds => "Bounds",
            FaultKind::StackOverflow => "StackOverflow",
        }
    }

    /// The number by which kinds are ordered, from 1.
    pub fn number(self) -> u8
        ensures { result ≡ kind_number self }
    {
        match self {
            FaultKind::DivZero => 1,
            FaultKind::DivOverflow => 2,
            FaultKind::BadAddress => 3,
            FaultKind::Bounds => 4,
            FaultKind::StackOverflow => 5,
        }
    }
}

impl fmt::Display for FaultKind {
    ghost use Rattle.std.specs.Prelude.{Some};
    ghost use Rattle.ib_meaning.specs.FaultKind.{kind_name};

    ghost output = { λ kind. Some (kind_name kind) };

    fn fmt<W: fmt::Write>(&self, f: &mut fmt::Formatter<W>) -> fmt::Result {
        f.write_str(self.name())
    }
}
