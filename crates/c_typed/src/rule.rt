ghost use Rattle.std.specs.Prelude.{◌≡◌};
ghost use Rattle.c_typed.specs.Rules.{number_of};

/// The rules of typing.
#[derive(Clone, Copy)]
pub enum Rule {
    UnknownName,
    Redeclared,
    NoMain,
    WrongSignature,
    BadType,
    NotAPlace,
    NotACondition,
    WrongOperands,
    NotAssignable,
    NotAFunction,
    ArgumentCount,
    OutsideALoop,
    ReturnValue,
    WrongInitialiser,
}

impl Rule {
    /// The number that an answer gives.
    pub fn number(self) -> u8
        ensures { result ≡ number_of self }
    {
        match self {
            Rule::UnknownName => 1,
            Rule::Redeclared => 2,
            Rule::NoMain => 3,
            Rule::WrongSignature => 4,
            Rule::BadType => 5,
            Rule::NotAPlace => 6,
            Rule::NotACondition => 7,
            Rule::WrongOperands => 8,
            Rule::NotAssignable => 9,
            Rule::NotAFunction => 10,
            Rule::ArgumentCount => 11,
            Rule::OutsideALoop => 12,
            Rule::ReturnValue => 13,
            Rule::WrongInitialiser => 14,
        }
    }
}
