use c_typed::Rule;
use ib_base::Place;
use std::alloc::AllocError;
use std::fmt;
use thiserror::Error;

/// Why a source has no program.
#[derive(Clone, Copy, Error)]
pub enum CheckErr {
    /// The first anchor at which a rule is broken, and the least rule there.
    #[error("{place}: {}", described(.rule))]
    Rule { rule: Rule, place: Place },
    /// So many bytes of globals and string literals.
    #[error("globals and string literals take {0} bytes, more than 524288")]
    Globals(u64),
    /// So many bytes of a frame, the first that is too large.
    #[error("the variables of a function take {0} bytes, more than 262144")]
    Frame(u64),
    #[error("there is not enough memory to check the source")]
    NoMemory,
}

/// What is wrong where a rule is broken.
fn described(rule: &Rule) -> &'static str {
    match rule {
        Rule::UnknownName => "this name is not declared",
        Rule::Redeclared => "this name is declared already",
        Rule::NoMain => "no function `main` has a body",
        Rule::WrongSignature => "the types or parameters of this function do not fit",
        Rule::BadType => "no variable may have this type or array length",
        Rule::NotAPlace => "only a variable, `*p` or `a[i]` can stand here",
        Rule::NotACondition => "a condition is a number or a pointer",
        Rule::WrongOperands => "this operator does not take operands of these types",
        Rule::NotAssignable => "this value does not fit the type that is wanted",
        Rule::NotAFunction => "this name is no function that is called",
        Rule::ArgumentCount => "this call has too few or too many arguments",
        Rule::OutsideALoop => "this stands in no loop",
        Rule::ReturnValue => "a value is given back if and only if the function has one",
        Rule::WrongInitialiser => "this initialiser is not constant or does not fit",
    }
}

impl fmt::Debug for CheckErr {
    fn fmt<W: fmt::Write>(&self, f: &mut fmt::Formatter<W>) -> fmt::Result {
        write!(f, "{self}")
    }
}

impl From<AllocError> for CheckErr {
    ghost use Rattle.c_program.specs.declared.error.CheckErr.TheVariants.{NoMemory};
    ghost use Rattle.std.specs.Prelude.{◌≡◌};

    ghost from_gives = { λ error result. result ≡ NoMemory };

    fn from(_error: AllocError) -> CheckErr {
        CheckErr::NoMemory
    }
}
