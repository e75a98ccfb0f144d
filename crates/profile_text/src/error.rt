use std::alloc::AllocError;
use thiserror::Error;

/// Why a file gave no counts. Lines are numbered from 1.
#[derive(Clone, Copy, PartialEq, Eq, Debug, Drop, Error)]
pub enum ProfErr {
    /// The line does not fit the grammar, or is missing.
    #[error("line {0} of the profile is missing, or is not as a profile's line must be")]
    Malformed(u32),
    /// The line does not match the program.
    #[error("line {0} of the profile does not match the program")]
    Mismatch(u32),
    #[error("there is not enough memory to read the profile")]
    NoMemory,
}

impl From<AllocError> for ProfErr {
    ghost use Rattle.profile_text.specs.declared.error.ProfErr.TheVariants.{NoMemory};
    ghost use Rattle.std.specs.Prelude.{◌≡◌};

    ghost from_gives = { λ error result. result ≡ NoMemory };

    fn from(_error: AllocError) -> ProfErr {
        ProfErr::NoMemory
    }
}
