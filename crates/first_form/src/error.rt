use std::alloc::{AllocError, AllocFailed};
use thiserror::Error;

/// Why no program was read.
#[derive(Clone, Copy, PartialEq, Eq, Debug, Error)]
pub enum ReadErr {
    #[error("the source is not in the form that this version compiles")]
    NotFirstForm,
    #[error("there is not enough memory to read the source")]
    NoMemory,
}

impl From<AllocError> for ReadErr {
    ghost use Rattle.first_form.specs.declared.error.ReadErr.TheVariants.{NoMemory};
    ghost use Rattle.std.specs.Prelude.{◌≡◌};

    ghost from_gives = { λ e r. r ≡ NoMemory };

    fn from(_e: AllocError) -> ReadErr {
        ReadErr::NoMemory
    }
}

impl<T: Drop> From<AllocFailed<T>> for ReadErr {
    ghost use Rattle.first_form.specs.declared.error.ReadErr.TheVariants.{NoMemory};
    ghost use Rattle.std.specs.Prelude.{◌≡◌};

    ghost from_gives = { λ e r. r ≡ NoMemory };

    fn from(_e: AllocFailed<T>) -> ReadErr {
        ReadErr::NoMemory
    }
}
