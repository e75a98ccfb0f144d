use crate::host::HostErr;
use ib_meaning::{FaultKind, Place};
use std::alloc::{AllocError, AllocFailed};
use thiserror::Error;

/// How a run of a program came out.
#[derive(Clone, Copy, PartialEq, Eq, Debug)]
pub enum Outcome {
    /// `main` returned this.
    Ended(i32),
    /// The program faulted at a statement of the source.
    Faulted { place: Place, kind: FaultKind },
    /// The budget ran out first.
    Spent,
}

/// Why a run has no outcome.
#[derive(Clone, Copy, PartialEq, Eq, Debug, Error)]
pub enum RunErr {
    /// A call of the host failed.
    #[error("the system failed while the program ran")]
    Host,
    /// Memory was wanting.
    #[error("there is not enough memory to run the program")]
    NoMemory,
}

impl From<HostErr> for RunErr {
    ghost use Rattle.ib_base.specs.Cause.{run_err};
    ghost use Rattle.std.specs.Prelude.{◌≡◌};

    ghost from_gives = { λ error result. result ≡ run_err error };

    fn from(error: HostErr) -> RunErr {
        match error {
            HostErr::Failed => RunErr::Host,
            HostErr::NoMemory => RunErr::NoMemory,
        }
    }
}

impl From<AllocError> for RunErr {
    ghost use Rattle.ib_base.specs.declared.outcome.RunErr.TheVariants.{NoMemory};
    ghost use Rattle.std.specs.Prelude.{◌≡◌};

    ghost from_gives = { λ error result. result ≡ NoMemory };

    fn from(_error: AllocError) -> RunErr {
        RunErr::NoMemory
    }
}

impl<T: Drop> From<AllocFailed<T>> for RunErr {
    ghost use Rattle.ib_base.specs.declared.outcome.RunErr.TheVariants.{NoMemory};
    ghost use Rattle.std.specs.Prelude.{◌≡◌};

    ghost from_gives = { λ error result. result ≡ NoMemory };

    fn from(_error: AllocFailed<T>) -> RunErr {
        RunErr::NoMemory
    }
}
