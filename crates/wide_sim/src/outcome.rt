use ib_base::{FaultKind, HostErr, Place};
use std::alloc::AllocError;
use thiserror::Error;

/// What a cycle leaves: the machine goes on, has ended with a result, or has reported a fault.
#[derive(Clone, Copy, PartialEq, Eq, Debug)]
pub enum Stepped {
    Going,
    Ended(i32),
    Reported { place: Place, kind: FaultKind },
}

/// How a run comes out. `cycles` counts from the start of `main`.
#[derive(Clone, Copy, PartialEq, Eq, Debug)]
pub enum SimOutcome {
    Ended {
        result: i32,
        cycles: u64,
    },
    Reported {
        place: Place,
        kind: FaultKind,
        cycles: u64,
    },
    /// The cycles given were run, and the machine goes on.
    Spent,
}

/// Why a cycle was not done.
#[derive(Clone, Copy, PartialEq, Eq, Debug, Error)]
pub enum SimErr {
    #[error("the system failed while the machine ran")]
    HostFailed,
    #[error("there is not enough memory to run the machine")]
    NoMemory,
}

impl From<HostErr> for SimErr {
    ghost use Rattle.wide_sim.specs.Errors.{sim_err};
    ghost use Rattle.std.specs.Prelude.{◌≡◌};

    ghost from_gives = { λ error result. result ≡ sim_err error };

    fn from(error: HostErr) -> SimErr {
        match error {
            HostErr::Failed => SimErr::HostFailed,
            HostErr::NoMemory => SimErr::NoMemory,
        }
    }
}

impl From<AllocError> for SimErr {
    ghost use Rattle.std.specs.Prelude.{◌≡◌};
    ghost use Rattle.wide_sim.specs.declared.outcome.SimErr.{SimErr};

    ghost from_gives = { λ error result. result ≡ SimErr.NoMemory };

    fn from(_error: AllocError) -> SimErr {
        SimErr::NoMemory
    }
}
