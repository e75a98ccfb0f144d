use crate::program::TacProgram;
use std::marker::Model;
use std::snapshot::Snapshot;

/// Where a program that contracts alone see was seen: at itself, or at what saw it before.
#[derive(Drop)]
enum Seen {
    First(Snapshot<TacProgram>),
    Again(Snapshot<Snapshot<Seen>>),
}

/// A program that contracts alone see: it has no bytes.
#[derive(Drop)]
pub(crate) struct Origin {
    seen: Snapshot<Seen>,
}

impl Model for Origin {
    ghost use Rattle.tac_core.specs.Program.{Program};
    ghost use Rattle.tac_core.specs.Seen.{seen_program};

    ghost Value = { Program };

    ghost view = { λ origin. seen_program origin.seen.value };
}

impl Origin {
    ghost use Rattle.std.specs.Prelude.{◌≡◌};

    pub(crate) fn of(program: &TacProgram) -> Origin
        ensures { result ≡ program.now }
    {
        let seen = Seen::First(Snapshot::of(program));
        Origin {
            seen: Snapshot::of(&seen),
        }
    }

    /// The same program.
    pub(crate) fn again(&self) -> Origin
        ensures { result ≡ self.now }
    {
        let seen = Seen::Again(Snapshot::of(&self.seen));
        Origin {
            seen: Snapshot::of(&seen),
        }
    }
}
