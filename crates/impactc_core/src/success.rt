use ib_base::Outcome;
use itoa::Buffer;
use std::fmt;

/// What the work of a command came to, where nothing was refused.
#[derive(Clone, Copy, Debug)]
pub enum Success {
    /// The source has a program within the limits.
    Checked,
    /// The program's meaning came out so with the budget.
    Interpreted(Outcome),
    /// The code of the program came out so, after so many cycles.
    Ran { outcome: Outcome, cycles: u64 },
}

/// An outcome as notes tell it.
#[derive(Clone, Copy)]
struct Told(Outcome);

impl fmt::Display for Told {
    ghost use Rattle.std.specs.Prelude.{Some};
    ghost use Rattle.impactc_core.specs.Notes.{outcome_text};

    ghost output = { λ told. Some (outcome_text told.0) };

    fn fmt<W: fmt::Write>(&self, f: &mut fmt::Formatter<W>) -> fmt::Result {
        match self.0 {
            Outcome::Ended(result) => {
                let mut buffer = Buffer::new();
                let result = buffer.format(result);
                write!(f, "ended {result}")
            }
            Outcome::Faulted { place, kind } => write!(f, "fault {kind} at {place}"),
            Outcome::Spent => f.write_str("spent"),
        }
    }
}

impl fmt::Display for Success {
    ghost use Rattle.std.specs.Prelude.{Some};
    ghost use Rattle.impactc_core.specs.Notes.{success_text};

    ghost output = { λ success. Some (success_text success) };

    fn fmt<W: fmt::Write>(&self, f: &mut fmt::Formatter<W>) -> fmt::Result {
        match self {
            Success::Checked => f.write_str("ok"),
            Success::Interpreted(outcome) => {
                let told = Told(*outcome);
                write!(f, "{told}")
            }
            Success::Ran { outcome, cycles } => {
                let told = Told(*outcome);
                let mut buffer = Buffer::new();
                let cycles = buffer.format(*cycles);
                write!(f, "{told} after {cycles} cycles")
            }
        }
    }
}
