ghost use Rattle.std.specs.Prelude.{◌≡◌};
ghost use Rattle.impactc_words.specs.Reading.{part_named};

/// A part of a command: the file that it works on, or the value of an option.
#[derive(Clone, Copy)]
pub enum Part {
    File,
    /// `--profile P`
    Profile,
    /// `--machine M`
    Machine,
    /// `--cycles N`
    Cycles,
    /// `--to P`
    To,
}

/// The option of this name.
pub(crate) fn part_named(name: &str) -> Option<Part>
    ensures { result ≡ part_named name.now }
{
    if name == "--profile" {
        return Some(Part::Profile);
    }
    if name == "--machine" {
        return Some(Part::Machine);
    }
    if name == "--cycles" {
        return Some(Part::Cycles);
    }
    if name == "--to" {
        return Some(Part::To);
    }
    None
}
