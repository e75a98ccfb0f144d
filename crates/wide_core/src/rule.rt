ghost use Rattle.std.specs.Prelude.{◌≡◌, slice_get};
ghost use Rattle.wide_core.specs.Valid.{broken};

/// One of the ten rules of valid code, and whether it is kept at a line.
#[derive(Clone, Copy)]
pub struct Rule {
    pub number: u8,
    pub kept: bool,
}

impl Rule {
    pub fn new(number: u8, kept: bool) -> Rule
        ensures { result ≡ record { number = number; kept = kept } }
    {
        Rule { number, kept }
    }
}

/// A rule that is broken, and the line of the code's text where it is.
#[derive(Clone, Copy, PartialEq, Eq, Debug)]
pub struct BrokenRule {
    pub line: u32,
    pub rule: u8,
}

/// The first of the rules of a line that is broken.
pub(crate) fn first_broken(line: u32, rules: &[Rule]) -> Option<BrokenRule>
    ensures { result ≡ slice_get (broken line rules.now) 0 }
{
    for rule in rules {
        if !rule.kept {
            return Some(BrokenRule {
                line,
                rule: rule.number,
            });
        }
    }
    None
}
