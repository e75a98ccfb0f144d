ghost use Rattle.std.specs.Prelude.{◌≡◌, is_some};
ghost use Rattle.impactc_words.specs.Reading.{added, no_parts, with_part};
ghost use Rattle.impactc_words.specs.Words.{given, is_value};

use crate::part::Part;
use std::marker::Model;

/// What words give for each part of a command.
#[derive(Drop)]
pub(crate) struct Arguments<'a> {
    pub(crate) file: Option<&'a str>,
    pub(crate) profile: Option<&'a str>,
    pub(crate) machine: Option<&'a str>,
    pub(crate) cycles: Option<&'a str>,
    pub(crate) to: Option<&'a str>,
}

impl<'a> Model for Arguments<'a> {
    ghost use Rattle.std.specs.Option.{option_copied};
    ghost use Rattle.impactc_words.specs.Words.{Parts};

    ghost Value = { Parts };

    ghost view = { λ given. record {
      file = option_copied given.file;
      profile = option_copied given.profile;
      machine = option_copied given.machine;
      cycles = option_copied given.cycles;
      to = option_copied given.to;
    } };
}

/// Whether a word can be a value.
pub(crate) fn is_value(word: &str) -> bool
    ensures { result ≡ is_value word.now }
{
    match word.as_bytes() {
        [] => false,
        [first, ..] => *first != b'-',
    }
}

impl<'a> Arguments<'a> {
    pub(crate) fn none() -> Arguments<'a>
        ensures { result ≡ no_parts }
    {
        Arguments {
            file: None,
            profile: None,
            machine: None,
            cycles: None,
            to: None,
        }
    }

    fn has(&self, part: Part) -> bool
        ensures { result ≡ is_some (given self.now part) }
    {
        match part {
            Part::File => self.file.is_some(),
            Part::Profile => self.profile.is_some(),
            Part::Machine => self.machine.is_some(),
            Part::Cycles => self.cycles.is_some(),
            Part::To => self.to.is_some(),
        }
    }

    fn with(self, part: Part, text: &'a str) -> Arguments<'a>
        ensures { result ≡ with_part part text.entry.now self.entry }
    {
        match part {
            Part::File => Arguments {
                file: Some(text),
                ..self
            },
            Part::Profile => Arguments {
                profile: Some(text),
                ..self
            },
            Part::Machine => Arguments {
                machine: Some(text),
                ..self
            },
            Part::Cycles => Arguments {
                cycles: Some(text),
                ..self
            },
            Part::To => Arguments {
                to: Some(text),
                ..self
            },
        }
    }

    /// The same with a value for a part that had none.
    pub(crate) fn add(self, part: Part, text: &'a str) -> Option<Arguments<'a>>
        ensures { result ≡ added part text.entry.now self.entry }
    {
        if is_value(text) && !self.has(part) {
            Some(self.with(part, text))
        } else {
            None
        }
    }
}
