ghost use Rattle.std.specs.Prelude.{◌≡◌, map, string_bytes, None};
ghost use Rattle.impactc_words.specs.Reading.{behind_option, behind_text, behind_word, no_parts, parts_at, parts_in};

use crate::arguments::{Arguments, is_value};
use crate::part::{Part, part_named};
use std::marker::Model;

/// What the words before give, and the option whose value is the next word.
#[derive(Drop)]
struct Reader<'a> {
    given: Arguments<'a>,
    waits: Option<Part>,
}

impl<'a> Model for Reader<'a> {
    ghost use Rattle.impactc_words.specs.Reading.{Progress};

    ghost Value = { Progress };

    ghost view = { λ reader. record { parts = reader.given; waits = reader.waits } };
}

impl<'a> Reader<'a> {
    fn new() -> Reader<'a>
        ensures { result ≡ record { parts = no_parts; waits = None } }
    {
        Reader {
            given: Arguments::none(),
            waits: None,
        }
    }

    fn option(self, word: &'a str) -> Option<Reader<'a>>
        ensures { result ≡ behind_option self.entry.parts word.entry.now }
    {
        match word.split_once('=') {
            Some((name, text)) => {
                let given = self.given.add(part_named(name)?, text)?;
                Some(Reader { given, waits: None })
            }
            None => {
                let part = part_named(word)?;
                Some(Reader {
                    given: self.given,
                    waits: Some(part),
                })
            }
        }
    }

    fn text(self, part: Part, text: &'a str) -> Option<Reader<'a>>
        ensures { result ≡ behind_text self.entry.parts part text.entry.now }
    {
        let given = self.given.add(part, text)?;
        Some(Reader { given, waits: None })
    }

    fn read(self, word: &'a str) -> Option<Reader<'a>>
        ensures { result ≡ behind_word self.entry word.entry.now }
    {
        match self.waits {
            Some(part) => self.text(part, word),
            None => {
                if is_value(word) {
                    self.text(Part::File, word)
                } else {
                    self.option(word)
                }
            }
        }
    }

    fn finish(self) -> Option<Arguments<'a>>
        ensures { result ≡ parts_at self.entry }
    {
        match self.waits {
            Some(_) => None,
            None => Some(self.given),
        }
    }
}

/// What words give for the parts of a command, if they give anything.
pub(crate) fn arguments<'a>(words: &'a [String]) -> Option<Arguments<'a>>
    ensures { result ≡ parts_in (map string_bytes words.entry.now) }
{
    let mut reader = Reader::new();
    for word in words {
        reader = reader.read(word.as_str())?;
    }
    reader.finish()
}
