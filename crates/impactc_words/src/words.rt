ghost use Rattle.std.specs.Prelude.{◌≡◌, List, ℕ, [], ◌∷◌, map, string_bytes, IfOk, IsErrOf, MatchOption, Some, None};
ghost use Rattle.impactc_words.specs.Words.{AskFor, Ask, IsNone, only_file, HasParts, command_name, input_of};

use crate::FileName;
use crate::arguments::Arguments;
use crate::reader::arguments;
use std::alloc::{AllocError, Global};
use thiserror::Error;

/// What the words of a call ask for.
#[derive(Debug, Drop)]
pub enum Command {
    /// Judge the file's source.
    Check { file: FileName },
    /// Run the file's program by its meaning.
    Interp { file: FileName },
    /// Compile the file and run it.
    Run { file: FileName },
}

impl Command {
    /// The file that the command reads.
    pub fn input(&self) -> &FileName
        ensures { result.now ≡ input_of self.now }
    {
        match self {
            Command::Check { file } | Command::Interp { file } | Command::Run { file } => file,
        }
    }
}

/// Why words name no command.
#[derive(Clone, Copy, PartialEq, Eq, Debug, Error)]
pub enum WordsErr {
    #[error("the words ask for no command")]
    Usage,
    #[error("there is not enough memory to read the words")]
    NoMemory,
}

impl From<AllocError> for WordsErr {
    ghost use Rattle.std.specs.Prelude.{◌≡◌};
    ghost use Rattle.impactc_words.specs.declared.words.WordsErr.TheVariants.{NoMemory};

    ghost from_gives = { λ _ e. e ≡ NoMemory };

    fn from(_refused: AllocError) -> WordsErr {
        WordsErr::NoMemory
    }
}

/// The file, where words give nothing else.
fn only_file(alloc: Global, given: Arguments) -> Result<FileName, WordsErr>
    ensures file { IfOk result (λ file. given.entry ≡ only_file file) }
    ensures usage { IsErrOf result WordsErr.Usage → (file : List ℕ) → given.entry ≡ only_file file → ⊥ }
{
    match given {
        Arguments {
            file: Some(file),
            profile: None,
            machine: None,
            cycles: None,
            to: None,
        } => Ok(FileName::new(alloc, file)?),
        _ => Err(WordsErr::Usage),
    }
}

/// The command of this name that takes a file alone.
fn command_on(name: &str, file: FileName) -> Result<Command, WordsErr>
    ensures command { IfOk result (λ command. (name.now ≡ command_name command) × HasParts command (only_file file)) }
    ensures usage { IsErrOf result WordsErr.Usage → IsNone name.now (only_file file) }
{
    if name == "check" {
        return Ok(Command::Check { file });
    }
    if name == "interp" {
        return Ok(Command::Interp { file });
    }
    if name == "run" {
        return Ok(Command::Run { file });
    }
    Err(WordsErr::Usage)
}

/// The command of this name that has these parts.
#[tactic(auto, using(crate::proofs::Asked::not_only))]
fn command_of(alloc: Global, name: &str, given: Arguments) -> Result<Command, WordsErr>
    ensures command { IfOk result (λ command. (name.now ≡ command_name command) × HasParts command given.entry) }
    ensures usage { IsErrOf result WordsErr.Usage → IsNone name.now given.entry }
{
    match only_file(alloc, given) {
        Ok(file) => command_on(name, file),
        Err(refusal) => Err(refusal),
    }
}

/// The first word, and those behind it.
fn first_word(words: &[String]) -> Option<(&str, &[String])>
    ensures { MatchOption result (words.now ≡ []) (λ p. map string_bytes words.now ≡ p.0.now ∷ map string_bytes p.1.now) }
{
    match words.split_first() {
        Some((first, rest)) => Some((first.as_str(), rest)),
        None => None,
    }
}

/// The command that the words after the program's name ask for.
#[tactic(auto, using(crate::proofs::Asked::asks_for, crate::proofs::Asked::asks_for_no, crate::proofs::Asked::asks_for_nothing, crate::proofs::Asked::asks_for_none))]
pub fn read_words(alloc: Global, words: &[String]) -> Result<Command, WordsErr>
    ensures command { IfOk result (λ command. AskFor (map string_bytes words.now) command) }
    ensures usage { IsErrOf result WordsErr.Usage → Ask (map string_bytes words.now) None }
{
    let Some((name, rest)) = first_word(words) else {
        return Err(WordsErr::Usage);
    };
    match arguments(rest) {
        Some(given) => command_of(alloc, name, given),
        None => Err(WordsErr::Usage),
    }
}
