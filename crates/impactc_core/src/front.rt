//! From a source's bytes to its tokens, its unit and its program.

ghost use Rattle.std.specs.Prelude.{◌≡◌, ◌≤◌, length, slice_get, List, IfOk, IfErr};
ghost use Rattle.c_ast.specs.Cut.{AreTokens};
ghost use Rattle.c_ast.specs.TreeViews.{unit_of};
ghost use Rattle.c_ast.specs.declared.token.Token.{Token};
ghost use Rattle.c_program.specs.Checked.{program};
ghost use Rattle.impactc_core.specs.Sources.{HasUnit, HasProgram, place_of};
ghost use Rattle.impactc_core.specs.Work.{Refuses, lexical_refusal, phrase_refusal, typing_refusal, of_file};

use crate::{CoreErr, Limit, SourceFault};
use c_ast::{LexFault, Token, Unit};
use c_lex::{LexErr, end_place, lex};
use c_parse::{ParseErr, parse};
use c_program::{CheckErr, Program};
use c_types::check;
use ib_base::Place;
use impactc_words::FileName;
use sqlite_items::{Items, at};
use std::alloc::Global;
use thiserror::Error;

/// Why a source is refused, whatever its file's name is.
#[derive(Clone, Copy, Debug, Error)]
pub enum SourceErr {
    #[error("{place}: {fault}")]
    Fault { place: Place, fault: SourceFault },
    #[error("too large: {0}")]
    TooLarge(Limit),
    #[error("there is not enough memory to judge the source")]
    NoMemory,
}

impl SourceErr {
    /// The refusal of the file that has the source.
    pub fn of_file(self, file: FileName) -> CoreErr
        ensures { result ≡ of_file file self }
    {
        match self {
            SourceErr::Fault { place, fault } => CoreErr::Source { file, place, fault },
            SourceErr::TooLarge(limit) => CoreErr::TooLarge { limit },
            SourceErr::NoMemory => CoreErr::NoMemory,
        }
    }
}

/// The refusal of a source that has no tokens.
fn lexical_refusal(refusal: LexErr) -> SourceErr
    ensures { result ≡ lexical_refusal refusal }
{
    let (place, fault) = match refusal {
        LexErr::BadByte(place) => (place, LexFault::BadByte),
        LexErr::OpenComment(place) => (place, LexFault::OpenComment),
        LexErr::BadLiteral(place) => (place, LexFault::BadLiteral),
        LexErr::NoMemory => return SourceErr::NoMemory,
    };
    SourceErr::Fault {
        place,
        fault: SourceFault::Lexical(fault),
    }
}

/// The place of the token behind so many, or just past the last byte where there is none.
fn place_behind(bytes: &[u8], tokens: &[Token], count: usize) -> Place
    requires { length bytes.now ≤ 1048576 }
    ensures { result ≡ place_of bytes.now (slice_get tokens.now count) }
{
    match at(tokens, count) {
        Some(token) => token.place,
        None => end_place(bytes),
    }
}

/// The refusal of a source whose tokens are no unit, or nest too deep.
fn phrase_refusal(bytes: &[u8], tokens: &[Token], refusal: ParseErr) -> SourceErr
    requires { length bytes.now ≤ 1048576 }
    ensures { result ≡ phrase_refusal bytes.now tokens.now refusal }
{
    match refusal {
        ParseErr::TooDeep(_) => SourceErr::TooLarge(Limit::Nesting),
        ParseErr::Syntax(count) => SourceErr::Fault {
            place: place_behind(bytes, tokens, count),
            fault: SourceFault::Syntax,
        },
        ParseErr::NoMemory => SourceErr::NoMemory,
    }
}

/// The refusal of a source whose unit breaks a rule of typing, or is too large.
fn typing_refusal(refusal: CheckErr) -> SourceErr
    ensures { result ≡ typing_refusal refusal }
{
    match refusal {
        CheckErr::Rule { rule, place } => SourceErr::Fault {
            place,
            fault: SourceFault::Typing(rule),
        },
        CheckErr::Globals(_) => SourceErr::TooLarge(Limit::Globals),
        CheckErr::Frame(_) => SourceErr::TooLarge(Limit::Frame),
        CheckErr::NoMemory => SourceErr::NoMemory,
    }
}

/// The tokens of a source.
#[tactic(auto, using(crate::proofs::Fronts::refuses_bytes))]
pub fn tokens_of(alloc: Global, bytes: &[u8]) -> Result<Items<Token>, SourceErr>
    requires { length bytes.now ≤ 1048576 }
    ensures cut { IfOk result (AreTokens bytes.now) }
    ensures refused { IfErr result (Refuses bytes.now) }
{
    match lex(alloc, bytes) {
        Ok(tokens) => Ok(tokens),
        Err(refusal) => Err(lexical_refusal(refusal)),
    }
}

/// The unit of a source's tokens.
#[tactic(auto, using(crate::proofs::Fronts::has_unit, crate::proofs::Fronts::refuses_phrases))]
fn unit_of(alloc: Global, bytes: &[u8], tokens: &[Token]) -> Result<Unit, SourceErr>
    requires limit { length bytes.now ≤ 1048576 }
    requires cut { AreTokens bytes.now tokens.now }
    ensures unit { IfOk result (λ unit. HasUnit bytes.now tokens.now (unit_of unit)) }
    ensures refused { IfErr result (Refuses bytes.now) }
{
    match parse(alloc, tokens) {
        Ok(unit) => Ok(unit),
        Err(refusal) => Err(phrase_refusal(bytes, tokens, refusal)),
    }
}

/// The program of a source's unit.
#[tactic(auto, using(crate::proofs::Fronts::has_program, crate::proofs::Fronts::refuses_unit))]
fn program_of_unit(alloc: Global, bytes: &[u8], unit: &Unit) -> Result<Program, SourceErr>
    requires limit { length bytes.now ≤ 1048576 }
    requires unit { (tokens : List Token) × HasUnit bytes.now tokens (unit_of unit.now) }
    ensures program { IfOk result (λ checked. HasProgram bytes.now (program checked)) }
    ensures refused { IfErr result (Refuses bytes.now) }
{
    match check(alloc, unit) {
        Ok(checked) => Ok(checked),
        Err(refusal) => Err(typing_refusal(refusal)),
    }
}

/// The program of a source's tokens.
#[tactic(auto, using(crate::proofs::Fronts::some_tokens))]
pub fn program_of_tokens(
    alloc: Global,
    bytes: &[u8],
    tokens: &[Token],
) -> Result<Program, SourceErr>
    requires limit { length bytes.now ≤ 1048576 }
    requires cut { AreTokens bytes.now tokens.now }
    ensures program { IfOk result (λ checked. HasProgram bytes.now (program checked)) }
    ensures refused { IfErr result (Refuses bytes.now) }
{
    match unit_of(alloc, bytes, tokens) {
        Ok(unit) => {
            let program = program_of_unit(alloc, bytes, &unit);
            drop(unit);
            program
        }
        Err(refusal) => Err(refusal),
    }
}

/// The program of a source of at most 1,048,576 bytes.
pub fn program_of(alloc: Global, bytes: &[u8]) -> Result<Program, SourceErr>
    requires { length bytes.now ≤ 1048576 }
    ensures program { IfOk result (λ checked. HasProgram bytes.now (program checked)) }
    ensures refused { IfErr result (Refuses bytes.now) }
{
    match tokens_of(alloc, bytes) {
        Ok(tokens) => program_of_tokens(alloc, bytes, tokens.as_slice()),
        Err(refusal) => Err(refusal),
    }
}
