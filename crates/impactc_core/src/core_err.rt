ghost use Rattle.std.specs.Prelude.{◌≡◌};
ghost use Rattle.impactc_core.specs.Notes.{rule_text};

use c_ast::LexFault;
use c_typed::Rule;
use ib_base::Place;
use impactc_words::FileName;
use std::fmt;

/// Why a source is refused.
#[derive(Clone, Copy)]
pub enum SourceFault {
    /// At the place no part of a source stands.
    Lexical(LexFault),
    /// What stands before the place begins a unit of the grammar, and with the token there, or with the end, there is none.
    Syntax,
    /// The place is the first at which rules of typing are broken, and this is the least of them.
    Typing(Rule),
    /// The source has a form that this version does not compile.
    NotInThisVersion,
}

/// A quantity that has a limit.
#[derive(Clone, Copy, Debug)]
pub enum Limit {
    /// The bytes of a source file.
    Source,
    /// How deep a source's tokens nest.
    Nesting,
    /// The bytes of a program's globals and string literals.
    Globals,
    /// The bytes of a function's frame.
    Frame,
    /// The operations of a lowered program.
    Operations,
}

/// Why a command is refused, with what the note shows.
#[derive(Debug, Drop)]
pub enum CoreErr {
    Usage,
    Source {
        file: FileName,
        place: Place,
        fault: SourceFault,
    },
    HostFault,
    NoMemory,
    TooLarge {
        limit: Limit,
    },
}

/// The text of a rule of typing.
fn rule_text(rule: Rule) -> &'static str
    ensures { result.now ≡ rule_text rule }
{
    match rule {
        Rule::UnknownName => "unknown name",
        Rule::Redeclared => "redeclared",
        Rule::NoMain => "no main",
        Rule::WrongSignature => "signature",
        Rule::BadType => "bad type",
        Rule::NotAPlace => "not a place",
        Rule::NotACondition => "not a condition",
        Rule::WrongOperands => "operands",
        Rule::NotAssignable => "not assignable",
        Rule::NotAFunction => "not a function",
        Rule::ArgumentCount => "argument count",
        Rule::OutsideALoop => "outside a loop",
        Rule::ReturnValue => "return value",
        Rule::WrongInitialiser => "initialiser",
    }
}

impl fmt::Display for SourceFault {
    ghost use Rattle.std.specs.Prelude.{Some};
    ghost use Rattle.impactc_core.specs.Notes.{source_text};

    ghost output = { λ fault. Some (source_text fault) };

    fn fmt<W: fmt::Write>(&self, f: &mut fmt::Formatter<W>) -> fmt::Result {
        match self {
            SourceFault::Lexical(LexFault::BadByte) => f.write_str("bad byte"),
            SourceFault::Lexical(LexFault::OpenComment) => f.write_str("open comment"),
            SourceFault::Lexical(LexFault::BadLiteral) => f.write_str("bad literal"),
            SourceFault::Syntax => f.write_str("syntax"),
            SourceFault::Typing(rule) => f.write_str(rule_text(*rule)),
            SourceFault::NotInThisVersion => f.write_str("not in this version"),
        }
    }
}

impl fmt::Debug for SourceFault {
    fn fmt<W: fmt::Write>(&self, f: &mut fmt::Formatter<W>) -> fmt::Result {
        write!(f, "{self}")
    }
}

impl fmt::Display for Limit {
    ghost use Rattle.std.specs.Prelude.{Some};
    ghost use Rattle.impactc_core.specs.Notes.{limit_text};

    ghost output = { λ limit. Some (limit_text limit) };

    fn fmt<W: fmt::Write>(&self, f: &mut fmt::Formatter<W>) -> fmt::Result {
        match self {
            Limit::Source => f.write_str("source 1048576"),
            Limit::Nesting => f.write_str("nesting 200"),
            Limit::Globals => f.write_str("globals 524288"),
            Limit::Frame => f.write_str("frame 262144"),
            Limit::Operations => f.write_str("operations 200000"),
        }
    }
}

impl fmt::Display for CoreErr {
    ghost use Rattle.std.specs.Prelude.{Some};
    ghost use Rattle.impactc_core.specs.Notes.{refusal_text};

    ghost output = { λ refusal. Some (refusal_text refusal) };

    fn fmt<W: fmt::Write>(&self, f: &mut fmt::Formatter<W>) -> fmt::Result {
        match self {
            CoreErr::Usage => f.write_str(USAGE),
            CoreErr::Source { file, place, fault } => write!(f, "{file}:{place}: {fault}"),
            CoreErr::HostFault => f.write_str("host fault"),
            CoreErr::NoMemory => f.write_str("out of memory"),
            CoreErr::TooLarge { limit } => write!(f, "too large: {limit}"),
        }
    }
}

impl std::error::Error for CoreErr {}

/// All commands, those that a later version has among them.
pub const USAGE: &str =
    "usage: impactc check F, interp F, profile F --to P, build F [--profile P] [--machine M] --to W, exec W [--cycles N], run F [--profile P] [--machine M] [--cycles N], demo N";
