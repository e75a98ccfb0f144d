ghost use Rattle.std.specs.Prelude.{◌≡◌, bytes_eq};
ghost use Rattle.first_form.specs.Kinds as spec;

use crate::piece::Piece;
use c_ast::{Keyword, Mark, Tok, Token};
use ib_base::{Place, Span};

/// A token as the first form sees it.
#[derive(Drop)]
pub struct Word<'a> {
    pub place: Place,
    pub kind: Kind<'a>,
}

/// What a token is to the first form.
#[derive(Drop)]
pub enum Kind<'a> {
    Int,
    Void,
    Return,
    Main,
    Putint,
    LeftParen,
    RightParen,
    LeftBrace,
    RightBrace,
    Semicolon,
    Equals,
    Plus,
    Minus,
    Star,
    Slash,
    /// A decimal number that an `int` can hold.
    Number(u32),
    /// A name that a variable may have.
    Name(Piece<'a>),
    /// A token that no first form has.
    Other,
}

/// The greatest number of the first form.
const MAX: i64 = 2147483647;

fn keyword_kind<'a>(keyword: Keyword) -> Kind<'a>
    ensures { result ≡ spec.keyword_kind keyword }
{
    match keyword {
        Keyword::Int => Kind::Int,
        Keyword::Void => Kind::Void,
        Keyword::Return => Kind::Return,
        _ => Kind::Other,
    }
}

fn mark_kind<'a>(mark: Mark) -> Kind<'a>
    ensures { result ≡ spec.mark_kind mark }
{
    match mark {
        Mark::LeftParen => Kind::LeftParen,
        Mark::RightParen => Kind::RightParen,
        Mark::LeftBrace => Kind::LeftBrace,
        Mark::RightBrace => Kind::RightBrace,
        Mark::Semicolon => Kind::Semicolon,
        Mark::Assign => Kind::Equals,
        Mark::Plus => Kind::Plus,
        Mark::Minus => Kind::Minus,
        Mark::Star => Kind::Star,
        Mark::Slash => Kind::Slash,
        _ => Kind::Other,
    }
}

fn spells(bytes: &[u8], word: &str) -> bool
    ensures { result ≡ bytes_eq bytes.now word.now }
{
    bytes == word.as_bytes()
}

fn name_kind(name: &[u8]) -> Kind<'_>
    ensures { result ≡ spec.name_kind name.now }
{
    if spells(name, "main") {
        Kind::Main
    } else if spells(name, "putint") {
        Kind::Putint
    } else if spells(name, "putchar") || spells(name, "getchar") {
        Kind::Other
    } else {
        Kind::Name(Piece::new(name))
    }
}

/// A number is spelled in decimal that is `0` alone or does not begin with `0`.
fn is_decimal(source: &[u8], span: Span) -> bool
    ensures { result ≡ spec.is_decimal source.now span }
{
    match source.get(span.from as usize) {
        Some(first) => *first != b'0' || span.to as u64 == u64::from(span.from) + 1,
        None => true,
    }
}

fn number_kind<'a>(decimal: bool, value: i64, long: bool) -> Kind<'a>
    ensures { result ≡ spec.number_kind decimal value long }
{
    if decimal && !long && 0 <= value && value <= MAX {
        Kind::Number(value as u32)
    } else {
        Kind::Other
    }
}

/// What a token of the source is to the first form.
fn kind_of<'a>(source: &[u8], token: &'a Token) -> Kind<'a>
    ensures { result ≡ spec.kind_of source.now token.now }
{
    match &token.kind {
        Tok::Word(keyword) => keyword_kind(*keyword),
        Tok::Mark(mark) => mark_kind(*mark),
        Tok::Name(name) => name_kind(name.list()),
        Tok::Number { value, long } => {
            number_kind(is_decimal(source, token.span), *value, *long)
        }
        Tok::Char(_) | Tok::Str(_) | Tok::Reserved(_) => Kind::Other,
    }
}

impl<'a> Word<'a> {
    pub fn new(source: &[u8], token: &'a Token) -> Word<'a>
        ensures { result ≡ spec.word_of source.now token.now }
    {
        Word {
            place: token.place,
            kind: kind_of(source, token),
        }
    }
}
