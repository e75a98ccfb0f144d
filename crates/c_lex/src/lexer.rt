ghost use Rattle.std.specs.Prelude.{◌≡◌, ◌<◌, ◌≤◌, ◌+◌, ◌^◌, length, fold, true, false};
ghost use Rattle.c_ast.specs.Cut.{past_byte, clear_past, token_at};
ghost use Rattle.c_lex.specs.Lexing as spec;

use crate::error::LexErr;
use crate::found::{Found, first};
use c_ast::{Tok, Token};
use ib_base::{Place, Span};
use sqlite_items::Items;
use std::alloc::Global;
use std::marker::Model;

/// A part of a source, which contracts see as its bytes.
#[derive(Drop)]
pub struct Rest<'a> {
    bytes: &'a [u8],
}

impl<'a> Model for Rest<'a> {
    ghost use Rattle.std.specs.Prelude.{List, ℕ};

    ghost Value = { List ℕ };

    ghost view = { λ rest. rest.bytes.now };
}

impl<'a> Rest<'a> {
    fn new(bytes: &'a [u8]) -> Rest<'a>
        ensures { result ≡ bytes.now }
    {
        Rest { bytes }
    }

    fn bytes(&self) -> &'a [u8]
        ensures { result.now ≡ self.now }
    {
        self.bytes
    }
}

/// A source that is being cut: the tokens so far, the bytes that are left, how many came before
/// them, the place of the first, and whether only tabs and spaces stand before it in its line.
#[derive(Drop)]
pub struct Lexer<'a> {
    pub tokens: Items<Token>,
    pub left: Rest<'a>,
    pub at: u32,
    pub place: Place,
    pub clear: bool,
}

/// The place behind bytes, of which the first is at the given place.
pub fn place_past(before: Place, bytes: &[u8]) -> Place
    requires lines { before.line + length bytes.now < 2 ^ 32 }
    requires columns { before.col + length bytes.now < 2 ^ 32 }
    ensures { result ≡ fold past_byte before bytes.now }
{
    let mut place = before;
    for b in bytes {
        if *b == b'\n' {
            place = Place {
                line: place.line + 1,
                col: 1,
            };
        } else {
            place = Place {
                line: place.line,
                col: place.col + 1,
            };
        }
    }
    place
}

fn is_clear_past(before: bool, bytes: &[u8]) -> bool
    ensures { result ≡ fold clear_past before bytes.now }
{
    let mut clear = before;
    for b in bytes {
        clear = *b == b'\n' || (clear && (*b == b'\t' || *b == b' '));
    }
    clear
}

impl<'a> Lexer<'a> {
    pub fn new(alloc: Global, bytes: &'a [u8]) -> Lexer<'a>
        ensures { result ≡ spec.start_lexer bytes.now }
    {
        Lexer {
            tokens: Items::new(alloc),
            left: Rest::new(bytes),
            at: 0,
            place: Place { line: 1, col: 1 },
            clear: true,
        }
    }

    pub fn is_over(&self) -> bool
        ensures { result ≡ spec.is_empty self.now.left }
    {
        match self.left.bytes() {
            [] => true,
            _ => false,
        }
    }

    fn past(self, len: usize) -> Lexer<'a>
        requires within { len ≤ length self.left }
        requires bytes { self.at + length self.left < 2 ^ 32 }
        requires lines { self.place.line + length self.left < 2 ^ 32 }
        requires columns { self.place.col + length self.left < 2 ^ 32 }
        ensures { result ≡ spec.lexer_past self.entry len }
    {
        let Lexer {
            tokens,
            left,
            at,
            place,
            clear,
        } = self;
        let (passed, rest) = left.bytes().split_at(len);
        Lexer {
            tokens,
            left: Rest::new(rest),
            at: at + len as u32,
            place: place_past(place, passed),
            clear: is_clear_past(clear, passed),
        }
    }

    fn past_token(self, tok: Tok, len: usize) -> Result<Lexer<'a>, LexErr>
        requires within { len ≤ length self.left }
        requires bytes { self.at + length self.left < 2 ^ 32 }
        requires lines { self.place.line + length self.left < 2 ^ 32 }
        requires columns { self.place.col + length self.left < 2 ^ 32 }
        ensures { spec.Gives (spec.lexer_past_token self.entry tok len) result }
    {
        let to = self.at + len as u32;
        let token = Token {
            kind: tok,
            span: Span { from: self.at, to },
            place: self.place,
        };
        let mut lexer = self.past(len);
        lexer.tokens.push(token)?;
        Ok(lexer)
    }

    /// Goes past the piece that stands first.
    pub fn advance(self, alloc: Global) -> Result<Lexer<'a>, LexErr>
        requires some { 0 < length self.left }
        requires bytes { self.at + length self.left < 2 ^ 32 }
        requires lines { self.place.line + length self.left < 2 ^ 32 }
        requires columns { self.place.col + length self.left < 2 ^ 32 }
        ensures { spec.Gives (spec.advanced self.entry) result }
    {
        let found = first(alloc, self.left.bytes(), self.clear)?;
        match found {
            Found::Gap(len) => Ok(self.past(len)),
            Found::Token(tok, len) => self.past_token(tok, len),
            Found::Fault(fault) => Err(LexErr::new(fault, self.place)),
        }
    }
}
