ghost use Rattle.std.specs.Prelude.{◌≡◌, ◌≤◌, length, map, bytes_eq, IfOk, Some};
ghost use Rattle.std.specs.List.{list_any};
ghost use Rattle.c_ast.specs.Keywords.{reserved_words};
ghost use Rattle.c_ast.specs.Pieces.{begins_reserved, is_reserved, word_tok, word};
ghost use Rattle.c_lex.specs.First.{word_len, first_mark, found_sized, mark_at};

use crate::bytes::{is_capital_byte, is_word};
use crate::found::{Found, nothing};
use c_ast::{Keyword, Mark, Tok};
use ib_base::Text;
use std::alloc::{AllocError, Global};

const RESERVED: [&str; 22] = [
    "auto", "case", "const", "default", "double", "enum", "extern", "float", "goto", "inline",
    "register", "restrict", "short", "signed", "sizeof", "static", "struct", "switch", "typedef",
    "union", "unsigned", "volatile",
];

fn is_among(bytes: &[u8], words: &[&str]) -> bool
    ensures { result ≡ list_any (bytes_eq bytes.now) (map (λ word. word.now) words.now) }
{
    words.iter().any(|word| bytes == word.as_bytes())
}

fn is_reserved_form(bytes: &[u8]) -> bool
    ensures { result ≡ begins_reserved bytes.now }
{
    match bytes {
        [first, second, ..] => *first == b'_' && is_capital_byte(*second),
        _ => false,
    }
}

#[tactic(auto, unfolding(c_ast::specs::Keywords::reserved_words))]
fn is_reserved_word(bytes: &[u8]) -> bool
    ensures { result ≡ is_reserved bytes.now }
{
    is_reserved_form(bytes) || is_among(bytes, &RESERVED)
}

/// How many letters, digits and `_` stand first.
pub fn run_len(bytes: &[u8]) -> usize
    ensures longest { result ≡ word_len bytes.now }
    ensures within { result ≤ length bytes.now }
{
    bytes.iter().take_while(|b| is_word(**b)).count()
}

/// A keyword, a reserved word or a name.
#[tactic(auto, unfolding(c_ast::specs::Pieces::word_tok))]
fn word_token(alloc: Global, bytes: &[u8]) -> Result<Tok, AllocError>
    ensures { IfOk result (λ tok. tok ≡ word_tok bytes.now) }
{
    if let Some(keyword) = Keyword::spelled(bytes) {
        return Ok(Tok::Word(keyword));
    }
    let text = Text::from_bytes(alloc, bytes)?;
    if is_reserved_word(bytes) {
        Ok(Tok::Reserved(text))
    } else {
        Ok(Tok::Name(text))
    }
}

/// The word that stands first.
pub fn word(alloc: Global, bytes: &[u8]) -> Result<Found, AllocError>
    ensures { IfOk result (λ f. f ≡ found_sized bytes.now (Some (word, word_len bytes.now))) }
{
    let len = run_len(bytes);
    let tok = word_token(alloc, &bytes[..len])?;
    Ok(Found::Token(tok, len))
}

/// The mark of so many bytes that stands first.
fn mark_of_len(bytes: &[u8], len: usize) -> Option<Mark>
    ensures { result ≡ mark_at len bytes.now }
{
    if len <= bytes.len() {
        Mark::spelled(&bytes[..len])
    } else {
        None
    }
}

/// The longest mark that stands first.
#[tactic(auto, unfolding(crate::specs::First::first_mark))]
pub fn mark(bytes: &[u8]) -> Found
    ensures { result ≡ found_sized bytes.now (first_mark bytes.now) }
{
    if let Some(mark) = mark_of_len(bytes, 3) {
        return Found::Token(Tok::Mark(mark), 3);
    }
    if let Some(mark) = mark_of_len(bytes, 2) {
        return Found::Token(Tok::Mark(mark), 2);
    }
    if let Some(mark) = mark_of_len(bytes, 1) {
        return Found::Token(Tok::Mark(mark), 1);
    }
    nothing(bytes)
}
