ghost use Rattle.std.specs.Prelude.{◌≡◌, ◌≤◌, ◌<◌, ◌+◌, length, [], ◌∷◌, IfOk, IfSome};
ghost use Rattle.std.specs.List.{prefix_len};
ghost use Rattle.c_ast.specs.Bytes.{is_digit_in};
ghost use Rattle.c_ast.specs.Literals.{letter_escape, byte_of, escape, element};
ghost use Rattle.c_lex.specs.First.{quoted, first_character, first_string, found_sized};

use crate::bytes::is_literal;
use crate::found::{Found, nothing};
use crate::number::digits_value;
use c_ast::Tok;
use ib_base::Text;
use std::alloc::{AllocError, Global};

/// What the letter or mark behind a `\` stands for.
#[tactic(auto, unfolding(c_ast::specs::Literals::letter_escape))]
fn letter(c: u8) -> Option<u8>
    ensures { result ≡ letter_escape c }
{
    match c {
        b'n' => Some(b'\n'),
        b't' => Some(b'\t'),
        b'r' => Some(b'\r'),
        b'a' => Some(7),
        b'b' => Some(8),
        b'f' => Some(12),
        b'v' => Some(11),
        b'\\' | b'\'' | b'"' | b'?' => Some(c),
        _ => None,
    }
}

fn is_digit_of(base: u32, b: u8) -> bool
    requires low { 2 ≤ base }
    requires high { base ≤ 16 }
    ensures { result ≡ is_digit_in base b }
{
    char::from(b).is_digit(base)
}

/// How many digits of a base stand first.
fn digit_run(base: u32, bytes: &[u8]) -> usize
    requires low { 2 ≤ base }
    requires high { base ≤ 16 }
    ensures longest { result ≡ prefix_len (is_digit_in base) bytes.now }
    ensures within { result ≤ length bytes.now }
{
    bytes.iter().take_while(|b| is_digit_of(base, **b)).count()
}

/// An element's value, up to 255, with the element's length.
fn small(value: Option<u64>, len: usize) -> Option<(u8, usize)>
    ensures { result ≡ byte_of value len }
{
    match value {
        Some(value) => if value <= 255 {
            Some((value as u8, len))
        } else {
            None
        },
        None => None,
    }
}

/// The value and the length of the escape whose bytes behind `\` stand first.
fn escaped(bytes: &[u8]) -> Option<(u8, usize)>
    ensures escape { result ≡ escape bytes.now }
    ensures within { IfSome result (λ p. (1 ≤ p.1) × (p.1 ≤ length bytes.now + 1)) }
{
    let [first, rest @ ..] = bytes else {
        return None;
    };
    if is_digit_of(8, *first) {
        let len = digit_run(8, bytes).min(3);
        return small(digits_value(8, &bytes[..len]), len + 1);
    }
    if *first == b'x' {
        let len = digit_run(16, rest);
        return small(digits_value(16, &rest[..len]), len + 2);
    }
    match letter(*first) {
        Some(value) => Some((value, 2)),
        None => None,
    }
}

/// The value and the length of the element that stands first between quotes of this kind.
fn first_element(quote: u8, bytes: &[u8]) -> Option<(u8, usize)>
    ensures element { result ≡ element quote bytes.now }
    ensures within { IfSome result (λ p. (1 ≤ p.1) × (p.1 ≤ length bytes.now)) }
{
    let [first, rest @ ..] = bytes else {
        return None;
    };
    if *first == quote {
        return None;
    }
    if *first == b'\\' {
        return escaped(rest);
    }
    if is_literal(*first) {
        Some((*first, 1))
    } else {
        None
    }
}

/// The values of the elements up to the closing quote, and how many bytes they have with it.
#[tactic(auto, unfolding(crate::specs::First::quoted))]
fn elements(alloc: Global, quote: u8, bytes: &[u8]) -> Result<Option<(Text, usize)>, AllocError>
    ensures values { IfOk result (λ o. o ≡ quoted quote bytes.now) }
    ensures within { IfOk result (λ o. IfSome o (λ p. p.1 ≤ length bytes.now)) }
{
    let mut values = Text::new(alloc);
    let mut len = 0;
    'elements: while len < bytes.len() {
        if bytes[len] == quote {
            return Ok(Some((values, len + 1)));
        }
        let Some((value, more)) = first_element(quote, &bytes[len..]) else {
            return Ok(None);
        };
        values.push_bytes(&[value])?;
        len += more;
    }
    Ok(None)
}

/// The character constant that stands first.
#[tactic(auto, unfolding(crate::specs::First::first_character))]
pub fn character(alloc: Global, bytes: &[u8]) -> Result<Found, AllocError>
    requires { 0 < length bytes.now }
    ensures { IfOk result (λ f. f ≡ found_sized bytes.now (first_character bytes.now)) }
{
    let found = elements(alloc, b'\'', &bytes[1..])?;
    let Some((values, len)) = found else {
        return Ok(nothing(bytes));
    };
    match values.list() {
        [value] => Ok(Found::Token(Tok::Char(*value), len + 1)),
        _ => Ok(nothing(bytes)),
    }
}

/// The string that stands first.
#[tactic(auto, unfolding(crate::specs::First::first_string))]
pub fn string(alloc: Global, bytes: &[u8]) -> Result<Found, AllocError>
    requires { 0 < length bytes.now }
    ensures { IfOk result (λ f. f ≡ found_sized bytes.now (first_string bytes.now)) }
{
    let found = elements(alloc, b'"', &bytes[1..])?;
    match found {
        Some((values, len)) => Ok(Found::Token(Tok::Str(values), len + 1)),
        None => Ok(nothing(bytes)),
    }
}
