ghost use Rattle.std.specs.Prelude.{◌≡◌, ◌<◌, length, None, IfOk};
ghost use Rattle.c_lex.specs.First.{found_first, found_sized};

use crate::bytes::{is_blank_byte, is_digit_byte, is_letter_byte};
use crate::gaps::{include_line, slash};
use crate::number::number;
use crate::quoted::{character, string};
use crate::words::{mark, word};
use c_ast::{LexFault, Tok};
use std::alloc::{AllocError, Global};

/// What stands first in the rest of a source.
#[derive(Drop)]
pub enum Found {
    /// A blank, a comment or an include line of so many bytes.
    Gap(usize),
    /// A token of so many bytes.
    Token(Tok, usize),
    Fault(LexFault),
}

/// Finds the longest piece that stands first. `clear` says that only tabs and spaces stand before
/// it in its line.
#[tactic(auto, unfolding(crate::specs::First::found_first))]
pub fn first(alloc: Global, bytes: &[u8], clear: bool) -> Result<Found, AllocError>
    requires { 0 < length bytes.now }
    ensures { IfOk result (λ f. f ≡ found_first clear bytes.now) }
{
    let byte = bytes[0];
    if is_blank_byte(byte) {
        return Ok(Found::Gap(1));
    }
    if is_letter_byte(byte) {
        return word(alloc, bytes);
    }
    if is_digit_byte(byte) {
        return Ok(number(bytes));
    }
    if byte == b'\'' {
        return character(alloc, bytes);
    }
    if byte == b'"' {
        return string(alloc, bytes);
    }
    if byte == b'#' {
        return Ok(include_line(bytes, clear));
    }
    if byte == b'/' {
        return Ok(slash(bytes));
    }
    Ok(mark(bytes))
}

/// Where no piece stands first: a literal that is not well formed, or a byte that begins nothing.
pub fn nothing(bytes: &[u8]) -> Found
    ensures { result ≡ found_sized bytes.now None }
{
    match bytes {
        [b'\'' | b'"', ..] => Found::Fault(LexFault::BadLiteral),
        _ => Found::Fault(LexFault::BadByte),
    }
}
