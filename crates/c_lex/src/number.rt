ghost use Rattle.std.specs.Prelude.{◌≡◌, ◌≤◌, ◌<◌, ◌^◌, ◌*◌, ◌+◌, Some, IfSome, MatchOption};
ghost use Rattle.std.specs.Char.{digit_value};
ghost use Rattle.c_ast.specs.Literals.{has_suffix, without_suffix, begins_hexadecimal, begins_octal, base_of, digits_of, value_in, plain_value, is_long};
ghost use Rattle.c_ast.specs.Pieces.{number_given, number};
ghost use Rattle.c_lex.specs.First.{word_len, found_sized, number_or_fault};

use crate::found::Found;
use crate::words::run_len;
use c_ast::{LexFault, Tok};

/// Numbers are below this.
const LIMIT: u64 = 1 << 63;

/// The value of a digit of a base.
fn digit_of(base: u32, b: u8) -> Option<u32>
    requires low { 2 ≤ base }
    requires high { base ≤ 16 }
    ensures { MatchOption result (base ≤ digit_value b) (λ digit. (digit ≡ digit_value b) × (digit < base)) }
{
    char::from(b).to_digit(base)
}

/// The value with one digit more, where it is not too large.
fn with_digit(base: u32, value: u64, digit: u32) -> Option<u64>
    ensures { MatchOption result (2 ^ 63 ≤ value * base + digit)
        (λ more. (more ≡ value * base + digit) × (more < 2 ^ 63)) }
{
    let shifted = value.checked_mul(u64::from(base))?;
    let more = shifted.checked_add(u64::from(digit))?;
    if more < LIMIT { Some(more) } else { None }
}

/// The value of digits of a base, where they are some and their value is not too large.
#[tactic(auto, unfolding(c_ast::specs::Literals::value_in))]
pub fn digits_value(base: u32, digits: &[u8]) -> Option<u64>
    requires low { 2 ≤ base }
    requires high { base ≤ 16 }
    ensures value { result ≡ value_in base digits.now }
    ensures small { IfSome result (λ value. value < 2 ^ 63) }
{
    if digits.is_empty() {
        return None;
    }
    let mut value = 0;
    for b in digits {
        let digit = digit_of(base, *b)?;
        value = with_digit(base, value, digit)?;
    }
    Some(value)
}

fn ends_in_suffix(bytes: &[u8]) -> bool
    ensures { result ≡ has_suffix bytes.now }
{
    match bytes {
        [.., last] => *last == b'l' || *last == b'L',
        [] => false,
    }
}

fn strip_suffix(bytes: &[u8]) -> &[u8]
    ensures { result.now ≡ without_suffix bytes.now }
{
    if ends_in_suffix(bytes) {
        &bytes[..bytes.len() - 1]
    } else {
        bytes
    }
}

fn is_hexadecimal(bytes: &[u8]) -> bool
    ensures { result ≡ begins_hexadecimal bytes.now }
{
    match bytes {
        [first, second, ..] => *first == b'0' && (*second == b'x' || *second == b'X'),
        _ => false,
    }
}

fn is_octal(bytes: &[u8]) -> bool
    ensures { result ≡ begins_octal bytes.now }
{
    match bytes {
        [first, _, ..] => *first == b'0',
        _ => false,
    }
}

/// The value of a number without its suffix.
fn number_value(bytes: &[u8]) -> Option<u64>
    ensures value { result ≡ plain_value bytes.now }
    ensures small { IfSome result (λ value. value < 2 ^ 63) }
{
    if is_hexadecimal(bytes) {
        digits_value(16, &bytes[2..])
    } else if is_octal(bytes) {
        digits_value(8, bytes)
    } else {
        digits_value(10, bytes)
    }
}

#[tactic(auto, unfolding(c_ast::specs::Pieces::number_given))]
fn number_token(bytes: &[u8]) -> Option<Tok>
    ensures { number_given bytes.now ≡ number_or_fault result }
{
    match number_value(strip_suffix(bytes)) {
        Some(value) => {
            let long = ends_in_suffix(bytes) || 2147483647 < value;
            Some(Tok::Number {
                value: value as i64,
                long,
            })
        }
        None => None,
    }
}

/// The number that stands first.
pub fn number(bytes: &[u8]) -> Found
    ensures { result ≡ found_sized bytes.now (Some (number, word_len bytes.now)) }
{
    let len = run_len(bytes);
    match number_token(&bytes[..len]) {
        Some(tok) => Found::Token(tok, len),
        None => Found::Fault(LexFault::BadLiteral),
    }
}
