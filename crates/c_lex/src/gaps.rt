ghost use Rattle.std.specs.Prelude.{◌≡◌, ◌≤◌, length, false, IfSome};
ghost use Rattle.c_ast.specs.Pieces.{behind_close};
ghost use Rattle.c_lex.specs.First.{line_len, first_slash, first_include, found_sized};

use crate::found::{Found, nothing};
use crate::words::mark;
use c_ast::LexFault;

/// How many bytes stand before the line's end.
fn rest_of_line(bytes: &[u8]) -> usize
    ensures longest { result ≡ line_len bytes.now }
    ensures within { result ≤ length bytes.now }
{
    bytes.iter().take_while(|b| **b != b'\n').count()
}

/// How many bytes there are up to and with the next `*/`.
fn comment_len(bytes: &[u8]) -> Option<usize>
    ensures next { result ≡ behind_close false bytes.now }
    ensures within { IfSome result (λ len. len ≤ length bytes.now) }
{
    let mut star = false;
    for (i, b) in bytes.iter().enumerate() {
        if star && *b == b'/' {
            return Some(i + 1);
        }
        star = *b == b'*';
    }
    None
}

/// The comment or the mark that begins with `/` and stands first.
#[tactic(auto, unfolding(crate::specs::First::first_slash))]
pub fn slash(bytes: &[u8]) -> Found
    ensures { result ≡ found_sized bytes.now (first_slash bytes.now) }
{
    match bytes {
        [_, b'/', ..] => Found::Gap(rest_of_line(bytes)),
        [_, b'*', rest @ ..] => match comment_len(rest) {
            Some(len) => Found::Gap(len + 2),
            None => Found::Fault(LexFault::OpenComment),
        },
        _ => mark(bytes),
    }
}

/// The include line that stands first.
#[tactic(auto, unfolding(crate::specs::First::first_include))]
pub fn include_line(bytes: &[u8], clear: bool) -> Found
    ensures { result ≡ found_sized bytes.now (first_include clear bytes.now) }
{
    if clear && bytes.starts_with(b"#include") {
        Found::Gap(rest_of_line(bytes))
    } else {
        nothing(bytes)
    }
}
