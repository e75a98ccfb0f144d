ghost use Rattle.std.specs.Prelude.{◌≡◌, ◌≤◌, ◌||◌, ◌&&◌, nat_lt, ◌==◌, length};
ghost use Rattle.tac_core.specs.Counts.{is_before};
ghost use Rattle.profile_text.specs.Grammar as spec;

use crate::cut::cut;
use crate::line::{Line, read_line};
use crate::number::Number;

fn is_before(a: &Number, b: &Number, c: &Number, d: &Number) -> bool
    ensures { result ≡ is_before a.now b.now c.now d.now }
{
    a.is_less(c) || (!c.is_less(a) && b.is_less(d))
}

fn is_open(before: &Option<Line>) -> bool
    ensures { result ≡ spec.is_open before.now }
{
    match before {
        Some(Line::Header) | Some(Line::Func { .. }) | Some(Line::Edge { .. }) => true,
        None | Some(Line::End) | Some(Line::Other) => false,
    }
}

fn is_end(before: &Option<Line>) -> bool
    ensures { result ≡ spec.is_end before.now }
{
    match before {
        Some(Line::End) => true,
        None
        | Some(Line::Header)
        | Some(Line::Func { .. })
        | Some(Line::Edge { .. })
        | Some(Line::Other) => false,
    }
}

fn takes_edge(before: &Option<Line>, a: &Number, b: &Number) -> bool
    ensures { result ≡ spec.takes_edge before.now a.now b.now }
{
    match before {
        Some(Line::Func { .. }) => true,
        Some(Line::Edge { from, to, .. }) => is_before(from, to, a, b),
        None | Some(Line::Header) | Some(Line::End) | Some(Line::Other) => false,
    }
}

fn may_follow(before: &Option<Line>, line: &Line) -> bool
    ensures { result ≡ spec.may_follow before.now line.now }
{
    match line {
        Line::Header => before.is_none(),
        Line::Func { .. } | Line::End => is_open(before),
        Line::Edge { from, to, .. } => takes_edge(before, from, to),
        Line::Other => false,
    }
}

fn is_whole(before: &Option<Line>, left: &[u8]) -> bool
    ensures { result ≡ (spec.is_end before.now && spec.is_empty left.now) }
{
    is_end(before) && left.is_empty()
}

/// The number of the first line that does not fit the grammar.
pub fn malformed_at(bytes: &[u8]) -> Option<u32>
    requires { length bytes.now ≤ 33554432 }
    ensures { result ≡ spec.malformed_at bytes.now }
{
    let mut before = None;
    let mut left = bytes;
    let mut number: u32 = 1;
    'lines: while let Some((line, rest)) = cut(left, b'\n') {
        let line = read_line(line);
        if !may_follow(&before, &line) {
            return Some(number);
        }
        before = Some(line);
        left = rest;
        number += 1;
    }
    if is_whole(&before, left) {
        None
    } else {
        Some(number)
    }
}
