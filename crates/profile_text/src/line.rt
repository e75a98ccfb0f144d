ghost use Rattle.std.specs.Prelude.{◌≡◌, ◌<◌, ◌&&◌, nat_lt, ◌∷◌, [], length, MatchOption};
ghost use Rattle.profile_text.specs.Lines as spec;
ghost use Rattle.profile_text.specs.Matching.{lines_in};

use crate::cut::cut;
use crate::name::Name;
use crate::number::Number;
use tac_core::is_name;

/// What a line says.
#[derive(Drop)]
pub enum Line<'a> {
    Header,
    Func {
        name: Name<'a>,
        blocks: Number<'a>,
        entries: u64,
    },
    Edge {
        from: Number<'a>,
        to: Number<'a>,
        count: u64,
    },
    End,
    /// None of these.
    Other,
}

const MOST: u64 = 9_223_372_036_854_775_807;

fn is_func(name: &[u8], entries: u64) -> bool
    ensures { result ≡ (spec.is_name name.now && spec.is_count entries) }
{
    is_name(name) && entries <= MOST
}

fn func_of<'a>(name: &'a [u8], blocks: Option<Number<'a>>, entries: Option<Number<'a>>) -> Line<'a>
    ensures { result ≡ spec.func_of name.now blocks.entry entries.entry }
{
    let (Some(blocks), Some(entries)) = (blocks, entries) else {
        return Line::Other;
    };
    match entries.value() {
        Some(entries) => {
            if is_func(name, entries) {
                Line::Func {
                    name: Name::new(name),
                    blocks,
                    entries,
                }
            } else {
                Line::Other
            }
        }
        None => Line::Other,
    }
}

fn is_taken(count: u64) -> bool
    ensures { result ≡ (nat_lt 0 count && spec.is_count count) }
{
    0 < count && count <= MOST
}

fn edge_of<'a>(
    from: Option<Number<'a>>,
    to: Option<Number<'a>>,
    count: Option<Number<'a>>,
) -> Line<'a>
    ensures { result ≡ spec.edge_of from.entry to.entry count.entry }
{
    let (Some(from), Some(to), Some(count)) = (from, to, count) else {
        return Line::Other;
    };
    match count.value() {
        Some(count) => {
            if is_taken(count) {
                Line::Edge { from, to, count }
            } else {
                Line::Other
            }
        }
        None => Line::Other,
    }
}

fn line_of_fields<'a>(word: &[u8], a: &'a [u8], b: &'a [u8], c: &'a [u8]) -> Line<'a>
    ensures { result ≡ spec.line_of_fields (word.now ∷ a.now ∷ b.now ∷ c.now ∷ []) }
{
    if "func".as_bytes() == word {
        func_of(a, Number::read(b), Number::read(c))
    } else if "edge".as_bytes() == word {
        edge_of(Number::read(a), Number::read(b), Number::read(c))
    } else {
        Line::Other
    }
}

fn read_fields(line: &[u8]) -> Line
    ensures { result ≡ spec.line_of_fields (spec.parts 32 line.now) }
{
    let Some((word, rest)) = cut(line, b' ') else {
        return Line::Other;
    };
    let Some((first, rest)) = cut(rest, b' ') else {
        return Line::Other;
    };
    let Some((second, rest)) = cut(rest, b' ') else {
        return Line::Other;
    };
    match cut(rest, b' ') {
        Some(_) => Line::Other,
        None => line_of_fields(word, first, second, rest),
    }
}

/// What a line says, without the byte that ends it.
pub fn read_line(line: &[u8]) -> Line
    ensures { result ≡ spec.line_of line.now }
{
    if "impactc profile 1".as_bytes() == line {
        Line::Header
    } else if "end".as_bytes() == line {
        Line::End
    } else {
        read_fields(line)
    }
}

/// The first line that byte 10 ends, and what stands behind it.
pub fn next_line(bytes: &[u8]) -> Option<(Line, &[u8])>
    ensures { MatchOption result (lines_in bytes.now ≡ []) (λ p. (lines_in bytes.now ≡ p.0 ∷ lines_in p.1.now) × (length p.1.now < length bytes.now)) }
{
    let (line, rest) = cut(bytes, b'\n')?;
    Some((read_line(line), rest))
}
