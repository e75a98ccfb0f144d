ghost use Rattle.std.specs.Prelude.{◌≡◌, pos};
ghost use Rattle.wide_core.specs.Tagged.{comes_before, evaluated, first_mark, least_mark};

use crate::code::{Tagged, WideOp};
use ib_base::FaultKind;

/// What the tag rule makes of an operation: its value, a mark to be kept, or a report.
#[derive(Clone, Copy, PartialEq, Eq, Debug)]
pub enum Done {
    Value(i64),
    Marked { number: u32, kind: FaultKind },
    Report { number: u32, kind: FaultKind },
}

/// The tag rule alone: `own` is what the operation gives where no source is marked.
pub fn evaluate(op: &WideOp, sources: &[Tagged], own: Result<i64, FaultKind>) -> Done
    ensures { result ≡ evaluated op.now.flagged op.now.number (least_mark sources.now) own }
{
    match (least_mark(sources), op.flagged) {
        (Tagged::Mark { number, kind }, true) => Done::Marked { number, kind },
        (Tagged::Mark { number, kind }, false) => Done::Report { number, kind },
        (Tagged::Clear(_), flagged) => unmarked(op.number, flagged, own),
    }
}

fn unmarked(number: u32, flagged: bool, own: Result<i64, FaultKind>) -> Done
    ensures { result ≡ evaluated flagged number (Tagged.Clear (pos 0)) own }
{
    match own {
        Ok(value) => Done::Value(value),
        Err(kind) if flagged => Done::Marked { number, kind },
        Err(kind) => Done::Report { number, kind },
    }
}

fn least_mark(sources: &[Tagged]) -> Tagged
    ensures { result ≡ least_mark sources.now }
{
    let mut least = Tagged::Clear(0);
    let mut behind = sources.len();
    while behind > 0 {
        behind -= 1;
        least = first_mark(sources[behind], least);
    }
    least
}

/// The mark that comes first of two.
pub fn first_mark(first: Tagged, second: Tagged) -> Tagged
    ensures { result ≡ first_mark first second }
{
    match (first, second) {
        (Tagged::Clear(_), _) => second,
        (Tagged::Mark { .. }, Tagged::Clear(_)) => first,
        (
            Tagged::Mark { number, kind },
            Tagged::Mark {
                number: other,
                kind: other_kind,
            },
        ) => {
            if comes_before(other, other_kind, number, kind) {
                second
            } else {
                first
            }
        }
    }
}

fn comes_before(number: u32, kind: FaultKind, other: u32, other_kind: FaultKind) -> bool
    ensures { result ≡ comes_before number kind other other_kind }
{
    number < other || (number == other && kind.number() < other_kind.number())
}
