//! Whether functions have names that differ, without memory. They are sorted in place by name, so that equal names meet.
//! Meanwhile each frame holds the function's number too, and by these the functions are sorted back.
ghost use Rattle.std.specs.Prelude.{◌≡◌, ◌≢◌, ◌<◌, ◌≤◌, ◌↔◌, IsTrue, length};
ghost use Rattle.std.specs.List.{All};
ghost use Rattle.std.specs.List.Sorted.{IsPermutation, IsSorted, IsStrictlySortedBy};
ghost use Rattle.tac_core.specs.Numbered.{HasGoodFrame, with_number, without_number, numbered, unnumbered, name_cmp, frame_cmp};
ghost use Rattle.tac_core.specs.Rules.{NamesDiffer};

use crate::code::TacFunc;
use ib_base::Text;
use std::cmp::Ordering;

/// One more than the most sixteens that a frame has.
const SIXTEENS: u32 = 16_385;

/// So many functions have room for their numbers.
const MOST_NUMBERED: usize = 262_128;

fn with_number(frame: u32, number: u32) -> u32
    requires small { frame ≤ 262144 }
    requires few { number < 262128 }
    ensures { result ≡ with_number frame number }
{
    SIXTEENS * number + frame / 16
}

fn without_number(frame: u32) -> u32
    ensures { result ≡ without_number frame }
{
    16 * (frame % SIXTEENS)
}

fn number(funcs: &mut [TacFunc])
    requires few { length funcs.old ≤ 262128 }
    requires frames { All HasGoodFrame funcs.old }
    ensures { funcs.new ≡ numbered 0 funcs.old }
{
    let mut number = 0;
    for func in funcs.iter_mut() {
        func.frame = with_number(func.frame, number);
        number += 1;
    }
}

fn unnumber(funcs: &mut [TacFunc])
    ensures { funcs.new ≡ unnumbered funcs.old }
{
    for func in funcs.iter_mut() {
        func.frame = without_number(func.frame);
    }
}

fn by_name(func: &TacFunc, other: &TacFunc) -> Ordering
    ensures { result ≡ name_cmp func.now other.now }
{
    func.name.list().cmp(&other.name.list())
}

fn sort_by_name(funcs: &mut [TacFunc])
    ensures permutation { IsPermutation funcs.old funcs.new }
    ensures sorted { IsSorted name_cmp funcs.new }
{
    funcs.sort_unstable_by(by_name);
}

fn sort_by_number(funcs: &mut [TacFunc])
    ensures permutation { IsPermutation funcs.old funcs.new }
    ensures sorted { IsSorted frame_cmp funcs.new }
{
    funcs.sort_unstable_by_key(|func| func.frame);
}

/// Whether each name is below the next.
fn rise_by_name(funcs: &[TacFunc]) -> bool
    ensures { IsTrue result ↔ IsStrictlySortedBy name_cmp funcs.now }
{
    funcs.is_sorted_by(|func, next| by_name(func, next).is_lt())
}

fn is_other(name: &Text, func: &TacFunc) -> bool
    ensures { IsTrue result ↔ (func.now.name ≢ name.now) }
{
    !func.name.equals(name)
}

fn is_new(earlier: &[TacFunc], name: &Text) -> bool
    ensures { IsTrue result ↔ All (λ f. f.name ≢ name.now) earlier.now }
{
    earlier.iter().all(|func| is_other(name, func))
}

fn pairs_differ(funcs: &[TacFunc]) -> bool
    ensures { IsTrue result ↔ NamesDiffer funcs.now }
{
    for (i, func) in funcs.iter().enumerate() {
        if !is_new(&funcs[..i], &func.name) {
            return false;
        }
    }
    true
}

/// Whether no two functions have one name. The functions come back as they were.
///
/// Beyond `MOST_NUMBERED` functions the names are compared pairwise. Lowering makes at most 200,000 ends of blocks, and so no
/// more functions.
pub fn names_differ(funcs: &mut [TacFunc]) -> bool
    requires frames { All HasGoodFrame funcs.old }
    ensures answer { IsTrue result ↔ NamesDiffer funcs.old }
    ensures kept { funcs.new ≡ funcs.old }
{
    if funcs.len() > MOST_NUMBERED {
        return pairs_differ(funcs);
    }
    number(funcs);
    sort_by_name(funcs);
    let differ = rise_by_name(funcs);
    sort_by_number(funcs);
    unnumber(funcs);
    differ
}
