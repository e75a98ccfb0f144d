ghost use Rattle.std.specs.Prelude.{◌≡◌, not, slice_get};
ghost use Rattle.wide_core.specs.Parts.{frame_of, overflows};

use sqlite_items::at;
use std::marker::Model;
use wide_core::WideFunc;

/// How many calls may wait where one more is made.
const MOST_WAITING: usize = 4094;

const MEMORY: u64 = 1_048_576;

/// Where the call at hand stands: its frame's base, where the next call's would be, and how many calls wait.
#[derive(Drop)]
pub(crate) struct Site<'a> {
    funcs: &'a [WideFunc],
    base: u32,
    next_base: u32,
    waiting: usize,
}

impl<'a> Model for Site<'a> {
    ghost use Rattle.wide_sim.specs.Site.{Site};

    ghost Value = { Site };

    ghost view = { λ s. record { funcs = s.funcs.now; base = s.base; next_base = s.next_base; waiting = s.waiting } };
}

impl<'a> Site<'a> {
    pub fn new(funcs: &'a [WideFunc], base: u32, next_base: u32, waiting: usize) -> Site<'a>
        ensures { result ≡ record { funcs = funcs.now; base = base; next_base = next_base; waiting = waiting } }
    {
        Site {
            funcs,
            base,
            next_base,
            waiting,
        }
    }

    pub fn base(&self) -> u32
        ensures { result ≡ self.now.base }
    {
        self.base
    }

    pub fn next_base(&self) -> u32
        ensures { result ≡ self.now.next_base }
    {
        self.next_base
    }

    pub fn funcs(&self) -> &[WideFunc]
        ensures { result.now ≡ self.now.funcs }
    {
        self.funcs
    }

    /// Whether there is room for a call of the function.
    pub fn has_room(&self, func: u32) -> bool
        ensures { result ≡ not (overflows self.now.waiting self.now.next_base (frame_of (slice_get self.now.funcs func))) }
    {
        let frame = frame_size(self.funcs, func as usize);
        self.waiting <= MOST_WAITING && u64::from(self.next_base) + u64::from(frame) <= MEMORY
    }
}

/// The bytes of a function's frame.
pub(crate) fn frame_size(funcs: &[WideFunc], func: usize) -> u32
    ensures { result ≡ frame_of (slice_get funcs.now func) }
{
    match at(funcs, func) {
        Some(func) => func.frame,
        None => 0,
    }
}
