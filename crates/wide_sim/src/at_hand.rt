ghost use Rattle.std.specs.Prelude.{◌≡◌, ◌+◌, ◌<◌, ◌^◌, ℕ};
ghost use Rattle.wide_core.specs.Meaning.{func_of};
ghost use Rattle.wide_core.specs.Parts.{frame_of};
ghost use Rattle.wide_sim.specs.Frames.{FrameFits, ops_at};

use crate::frame::Frame;
use crate::site::frame_size;
use wide_core::{RawCode, WideOp};

/// The operations of the word at hand.
pub(crate) fn ops_at_hand<'a>(code: &'a RawCode, call: &Frame) -> &'a [WideOp]
    requires { (regs : ℕ) × FrameFits regs code.now call.now }
    ensures ops { result.now ≡ ops_at code.now call.now }
    ensures more { call.now.at + 1 < 2 ^ 64 }
{
    let words = code.funcs.as_slice()[call.func].words.as_slice();
    prove!(call.at < words.len());
    words[call.at].ops.as_slice()
}

/// Where the frame of the next call would begin.
pub(crate) fn next_base(code: &RawCode, call: &Frame) -> u32
    requires { (regs : ℕ) × FrameFits regs code.now call.now }
    ensures { result ≡ call.now.base + frame_of (func_of code.now call.now.func) }
{
    call.base + frame_size(code.funcs.as_slice(), call.func)
}
