ghost use Rattle.std.specs.Prelude.{◌≡◌, ◌+◌, ◌<◌, ◌≤◌, ◌∷◌, ℕ, List, length};
ghost use Rattle.ib_mem.specs.Memory.{cleared};
ghost use Rattle.wide_core.specs.Meaning.{func_of};
ghost use Rattle.wide_core.specs.Parts.{frame_of};
ghost use Rattle.wide_sim.specs.Advance.{CanAdvance, FirstTakes, TakesResult, advanced, given, given_back, standing, suspended};

use crate::callers::Callers;
use crate::frame::{Frame, Suspended};
use crate::home::home_of;
use crate::next::Next;
use crate::outcome::Stepped;
use crate::site::frame_size;
use ib_mem::Memory;
use ib_run::result_of;
use std::mem::replace;
use wide_core::{Loc, RawCode, Tagged};

/// Goes where a word sends control, and answers whether the machine is over. A result is ready `soon`.
pub(crate) fn advance(
    code: &RawCode,
    call: &mut Frame,
    callers: &mut Callers,
    memory: &mut Memory,
    soon: u64,
    next: Next,
) -> Stepped
    requires { CanAdvance code.now callers.old next }
    ensures { standing call.new callers.new memory.new result ≡ advanced code.now soon next call.old callers.old memory.old }
{
    match next {
        Next::Word(at) => {
            call.at = at;
            Stepped::Going
        }
        Next::Call {
            frame,
            next,
            result,
        } => {
            clear_frame(code, memory, &frame);
            enter(call, callers, frame, next, result);
            Stepped::Going
        }
        Next::Return(number) => give_back(call, callers, soon, number),
        Next::Report { number, kind } => Stepped::Reported {
            place: home_of(code, number),
            kind,
        },
    }
}

fn clear_frame(code: &RawCode, memory: &mut Memory, frame: &Frame)
    requires { frame.now.base + frame_of (func_of code.now frame.now.func) ≤ 1048576 }
    ensures { memory.new ≡ cleared memory.old frame.now.base (frame_of (func_of code.now frame.now.func)) }
{
    memory.clear(frame.base, frame_size(code.funcs.as_slice(), frame.func));
}

/// Begins a call, for which the one at hand waits.
fn enter(call: &mut Frame, callers: &mut Callers, frame: Frame, next: usize, to: Option<Loc>)
    requires { length callers.old < 4096 }
    ensures call { call.new ≡ frame }
    ensures callers { callers.new ≡ suspended call.old next to ∷ callers.old }
{
    call.at = next;
    let caller = replace(call, frame);
    callers.push(Suspended {
        frame: caller,
        result: to,
    });
}

/// Goes on with the call that waits, or ends the machine.
fn give_back(call: &mut Frame, callers: &mut Callers, soon: u64, number: i64) -> Stepped
    requires { FirstTakes callers.old }
    ensures { (memory : List ℕ) → standing call.new callers.new memory result ≡ given_back call.old callers.old memory number soon }
{
    match callers.pop() {
        None => Stepped::Ended(result_of(number)),
        Some(caller) => {
            *call = resumed(caller, soon, number);
            Stepped::Going
        }
    }
}

/// The call that waited, with the number that it waited for.
fn resumed(caller: Suspended, soon: u64, number: i64) -> Frame
    requires { TakesResult caller }
    ensures { result ≡ given caller.result number soon caller.frame }
{
    let Suspended { mut frame, result } = caller;
    match result {
        None => {}
        Some(loc) => {
            frame.values.set(loc, Tagged::Clear(number));
            frame.ready.set(loc, soon);
        }
    }
    frame
}
