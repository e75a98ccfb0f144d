ghost use Rattle.std.specs.Prelude.{◌≡◌, ℕ, ◌≤◌, List, IfOk};
ghost use Rattle.ib_meaning.specs.Agreement.{Agrees, IsOver};
ghost use Rattle.machine_desc.specs.Machine.{four_latency, four_units};
ghost use Rattle.first_form.specs.Meaning.{source_meaning};
ghost use Rattle.wide_core.specs.Meaning.{wide_meaning};
ghost use Rattle.wide_core.specs.Valid.{IsValid, limits};
ghost use Rattle.first_code.specs.Code.{code_of, main_code};
ghost use Rattle.first_code.specs.Made.{IsShort};
ghost use Rattle.first_code.specs.Plain.{IsPlain};

use crate::maker::CodeMaker;
use first_form::Program;
use ib_base::{Place, Text};
use machine_desc::Four;
use sqlite_items::Items;
use std::alloc::{AllocError, Global};
use wide_core::{RawCode, WideCode, WideFunc, Word};

/// The program's code in source order, one operation in each word and none flagged.
pub fn make(alloc: Global, program: &Program) -> Result<WideCode<Four>, AllocError>
    requires { IsShort program.now }
    ensures code { IfOk result (λ code. code ≡ code_of program.now) }
    ensures plain { IfOk result IsPlain }
    ensures valid { IfOk result (IsValid (limits 4 32 four_units)) }
    ensures agrees { IfOk result (λ code. Agrees (source_meaning program.now) (wide_meaning four_latency code)) }
    ensures ends { IfOk result (λ code. (input : List ℕ) (cycles : ℕ) → 2097152 ≤ cycles → IsOver (wide_meaning four_latency code input cycles)) }
{
    let slot = program.names.len() as u32;
    let mut maker = CodeMaker {
        words: Items::new(alloc),
        slot,
        place: Place { line: 1, col: 1 },
    };
    maker.body(alloc, program.body.as_slice())?;
    let CodeMaker {
        words,
        slot,
        place: _,
    } = maker;
    let raw = main_code(alloc, slot, words)?;
    let code = WideCode::keep(raw);
    Ok(code)
}

/// Code of one function `main`, with an empty image and no frame.
fn main_code(alloc: Global, slots: u32, words: Items<Word>) -> Result<RawCode, AllocError>
    ensures { IfOk result (λ code. code ≡ main_code slots words) }
{
    let main = WideFunc {
        name: Text::from_bytes(alloc, b"main")?,
        params: Items::new(alloc),
        frame: 0,
        slots,
        words,
    };
    let mut funcs = Items::new(alloc);
    funcs.push(main)?;
    Ok(RawCode {
        image: Items::new(alloc),
        funcs,
    })
}
