use crate::writer::Writer;
use ib_act::{Act, Size};
use ib_base::Width;
use sqlite_items::Items;
use std::alloc::{AllocError, Global};
use wide_core::{Loc, RawCode, WideAct};

/// Registers of `main`: turns done, the number 1, turns wanted, whether to go on, and others for the loop's work.
const DONE: u32 = 0;

const ONE: u32 = 1;

const WANTED: u32 = 2;

const MORE: u32 = 3;

const FRAME: u32 = 4;

const SUM: u32 = 5;

const MIX: u32 = 6;

const LAST: u32 = 7;

fn add(to: u32, left: u32, right: u32) -> Act {
    Act::Add {
        size: Size::Eight,
        to,
        left,
        right,
    }
}

/// Whether to go on, of the turns that are done.
fn compare() -> Act {
    Act::Less {
        to: MORE,
        left: DONE,
        right: WANTED,
    }
}

fn again(to: u32) -> Option<WideAct> {
    Some(WideAct::Branch { from: MORE, to })
}

/// The two words before each loop, and no more; the loop begins at the word 2.
fn begin(writer: &mut Writer, turns: i64) -> Result<(), AllocError> {
    writer.word(
        &[
            Act::Const { to: DONE, value: 0 },
            Act::Const { to: ONE, value: 1 },
            Act::Const {
                to: WANTED,
                value: turns,
            },
            Act::Const { to: SUM, value: 0 },
        ],
        None,
    )?;
    writer.word(
        &[
            Act::FrameAddress {
                to: FRAME,
                offset: 0,
            },
            Act::Const { to: MIX, value: 0 },
            Act::Const { to: LAST, value: 0 },
        ],
        None,
    )
}

/// The last word of `main`, which returns a register.
fn end(mut writer: Writer, from: u32) -> Result<RawCode, AllocError> {
    writer.word(&[], Some(WideAct::Return(Some(from))))?;
    writer.func("main", 0, 64)?;
    Ok(writer.code())
}

/// Counts: three words a turn of one operation each, and three cycles.
pub fn counting(alloc: Global, turns: i64) -> Result<RawCode, AllocError> {
    let mut writer = Writer::new(alloc);
    begin(&mut writer, turns)?;
    writer.word(&[add(DONE, DONE, ONE)], None)?;
    writer.word(&[compare()], None)?;
    writer.word(&[], again(2))?;
    end(writer, DONE)
}

/// Counts in memory: six words a turn, of which one waits a cycle for what is loaded.
pub fn in_memory(alloc: Global, turns: i64) -> Result<RawCode, AllocError> {
    let mut writer = Writer::new(alloc);
    begin(&mut writer, turns)?;
    let load = Act::Load {
        width: Width::W8,
        to: SUM,
        base: FRAME,
        offset: 8,
    };
    let store = Act::Store {
        width: Width::W8,
        base: FRAME,
        offset: 8,
        from: SUM,
    };
    writer.word(&[load], None)?;
    writer.word(&[add(SUM, SUM, ONE)], None)?;
    writer.word(&[store], None)?;
    writer.word(&[add(DONE, DONE, ONE)], None)?;
    writer.word(&[compare()], None)?;
    writer.word(&[], again(2))?;
    end(writer, SUM)
}

/// Adds and mixes: three words a turn of four operations each, and three cycles.
pub fn four_wide(alloc: Global, turns: i64) -> Result<RawCode, AllocError> {
    let mut writer = Writer::new(alloc);
    begin(&mut writer, turns)?;
    let mix = Act::Xor {
        to: MIX,
        left: MIX,
        right: SUM,
    };
    let last = Act::Mov {
        to: LAST,
        from: DONE,
    };
    writer.word(
        &[add(DONE, DONE, ONE), add(SUM, SUM, DONE), mix, last],
        None,
    )?;
    writer.word(&[compare(), add(SUM, SUM, LAST), mix, last], None)?;
    writer.word(&[add(SUM, SUM, MIX), mix, last], again(2))?;
    end(writer, SUM)
}

/// Counts by a function that adds its two arguments: five words a turn, and five cycles.
pub fn calling(alloc: Global, turns: i64) -> Result<RawCode, AllocError> {
    let mut writer = Writer::new(alloc);
    writer.word(&[add(0, 0, 1)], None)?;
    writer.word(&[], Some(WideAct::Return(Some(0))))?;
    writer.func("plus", 2, 0)?;
    begin(&mut writer, turns)?;
    let mut args = Items::new(alloc);
    args.push(DONE)?;
    args.push(ONE)?;
    let call = WideAct::Call {
        result: Some(Loc::Reg(DONE)),
        func: 0,
        next: 3,
        args,
    };
    writer.word(&[], Some(call))?;
    writer.word(&[compare()], None)?;
    writer.word(&[], again(2))?;
    end(writer, DONE)
}
