use ib_act::Act;
use ib_base::{Place, Text};
use sqlite_items::Items;
use std::alloc::{AllocError, Global};
use wide_core::{Loc, RawCode, WideAct, WideFunc, WideOp, Word};

/// Code that is being written function by function, whose operations are numbered from 1 on.
#[derive(Drop)]
pub struct Writer {
    alloc: Global,
    funcs: Items<WideFunc>,
    words: Items<Word>,
    numbered: u32,
}

impl Writer {
    pub fn new(alloc: Global) -> Writer {
        Writer {
            alloc,
            funcs: Items::new(alloc),
            words: Items::new(alloc),
            numbered: 0,
        }
    }

    /// Appends a word of these operations, and of a control operation behind them where there is one.
    pub fn word(&mut self, acts: &[Act], control: Option<WideAct>) -> Result<(), AllocError> {
        let mut ops = Items::new(self.alloc);
        for act in acts {
            ops.push(self.numbered(WideAct::Do(*act)))?;
        }
        if let Some(act) = control {
            ops.push(self.numbered(act))?;
        }
        self.words.push(Word { ops })
    }

    fn numbered(&mut self, act: WideAct) -> WideOp {
        self.numbered = self.numbered.saturating_add(1);
        WideOp::unflagged(self.numbered, Place { line: 1, col: 1 }, act)
    }

    /// Ends a function of the words so far. It takes its parameters in its first registers.
    pub fn func(&mut self, name: &str, params: u32, frame: u32) -> Result<(), AllocError> {
        let mut places = Items::new(self.alloc);
        for param in 0..params {
            places.push(Loc::Reg(param))?;
        }
        let name = Text::from_bytes(self.alloc, name.as_bytes())?;
        let words = std::mem::replace(&mut self.words, Items::new(self.alloc));
        self.funcs.push(WideFunc {
            name,
            params: places,
            frame,
            slots: 0,
            words,
        })
    }

    /// The code, with no image.
    pub fn code(self) -> RawCode {
        let Writer { alloc, funcs, .. } = self;
        RawCode {
            image: Items::new(alloc),
            funcs,
        }
    }
}
