ghost use Rattle.std.specs.Prelude.{◌≡◌, ◌≤◌, ◌+◌, ℕ, [], ◌∷◌, ◌++◌, Some, None, length, IfOk, OnOk};
ghost use Rattle.ib_act.specs.Acts.{target};
ghost use Rattle.plain_code.specs.Plain.{found_in, item, left_in, reload, reloads, spill, spread};
ghost use Rattle.wide_core.specs.Renamed.{act_moved};
ghost use Rattle.wide_core.specs.declared.code.WideAct.{WideAct};
ghost use Rattle.wide_plain.specs.Emitted.{Emits};

use crate::homes::Homes;
use ib_act::Act;
use ib_base::Place;
use sqlite_items::Items;
use std::alloc::{AllocError, Global};
use wide_core::{WideAct, WideOp, Word};

/// The words of a function so far, and the next operation's number.
#[derive(Drop)]
pub(crate) struct Emitter {
    pub(crate) words: Items<Word>,
    pub(crate) number: u32,
}

impl Emitter {
    /// No words yet.
    pub(crate) fn from_number(alloc: Global, number: u32) -> Emitter
        ensures { result ≡ record { words = []; number = number } }
    {
        Emitter {
            words: Items::new(alloc),
            number,
        }
    }

    /// The next operation's number, which it takes. Numbers have 32 bits; what would need more finds no memory.
    fn take_number(&mut self) -> Result<u32, AllocError>
        ensures number { IfOk result (λ number. number ≡ self.old.number) }
        ensures next { OnOk result (self.new.number ≡ self.old.number + 1) }
        ensures words { self.new.words ≡ self.old.words }
    {
        let number = self.number;
        self.number = number.checked_add(1).ok_or(AllocError)?;
        Ok(number)
    }

    /// Emits an operation in a word of its own.
    pub(crate) fn emit(
        &mut self,
        alloc: Global,
        home: Place,
        act: WideAct,
    ) -> Result<(), AllocError>
        ensures { OnOk result (Emits (item home act ∷ []) self.old self.new) }
    {
        let Ok(number) = self.take_number() else {
            drop(act);
            return Err(AllocError);
        };
        let word = Word::of_one(alloc, WideOp::unflagged(number, home, act))?;
        self.words.push(word)
    }

    /// Emits the reload of one of these sources, where it lives in a slot.
    fn emit_reload(
        &mut self,
        alloc: Global,
        homes: Homes,
        home: Place,
        sources: &[u32],
        reg: u32,
    ) -> Result<(), AllocError>
        requires { length sources.now ≤ 8 }
        ensures { OnOk result (Emits (reload homes.low home sources.now reg) self.old self.new) }
    {
        if reg < homes.low {
            return Ok(());
        }
        let to = homes.found_in(sources, reg);
        let from = reg - homes.low;
        self.emit(alloc, home, WideAct::Reload { to, from })
    }

    /// Emits the reloads of those of these sources that live in slots.
    #[tactic(auto, using(crate::proofs::Emitted::emits_none))]
    pub(crate) fn emit_reloads(
        &mut self,
        alloc: Global,
        homes: Homes,
        home: Place,
        sources: &[u32],
    ) -> Result<(), AllocError>
        requires { length sources.now ≤ 8 }
        ensures { OnOk result (Emits (reloads homes.low home sources.now sources.now) self.old self.new) }
    {
        for source in sources {
            self.emit_reload(alloc, homes, home, sources, *source)?;
        }
        Ok(())
    }

    /// Emits the spill of what an operation gives, where its register lives in a slot.
    fn emit_spill(
        &mut self,
        alloc: Global,
        homes: Homes,
        home: Place,
        target: Option<u32>,
    ) -> Result<(), AllocError>
        ensures { OnOk result (Emits (spill homes.low home target) self.old self.new) }
    {
        let Some(reg) = target else {
            return Ok(());
        };
        if reg < homes.low {
            return Ok(());
        }
        let to = reg - homes.low;
        let from = homes.low;
        self.emit(alloc, home, WideAct::Spill { to, from })
    }

    /// Emits an operation that has these sources.
    fn emit_with(
        &mut self,
        alloc: Global,
        homes: Homes,
        home: Place,
        sources: &[u32],
        act: Act,
    ) -> Result<(), AllocError>
        requires { length sources.now ≤ 8 }
        ensures { OnOk result (Emits (reloads homes.low home sources.now sources.now ++ item home (WideAct.Do (act_moved (found_in homes.low sources.now) (left_in homes.low) act)) ∷ spill homes.low home (target act)) self.old self.new) }
    {
        let moved = WideAct::Do(homes.act_moved(sources, act));
        self.emit_reloads(alloc, homes, home, sources)?;
        self.emit(alloc, home, moved)?;
        self.emit_spill(alloc, homes, home, act.target())
    }

    /// Emits an operation on three-address registers.
    pub(crate) fn emit_act(
        &mut self,
        alloc: Global,
        homes: Homes,
        home: Place,
        act: Act,
    ) -> Result<(), AllocError>
        ensures { OnOk result (Emits (spread homes.low (λ l. l) home (WideAct.Do act)) self.old self.new) }
    {
        match act.first_source() {
            Some(first) => match act.second_source() {
                Some(second) => self.emit_with(alloc, homes, home, &[first, second], act),
                None => self.emit_with(alloc, homes, home, &[first], act),
            },
            None => match act.second_source() {
                Some(second) => self.emit_with(alloc, homes, home, &[second], act),
                None => self.emit_with(alloc, homes, home, &[], act),
            },
        }
    }
}
