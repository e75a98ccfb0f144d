ghost use Rattle.std.specs.Prelude.{◌≡◌, ◌≤◌, ◌++◌, ◌∷◌, [], length, map, IfOk, OnOk};
ghost use Rattle.plain_code.specs.Plain.{end_acts, found_in, item, place, reloads, spread, spread_all};
ghost use Rattle.wide_core.specs.Operation.{reg_of};
ghost use Rattle.wide_core.specs.Renamed.{result_moved};
ghost use Rattle.wide_core.specs.declared.code.WideAct.{WideAct};
ghost use Rattle.wide_plain.specs.Emitted.{Emits, args_of, word_of};

use crate::emitter::Emitter;
use crate::homes::Homes;
use crate::starts::Starts;
use ib_base::Place;
use sqlite_items::Items;
use std::alloc::{AllocError, Global};
use tac_core::End;
use wide_core::{Loc, WideAct};

impl Homes {
    /// Where a call's result goes.
    fn result(self, dest: Option<u32>) -> Option<Loc>
        ensures { result ≡ result_moved (place self.low) (reg_of dest) }
    {
        match dest {
            None => None,
            Some(reg) => Some(self.place(reg)),
        }
    }

    /// The machine's registers in which a call finds its arguments.
    pub(crate) fn all_found(self, alloc: Global, args: &[u32]) -> Result<Items<u32>, AllocError>
        requires { length args.now ≤ 8 }
        ensures { IfOk result (λ list. list ≡ map (found_in self.low args.now) args.now) }
    {
        let mut list = Items::new(alloc);
        for arg in args {
            list.push(self.found_in(args, *arg))?;
        }
        Ok(list)
    }
}

impl Emitter {
    fn emit_branch(
        &mut self,
        alloc: Global,
        homes: Homes,
        home: Place,
        reg: u32,
        to: u32,
    ) -> Result<(), AllocError>
        ensures { OnOk result (Emits (reloads homes.low home (reg ∷ []) (reg ∷ []) ++ item home (WideAct.Branch (found_in homes.low (reg ∷ []) reg) to) ∷ []) self.old self.new) }
    {
        let sources = [reg];
        let from = homes.found_in(&sources, reg);
        self.emit_reloads(alloc, homes, home, &sources)?;
        self.emit(alloc, home, WideAct::Branch { from, to })
    }

    fn emit_call(
        &mut self,
        alloc: Global,
        homes: Homes,
        home: Place,
        dest: Option<u32>,
        func: u32,
        args: &[u32],
        next: u32,
    ) -> Result<(), AllocError>
        requires { length args.now ≤ 8 }
        ensures { OnOk result (Emits (reloads homes.low home args.now args.now ++ item home (WideAct.Call (result_moved (place homes.low) (reg_of dest)) func next (map (found_in homes.low args.now) args.now)) ∷ []) self.old self.new) }
    {
        self.emit_reloads(alloc, homes, home, args)?;
        let args = homes.all_found(alloc, args)?;
        let result = homes.result(dest);
        self.emit(
            alloc,
            home,
            WideAct::Call {
                result,
                func,
                next,
                args,
            },
        )
    }

    fn emit_return(
        &mut self,
        alloc: Global,
        homes: Homes,
        home: Place,
        reg: Option<u32>,
    ) -> Result<(), AllocError>
        ensures { OnOk result (Emits (spread homes.low (λ l. l) home (WideAct.Return reg)) self.old self.new) }
    {
        let Some(reg) = reg else {
            return self.emit(alloc, home, WideAct::Return(None));
        };
        let sources = [reg];
        let from = homes.found_in(&sources, reg);
        self.emit_reloads(alloc, homes, home, &sources)?;
        self.emit(alloc, home, WideAct::Return(Some(from)))
    }

    /// Emits the end of a block.
    pub(crate) fn emit_end(
        &mut self,
        alloc: Global,
        homes: Homes,
        starts: &Starts,
        home: Place,
        end: &End,
    ) -> Result<(), AllocError>
        requires { args_of end.now ≤ 8 }
        ensures { OnOk result (Emits (spread_all homes.low (word_of starts.now) home (end_acts end.now)) self.old self.new) }
    {
        match end {
            End::Jump(next) => {
                let to = starts.word_of(*next);
                self.emit(alloc, home, WideAct::Jump { to })
            }
            End::Branch { reg, yes, no } => {
                let to = starts.word_of(*yes);
                self.emit_branch(alloc, homes, home, *reg, to)?;
                let to = starts.word_of(*no);
                self.emit(alloc, home, WideAct::Jump { to })
            }
            End::Call {
                dest,
                func,
                args,
                next,
            } => {
                let next = starts.word_of(*next);
                self.emit_call(alloc, homes, home, *dest, *func, args.list(), next)
            }
            End::Ret(reg) => self.emit_return(alloc, homes, home, *reg),
        }
    }
}
