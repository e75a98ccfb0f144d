ghost use Rattle.std.specs.Prelude.{◌≡◌, ◌≢◌, ◌<◌, ◌≤◌, ◌+◌, List, ℕ, [], ◌∷◌, Some, length, slice_get, IsTrue, IfOk, OnOk, OnErr, IsErrOf};
ghost use Rattle.std.specs.List.{All};
ghost use Rattle.ib_base.specs.Cause.{HasCause, RunCause};
ghost use Rattle.ib_run.specs.OverHost.{OverHost};
ghost use Rattle.tac_core.specs.Meaning.{In, place_of, go, do_end_of, do_return, number_in, target_of, reg_of};
ghost use Rattle.tac_core.specs.Program.{main_of};
ghost use Rattle.tac_core.specs.Rules.{IsRegister, IsGoodEnd, Takes};
ghost use Rattle.profile.specs.Counting.{start_of, crossed, entered, end_crosses, end_enters, return_crosses};
ghost use Rattle.profile.specs.Moves.{WasCalled, WasGivenBack, waits};
ghost use Rattle.profile.specs.Running.{Steps, StepsPart, Did};
ghost use Rattle.profile.specs.Sound.{IsSound, IsBlock, IsGoodEndOf, state_of};
ghost use Rattle.profile.specs.Tallies.{tallied, tallied_crossing, tallied_entry};

use crate::calls::{
    Call, FIRST, Pending, block_at, callee_regs, enter, first_frame, func_at, overflows, zeros,
};
use crate::effects::{do_act, number_in, set_in};
use crate::progress::Progress;
use crate::tallies::Tallies;
use ib_base::{FaultKind, Host, HostErr, Place, RunErr};
use ib_mem::Memory;
use ib_run::{Stack, result_of};
use std::alloc::{AllocError, Global};
use std::marker::Model;
use std::mem;
use tac_core::{End, TacOp, TacProgram, number_at};

/// A program that runs.
#[derive(Drop)]
pub(crate) struct Execution<'a> {
    tac: &'a TacProgram,
    here: Call<'a>,
    waiting: Stack<Pending>,
    memory: Memory,
}

impl<'a> Model for Execution<'a> {
    ghost use Rattle.profile.specs.Sound.{Running};

    ghost Value = { Running };

    ghost view = { λ run. record { program = run.tac.now; here = run.here; waiting = run.waiting; memory = run.memory } };
}

impl<'a> Execution<'a> {
    /// The program as it begins: `main` in its first block, and the image in the memory.
    pub(crate) fn start(alloc: Global, tac: &'a TacProgram) -> Result<Execution<'a>, AllocError>
        ensures program { IfOk result (λ run. run.program ≡ tac.now) }
        ensures state { IfOk result (λ run. state_of run ≡ start_of tac.now) }
        ensures sound { IfOk result IsSound }
        ensures main { IfOk result (λ run. run.here.func ≡ main_of tac.now) }
    {
        let main = number_at(tac.main())?;
        let func = func_at(tac, main);
        let base = first_frame(tac.image().len());
        let regs = zeros(alloc, func.regs)?;
        let mut memory = Memory::new(alloc)?;
        memory.fill(FIRST, tac.image());
        memory.clear(base, func.frame);
        Ok(Execution {
            tac,
            here: enter(tac, main, 0, base, regs),
            waiting: Stack::new(alloc),
            memory,
        })
    }

    /// The function that runs.
    pub(crate) fn func(&self) -> u32
        ensures { result ≡ self.now.here.func }
    {
        self.here.func
    }

    fn place(&self, stmt: u32) -> Place
        requires { stmt < length self.now.program.places }
        ensures { result ≡ place_of self.now.program.places stmt }
    {
        self.tac.places()[stmt as usize]
    }

    /// Goes on at the start of another block of the call at hand.
    fn jump(&mut self, label: u32)
        requires sound { IsSound self.old }
        requires block { IsBlock self.old.program self.old.here.func label }
        ensures program { self.new.program ≡ self.old.program }
        ensures state { let h = self.old.here in state_of self.new ≡ go self.old.program.funcs h.func label h.base h.regs self.old.waiting self.old.memory }
        ensures sound { IsSound self.new }
    {
        self.here.label = label;
        self.here.ops = block_at(func_at(self.tac, self.here.func), label)
            .ops
            .as_slice();
    }

    /// Calls a function, or says that one call more is too many.
    fn call(
        &mut self,
        alloc: Global,
        dest: Option<u32>,
        callee: u32,
        args: &[u32],
        next: u32,
    ) -> Result<bool, AllocError>
        requires sound { IsSound self.old }
        requires there { callee < length self.old.program.funcs }
        requires args { All (λ r. r < length self.old.here.regs) args.now }
        requires dest { IsRegister (length self.old.here.regs) dest }
        requires takes { Takes self.old.program.funcs callee (length args.now) }
        requires next { IsBlock self.old.program self.old.here.func next }
        ensures program { OnOk result (self.new.program ≡ self.old.program) }
        ensures called { IfOk result (λ called. WasCalled self.old self.new dest callee args.now next called) }
        ensures sound { IfOk result (λ called. IsTrue called → IsSound self.new) }
    {
        let caller = func_at(self.tac, self.here.func);
        let func = func_at(self.tac, callee);
        let top = self.here.base + caller.frame;
        if overflows(self.waiting.len(), top, func.frame) {
            return Ok(false);
        }
        let regs = callee_regs(alloc, func, self.here.regs.as_slice(), args)?;
        let called = enter(self.tac, callee, 0, top, regs);
        self.wait_for(called, dest, next)?;
        self.memory.clear(top, func.frame);
        Ok(true)
    }

    /// Lets the call at hand wait for another.
    fn wait_for(&mut self, called: Call<'a>, dest: Option<u32>, next: u32) -> Result<(), AllocError>
        ensures program { self.new.program ≡ self.old.program }
        ensures ok { OnOk result (self.new ≡ record { program = self.old.program; here = called.entry; waiting = waits self.old dest next ∷ self.old.waiting; memory = self.old.memory }) }
    {
        let outer = mem::replace(&mut self.here, called);
        self.waiting.push(outer.waiting(dest, next))?;
        Ok(())
    }

    /// Goes back to the call that waits, or ends with the number.
    fn give_back(&mut self, number: i64, tallies: &mut Tallies) -> Progress
        requires sound { IsSound self.old }
        requires many { length tallies.old ≡ length self.old.program.funcs }
        ensures program { self.new.program ≡ self.old.program }
        ensures back { (input : List ℕ) → WasGivenBack self.old self.new number result input }
        ensures sound { result ≡ Progress.Going → IsSound self.new }
        ensures tallies { tallies.new ≡ tallied_crossing (return_crosses self.old.waiting) tallies.old }
    {
        match self.waiting.pop() {
            None => Progress::Done(result_of(number)),
            Some(w) => {
                let Pending {
                    func,
                    label,
                    base,
                    regs,
                    dest,
                    next,
                } = w;
                let mut regs = regs;
                set_in(&mut regs, dest, number);
                tallies.cross(func, label, next);
                self.here = enter(self.tac, func, next, base, regs);
                Progress::Going
            }
        }
    }

    /// Takes an edge to another block of the function.
    fn take_edge(&mut self, label: u32, tallies: &mut Tallies)
        requires sound { IsSound self.old }
        requires block { IsBlock self.old.program self.old.here.func label }
        requires many { length tallies.old ≡ length self.old.program.funcs }
        ensures program { self.new.program ≡ self.old.program }
        ensures state { let h = self.old.here in state_of self.new ≡ go self.old.program.funcs h.func label h.base h.regs self.old.waiting self.old.memory }
        ensures sound { IsSound self.new }
        ensures tallies { let h = self.old.here in tallies.new ≡ tallied_crossing (Some (record { func = h.func; from = h.label; to = label })) tallies.old }
    {
        tallies.cross(self.here.func, self.here.label, label);
        self.jump(label);
    }

    /// Where a branch on a register leads.
    fn branch(&self, reg: u32, yes: u32, no: u32) -> u32
        requires { reg < length self.now.here.regs }
        ensures { result ≡ target_of (reg_of self.now.here.regs reg) yes no }
    {
        if self.here.regs.as_slice()[reg as usize] == 0 {
            no
        } else {
            yes
        }
    }

    /// Does the end of a block, whose statement stands at the place.
    fn do_end(
        &mut self,
        alloc: Global,
        end: &End,
        place: Place,
        tallies: &mut Tallies,
    ) -> Result<Progress, RunErr>
        requires sound { IsSound self.old }
        requires good { IsGoodEndOf self.old.program self.old.here.func end.now }
        requires many { length tallies.old ≡ length self.old.program.funcs }
        ensures program { OnOk result (self.new.program ≡ self.old.program) }
        ensures step { IfOk result (λ progress. (input : List ℕ) → let h = self.old.here in Did (do_end_of self.old.program.funcs end.now place h.func h.label h.base h.regs self.old.waiting self.old.memory input) (state_of self.new) progress input []) }
        ensures sound { IfOk result (λ progress. progress ≡ Progress.Going → IsSound self.new) }
        ensures tallies { OnOk result (let h = self.old.here in tallies.new ≡ tallied_entry (end_enters self.old.program.funcs end.now h.func h.base self.old.waiting) (tallied_crossing (end_crosses end.now h.func h.label h.regs self.old.waiting) tallies.old)) }
        ensures cause { IsErrOf result RunErr.Host → ⊥ }
    {
        match end {
            End::Jump(label) => {
                self.take_edge(*label, tallies);
                Ok(Progress::Going)
            }
            End::Branch { reg, yes, no } => {
                let label = self.branch(*reg, *yes, *no);
                self.take_edge(label, tallies);
                Ok(Progress::Going)
            }
            End::Call {
                dest,
                func,
                args,
                next,
            } => {
                if self.call(alloc, *dest, *func, args.list(), *next)? {
                    tallies.enter(*func);
                    Ok(Progress::Going)
                } else {
                    let kind = FaultKind::StackOverflow;
                    Ok(Progress::Broken { place, kind })
                }
            }
            End::Ret(reg) => {
                let number = number_in(self.here.regs.as_slice(), *reg);
                Ok(self.give_back(number, tallies))
            }
        }
    }

    /// Does the end of the block at hand.
    fn finish(&mut self, alloc: Global, tallies: &mut Tallies) -> Result<Progress, RunErr>
        requires sound { IsSound self.old }
        requires behind { self.old.here.ops ≡ [] }
        requires many { length tallies.old ≡ length self.old.program.funcs }
        ensures program { OnOk result (self.new.program ≡ self.old.program) }
        ensures step { IfOk result (λ progress. (input : List ℕ) → Steps self.old.program (state_of self.old) (state_of self.new) progress input input []) }
        ensures sound { IfOk result (λ progress. progress ≡ Progress.Going → IsSound self.new) }
        ensures tallies { OnOk result (tallies.new ≡ tallied self.old.program.funcs (state_of self.old) tallies.old) }
        ensures cause { IsErrOf result RunErr.Host → ⊥ }
    {
        let block = block_at(func_at(self.tac, self.here.func), self.here.label);
        let place = self.place(block.end_stmt);
        self.do_end(alloc, &block.end, place, tallies)
    }

    /// Does the first operation that is left.
    fn operate<H: Host>(
        &mut self,
        op: TacOp,
        rest: &'a [TacOp],
        host: &mut H,
    ) -> Result<Progress, HostErr>
        requires sound { IsSound self.old }
        requires first { self.old.here.ops ≡ op ∷ rest.now }
        ensures program { self.new.program ≡ self.old.program }
        ensures step { IfOk result (λ progress. OverHost (Steps self.old.program (state_of self.old) (state_of self.new) progress) (H.world host.old) (H.world host.new)) }
        ensures broken { OnErr result (OverHost (StepsPart self.old.program (state_of self.old)) (H.world host.old) (H.world host.new)) }
        ensures sound { IfOk result (λ progress. progress ≡ Progress.Going → IsSound self.new) }
        ensures cause { HasCause (H.faults host.old) (H.faults host.new) result }
        ensures still_sure { H.sure host.old → H.sure host.new }
        ensures never { H.sure host.old → IsErrOf result HostErr.Failed → ⊥ }
    {
        let place = self.place(op.stmt);
        let base = self.here.base;
        match do_act(op.act, base, &mut self.here.regs, &mut self.memory, host) {
            Ok(None) => {
                self.here.ops = rest;
                Ok(Progress::Going)
            }
            Ok(Some(kind)) => Ok(Progress::Broken { place, kind }),
            Err(error) => Err(error),
        }
    }

    /// One operation, or the end of a block.
    pub(crate) fn step<H: Host>(
        &mut self,
        alloc: Global,
        tallies: &mut Tallies,
        host: &mut H,
    ) -> Result<Progress, RunErr>
        requires sound { IsSound self.old }
        requires many { length tallies.old ≡ length self.old.program.funcs }
        ensures program { OnOk result (self.new.program ≡ self.old.program) }
        ensures step { IfOk result (λ progress. OverHost (Steps self.old.program (state_of self.old) (state_of self.new) progress) (H.world host.old) (H.world host.new)) }
        ensures broken { OnErr result (OverHost (StepsPart self.old.program (state_of self.old)) (H.world host.old) (H.world host.new)) }
        ensures sound { IfOk result (λ progress. progress ≡ Progress.Going → IsSound self.new) }
        ensures tallies { OnOk result (tallies.new ≡ tallied self.old.program.funcs (state_of self.old) tallies.old) }
        ensures cause { RunCause (H.faults host.old) (H.faults host.new) result }
        ensures still_sure { H.sure host.old → H.sure host.new }
        ensures never { H.sure host.old → IsErrOf result RunErr.Host → ⊥ }
    {
        match self.here.ops {
            [] => self.finish(alloc, tallies),
            [op, rest @ ..] => match self.operate(*op, rest, host) {
                Ok(progress) => Ok(progress),
                Err(error) => Err(RunErr::from(error)),
            },
        }
    }
}
