ghost use Rattle.std.specs.Prelude.{◌≡◌, map, OnOk, true, false};
ghost use Rattle.tac_code.specs.Views.{code_of, test_of, exit_of};
ghost use Rattle.tac_lowered.specs.Code.{does, nothing, leave, settled, on, all_of, one_of, both, calls, choose, repeat, until, when};
ghost use Rattle.tac_lowered.specs.Items.{exit};
ghost use Rattle.tac_emit.specs.Extents.{row_of};
ghost use Rattle.tac_emit.specs.Emitted.{loop_of, next_of, EmitsCode, EmitsOwned, EmitsTest};

use crate::emitter::Emitter;
use crate::jump::is_jump;
use crate::ways::{Loop, Next, Ways, branch, entry, exit};
use ib_act::Act;
use std::alloc::AllocError;
use tac_code::{Code, Exit, Test};
use tac_core::{End, Regs};

impl<'a> Emitter<'a> {
    #[tactic(auto, using(crate::proofs::Emitting::emits_nothing))]
    fn nothing(&mut self, ways: Ways) -> Result<(), AllocError>
        ensures { OnOk result (EmitsCode self.old self.new nothing (loop_of ways.around) (next_of ways.next)) }
    {
        self.go(ways.next)?;
        Ok(())
    }

    #[tactic(auto, using(crate::proofs::Emitting::emits_does))]
    fn does(&mut self, stmt: u32, act: Act, ways: Ways) -> Result<(), AllocError>
        ensures { OnOk result (EmitsCode self.old self.new (does stmt act) (loop_of ways.around) (next_of ways.next)) }
    {
        self.put(stmt, act)?;
        self.go(ways.next)?;
        Ok(())
    }

    #[tactic(auto, using(crate::proofs::Emitting::emits_call))]
    fn call(
        &mut self,
        stmt: u32,
        dest: Option<u32>,
        func: u32,
        args: &Regs,
        ways: Ways,
    ) -> Result<(), AllocError>
        ensures { OnOk result (EmitsCode self.old self.new (calls stmt dest func args.now) (loop_of ways.around) (next_of ways.next)) }
    {
        let behind = self.next_label()?;
        let next = ways.next.label_or(behind);
        let args = args.copy(self.alloc)?;
        self.close(
            stmt,
            End::Call {
                dest,
                func,
                args,
                next,
            },
        )?;
        Ok(())
    }

    #[tactic(auto, using(crate::proofs::Emitting::emits_leave))]
    fn leave(&mut self, stmt: u32, way: Exit, ways: Ways) -> Result<(), AllocError>
        ensures { OnOk result (EmitsCode self.old self.new (leave stmt (exit_of way)) (loop_of ways.around) (next_of ways.next)) }
    {
        self.close(stmt, exit(ways.around, way))?;
        Ok(())
    }

    /// Emits code, with the labels of its loop, and of where it goes behind its end.
    #[cycle(emits)]
    #[tactic(auto, using(crate::proofs::Surveying::row_at, crate::proofs::Surveying::row_counted))]
    pub(crate) fn code(&mut self, code: &Code, ways: Ways) -> Result<(), AllocError>
        ensures { OnOk result (EmitsCode self.old self.new (code_of code.now) (loop_of ways.around) (next_of ways.next)) }
    {
        match code {
            Code::Nothing => self.nothing(ways),
            Code::Does { stmt, act } => self.does(*stmt, *act, ways),
            Code::Both(first, last) => self.both(first, last, ways),
            Code::Row { first, last } => self.row(first, last, ways),
            Code::Calls {
                stmt,
                to,
                func,
                args,
            } => self.call(*stmt, *to, *func, args, ways),
            Code::When { stmt, test, then } => self.when(*stmt, test, then, ways),
            Code::Choose {
                stmt,
                test,
                then,
                other,
            } => self.choose(*stmt, test, then, other, ways),
            Code::Repeat {
                stmt,
                own,
                test,
                body,
                last,
            } => self.repeat(*stmt, *own, test, body, last, ways),
            Code::Until {
                stmt,
                own,
                body,
                test,
            } => self.until(*stmt, *own, body, test, ways),
            Code::Leave { stmt, exit } => self.leave(*stmt, *exit, ways),
        }
    }

    #[cycle(emits)]
    fn both(&mut self, first: &Code, last: &Code, ways: Ways) -> Result<(), AllocError>
        ensures { OnOk result (EmitsCode self.old self.new (both (code_of first.now) (code_of last.now)) (loop_of ways.around) (next_of ways.next)) }
    {
        let onward = Ways {
            around: ways.around,
            next: Next::Onward,
        };
        self.code(first, onward)?;
        self.code(last, ways)?;
        Ok(())
    }

    #[cycle(emits)]
    fn row(&mut self, first: &[Code], last: &Code, ways: Ways) -> Result<(), AllocError>
        ensures { OnOk result (EmitsCode self.old self.new (row_of (map code_of first.now) (code_of last.now)) (loop_of ways.around) (next_of ways.next)) }
    {
        let onward = Ways {
            around: ways.around,
            next: Next::Onward,
        };
        for part in first {
            self.code(part, onward)?;
        }
        self.code(last, ways)?;
        Ok(())
    }

    /// Emits code that has a block of its own where it is more than a jump.
    #[cycle(emits)]
    #[tactic(auto, using(crate::proofs::Emitting::owned_jump, crate::proofs::Emitting::owned_code))]
    fn owned(&mut self, code: &Code, ways: Ways) -> Result<(), AllocError>
        ensures { OnOk result (EmitsOwned self.old self.new (code_of code.now) (loop_of ways.around) (next_of ways.next)) }
    {
        if is_jump(code) {
            return Ok(());
        }
        self.code(code, ways)?;
        Ok(())
    }

    #[cycle(emits)]
    fn when(&mut self, stmt: u32, test: &Test, then: &Code, ways: Ways) -> Result<(), AllocError>
        ensures { OnOk result (EmitsCode self.old self.new (when stmt (test_of test.now) (code_of then.now)) (loop_of ways.around) (next_of ways.next)) }
    {
        let to = self.take();
        let out = ways.next.label_or(to.behind);
        let there = entry(then, ways.around, out, to.first);
        self.test(test, there, out)?;
        let behind = Ways {
            around: ways.around,
            next: Next::Jump { stmt, label: out },
        };
        self.owned(then, behind)?;
        Ok(())
    }

    #[cycle(emits)]
    fn choose(
        &mut self,
        stmt: u32,
        test: &Test,
        then: &Code,
        other: &Code,
        ways: Ways,
    ) -> Result<(), AllocError>
        ensures { OnOk result (EmitsCode self.old self.new (choose stmt (test_of test.now) (code_of then.now) (code_of other.now)) (loop_of ways.around) (next_of ways.next)) }
    {
        let to = self.take();
        let out = ways.next.label_or(to.behind);
        let yes = entry(then, ways.around, out, to.first);
        let no = entry(other, ways.around, out, to.second);
        self.test(test, yes, no)?;
        let behind = Ways {
            around: ways.around,
            next: Next::Jump { stmt, label: out },
        };
        self.owned(then, behind)?;
        self.owned(other, behind)?;
        Ok(())
    }

    #[cycle(emits)]
    fn repeat(
        &mut self,
        stmt: u32,
        own: bool,
        test: &Test,
        body: &Code,
        last: &Code,
        ways: Ways,
    ) -> Result<(), AllocError>
        ensures { OnOk result (EmitsCode self.old self.new (repeat stmt own (test_of test.now) (code_of body.now) (code_of last.now)) (loop_of ways.around) (next_of ways.next)) }
    {
        if own {
            self.repeat_own(stmt, test, body, last, ways)
        } else {
            self.repeat_onward(stmt, test, body, last, ways)
        }
    }

    /// Emits a loop in which what is done behind each turn has a block of its own.
    #[cycle(emits)]
    fn repeat_own(
        &mut self,
        stmt: u32,
        test: &Test,
        body: &Code,
        last: &Code,
        ways: Ways,
    ) -> Result<(), AllocError>
        ensures { OnOk result (EmitsCode self.old self.new (repeat stmt true (test_of test.now) (code_of body.now) (code_of last.now)) (loop_of ways.around) (next_of ways.next)) }
    {
        let to = self.take();
        let head = self.next_label()?;
        let out = ways.next.label_or(to.behind);
        let on_continue = entry(last, ways.around, head, to.second);
        let inner = Loop {
            on_break: out,
            on_continue,
        };
        let there = entry(body, inner, on_continue, to.first);
        self.close(stmt, End::Jump(head))?;
        self.test(test, there, out)?;
        let turn = Ways {
            around: inner,
            next: Next::Jump {
                stmt,
                label: on_continue,
            },
        };
        self.owned(body, turn)?;
        let again = Ways {
            around: ways.around,
            next: Next::Jump { stmt, label: head },
        };
        self.owned(last, again)?;
        Ok(())
    }

    /// Emits a loop whose body goes on where it ends.
    #[cycle(emits)]
    fn repeat_onward(
        &mut self,
        stmt: u32,
        test: &Test,
        body: &Code,
        last: &Code,
        ways: Ways,
    ) -> Result<(), AllocError>
        ensures { OnOk result (EmitsCode self.old self.new (repeat stmt false (test_of test.now) (code_of body.now) (code_of last.now)) (loop_of ways.around) (next_of ways.next)) }
    {
        let to = self.take();
        let head = self.next_label()?;
        let out = ways.next.label_or(to.behind);
        let inner = Loop {
            on_break: out,
            on_continue: head,
        };
        self.close(stmt, End::Jump(head))?;
        self.test(test, to.first, out)?;
        let turn = Ways {
            around: inner,
            next: Next::Onward,
        };
        self.code(body, turn)?;
        let again = Ways {
            around: ways.around,
            next: Next::Jump { stmt, label: head },
        };
        self.code(last, again)?;
        Ok(())
    }

    #[cycle(emits)]
    fn until(
        &mut self,
        stmt: u32,
        own: bool,
        body: &Code,
        test: &Test,
        ways: Ways,
    ) -> Result<(), AllocError>
        ensures { OnOk result (EmitsCode self.old self.new (until stmt own (code_of body.now) (test_of test.now)) (loop_of ways.around) (next_of ways.next)) }
    {
        let to = self.take();
        let head = self.next_label()?;
        let out = ways.next.label_or(to.behind);
        let inner = Loop {
            on_break: out,
            on_continue: to.first,
        };
        let next = Next::to_own(own, stmt, to.first);
        self.close(stmt, End::Jump(head))?;
        let turn = Ways {
            around: inner,
            next,
        };
        self.code(body, turn)?;
        self.test(test, head, out)?;
        Ok(())
    }

    /// Emits a test that goes to one label where it holds, and else to the other.
    #[cycle(emits)]
    fn test(&mut self, test: &Test, yes: u32, no: u32) -> Result<(), AllocError>
        ensures { OnOk result (EmitsTest self.old self.new (test_of test.now) yes no) }
    {
        match test {
            Test::Settled { stmt, holds } => self.settled(*stmt, *holds, yes, no),
            Test::On {
                stmt,
                code,
                register,
            } => self.tested(*stmt, code, *register, yes, no),
            Test::AllOf(first, last) => self.all_of(first, last, yes, no),
            Test::OneOf(first, last) => self.one_of(first, last, yes, no),
            Test::Inverse(test) => self.test(test, no, yes),
        }
    }

    #[tactic(auto, using(crate::proofs::Emitting::emits_settled))]
    fn settled(&mut self, stmt: u32, holds: bool, yes: u32, no: u32) -> Result<(), AllocError>
        ensures { OnOk result (EmitsTest self.old self.new (settled stmt holds) yes no) }
    {
        let label = if holds { yes } else { no };
        self.close(stmt, End::Jump(label))?;
        Ok(())
    }

    #[cycle(emits)]
    fn tested(
        &mut self,
        stmt: u32,
        code: &Code,
        register: u32,
        yes: u32,
        no: u32,
    ) -> Result<(), AllocError>
        ensures { OnOk result (EmitsTest self.old self.new (on stmt (code_of code.now) register) yes no) }
    {
        self.code(code, Ways::NOWHERE)?;
        self.close(stmt, branch(register, yes, no))?;
        Ok(())
    }

    #[cycle(emits)]
    fn all_of(&mut self, first: &Test, last: &Test, yes: u32, no: u32) -> Result<(), AllocError>
        ensures { OnOk result (EmitsTest self.old self.new (all_of (test_of first.now) (test_of last.now)) yes no) }
    {
        let to = self.take();
        self.test(first, to.first, no)?;
        self.test(last, yes, no)?;
        Ok(())
    }

    #[cycle(emits)]
    fn one_of(&mut self, first: &Test, last: &Test, yes: u32, no: u32) -> Result<(), AllocError>
        ensures { OnOk result (EmitsTest self.old self.new (one_of (test_of first.now) (test_of last.now)) yes no) }
    {
        let to = self.take();
        self.test(first, yes, to.first)?;
        self.test(last, yes, no)?;
        Ok(())
    }
}
