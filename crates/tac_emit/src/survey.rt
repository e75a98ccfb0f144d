ghost use Rattle.std.specs.Prelude.{◌≡◌, ◌<◌, ◌+◌, ◌++◌, ◌∷◌, [], true, false, map, length, slice_set, OnOk, IfOk};
ghost use Rattle.tac_code.specs.Views.{code_of, test_of};
ghost use Rattle.tac_lowered.specs.Code.{all_of, both, choose, on, repeat, until, when};
ghost use Rattle.tac_lowered.specs.Items.{fresh, fresh_if, is_full, counted, after, goes, goes_test};
ghost use Rattle.tac_emit.specs.Extents.{open_of, row_of, Surveys, SurveysCode, SurveysOwned, SurveysTest, SurveysTurns, Reserves, Sets};

use crate::jump::is_jump;
use sqlite_items::Items;
use std::alloc::{AllocError, Global};
use tac_code::{Code, Test};

/// A block with more operations than these is full: its end is an operation too.
const MOST: u32 = 510;

/// The labels that a construct leads to: of its first and its second part, and of what is behind it.
#[derive(Clone, Copy)]
pub(crate) struct Targets {
    pub first: u32,
    pub second: u32,
    pub behind: u32,
}

impl Targets {
    pub const NONE: Targets = Targets {
        first: 0,
        second: 0,
        behind: 0,
    };
}

/// A walk over code ahead of its emission: the open block's label and how many operations it has, all operations so
/// far, and the constructs' targets.
#[derive(Drop)]
pub(crate) struct Survey {
    pub label: u32,
    pub count: u32,
    pub acts: u64,
    pub targets: Items<Targets>,
}

impl Survey {
    /// The next block. Labels past a `u32` find no memory.
    fn fresh(&mut self) -> Result<(), AllocError>
        ensures { OnOk result (Surveys self.old self.new (fresh (open_of self.old)) 0 []) }
    {
        self.label = self.label.checked_add(1).ok_or(AllocError)?;
        self.count = 0;
        Ok(())
    }

    fn fresh_if(&mut self, closes: bool) -> Result<(), AllocError>
        ensures { OnOk result (Surveys self.old self.new (fresh_if closes (open_of self.old)) 0 []) }
    {
        if closes {
            self.fresh()?;
        }
        Ok(())
    }

    #[tactic(auto, using(crate::proofs::Surveying::full_at, crate::proofs::Surveying::room_at))]
    fn fresh_if_full(&mut self) -> Result<(), AllocError>
        ensures { OnOk result (Surveys self.old self.new (fresh_if (is_full (open_of self.old)) (open_of self.old)) 0 []) }
    {
        if MOST < self.count {
            self.fresh()?;
        }
        Ok(())
    }

    fn counted(&mut self) -> Result<(), AllocError>
        ensures { OnOk result (Surveys self.old self.new (counted (open_of self.old)) 1 []) }
    {
        self.count = self.count.checked_add(1).ok_or(AllocError)?;
        self.acts = self.acts.checked_add(1).ok_or(AllocError)?;
        Ok(())
    }

    fn act(&mut self, closes: bool) -> Result<(), AllocError>
        ensures { OnOk result (Surveys self.old self.new (fresh_if closes (after (open_of self.old))) 1 []) }
    {
        self.fresh_if_full()?;
        self.counted()?;
        self.fresh_if(closes)
    }

    /// A place for a construct's targets, which are known behind its parts.
    fn reserve(&mut self) -> Result<usize, AllocError>
        ensures { IfOk result (λ at. Reserves self.old self.new at) }
    {
        let at = self.targets.len();
        self.targets.push(Targets::NONE)?;
        Ok(at)
    }

    /// Sets a construct's targets at the place that was kept for them.
    fn set(&mut self, at: usize, first: u32, second: u32)
        requires { at < length self.old.targets }
        ensures { Sets self.old self.new at first second }
    {
        let behind = self.label;
        self.targets.set(
            at,
            Targets {
                first,
                second,
                behind,
            },
        );
    }

    /// Surveys code whose end goes elsewhere where it closes.
    #[cycle(surveys)]
    #[tactic(auto, using(crate::proofs::Surveying::row_at, crate::proofs::Surveying::row_counted))]
    pub(crate) fn code(&mut self, code: &Code, closes: bool) -> Result<(), AllocError>
        ensures { OnOk result (SurveysCode self.old self.new (code_of code.now) closes) }
    {
        match code {
            Code::Nothing => self.fresh_if(closes),
            Code::Does { .. } => self.act(closes),
            Code::Both(first, last) => self.both(first, last, closes),
            Code::Row { first, last } => self.row(first, last, closes),
            Code::Calls { .. } | Code::Leave { .. } => self.fresh(),
            Code::When { test, then, .. } => self.when(test, then),
            Code::Choose {
                test,
                then,
                other,
                ..
            } => self.choose(test, then, other),
            Code::Repeat {
                own,
                test,
                body,
                last,
                ..
            } => self.repeat(*own, test, body, last),
            Code::Until {
                own,
                body,
                test,
                ..
            } => self.until(*own, body, test),
        }
    }

    #[cycle(surveys)]
    #[tactic(auto, using(crate::proofs::Surveying::surveys_both))]
    fn both(&mut self, first: &Code, last: &Code, closes: bool) -> Result<(), AllocError>
        ensures { OnOk result (SurveysCode self.old self.new (both (code_of first.now) (code_of last.now)) closes) }
    {
        self.code(first, false)?;
        self.code(last, closes)
    }

    #[cycle(surveys)]
    fn row(&mut self, first: &[Code], last: &Code, closes: bool) -> Result<(), AllocError>
        ensures { OnOk result (SurveysCode self.old self.new (row_of (map code_of first.now) (code_of last.now)) closes) }
    {
        for part in first {
            self.code(part, false)?;
        }
        self.code(last, closes)?;
        Ok(())
    }

    /// Surveys code that has a block of its own where it is more than a jump.
    #[cycle(surveys)]
    fn owned(&mut self, code: &Code) -> Result<(), AllocError>
        ensures { OnOk result (SurveysOwned self.old self.new (code_of code.now)) }
    {
        if is_jump(code) {
            return Ok(());
        }
        self.code(code, true)
    }

    #[cycle(surveys)]
    #[tactic(auto, using(crate::proofs::Surveying::place_stays))]
    fn when(&mut self, test: &Test, then: &Code) -> Result<(), AllocError>
        ensures { OnOk result (SurveysCode self.old self.new (when 0 (test_of test.now) (code_of then.now)) true) }
    {
        let at = self.reserve()?;
        self.test(test)?;
        let first = self.label;
        self.owned(then)?;
        self.set(at, first, self.label);
        Ok(())
    }

    #[cycle(surveys)]
    #[tactic(auto, using(crate::proofs::Surveying::place_stays))]
    fn choose(&mut self, test: &Test, then: &Code, other: &Code) -> Result<(), AllocError>
        ensures { OnOk result (SurveysCode self.old self.new (choose 0 (test_of test.now) (code_of then.now) (code_of other.now)) true) }
    {
        let at = self.reserve()?;
        self.test(test)?;
        let first = self.label;
        self.owned(then)?;
        let second = self.label;
        self.owned(other)?;
        self.set(at, first, second);
        Ok(())
    }

    #[cycle(surveys)]
    #[tactic(auto, using(crate::proofs::Surveying::surveys_own, crate::proofs::Surveying::surveys_repeat))]
    fn repeat(&mut self, own: bool, test: &Test, body: &Code, last: &Code) -> Result<(), AllocError>
        ensures { OnOk result (SurveysCode self.old self.new (repeat 0 own (test_of test.now) (code_of body.now) (code_of last.now)) true) }
    {
        self.fresh()?;
        if own {
            self.choose(test, body, last)
        } else {
            self.turns(test, body, last)
        }
    }

    /// Surveys the turns of a loop whose body goes on where it ends.
    #[cycle(surveys)]
    #[tactic(auto, using(crate::proofs::Surveying::place_stays))]
    fn turns(&mut self, test: &Test, body: &Code, last: &Code) -> Result<(), AllocError>
        ensures { OnOk result (SurveysTurns self.old self.new (test_of test.now) (code_of body.now) (code_of last.now)) }
    {
        let at = self.reserve()?;
        self.test(test)?;
        let first = self.label;
        self.code(body, false)?;
        let second = self.label;
        self.code(last, true)?;
        self.set(at, first, second);
        Ok(())
    }

    #[cycle(surveys)]
    #[tactic(auto, using(crate::proofs::Surveying::place_stays))]
    fn until(&mut self, own: bool, body: &Code, test: &Test) -> Result<(), AllocError>
        ensures { OnOk result (SurveysCode self.old self.new (until 0 own (code_of body.now) (test_of test.now)) true) }
    {
        self.fresh()?;
        let at = self.reserve()?;
        self.code(body, own)?;
        let first = self.label;
        self.test(test)?;
        self.set(at, first, first);
        Ok(())
    }

    #[cycle(surveys)]
    fn test(&mut self, test: &Test) -> Result<(), AllocError>
        ensures { OnOk result (SurveysTest self.old self.new (test_of test.now)) }
    {
        match test {
            Test::Settled { .. } => self.fresh(),
            Test::On { code, .. } => self.tested(code),
            Test::AllOf(first, last) | Test::OneOf(first, last) => self.tests(first, last),
            Test::Inverse(test) => self.test(test),
        }
    }

    #[cycle(surveys)]
    #[tactic(auto, using(crate::proofs::Surveying::surveys_on))]
    fn tested(&mut self, code: &Code) -> Result<(), AllocError>
        ensures { OnOk result (SurveysTest self.old self.new (on 0 (code_of code.now) 0)) }
    {
        self.code(code, false)?;
        self.fresh()
    }

    #[cycle(surveys)]
    #[tactic(auto, using(crate::proofs::Surveying::place_stays))]
    fn tests(&mut self, first: &Test, last: &Test) -> Result<(), AllocError>
        ensures { OnOk result (SurveysTest self.old self.new (all_of (test_of first.now) (test_of last.now))) }
    {
        let at = self.reserve()?;
        self.test(first)?;
        let second = self.label;
        self.test(last)?;
        self.set(at, second, self.label);
        Ok(())
    }
}
