ghost use Rattle.std.specs.Prelude.{◌≡◌, ◌<◌, ◌≤◌, ◌+◌, ◌++◌, [], ◌∷◌, length, OnOk, IfOk};
ghost use Rattle.first_code.specs.Code.{add_act, scale_act, operation, multiplication, product_code, product_operand, product_slot, term_code, term_operand, term_slot, addition, total_code, total_operand, total_slot, sum_code, sum_operand, sum_slot, sum_into, stmt_code, stmt_slot, zero_code, declared_after};
ghost use Rattle.first_code.specs.Made.{Makes, HasRoom, MakesBody, HasBodyRoom, DeclaresFew};

use crate::operand::Operand;
use first_form::{Addend, Multiplier, Stmt, Sum, SumOp, Term, TermOp};
use ib_act::{Act, Size};
use ib_base::Place;
use sqlite_items::Items;
use std::alloc::{AllocError, Global};
use wide_core::{WideAct, WideOp, Word};

/// The words made so far, the next free slot, and the place of the statement at hand.
#[derive(Drop)]
pub(crate) struct CodeMaker {
    pub(crate) words: Items<Word>,
    pub(crate) slot: u32,
    pub(crate) place: Place,
}

impl CodeMaker {
    /// Appends an operation in a word of its own.
    fn emit(&mut self, alloc: Global, act: WideAct) -> Result<(), AllocError>
        requires { HasRoom self.old (act ∷ []) self.old.slot }
        ensures { OnOk result (Makes self.old self.new (act ∷ []) self.old.slot) }
    {
        let number = self.words.len() as u32 + 1;
        let op = WideOp::unflagged(number, self.place, act);
        self.words.push(Word::of_one(alloc, op)?)
    }

    /// An operator on two operands; its value has the next slot.
    fn operation(
        &mut self,
        alloc: Global,
        act: WideAct,
        a: Operand,
        b: Operand,
    ) -> Result<Operand, AllocError>
        requires { HasRoom self.old (operation act a b self.old.slot) (self.old.slot + 1) }
        ensures made { OnOk result (Makes self.old self.new (operation act a b self.old.slot) (self.old.slot + 1)) }
        ensures value { IfOk result (λ operand. operand ≡ Operand.InSlot self.old.slot) }
    {
        let slot = self.slot;
        self.emit(alloc, a.load(0))?;
        self.emit(alloc, b.load(1))?;
        self.emit(alloc, act)?;
        self.emit(alloc, WideAct::Spill { to: slot, from: 0 })?;
        self.slot += 1;
        Ok(Operand::InSlot(slot))
    }

    fn multiply(
        &mut self,
        alloc: Global,
        value: Operand,
        multiplier: &Multiplier,
    ) -> Result<Operand, AllocError>
        requires { HasRoom self.old (multiplication value self.old.slot multiplier.now) (self.old.slot + 1) }
        ensures made { OnOk result (Makes self.old self.new (multiplication value self.old.slot multiplier.now) (self.old.slot + 1)) }
        ensures value { IfOk result (λ operand. operand ≡ Operand.InSlot self.old.slot) }
    {
        let factor = Operand::of_factor(multiplier.factor);
        self.operation(alloc, scale_act(multiplier.op), value, factor)
    }

    /// What follows an operand in a product.
    #[tactic(auto, using(crate::proofs::Products::product_begins, crate::proofs::Products::product_room, crate::proofs::Products::product_goes_on, crate::proofs::Products::product_ends))]
    fn product(
        &mut self,
        alloc: Global,
        first: Operand,
        rest: &[Multiplier],
    ) -> Result<Operand, AllocError>
        requires { HasRoom self.old (product_code first self.old.slot rest.now) (product_slot self.old.slot rest.now) }
        ensures made { OnOk result (Makes self.old self.new (product_code first self.old.slot rest.now) (product_slot self.old.slot rest.now)) }
        ensures value { IfOk result (λ operand. operand ≡ product_operand first self.old.slot rest.now) }
    {
        let mut value = first;
        for multiplier in rest {
            value = self.multiply(alloc, value, multiplier)?;
        }
        Ok(value)
    }

    fn term(&mut self, alloc: Global, term: &Term) -> Result<Operand, AllocError>
        requires { HasRoom self.old (term_code self.old.slot term.now) (term_slot self.old.slot term.now) }
        ensures made { OnOk result (Makes self.old self.new (term_code self.old.slot term.now) (term_slot self.old.slot term.now)) }
        ensures value { IfOk result (λ operand. operand ≡ term_operand self.old.slot term.now) }
    {
        let first = Operand::of_factor(term.first);
        self.product(alloc, first, term.rest.as_slice())
    }

    fn add(&mut self, alloc: Global, value: Operand, addend: &Addend) -> Result<Operand, AllocError>
        requires { HasRoom self.old (addition value self.old.slot addend.now) (term_slot self.old.slot addend.now.term + 1) }
        ensures made { OnOk result (Makes self.old self.new (addition value self.old.slot addend.now) (term_slot self.old.slot addend.now.term + 1)) }
        ensures value { IfOk result (λ operand. operand ≡ Operand.InSlot (term_slot self.old.slot addend.now.term)) }
    {
        let term = self.term(alloc, &addend.term)?;
        self.operation(alloc, add_act(addend.op), value, term)
    }

    /// What follows an operand in a sum.
    #[tactic(auto, using(crate::proofs::Totals::total_begins, crate::proofs::Totals::total_room, crate::proofs::Totals::total_goes_on, crate::proofs::Totals::total_ends))]
    fn total(
        &mut self,
        alloc: Global,
        first: Operand,
        rest: &[Addend],
    ) -> Result<Operand, AllocError>
        requires { HasRoom self.old (total_code first self.old.slot rest.now) (total_slot self.old.slot rest.now) }
        ensures made { OnOk result (Makes self.old self.new (total_code first self.old.slot rest.now) (total_slot self.old.slot rest.now)) }
        ensures value { IfOk result (λ operand. operand ≡ total_operand first self.old.slot rest.now) }
    {
        let mut value = first;
        for addend in rest {
            value = self.add(alloc, value, addend)?;
        }
        Ok(value)
    }

    fn sum(&mut self, alloc: Global, sum: &Sum) -> Result<Operand, AllocError>
        requires { HasRoom self.old (sum_code self.old.slot sum.now) (sum_slot self.old.slot sum.now) }
        ensures made { OnOk result (Makes self.old self.new (sum_code self.old.slot sum.now) (sum_slot self.old.slot sum.now)) }
        ensures value { IfOk result (λ operand. operand ≡ sum_operand self.old.slot sum.now) }
    {
        let first = self.term(alloc, &sum.first)?;
        self.total(alloc, first, sum.rest.as_slice())
    }

    /// A sum, and an operation on its value in register 0.
    fn sum_into(&mut self, alloc: Global, sum: &Sum, act: WideAct) -> Result<(), AllocError>
        requires { HasRoom self.old (sum_into self.old.slot sum.now act) (sum_slot self.old.slot sum.now) }
        ensures { OnOk result (Makes self.old self.new (sum_into self.old.slot sum.now act) (sum_slot self.old.slot sum.now)) }
    {
        let value = self.sum(alloc, sum)?;
        self.emit(alloc, value.load(0))?;
        self.emit(alloc, act)
    }

    /// All statements, and behind them the return of 0.
    #[tactic(auto, using(crate::proofs::Statements::body_begins))]
    pub(crate) fn body(&mut self, alloc: Global, body: &[Stmt]) -> Result<(), AllocError>
        requires room { HasBodyRoom self.old body.now }
        requires good { DeclaresFew self.old.slot 0 body.now }
        ensures { OnOk result (MakesBody self.old self.new body.now) }
    {
        let mut declared = 0;
        for stmt in body {
            self.place = stmt.place();
            self.statement(alloc, declared, stmt)?;
            declared = declared_after(declared, stmt);
        }
        self.place = Place { line: 1, col: 1 };
        self.emit(alloc, WideAct::Return(None))
    }

    /// A statement at the maker's place, where so many variables are declared.
    fn statement(&mut self, alloc: Global, declared: u32, stmt: &Stmt) -> Result<(), AllocError>
        requires { HasRoom self.old (stmt_code declared self.old.slot stmt.now) (stmt_slot self.old.slot stmt.now) }
        ensures { OnOk result (Makes self.old self.new (stmt_code declared self.old.slot stmt.now) (stmt_slot self.old.slot stmt.now)) }
    {
        match stmt {
            Stmt::Declare { value: None, .. } => self.declare_zero(alloc, declared),
            Stmt::Declare {
                value: Some(sum),
                ..
            } => {
                self.sum_into(
                    alloc,
                    sum,
                    WideAct::Spill {
                        to: declared,
                        from: 0,
                    },
                )
            }
            Stmt::Assign {
                variable,
                value,
                ..
            } => {
                self.sum_into(
                    alloc,
                    value,
                    WideAct::Spill {
                        to: *variable,
                        from: 0,
                    },
                )
            }
            Stmt::Print { value, .. } => {
                self.sum_into(alloc, value, WideAct::Do(Act::PutNumber { from: 0 }))
            }
            Stmt::Return { value, .. } => self.sum_into(alloc, value, WideAct::Return(Some(0))),
        }
    }

    fn declare_zero(&mut self, alloc: Global, declared: u32) -> Result<(), AllocError>
        requires { HasRoom self.old (zero_code declared) self.old.slot }
        ensures { OnOk result (Makes self.old self.new (zero_code declared) self.old.slot) }
    {
        self.emit(alloc, WideAct::Do(Act::Const { to: 0, value: 0 }))?;
        self.emit(
            alloc,
            WideAct::Spill {
                to: declared,
                from: 0,
            },
        )
    }
}

fn add_act(op: SumOp) -> WideAct
    ensures { result ≡ add_act op }
{
    let size = Size::Four;
    WideAct::Do(match op {
        SumOp::Plus => Act::Add {
            size,
            to: 0,
            left: 0,
            right: 1,
        },
        SumOp::Minus => Act::Sub {
            size,
            to: 0,
            left: 0,
            right: 1,
        },
    })
}

fn scale_act(op: TermOp) -> WideAct
    ensures { result ≡ scale_act op }
{
    let size = Size::Four;
    WideAct::Do(match op {
        TermOp::Times => Act::Mul {
            size,
            to: 0,
            left: 0,
            right: 1,
        },
        TermOp::Over => Act::Div {
            size,
            to: 0,
            left: 0,
            right: 1,
        },
    })
}

fn declared_after(declared: u32, stmt: &Stmt) -> u32
    requires { declared_after declared stmt.now ≤ 4294967295 }
    ensures { result ≡ declared_after declared stmt.now }
{
    match stmt {
        Stmt::Declare { .. } => declared + 1,
        _ => declared,
    }
}
