ghost use Rattle.std.specs.Prelude.{◌≡◌, not, length, map, IfOk, OnOk};
ghost use Rattle.std.specs.Option.{option_map};
ghost use Rattle.c_scopes.specs.Scopes.{is_own};
ghost use Rattle.c_ast.specs.TreeViews as source;
ghost use Rattle.c_ast.specs.Trees as c;
ghost use Rattle.c_typed.specs.Views.{boxed_of, part_of};
ghost use Rattle.c_types_operators.specs.Rules.{first_from};
ghost use Rattle.c_types_operators.specs.Scopes.{inner, outer, with_variable};
ghost use Rattle.c_types_expressions.specs.Expressions.{literals, literals_of, value, values, stored_value, tested_value, effect};
ghost use Rattle.c_types_operators.specs.Views.{exprs_of};
ghost use Rattle.c_types_operators.specs.Parts.{broken_if};
ghost use Rattle.c_types_statements.specs.Statements.{numbered, past_texts, literals_maybe, test_part, effect_part};
ghost use Rattle.c_types_statements.specs.Keeping.{Seen, Types, Finds, counted};

use crate::nodes::given;
use c_typed::{Expr, Part, Rule, ValueType};
use c_types_operators::notes::Notes;
use c_types_operators::scope::{Scope, Variable};
use ib_base::{Place, Text};
use std::alloc::{AllocError, Global};
use std::marker::Model;

/// A walk through a source: the names that are known, how many variables were declared, and what
/// is noted.
#[derive(Drop)]
pub struct Walk<'a, 's> {
    pub alloc: Global,
    pub scope: Scope<'a, 's>,
    next: u32,
    pub notes: Notes<'a>,
}

impl<'a, 's> Model for Walk<'a, 's> {
    ghost use Rattle.c_types_statements.specs.Keeping.{Seen};

    ghost Value = { Seen };

    ghost view = { λ walk. record {
      scope = walk.scope;
      at = record { variable = walk.next; places = walk.notes.places; texts = walk.notes.texts };
      first = walk.notes.first;
    } };
}

impl<'a, 's> Walk<'a, 's> {
    /// A walk where these names are known, before the first variable.
    pub fn new(alloc: Global, scope: Scope<'a, 's>, notes: Notes<'a>) -> Walk<'a, 's>
        ensures { result ≡ record {
          scope = scope.entry;
          at = record { variable = 0; places = notes.entry.places; texts = notes.entry.texts };
          first = notes.entry.first;
        } }
    {
        Walk {
            alloc,
            scope,
            next: 0,
            notes,
        }
    }

    /// What was noted, where the walk is over.
    pub fn into_notes(self) -> Notes<'a>
        ensures { let seen = self.entry in result ≡ record { texts = seen.at.texts; places = seen.at.places; first = seen.first } }
    {
        self.notes
    }

    /// Where a function begins, whose first variable is variable 0. Gives how many variables came
    /// before.
    pub fn begin_function(&mut self) -> u32
        ensures before { result ≡ self.old.at.variable }
        ensures begins { self.new ≡ record self.old { at = record self.old.at { variable = 0 } } }
    {
        std::mem::replace(&mut self.next, 0)
    }

    /// Behind a function, before which so many variables came.
    pub fn end_function(&mut self, before: u32)
        ensures { self.new ≡ record self.old { at = record self.old.at { variable = before } } }
    {
        self.next = before;
    }

    /// Opens a scope within the innermost.
    pub fn enter(&mut self) -> Result<(), AllocError>
        ensures { OnOk result (self.new ≡ record self.old { scope = inner self.old.scope }) }
    {
        self.scope.enter(self.alloc)
    }

    /// Closes the innermost scope.
    pub fn leave(&mut self)
        ensures { self.new ≡ record self.old { scope = outer self.old.scope } }
    {
        self.scope.leave();
    }

    /// The number of a statement that begins there. More statements than a `u32` counts find no
    /// memory.
    pub fn number(&mut self, place: Place) -> Result<u32, AllocError>
        ensures number { IfOk result (λ number. number ≡ length self.old.at.places) }
        ensures noted { OnOk result (self.new ≡ record self.old { at = numbered place self.old.at }) }
    {
        self.notes.place(place)
    }

    /// The number of the next variable. More variables than a `u32` counts find no memory.
    pub fn variable(&mut self) -> Result<u32, AllocError>
        ensures number { IfOk result (λ number. number ≡ self.old.at.variable) }
        ensures noted { OnOk result (self.new ≡ record self.old { at = counted self.old.at }) }
    {
        let number = self.next;
        self.next = number.checked_add(1).ok_or(AllocError)?;
        Ok(number)
    }

    /// Declares a variable in the innermost scope, and says whether its name is new there. A name
    /// that is not new keeps its meaning.
    pub fn declare(&mut self, name: &'a Text, variable: Variable) -> Result<bool, AllocError>
        ensures new { IfOk result (λ new. new ≡ not (is_own name.now self.old.scope.scopes)) }
        ensures noted { OnOk result (self.new ≡ record self.old { scope = with_variable name.now variable self.old.scope }) }
    {
        self.scope.declare(name.list(), variable)
    }

    /// Notes a rule where it is broken, and says whether it is kept.
    pub fn keeps(&mut self, broken: bool, rule: Rule, place: Place) -> bool
        ensures { Finds self.old self.new self.old.scope (broken_if broken rule place) result }
    {
        if broken {
            self.notes.breaks(rule, place);
            return false;
        }
        true
    }

    /// The value of an expression.
    pub fn value(&mut self, e: &'a c_ast::Expr) -> Result<Option<Box<Expr>>, AllocError>
        ensures { let x = source.expr_of e.now in
            IfOk result (λ answer. Types self.old self.new self.old.scope (past_texts (literals x) self.old.at) (value self.old.scope self.old.at.texts x) (option_map boxed_of answer)) }
    {
        let answer = c_types_expressions::value(self.alloc, &self.scope, &mut self.notes, e)?;
        Ok(answer)
    }

    /// The values of expressions.
    pub(crate) fn values(
        &mut self,
        list: &'a [c_ast::Expr],
    ) -> Result<Option<Vec<Expr>>, AllocError>
        ensures { let xs = c.exps (map source.expr_of list.now) in
            IfOk result (λ answer. Types self.old self.new self.old.scope (past_texts (literals_of xs) self.old.at) (values self.old.scope self.old.at.texts xs) (option_map exprs_of answer)) }
    {
        let answer = c_types_expressions::values(self.alloc, &self.scope, &mut self.notes, list)?;
        Ok(answer)
    }

    /// A value that is stored in a variable, or given back.
    pub(crate) fn stored(
        &mut self,
        ty: ValueType,
        e: &'a c_ast::Expr,
    ) -> Result<Option<Box<Expr>>, AllocError>
        ensures { let x = source.expr_of e.now in
            IfOk result (λ answer. Types self.old self.new self.old.scope (past_texts (literals x) self.old.at) (stored_value self.old.scope self.old.at.texts ty x) (option_map boxed_of answer)) }
    {
        let answer = c_types_expressions::stored_value(
            self.alloc,
            &self.scope,
            &mut self.notes,
            ty,
            e,
        )?;
        Ok(answer)
    }

    /// A condition.
    pub(crate) fn tested(&mut self, e: &'a c_ast::Expr) -> Result<Option<Box<Expr>>, AllocError>
        ensures { let x = source.expr_of e.now in
            IfOk result (λ answer. Types self.old self.new self.old.scope (past_texts (literals x) self.old.at) (tested_value self.old.scope self.old.at.texts x) (option_map boxed_of answer)) }
    {
        let answer = c_types_expressions::tested_value(
            self.alloc,
            &self.scope,
            &mut self.notes,
            e,
        )?;
        Ok(answer)
    }

    /// An expression that stands for what it does.
    pub(crate) fn effect(&mut self, e: &'a c_ast::Expr) -> Result<Option<Box<Expr>>, AllocError>
        ensures { let x = source.expr_of e.now in
            IfOk result (λ answer. Types self.old self.new self.old.scope (past_texts (literals x) self.old.at) (effect self.old.scope self.old.at.texts x) (option_map boxed_of answer)) }
    {
        let answer = c_types_expressions::effect(self.alloc, &self.scope, &mut self.notes, e)?;
        Ok(answer)
    }

    /// The condition of a `for`.
    pub(crate) fn test_part(&mut self, part: &'a c_ast::Part) -> Result<Option<Part>, AllocError>
        ensures { let x = source.part_of part.now in
            IfOk result (λ answer. Types self.old self.new self.old.scope (past_texts (literals_maybe x) self.old.at) (test_part self.old.scope self.old.at.texts x) (option_map part_of answer)) }
    {
        match part {
            c_ast::Part::Missing => Ok(Some(Part::Missing)),
            c_ast::Part::Given(e) => {
                let x = self.tested(e)?;
                Ok(given(x))
            }
        }
    }

    /// The first or last part of a `for`.
    pub(crate) fn effect_part(&mut self, part: &'a c_ast::Part) -> Result<Option<Part>, AllocError>
        ensures { let x = source.part_of part.now in
            IfOk result (λ answer. Types self.old self.new self.old.scope (past_texts (literals_maybe x) self.old.at) (effect_part self.old.scope self.old.at.texts x) (option_map part_of answer)) }
    {
        match part {
            c_ast::Part::Missing => Ok(Some(Part::Missing)),
            c_ast::Part::Given(e) => {
                let x = self.effect(e)?;
                Ok(given(x))
            }
        }
    }
}
