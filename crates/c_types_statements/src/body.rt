//! The statements of a function. Each function calls itself only on parts of its statement.

ghost use Rattle.std.specs.Prelude.{◌≡◌, map, true, IfOk};
ghost use Rattle.std.specs.Option.{option_map};
ghost use Rattle.c_ast.specs.TreeViews as source;
ghost use Rattle.c_ast.specs.Trees as c;
ghost use Rattle.c_typed.specs.Tree as t;
ghost use Rattle.c_typed.specs.Views.{boxed_stmt_of, part_of, stmt_of};
ghost use Rattle.c_types_operators.specs.Rules.{Fine};
ghost use Rattle.c_types_operators.specs.Scopes.{inner};
ghost use Rattle.c_types_expressions.specs.Expressions.{literals, effect};
ghost use Rattle.c_types_operators.specs.Parts.{◌<*>◌};
ghost use Rattle.c_types_statements.specs.Statements.{number, past, past_texts, literals_maybe, with_names, with_locals, statement, statements, locals, returned, loop_only};
ghost use Rattle.c_types_statements.specs.Keeping.{Seen, Types, rows_of, past_all, with_names_of};

use crate::nodes;
use crate::nodes::Head;
use crate::walk::Walk;
use c_ast::{Declarator, Expr, ForStart, Part, Stmt as Source};
use c_typed::{Home, Rule, Stmt, ValueType};
use ib_base::Place;
use std::alloc::AllocError;

/// The function that a statement stands in: what it gives, and where its variables live, by their
/// numbers.
#[derive(Clone, Copy)]
pub struct Context<'h> {
    pub result: ValueType,
    pub homes: &'h [Home],
}

impl<'a, 's> Walk<'a, 's> {
    fn empty(&mut self, place: Place) -> Result<Option<Stmt>, AllocError>
        ensures { IfOk result (λ answer. Types self.old self.new self.old.scope (past (c.empty place) self.old.at) (Fine (t.empty (number self.old.at))) (option_map stmt_of answer)) }
    {
        let number = self.number(place)?;
        Ok(Some(Stmt::Empty { number }))
    }

    fn expression(&mut self, place: Place, e: &'a Expr) -> Result<Option<Stmt>, AllocError>
        ensures { let x = source.expr_of e.now in
            IfOk result (λ answer. Types self.old self.new self.old.scope (past (c.expression place x) self.old.at) (Fine (t.expression (number self.old.at)) <*> effect self.old.scope self.old.at.texts x) (option_map stmt_of answer)) }
    {
        let number = self.number(place)?;
        let x = self.effect(e)?;
        Ok(nodes::expression(number, x))
    }

    fn break_loop(&mut self, in_loop: bool, place: Place) -> Result<Option<Stmt>, AllocError>
        ensures { IfOk result (λ answer. Types self.old self.new self.old.scope (past (c.break place) self.old.at) (loop_only in_loop place (t.break (number self.old.at))) (option_map stmt_of answer)) }
    {
        let number = self.number(place)?;
        let fine = self.keeps(!in_loop, Rule::OutsideALoop, place);
        Ok(nodes::kept_if(fine, Some(Stmt::Break { number })))
    }

    fn continue_loop(&mut self, in_loop: bool, place: Place) -> Result<Option<Stmt>, AllocError>
        ensures { IfOk result (λ answer. Types self.old self.new self.old.scope (past (c.continue place) self.old.at) (loop_only in_loop place (t.continue (number self.old.at))) (option_map stmt_of answer)) }
    {
        let number = self.number(place)?;
        let fine = self.keeps(!in_loop, Rule::OutsideALoop, place);
        Ok(nodes::kept_if(fine, Some(Stmt::Continue { number })))
    }

    fn returned_value(
        &mut self,
        gives: ValueType,
        place: Place,
        e: &'a Expr,
    ) -> Result<Option<c_typed::Part>, AllocError>
        ensures { let x = source.expr_of e.now in
            IfOk result (λ answer. Types self.old self.new self.old.scope (past_texts (literals x) self.old.at) (returned gives self.old.scope self.old.at.texts place (c.given x)) (option_map part_of answer)) }
    {
        if gives.is_void() {
            self.wrong_value(Rule::ReturnValue, place, e)?;
            return Ok(None);
        }
        let x = self.stored(gives, e)?;
        Ok(nodes::given(x))
    }

    /// What a `return` of a function gives that gives this type.
    fn returned(
        &mut self,
        gives: ValueType,
        place: Place,
        value: &'a Part,
    ) -> Result<Option<c_typed::Part>, AllocError>
        ensures { let x = source.part_of value.now in
            IfOk result (λ answer. Types self.old self.new self.old.scope (past_texts (literals_maybe x) self.old.at) (returned gives self.old.scope self.old.at.texts place x) (option_map part_of answer)) }
    {
        match value {
            Part::Missing => {
                let fine = self.keeps(!gives.is_void(), Rule::ReturnValue, place);
                Ok(nodes::kept_if(fine, Some(c_typed::Part::Missing)))
            }
            Part::Given(e) => self.returned_value(gives, place, e),
        }
    }

    fn return_stmt(
        &mut self,
        gives: ValueType,
        place: Place,
        value: &'a Part,
    ) -> Result<Option<Stmt>, AllocError>
        ensures { let x = source.part_of value.now in
            IfOk result (λ answer. Types self.old self.new self.old.scope (past (c.return place x) self.old.at) (Fine (t.return (number self.old.at)) <*> returned gives self.old.scope self.old.at.texts place x) (option_map stmt_of answer)) }
    {
        let number = self.number(place)?;
        let part = self.returned(gives, place, value)?;
        Ok(nodes::return_of(number, part))
    }

    fn local_stmt(
        &mut self,
        homes: &[Home],
        place: Place,
        list: &'a [Declarator],
    ) -> Result<Option<Stmt>, AllocError>
        ensures { let ds = map source.decl_of list.now in
            IfOk result (λ answer. Types self.old self.new (with_locals homes.now self.old.at.variable ds self.old.scope) (past (c.local place ds) self.old.at) (Fine (t.local (number self.old.at)) <*> locals homes.now self.old.scope self.old.at.variable self.old.at.texts ds) (option_map stmt_of answer)) }
    {
        let number = self.number(place)?;
        let values = self.locals(homes, list)?;
        Ok(nodes::local(number, values))
    }

    /// A statement in a scope of its own.
    #[cycle(statements)]
    fn inner(
        &mut self,
        context: Context<'_>,
        in_loop: bool,
        stmt: &'a Source,
    ) -> Result<Option<Box<Stmt>>, AllocError>
        ensures { let s = source.stmt_of stmt.now in let around = context.entry in
            IfOk result (λ answer. Types self.old self.new self.old.scope (past s self.old.at) (statement around.result around.homes.now (inner self.old.scope) self.old.at in_loop s) (option_map boxed_stmt_of answer)) }
    {
        self.enter()?;
        let made = self.stmt(context, in_loop, stmt)?;
        self.leave();
        let held = nodes::boxed(self.alloc, made)?;
        Ok(held)
    }

    #[cycle(statements)]
    fn block(
        &mut self,
        context: Context<'_>,
        in_loop: bool,
        list: &'a [Source],
    ) -> Result<Option<Stmt>, AllocError>
        ensures { let all = c.stms (map source.stmt_of list.now) in let around = context.entry in
            IfOk result (λ answer. Types self.old self.new self.old.scope (past_all all self.old.at) (Fine t.block <*> statements around.result around.homes.now (inner self.old.scope) self.old.at in_loop all) (option_map stmt_of answer)) }
    {
        self.enter()?;
        let rows = self.stmts(context, in_loop, list)?;
        self.leave();
        Ok(nodes::block(rows))
    }

    /// Statements one behind the other, in the scope that is open.
    #[cycle(statements)]
    pub fn stmts(
        &mut self,
        context: Context<'_>,
        in_loop: bool,
        list: &'a [Source],
    ) -> Result<Option<Vec<Stmt>>, AllocError>
        ensures { let all = c.stms (map source.stmt_of list.now) in let around = context.entry in
            IfOk result (λ answer. Types self.old self.new (with_names_of around.homes.now self.old.at.variable all self.old.scope) (past_all all self.old.at) (statements around.result around.homes.now self.old.scope self.old.at in_loop all) (option_map rows_of answer)) }
    {
        let mut typed = Some(Vec::new(self.alloc));
        for stmt in list {
            let made = self.stmt(context, in_loop, stmt)?;
            typed = nodes::and_statement(typed, made)?;
        }
        Ok(typed)
    }

    #[cycle(statements)]
    fn if_then(
        &mut self,
        context: Context<'_>,
        in_loop: bool,
        place: Place,
        test: &'a Expr,
        body: &'a Source,
    ) -> Result<Option<Stmt>, AllocError>
        ensures { let s = c.if_then place (source.expr_of test.now) (source.stmt_of body.now) in let around = context.entry in
            IfOk result (λ answer. Types self.old self.new self.old.scope (past s self.old.at) (statement around.result around.homes.now self.old.scope self.old.at in_loop s) (option_map stmt_of answer)) }
    {
        let number = self.number(place)?;
        let x = self.tested(test)?;
        let a = self.inner(context, in_loop, body)?;
        Ok(nodes::if_then(number, x, a))
    }

    #[cycle(statements)]
    fn if_else(
        &mut self,
        context: Context<'_>,
        in_loop: bool,
        place: Place,
        test: &'a Expr,
        body: &'a Source,
        other: &'a Source,
    ) -> Result<Option<Stmt>, AllocError>
        ensures { let s = c.if_else place (source.expr_of test.now) (source.stmt_of body.now) (source.stmt_of other.now) in let around = context.entry in
            IfOk result (λ answer. Types self.old self.new self.old.scope (past s self.old.at) (statement around.result around.homes.now self.old.scope self.old.at in_loop s) (option_map stmt_of answer)) }
    {
        let number = self.number(place)?;
        let x = self.tested(test)?;
        let a = self.inner(context, in_loop, body)?;
        let b = self.inner(context, in_loop, other)?;
        Ok(nodes::if_else(number, x, a, b))
    }

    #[cycle(statements)]
    fn while_loop(
        &mut self,
        context: Context<'_>,
        place: Place,
        test: &'a Expr,
        body: &'a Source,
    ) -> Result<Option<Stmt>, AllocError>
        ensures { let s = c.while_loop place (source.expr_of test.now) (source.stmt_of body.now) in let around = context.entry in
            IfOk result (λ answer. Types self.old self.new self.old.scope (past s self.old.at) (statement around.result around.homes.now self.old.scope self.old.at true s) (option_map stmt_of answer)) }
    {
        let number = self.number(place)?;
        let x = self.tested(test)?;
        let a = self.inner(context, true, body)?;
        Ok(nodes::while_loop(number, x, a))
    }

    #[cycle(statements)]
    fn do_while(
        &mut self,
        context: Context<'_>,
        place: Place,
        body: &'a Source,
        test: &'a Expr,
    ) -> Result<Option<Stmt>, AllocError>
        ensures { let s = c.do_while place (source.stmt_of body.now) (source.expr_of test.now) in let around = context.entry in
            IfOk result (λ answer. Types self.old self.new self.old.scope (past s self.old.at) (statement around.result around.homes.now self.old.scope self.old.at true s) (option_map stmt_of answer)) }
    {
        let number = self.number(place)?;
        let a = self.inner(context, true, body)?;
        let x = self.tested(test)?;
        Ok(nodes::do_while(number, a, x))
    }

    #[cycle(statements)]
    fn for_loop(
        &mut self,
        context: Context<'_>,
        place: Place,
        start: &'a ForStart,
        test: &'a Part,
        next: &'a Part,
        body: &'a Source,
    ) -> Result<Option<Stmt>, AllocError>
        ensures { let s = c.for_loop place (source.start_of start.now) (source.part_of test.now) (source.part_of next.now) (source.stmt_of body.now) in let around = context.entry in
            IfOk result (λ answer. Types self.old self.new self.old.scope (past s self.old.at) (statement around.result around.homes.now self.old.scope self.old.at true s) (option_map stmt_of answer)) }
    {
        let number = self.number(place)?;
        self.enter()?;
        let first = self.start(context.homes, start)?;
        let x = self.test_part(test)?;
        let y = self.effect_part(next)?;
        let a = self.inner(context, true, body)?;
        self.leave();
        let head = Head {
            start: first,
            test: x,
            next: y,
        };
        Ok(nodes::for_loop(number, head, a))
    }

    #[cycle(statements)]
    #[tactic(auto, using(c_types_homes::proofs::Blocks::block_lighter))]
    fn stmt(
        &mut self,
        context: Context<'_>,
        in_loop: bool,
        stmt: &'a Source,
    ) -> Result<Option<Stmt>, AllocError>
        ensures { let s = source.stmt_of stmt.now in let around = context.entry in
            IfOk result (λ answer. Types self.old self.new (with_names around.homes.now self.old.at.variable s self.old.scope) (past s self.old.at) (statement around.result around.homes.now self.old.scope self.old.at in_loop s) (option_map stmt_of answer)) }
    {
        match stmt {
            Source::Block { stmts, .. } => self.block(context, in_loop, stmts),
            Source::Empty { place } => self.empty(*place),
            Source::Expr { place, expr } => self.expression(*place, expr),
            Source::If { place, test, then } => self.if_then(context, in_loop, *place, test, then),
            Source::IfElse {
                place,
                test,
                then,
                other,
            } => self.if_else(context, in_loop, *place, test, then, other),
            Source::While { place, test, body } => self.while_loop(context, *place, test, body),
            Source::DoWhile { place, body, test } => self.do_while(context, *place, body, test),
            Source::For {
                place,
                start,
                test,
                next,
                body,
            } => self.for_loop(context, *place, start, test, next, body),
            Source::Break { place } => self.break_loop(in_loop, *place),
            Source::Continue { place } => self.continue_loop(in_loop, *place),
            Source::Return { place, value } => self.return_stmt(context.result, *place, value),
            Source::Local { place, declarators } => self.local_stmt(
                context.homes,
                *place,
                declarators,
            ),
        }
    }
}
