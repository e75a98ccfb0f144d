ghost use Rattle.std.specs.Prelude.{◌≡◌, ◌+◌, [], ◌∷◌, ◌++◌, length, map, OnOk};
ghost use Rattle.c_ast.specs.Trees.{stms};
ghost use Rattle.c_ast.specs.TreeViews.{decl_of, expr_of, part_of, start_of, stmt_of};
ghost use Rattle.c_types_homes.specs.Declarators.{declared_shape};
ghost use Rattle.c_types_homes.specs.Addressed.{declared_in, started_in, variables, variables_of, taken, taken_local, taken_locals, taken_start, taken_head, taken_in, taken_in_all, with_declarator, with_declarators, with_start, with_names, with_names_of};
ghost use Rattle.c_scopes.specs.Scopes.{entered};
ghost use Rattle.c_types_homes.specs.Walking.{Seen, Walks};

use crate::addressed::Walk;
use crate::declared::shape_of;
use c_ast::{Declarator, Expr, ForStart, Part, Stmt};
use std::alloc::AllocError;

impl<'a> Walk<'a> {
    /// A variable, which is known in its own initialiser.
    fn local(&mut self, declarator: &'a Declarator) -> Result<(), AllocError>
        ensures { let d = decl_of declarator.now in
            OnOk result (Walks self.old self.new (with_declarator d self.old.next self.old.names) (declared_shape d ∷ []) (taken_local d self.old.next self.old.names)) }
    {
        let shape = shape_of(declarator)?;
        self.declare(&declarator.name, shape)?;
        self.init(&declarator.init)
    }

    fn locals(&mut self, list: &'a [Declarator]) -> Result<(), AllocError>
        ensures { let ds = map decl_of list.now in
            OnOk result (Walks self.old self.new (with_declarators ds self.old.next self.old.names) (declared_in ds) (taken_locals ds self.old.next self.old.names)) }
    {
        for declarator in list {
            self.local(declarator)?;
        }
        Ok(())
    }

    fn start(&mut self, start: &'a ForStart) -> Result<(), AllocError>
        ensures { let s = start_of start.now in
            OnOk result (Walks self.old self.new (with_start s self.old.next self.old.names) (started_in s) (taken_start s self.old.next self.old.names)) }
    {
        match start {
            ForStart::Expr(part) => self.part(part),
            ForStart::Local(list) => self.locals(list),
        }
    }

    fn head(&mut self, start: &'a ForStart, test: &Part, next: &Part) -> Result<(), AllocError>
        ensures { let s = start_of start.now in
            OnOk result (Walks self.old self.new (with_start s self.old.next self.old.names) (started_in s) (taken_head s (part_of test.now) (part_of next.now) self.old.next self.old.names)) }
    {
        self.start(start)?;
        self.part(test)?;
        self.part(next)
    }

    /// The head and the body of a `for`.
    #[cycle(statements)]
    fn for_parts(
        &mut self,
        start: &'a ForStart,
        test: &Part,
        next: &Part,
        body: &'a Stmt,
    ) -> Result<(), AllocError>
        ensures { let s = start_of start.now in let inside = with_start s self.old.next self.old.names in
            OnOk result (Walks self.old self.new inside (started_in s ++ variables (stmt_of body.now))
            (taken_head s (part_of test.now) (part_of next.now) self.old.next self.old.names
            ++ taken_in (entered inside) (self.old.next + length (started_in s)) (stmt_of body.now))) }
    {
        self.head(start, test, next)?;
        self.inner(body)
    }

    #[cycle(statements)]
    fn for_loop(
        &mut self,
        start: &'a ForStart,
        test: &Part,
        next: &Part,
        body: &'a Stmt,
    ) -> Result<(), AllocError>
        ensures { let s = start_of start.now in let within = entered self.old.names in
            OnOk result (Walks self.old self.new self.old.names (started_in s ++ variables (stmt_of body.now))
            (taken_head s (part_of test.now) (part_of next.now) self.old.next within
            ++ taken_in (entered (with_start s self.old.next within)) (self.old.next + length (started_in s)) (stmt_of body.now))) }
    {
        self.enter()?;
        self.for_parts(start, test, next, body)?;
        self.leave();
        Ok(())
    }

    /// A statement in a scope of its own, as one that belongs to another (C99, 6.8.4 and 6.8.5).
    #[cycle(statements)]
    fn inner(&mut self, stmt: &'a Stmt) -> Result<(), AllocError>
        ensures { OnOk result (Walks self.old self.new self.old.names (variables (stmt_of stmt.now)) (taken_in (entered self.old.names) self.old.next (stmt_of stmt.now))) }
    {
        self.enter()?;
        self.stmt(stmt)?;
        self.leave();
        Ok(())
    }

    #[cycle(statements)]
    fn block(&mut self, list: &'a [Stmt]) -> Result<(), AllocError>
        ensures { let all = stms (map stmt_of list.now) in
            OnOk result (Walks self.old self.new self.old.names (variables_of all) (taken_in_all (entered self.old.names) self.old.next all)) }
    {
        self.enter()?;
        self.stmts(list)?;
        self.leave();
        Ok(())
    }

    #[cycle(statements)]
    pub(crate) fn stmts(&mut self, list: &'a [Stmt]) -> Result<(), AllocError>
        ensures { let all = stms (map stmt_of list.now) in
            OnOk result (Walks self.old self.new (with_names_of all self.old.next self.old.names) (variables_of all) (taken_in_all self.old.names self.old.next all)) }
    {
        for stmt in list {
            self.stmt(stmt)?;
        }
        Ok(())
    }

    #[cycle(statements)]
    fn tested(&mut self, test: &Expr, body: &'a Stmt) -> Result<(), AllocError>
        ensures { let a = stmt_of body.now in
            OnOk result (Walks self.old self.new self.old.names (variables a) (taken self.old.names (expr_of test.now) ++ taken_in (entered self.old.names) self.old.next a)) }
    {
        self.expr(test)?;
        self.inner(body)
    }

    #[cycle(statements)]
    fn do_while(&mut self, body: &'a Stmt, test: &Expr) -> Result<(), AllocError>
        ensures { let a = stmt_of body.now in
            OnOk result (Walks self.old self.new self.old.names (variables a) (taken_in (entered self.old.names) self.old.next a ++ taken self.old.names (expr_of test.now))) }
    {
        self.inner(body)?;
        self.expr(test)
    }

    #[cycle(statements)]
    fn if_else(&mut self, test: &Expr, body: &'a Stmt, other: &'a Stmt) -> Result<(), AllocError>
        ensures { let a = stmt_of body.now in let b = stmt_of other.now in
            OnOk result (Walks self.old self.new self.old.names (variables a ++ variables b)
            (taken self.old.names (expr_of test.now) ++ (taken_in (entered self.old.names) self.old.next a ++ taken_in (entered self.old.names) (self.old.next + length (variables a)) b))) }
    {
        self.expr(test)?;
        self.inner(body)?;
        self.inner(other)
    }

    #[cycle(statements)]
    #[tactic(auto, using(crate::proofs::Blocks::block_lighter))]
    fn stmt(&mut self, stmt: &'a Stmt) -> Result<(), AllocError>
        ensures { let s = stmt_of stmt.now in
            OnOk result (Walks self.old self.new (with_names s self.old.next self.old.names) (variables s) (taken_in self.old.names self.old.next s)) }
    {
        match stmt {
            Stmt::Empty { .. } | Stmt::Break { .. } | Stmt::Continue { .. } => Ok(()),
            Stmt::Block { stmts, .. } => self.block(stmts),
            Stmt::Expr { expr, .. } => self.expr(expr),
            Stmt::If { test, then, .. } => self.tested(test, then),
            Stmt::IfElse {
                test,
                then,
                other,
                ..
            } => self.if_else(test, then, other),
            Stmt::While { test, body, .. } => self.tested(test, body),
            Stmt::DoWhile { body, test, .. } => self.do_while(body, test),
            Stmt::For {
                start,
                test,
                next,
                body,
                ..
            } => self.for_loop(start, test, next, body),
            Stmt::Return { value, .. } => self.part(value),
            Stmt::Local { declarators, .. } => self.locals(declarators),
        }
    }
}
