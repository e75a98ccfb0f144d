ghost use Rattle.std.specs.Prelude.{◌≡◌, ◌+◌, length, map, IfOk, OnOk};
ghost use Rattle.c_ast.specs.Trees.{stms};
ghost use Rattle.c_ast.specs.TreeViews.{decl_of, expr_of, item_of, part_of, start_of, stmt_of, unit_of};
ghost use Rattle.c_program.specs.Nodes.{nodes, nodes_maybe, nodes_decl, nodes_decls, nodes_start, nodes_in, nodes_in_all, nodes_item, nodes_unit};

use crate::count::Counter;
use c_ast::{Declarator, Expr, ForStart, FunctionHead, Item, Part, Stmt, Unit};
use std::alloc::AllocError;

impl Counter {
    fn declarator(&mut self, declarator: &Declarator) -> Result<(), AllocError>
        ensures { OnOk result (self.new.nodes ≡ self.old.nodes + nodes_decl (decl_of declarator.now)) }
    {
        self.count(1)?;
        self.init(&declarator.init)
    }

    fn declarators(&mut self, list: &[Declarator]) -> Result<(), AllocError>
        ensures { OnOk result (self.new.nodes ≡ self.old.nodes + nodes_decls (map decl_of list.now)) }
    {
        for declarator in list {
            self.declarator(declarator)?;
        }
        Ok(())
    }

    /// A declaration is a node beside its declarators.
    fn local(&mut self, list: &[Declarator]) -> Result<(), AllocError>
        ensures { OnOk result (self.new.nodes ≡ self.old.nodes + (1 + nodes_decls (map decl_of list.now))) }
    {
        self.count(1)?;
        self.declarators(list)
    }

    fn start(&mut self, start: &ForStart) -> Result<(), AllocError>
        ensures { OnOk result (self.new.nodes ≡ self.old.nodes + nodes_start (start_of start.now)) }
    {
        match start {
            ForStart::Expr(part) => self.part(part),
            ForStart::Local(list) => self.local(list),
        }
    }

    fn head(&mut self, start: &ForStart, test: &Part, next: &Part) -> Result<(), AllocError>
        ensures { OnOk result (self.new.nodes ≡ self.old.nodes + (nodes_start (start_of start.now) + (nodes_maybe (part_of test.now) + nodes_maybe (part_of next.now)))) }
    {
        self.start(start)?;
        self.part(test)?;
        self.part(next)
    }

    #[cycle(statements)]
    fn for_loop(
        &mut self,
        start: &ForStart,
        test: &Part,
        next: &Part,
        body: &Stmt,
    ) -> Result<(), AllocError>
        ensures { OnOk result (self.new.nodes ≡ self.old.nodes + (nodes_start (start_of start.now) + (nodes_maybe (part_of test.now) + (nodes_maybe (part_of next.now) + nodes_in (stmt_of body.now))))) }
    {
        self.head(start, test, next)?;
        self.stmt(body)
    }

    #[cycle(statements)]
    fn tested(&mut self, test: &Expr, body: &Stmt) -> Result<(), AllocError>
        ensures { OnOk result (self.new.nodes ≡ self.old.nodes + (nodes (expr_of test.now) + nodes_in (stmt_of body.now))) }
    {
        self.expr(test)?;
        self.stmt(body)
    }

    #[cycle(statements)]
    fn if_else(&mut self, test: &Expr, body: &Stmt, other: &Stmt) -> Result<(), AllocError>
        ensures { OnOk result (self.new.nodes ≡ self.old.nodes + (nodes (expr_of test.now) + (nodes_in (stmt_of body.now) + nodes_in (stmt_of other.now)))) }
    {
        self.tested(test, body)?;
        self.stmt(other)
    }

    #[cycle(statements)]
    fn stmts(&mut self, list: &[Stmt]) -> Result<(), AllocError>
        ensures { OnOk result (self.new.nodes ≡ self.old.nodes + nodes_in_all (stms (map stmt_of list.now))) }
    {
        for stmt in list {
            self.stmt(stmt)?;
        }
        Ok(())
    }

    #[cycle(statements)]
    #[tactic(auto, using(crate::proofs::Blocks::block_lighter, crate::proofs::Blocks::block_counted))]
    fn stmt(&mut self, stmt: &Stmt) -> Result<(), AllocError>
        ensures { OnOk result (self.new.nodes ≡ self.old.nodes + nodes_in (stmt_of stmt.now)) }
    {
        self.count(1)?;
        match stmt {
            Stmt::Empty { .. } | Stmt::Break { .. } | Stmt::Continue { .. } => Ok(()),
            Stmt::Block { stmts, .. } => self.stmts(stmts),
            Stmt::Expr { expr, .. } => self.expr(expr),
            Stmt::If { test, then, .. } => self.tested(test, then),
            Stmt::IfElse {
                test,
                then,
                other,
                ..
            } => self.if_else(test, then, other),
            Stmt::While { test, body, .. } => self.tested(test, body),
            Stmt::DoWhile { body, test, .. } => self.tested(test, body),
            Stmt::For {
                start,
                test,
                next,
                body,
                ..
            } => self.for_loop(start, test, next, body),
            Stmt::Return { value, .. } => self.part(value),
            Stmt::Local { declarators, .. } => self.declarators(declarators),
        }
    }

    fn function(&mut self, head: &FunctionHead, body: &[Stmt]) -> Result<(), AllocError>
        ensures { OnOk result (self.new.nodes ≡ self.old.nodes + (length head.now.params.items + nodes_in_all (stms (map stmt_of body.now)))) }
    {
        self.count(head.params.len())?;
        self.stmts(body)
    }

    fn item(&mut self, item: &Item) -> Result<(), AllocError>
        ensures { OnOk result (self.new.nodes ≡ self.old.nodes + nodes_item (item_of item.now)) }
    {
        self.count(1)?;
        match item {
            Item::Prototype(head) => self.count(head.params.len()),
            Item::Function { head, body } => self.function(head, body),
            Item::Variables(list) => self.declarators(list),
        }
    }

    fn items(&mut self, list: &[Item]) -> Result<(), AllocError>
        ensures { OnOk result (self.new.nodes ≡ self.old.nodes + nodes_unit (map item_of list.now)) }
    {
        for item in list {
            self.item(item)?;
        }
        Ok(())
    }
}

/// How many nodes a tree has. More than a `u64` counts find no memory.
pub fn node_count(unit: &Unit) -> Result<u64, AllocError>
    ensures { IfOk result (λ count. count ≡ nodes_unit (unit_of unit.now)) }
{
    let mut counter = Counter { nodes: 0 };
    counter.items(&unit.items)?;
    Ok(counter.nodes)
}
