ghost use Rattle.std.specs.Prelude.{◌≡◌, ◌+◌, map, OnOk};
ghost use Rattle.c_ast.specs.Trees.{exps};
ghost use Rattle.c_ast.specs.TreeViews.{expr_of, init_of, part_of};
ghost use Rattle.c_program.specs.Nodes.{nodes, nodes_of, nodes_maybe, nodes_init};

use c_ast::{Expr, Init, Part};
use std::alloc::AllocError;

/// The number of the nodes so far. More than a `u64` counts find no memory.
#[derive(Drop)]
pub(crate) struct Counter {
    pub(crate) nodes: u64,
}

impl Counter {
    pub(crate) fn count(&mut self, nodes: usize) -> Result<(), AllocError>
        ensures { OnOk result (self.new.nodes ≡ self.old.nodes + nodes) }
    {
        self.nodes = self.nodes.checked_add(nodes as u64).ok_or(AllocError)?;
        Ok(())
    }

    #[cycle(expressions)]
    #[tactic(auto, using(crate::proofs::Calls::call_lighter, crate::proofs::Calls::comma_lighter, crate::proofs::Calls::call_counted, crate::proofs::Calls::comma_counted))]
    pub(crate) fn expr(&mut self, expr: &Expr) -> Result<(), AllocError>
        ensures { OnOk result (self.new.nodes ≡ self.old.nodes + nodes (expr_of expr.now)) }
    {
        self.count(1)?;
        match expr {
            Expr::Name { .. }
            | Expr::Number { .. }
            | Expr::Char { .. }
            | Expr::Str { .. }
            | Expr::Null { .. }
            | Expr::Eof { .. } => Ok(()),
            Expr::Call { arguments, .. } => self.exprs(arguments),
            Expr::Index { base, index, .. } => self.two(base, index),
            Expr::Postfix { operand, .. } => self.expr(operand),
            Expr::Unary { operand, .. } => self.expr(operand),
            Expr::Cast { operand, .. } => self.expr(operand),
            Expr::Binary { left, right, .. } => self.two(left, right),
            Expr::Conditional {
                test,
                then,
                other,
                ..
            } => self.three(test, then, other),
            Expr::Assign { target, value, .. } => self.two(target, value),
            Expr::Comma { parts, .. } => self.exprs(parts),
        }
    }

    #[cycle(expressions)]
    fn two(&mut self, a: &Expr, b: &Expr) -> Result<(), AllocError>
        ensures { OnOk result (self.new.nodes ≡ self.old.nodes + (nodes (expr_of a.now) + nodes (expr_of b.now))) }
    {
        self.expr(a)?;
        self.expr(b)
    }

    #[cycle(expressions)]
    fn three(&mut self, a: &Expr, b: &Expr, c: &Expr) -> Result<(), AllocError>
        ensures { OnOk result (self.new.nodes ≡ self.old.nodes + (nodes (expr_of a.now) + (nodes (expr_of b.now) + nodes (expr_of c.now)))) }
    {
        self.expr(a)?;
        self.two(b, c)
    }

    #[cycle(expressions)]
    fn exprs(&mut self, list: &[Expr]) -> Result<(), AllocError>
        ensures { OnOk result (self.new.nodes ≡ self.old.nodes + nodes_of (exps (map expr_of list.now))) }
    {
        for expr in list {
            self.expr(expr)?;
        }
        Ok(())
    }

    pub(crate) fn part(&mut self, part: &Part) -> Result<(), AllocError>
        ensures { OnOk result (self.new.nodes ≡ self.old.nodes + nodes_maybe (part_of part.now)) }
    {
        match part {
            Part::Missing => Ok(()),
            Part::Given(expr) => self.expr(expr),
        }
    }

    pub(crate) fn init(&mut self, init: &Init) -> Result<(), AllocError>
        ensures { OnOk result (self.new.nodes ≡ self.old.nodes + nodes_init (init_of init.now)) }
    {
        match init {
            Init::Nothing => Ok(()),
            Init::Value(value) => self.expr(value),
            Init::List(values) => self.exprs(values),
        }
    }
}
