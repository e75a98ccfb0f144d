ghost use Rattle.std.specs.Prelude.{◌≡◌, [], ◌++◌, map, OnOk};
ghost use Rattle.c_ast.specs.Trees.{exps};
ghost use Rattle.c_ast.specs.TreeViews.{expr_of, init_of, part_of};
ghost use Rattle.c_types_homes.specs.Addressed.{taken, taken_of, taken_maybe, taken_init, taken_by, under_ampersand};
ghost use Rattle.c_types_homes.specs.Walking.{Seen, Walks};

use crate::addressed::Walk;
use c_ast::{Expr, Init, Part, UnaryOp};
use std::alloc::AllocError;

impl<'a> Walk<'a> {
    /// Takes the address of a variable.
    fn take_name(&mut self, operand: &Expr) -> Result<(), AllocError>
        ensures { OnOk result (Walks self.old self.new self.old.names [] (under_ampersand self.old.names (expr_of operand.now))) }
    {
        match operand {
            Expr::Name { name, .. } => self.take(name),
            _ => Ok(()),
        }
    }

    #[cycle(expressions)]
    #[tactic(auto, using(crate::proofs::Calls::call_lighter, crate::proofs::Calls::comma_lighter, crate::proofs::Calls::call_taken, crate::proofs::Calls::comma_taken))]
    pub(crate) fn expr(&mut self, expr: &Expr) -> Result<(), AllocError>
        ensures { OnOk result (Walks self.old self.new self.old.names [] (taken self.old.names (expr_of expr.now))) }
    {
        match expr {
            Expr::Name { .. }
            | Expr::Number { .. }
            | Expr::Char { .. }
            | Expr::Str { .. }
            | Expr::Null { .. }
            | Expr::Eof { .. } => Ok(()),
            Expr::Call { arguments, .. } => self.exprs(arguments),
            Expr::Index { base, index, .. } => self.two(base, index),
            Expr::Postfix { operand, .. } => self.expr(operand),
            Expr::Unary { op, operand, .. } => self.unary(*op, operand),
            Expr::Cast { operand, .. } => self.expr(operand),
            Expr::Binary { left, right, .. } => self.two(left, right),
            Expr::Conditional {
                test,
                then,
                other,
                ..
            } => self.three(test, then, other),
            Expr::Assign { target, value, .. } => self.two(target, value),
            Expr::Comma { parts, .. } => self.exprs(parts),
        }
    }

    #[cycle(expressions)]
    fn two(&mut self, a: &Expr, b: &Expr) -> Result<(), AllocError>
        ensures { OnOk result (Walks self.old self.new self.old.names [] (taken self.old.names (expr_of a.now) ++ taken self.old.names (expr_of b.now))) }
    {
        self.expr(a)?;
        self.expr(b)
    }

    #[cycle(expressions)]
    fn three(&mut self, a: &Expr, b: &Expr, c: &Expr) -> Result<(), AllocError>
        ensures { OnOk result (Walks self.old self.new self.old.names [] (taken self.old.names (expr_of a.now) ++ (taken self.old.names (expr_of b.now) ++ taken self.old.names (expr_of c.now)))) }
    {
        self.expr(a)?;
        self.two(b, c)
    }

    #[cycle(expressions)]
    fn unary(&mut self, op: UnaryOp, operand: &Expr) -> Result<(), AllocError>
        ensures { OnOk result (Walks self.old self.new self.old.names [] (taken_by op self.old.names (expr_of operand.now) ++ taken self.old.names (expr_of operand.now))) }
    {
        if matches!(op, UnaryOp::AddressOf) {
            self.take_name(operand)?;
        }
        self.expr(operand)
    }

    #[cycle(expressions)]
    pub(crate) fn exprs(&mut self, list: &[Expr]) -> Result<(), AllocError>
        ensures { OnOk result (Walks self.old self.new self.old.names [] (taken_of self.old.names (exps (map expr_of list.now)))) }
    {
        for expr in list {
            self.expr(expr)?;
        }
        Ok(())
    }

    pub(crate) fn part(&mut self, part: &Part) -> Result<(), AllocError>
        ensures { OnOk result (Walks self.old self.new self.old.names [] (taken_maybe self.old.names (part_of part.now))) }
    {
        match part {
            Part::Missing => Ok(()),
            Part::Given(expr) => self.expr(expr),
        }
    }

    pub(crate) fn init(&mut self, init: &Init) -> Result<(), AllocError>
        ensures { OnOk result (Walks self.old self.new self.old.names [] (taken_init self.old.names (init_of init.now))) }
    {
        match init {
            Init::Nothing => Ok(()),
            Init::Value(value) => self.expr(value),
            Init::List(values) => self.exprs(values),
        }
    }
}
