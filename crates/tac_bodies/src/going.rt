//! Whether a statement goes on with the loop around it.

ghost use Rattle.std.specs.Prelude.{◌≡◌, map};
ghost use Rattle.c_typed.specs.Tree.{stms};
ghost use Rattle.c_typed.specs.Views.{stmt_of};
ghost use Rattle.tac_lowered.specs.Statements as s;

use c_typed::Stmt;

/// Whether it has a `continue` of the loop around it.
#[cycle(going)]
#[tactic(auto, using(crate::proofs::Blocks::block_weight))]
pub(crate) fn goes_on(stmt: &Stmt) -> bool
    ensures { result ≡ s.goes_on (stmt_of stmt.now) }
{
    match stmt {
        Stmt::Block { stmts } => go_on(stmts),
        Stmt::If { then, .. } => goes_on(then),
        Stmt::IfElse { then, other, .. } => goes_on(then) || goes_on(other),
        Stmt::Continue { .. } => true,
        Stmt::Empty { .. } => false,
        Stmt::Expr { .. } => false,
        Stmt::While { .. } => false,
        Stmt::DoWhile { .. } => false,
        Stmt::For { .. } => false,
        Stmt::Break { .. } => false,
        Stmt::Return { .. } => false,
        Stmt::Local { .. } => false,
    }
}

#[cycle(going)]
fn go_on(list: &[Stmt]) -> bool
    ensures { result ≡ s.go_on (stms (map stmt_of list.now)) }
{
    for stmt in list {
        if goes_on(stmt) {
            return true;
        }
    }
    false
}
