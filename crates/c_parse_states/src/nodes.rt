//! Nodes of the tree, made of their parts. A part lies in its box as soon as it is made, and a node
//! is put together where nothing can fail any more.

ghost use Rattle.std.specs.Prelude.{◌≡◌, IfOk, map};
ghost use Rattle.c_ast.specs.Trees.{call, index, postfix, unary, cast, binary, conditional, assign, comma, exps, pointer, block, stms, if_then, if_else, while_loop, do_while, for_loop};
ghost use Rattle.c_ast.specs.TreeViews.{type_of, expr_of, part_of, start_of, stmt_of};

use c_ast::{AssignOp, BinaryOp, CType, Expr, ForStart, Part, PostfixOp, Stmt, UnaryOp};
use ib_base::{Place, Text};
use std::alloc::{AllocError, Global};

/// An expression in its box.
pub fn boxed(alloc: Global, expr: Expr) -> Result<Box<Expr>, AllocError>
    ensures { IfOk result (λ made. made.value ≡ expr) }
{
    Ok(Box::new(alloc, expr)?)
}

/// A statement in its box.
pub fn boxed_stmt(alloc: Global, stmt: Stmt) -> Result<Box<Stmt>, AllocError>
    ensures { IfOk result (λ made. made.value ≡ stmt) }
{
    Ok(Box::new(alloc, stmt)?)
}

/// One more star.
pub fn pointer(alloc: Global, to: CType) -> Result<CType, AllocError>
    ensures { IfOk result (λ made. type_of made ≡ pointer (type_of to)) }
{
    Ok(CType::Pointer(Box::new(alloc, to)?))
}

/// `name(arguments)`
pub fn call(
    alloc: Global,
    place: Place,
    name: Text,
    arguments: Vec<Expr>,
) -> Result<Box<Expr>, AllocError>
    ensures { IfOk result (λ made. expr_of made.value ≡ call place name (exps (map expr_of arguments.items))) }
{
    let made = boxed(
        alloc,
        Expr::Call {
            place,
            name,
            arguments,
        },
    )?;
    Ok(made)
}

/// Two or more, with commas between them.
pub fn comma(alloc: Global, place: Place, parts: Vec<Expr>) -> Result<Box<Expr>, AllocError>
    ensures { IfOk result (λ made. expr_of made.value ≡ comma place (exps (map expr_of parts.items))) }
{
    let made = boxed(alloc, Expr::Comma { place, parts })?;
    Ok(made)
}

/// Statements in braces.
pub fn block(alloc: Global, place: Place, stmts: Vec<Stmt>) -> Result<Box<Stmt>, AllocError>
    ensures { IfOk result (λ made. stmt_of made.value ≡ block place (stms (map stmt_of stmts.items))) }
{
    let made = boxed_stmt(alloc, Stmt::Block { place, stmts })?;
    Ok(made)
}

/// `base[at]`
pub fn index(
    alloc: Global,
    place: Place,
    base: Box<Expr>,
    at: Box<Expr>,
) -> Result<Box<Expr>, AllocError>
    ensures { IfOk result (λ made. expr_of made.value ≡ index place (expr_of base.value) (expr_of at.value)) }
{
    boxed(
        alloc,
        Expr::Index {
            place,
            base,
            index: at,
        },
    )
}

/// `++` or `--` behind its operand.
pub fn postfix(
    alloc: Global,
    place: Place,
    op: PostfixOp,
    operand: Box<Expr>,
) -> Result<Box<Expr>, AllocError>
    ensures { IfOk result (λ made. expr_of made.value ≡ postfix place op (expr_of operand.value)) }
{
    boxed(alloc, Expr::Postfix { place, op, operand })
}

/// An operator before its operand.
pub fn unary(
    alloc: Global,
    place: Place,
    op: UnaryOp,
    operand: Box<Expr>,
) -> Result<Box<Expr>, AllocError>
    ensures { IfOk result (λ made. expr_of made.value ≡ unary place op (expr_of operand.value)) }
{
    boxed(alloc, Expr::Unary { place, op, operand })
}

/// `(to)operand`
pub fn cast(
    alloc: Global,
    place: Place,
    to: CType,
    operand: Box<Expr>,
) -> Result<Box<Expr>, AllocError>
    ensures { IfOk result (λ made. expr_of made.value ≡ cast place (type_of to) (expr_of operand.value)) }
{
    boxed(alloc, Expr::Cast { place, to, operand })
}

/// An operator between two operands.
pub fn binary(
    alloc: Global,
    place: Place,
    op: BinaryOp,
    left: Box<Expr>,
    right: Box<Expr>,
) -> Result<Box<Expr>, AllocError>
    ensures { IfOk result (λ made. expr_of made.value ≡ binary place op (expr_of left.value) (expr_of right.value)) }
{
    boxed(
        alloc,
        Expr::Binary {
            place,
            op,
            left,
            right,
        },
    )
}

/// `test ? then : other`
pub fn conditional(
    alloc: Global,
    place: Place,
    test: Box<Expr>,
    then: Box<Expr>,
    other: Box<Expr>,
) -> Result<Box<Expr>, AllocError>
    ensures { IfOk result (λ made. expr_of made.value ≡ conditional place (expr_of test.value) (expr_of then.value) (expr_of other.value)) }
{
    boxed(
        alloc,
        Expr::Conditional {
            place,
            test,
            then,
            other,
        },
    )
}

/// `=`, or a mark that combines it with a binary operator.
pub fn assign(
    alloc: Global,
    place: Place,
    op: AssignOp,
    target: Box<Expr>,
    value: Box<Expr>,
) -> Result<Box<Expr>, AllocError>
    ensures { IfOk result (λ made. expr_of made.value ≡ assign place op (expr_of target.value) (expr_of value.value)) }
{
    boxed(
        alloc,
        Expr::Assign {
            place,
            op,
            target,
            value,
        },
    )
}

/// `if` without `else`.
pub fn if_then(
    alloc: Global,
    place: Place,
    test: Box<Expr>,
    then: Box<Stmt>,
) -> Result<Box<Stmt>, AllocError>
    ensures { IfOk result (λ made. stmt_of made.value ≡ if_then place (expr_of test.value) (stmt_of then.value)) }
{
    let test = Box::into_inner(test);
    boxed_stmt(alloc, Stmt::If { place, test, then })
}

/// `if` with `else`.
pub fn if_else(
    alloc: Global,
    place: Place,
    test: Box<Expr>,
    then: Box<Stmt>,
    other: Box<Stmt>,
) -> Result<Box<Stmt>, AllocError>
    ensures { IfOk result (λ made. stmt_of made.value ≡ if_else place (expr_of test.value) (stmt_of then.value) (stmt_of other.value)) }
{
    let test = Box::into_inner(test);
    boxed_stmt(
        alloc,
        Stmt::IfElse {
            place,
            test,
            then,
            other,
        },
    )
}

/// `while (test) body`
pub fn while_loop(
    alloc: Global,
    place: Place,
    test: Box<Expr>,
    body: Box<Stmt>,
) -> Result<Box<Stmt>, AllocError>
    ensures { IfOk result (λ made. stmt_of made.value ≡ while_loop place (expr_of test.value) (stmt_of body.value)) }
{
    let test = Box::into_inner(test);
    boxed_stmt(alloc, Stmt::While { place, test, body })
}

/// `do body while (test);`
pub fn do_while(
    alloc: Global,
    place: Place,
    body: Box<Stmt>,
    test: Box<Expr>,
) -> Result<Box<Stmt>, AllocError>
    ensures { IfOk result (λ made. stmt_of made.value ≡ do_while place (stmt_of body.value) (expr_of test.value)) }
{
    let test = Box::into_inner(test);
    boxed_stmt(alloc, Stmt::DoWhile { place, body, test })
}

/// `for (start; test; next) body`
pub fn for_loop(
    alloc: Global,
    place: Place,
    start: ForStart,
    test: Part,
    next: Part,
    body: Box<Stmt>,
) -> Result<Box<Stmt>, AllocError>
    ensures { IfOk result (λ made. stmt_of made.value ≡ for_loop place (start_of start) (part_of test) (part_of next) (stmt_of body.value)) }
{
    boxed_stmt(
        alloc,
        Stmt::For {
            place,
            start,
            test,
            next,
            body,
        },
    )
}
