ghost use Rattle.std.specs.Prelude.{◌≡◌};
ghost use Rattle.c_ast.specs.GrammarTokens.{binary_mark, binary_op, level, assign_mark, assign_op, step_mark, step_op, prefix_mark, prefix_op, postfix_mark, postfix_op};
ghost use Rattle.c_parse_machine.specs.Signs.{sign, is, says, is_type};

use c_ast::{AssignOp, BinaryOp, Keyword, Mark, PostfixOp, Tok, Token, UnaryOp};

/// A number for each mark and keyword, and for each other kind of token.
fn sign(kind: &Tok) -> u8
    ensures { result ≡ sign kind.now }
{
    match kind {
        Tok::Mark(mark) => mark.number(),
        Tok::Word(word) => word.number() + 43,
        Tok::Name(_) => 60,
        Tok::Number { value: _, long: _ } => 61,
        Tok::Char(_) => 62,
        Tok::Str(_) => 63,
        Tok::Reserved(_) => 64,
    }
}

pub fn is(mark: Mark, token: &Token) -> bool
    ensures { result ≡ is mark token.now }
{
    sign(&token.kind) == mark.number()
}

pub fn says(word: Keyword, token: &Token) -> bool
    ensures { result ≡ says word token.now }
{
    sign(&token.kind) == word.number() + 43
}

/// Whether it is `char`, `int` or `long`.
pub fn is_type(token: &Token) -> bool
    ensures { result ≡ is_type token.now }
{
    says(Keyword::Char, token) || says(Keyword::Int, token) || says(Keyword::Long, token)
}

fn binary_mark(mark: Mark) -> Option<BinaryOp>
    ensures { result ≡ binary_mark mark }
{
    match mark {
        Mark::Or => Some(BinaryOp::Or),
        Mark::And => Some(BinaryOp::And),
        Mark::BitOr => Some(BinaryOp::BitOr),
        Mark::BitXor => Some(BinaryOp::BitXor),
        Mark::BitAnd => Some(BinaryOp::BitAnd),
        Mark::Equal => Some(BinaryOp::Equal),
        Mark::NotEqual => Some(BinaryOp::NotEqual),
        Mark::Less => Some(BinaryOp::Less),
        Mark::LessEqual => Some(BinaryOp::LessEqual),
        Mark::Greater => Some(BinaryOp::Greater),
        Mark::GreaterEqual => Some(BinaryOp::GreaterEqual),
        Mark::ShiftLeft => Some(BinaryOp::ShiftLeft),
        Mark::ShiftRight => Some(BinaryOp::ShiftRight),
        Mark::Plus => Some(BinaryOp::Add),
        Mark::Minus => Some(BinaryOp::Sub),
        Mark::Star => Some(BinaryOp::Mul),
        Mark::Slash => Some(BinaryOp::Div),
        Mark::Percent => Some(BinaryOp::Rem),
        _ => None,
    }
}

pub fn binary_op(token: &Token) -> Option<BinaryOp>
    ensures { result ≡ binary_op token.now }
{
    match &token.kind {
        Tok::Mark(mark) => binary_mark(*mark),
        _ => None,
    }
}

/// The precedence of a binary operator, lowest first.
pub fn level(op: BinaryOp) -> u8
    ensures { result ≡ level op }
{
    match op {
        BinaryOp::Or => 1,
        BinaryOp::And => 2,
        BinaryOp::BitOr => 3,
        BinaryOp::BitXor => 4,
        BinaryOp::BitAnd => 5,
        BinaryOp::Equal | BinaryOp::NotEqual => 6,
        BinaryOp::Less | BinaryOp::LessEqual | BinaryOp::Greater | BinaryOp::GreaterEqual => 7,
        BinaryOp::ShiftLeft | BinaryOp::ShiftRight => 8,
        BinaryOp::Add | BinaryOp::Sub => 9,
        BinaryOp::Mul | BinaryOp::Div | BinaryOp::Rem => 10,
    }
}

fn assign_mark(mark: Mark) -> Option<AssignOp>
    ensures { result ≡ assign_mark mark }
{
    match mark {
        Mark::Assign => Some(AssignOp::Set),
        Mark::AddAssign => Some(AssignOp::Add),
        Mark::SubAssign => Some(AssignOp::Sub),
        Mark::MulAssign => Some(AssignOp::Mul),
        Mark::DivAssign => Some(AssignOp::Div),
        Mark::RemAssign => Some(AssignOp::Rem),
        Mark::ShiftLeftAssign => Some(AssignOp::ShiftLeft),
        Mark::ShiftRightAssign => Some(AssignOp::ShiftRight),
        Mark::BitAndAssign => Some(AssignOp::BitAnd),
        Mark::BitXorAssign => Some(AssignOp::BitXor),
        Mark::BitOrAssign => Some(AssignOp::BitOr),
        _ => None,
    }
}

pub fn assign_op(token: &Token) -> Option<AssignOp>
    ensures { result ≡ assign_op token.now }
{
    match &token.kind {
        Tok::Mark(mark) => assign_mark(*mark),
        _ => None,
    }
}

fn step_mark(mark: Mark) -> Option<UnaryOp>
    ensures { result ≡ step_mark mark }
{
    match mark {
        Mark::Increment => Some(UnaryOp::Increment),
        Mark::Decrement => Some(UnaryOp::Decrement),
        _ => None,
    }
}

/// `++` and `--`, whose operand is a unary expression.
pub fn step_op(token: &Token) -> Option<UnaryOp>
    ensures { result ≡ step_op token.now }
{
    match &token.kind {
        Tok::Mark(mark) => step_mark(*mark),
        _ => None,
    }
}

fn prefix_mark(mark: Mark) -> Option<UnaryOp>
    ensures { result ≡ prefix_mark mark }
{
    match mark {
        Mark::BitAnd => Some(UnaryOp::AddressOf),
        Mark::Star => Some(UnaryOp::Dereference),
        Mark::Plus => Some(UnaryOp::Plus),
        Mark::Minus => Some(UnaryOp::Minus),
        Mark::BitNot => Some(UnaryOp::BitNot),
        Mark::Not => Some(UnaryOp::Not),
        _ => None,
    }
}

/// The other marks that stand before their operand, which may be a cast.
pub fn prefix_op(token: &Token) -> Option<UnaryOp>
    ensures { result ≡ prefix_op token.now }
{
    match &token.kind {
        Tok::Mark(mark) => prefix_mark(*mark),
        _ => None,
    }
}

fn postfix_mark(mark: Mark) -> Option<PostfixOp>
    ensures { result ≡ postfix_mark mark }
{
    match mark {
        Mark::Increment => Some(PostfixOp::Increment),
        Mark::Decrement => Some(PostfixOp::Decrement),
        _ => None,
    }
}

pub fn postfix_op(token: &Token) -> Option<PostfixOp>
    ensures { result ≡ postfix_op token.now }
{
    match &token.kind {
        Tok::Mark(mark) => postfix_mark(*mark),
        _ => None,
    }
}
