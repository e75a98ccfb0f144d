ghost use Rattle.std.specs.Prelude.{◌≡◌};
ghost use Rattle.c_ast.specs.Marks.{mark_spelling, mark_number, mark_spelled};

/// The marks, one variant a spelling.
#[derive(Clone, Copy)]
pub enum Mark {
    LeftParen,
    RightParen,
    LeftBracket,
    RightBracket,
    LeftBrace,
    RightBrace,
    Comma,
    Semicolon,
    Question,
    Colon,
    Assign,
    AddAssign,
    SubAssign,
    MulAssign,
    DivAssign,
    RemAssign,
    ShiftLeftAssign,
    ShiftRightAssign,
    BitAndAssign,
    BitXorAssign,
    BitOrAssign,
    Or,
    And,
    BitOr,
    BitXor,
    BitAnd,
    Equal,
    NotEqual,
    Less,
    LessEqual,
    Greater,
    GreaterEqual,
    ShiftLeft,
    ShiftRight,
    Plus,
    Minus,
    Star,
    Slash,
    Percent,
    Not,
    BitNot,
    Increment,
    Decrement,
}

/// All marks.
const MARKS: [Mark; 43] = [
    Mark::LeftParen,
    Mark::RightParen,
    Mark::LeftBracket,
    Mark::RightBracket,
    Mark::LeftBrace,
    Mark::RightBrace,
    Mark::Comma,
    Mark::Semicolon,
    Mark::Question,
    Mark::Colon,
    Mark::Assign,
    Mark::AddAssign,
    Mark::SubAssign,
    Mark::MulAssign,
    Mark::DivAssign,
    Mark::RemAssign,
    Mark::ShiftLeftAssign,
    Mark::ShiftRightAssign,
    Mark::BitAndAssign,
    Mark::BitXorAssign,
    Mark::BitOrAssign,
    Mark::Or,
    Mark::And,
    Mark::BitOr,
    Mark::BitXor,
    Mark::BitAnd,
    Mark::Equal,
    Mark::NotEqual,
    Mark::Less,
    Mark::LessEqual,
    Mark::Greater,
    Mark::GreaterEqual,
    Mark::ShiftLeft,
    Mark::ShiftRight,
    Mark::Plus,
    Mark::Minus,
    Mark::Star,
    Mark::Slash,
    Mark::Percent,
    Mark::Not,
    Mark::BitNot,
    Mark::Increment,
    Mark::Decrement,
];

impl Mark {
    /// The mark with this spelling.
    #[tactic(auto, unfolding(crate::specs::Marks::mark_spelled))]
    pub fn spelled(bytes: &[u8]) -> Option<Mark>
        ensures { result ≡ mark_spelled bytes.now }
    {
        MARKS
            .iter()
            .copied()
            .find(|mark| mark.spelling().as_bytes() == bytes)
    }

    pub fn spelling(self) -> &'static str
        ensures { result.now ≡ mark_spelling self }
    {
        match self {
            Mark::LeftParen => "(",
            Mark::RightParen => ")",
            Mark::LeftBracket => "[",
            Mark::RightBracket => "]",
            Mark::LeftBrace => "{",
            Mark::RightBrace => "}",
            Mark::Comma => ",",
            Mark::Semicolon => ";",
            Mark::Question => "?",
            Mark::Colon => ":",
            Mark::Assign => "=",
            Mark::AddAssign => "+=",
            Mark::SubAssign => "-=",
            Mark::MulAssign => "*=",
            Mark::DivAssign => "/=",
            Mark::RemAssign => "%=",
            Mark::ShiftLeftAssign => "<<=",
            Mark::ShiftRightAssign => ">>=",
            Mark::BitAndAssign => "&=",
            Mark::BitXorAssign => "^=",
            Mark::BitOrAssign => "|=",
            Mark::Or => "||",
            Mark::And => "&&",
            Mark::BitOr => "|",
            Mark::BitXor => "^",
            Mark::BitAnd => "&",
            Mark::Equal => "==",
            Mark::NotEqual => "!=",
            Mark::Less => "<",
            Mark::LessEqual => "<=",
            Mark::Greater => ">",
            Mark::GreaterEqual => ">=",
            Mark::ShiftLeft => "<<",
            Mark::ShiftRight => ">>",
            Mark::Plus => "+",
            Mark::Minus => "-",
            Mark::Star => "*",
            Mark::Slash => "/",
            Mark::Percent => "%",
            Mark::Not => "!",
            Mark::BitNot => "~",
            Mark::Increment => "++",
            Mark::Decrement => "--",
        }
    }

    /// The number that tells it from the others.
    pub fn number(self) -> u8
        ensures { result ≡ mark_number self }
    {
        self as u8
    }
}
