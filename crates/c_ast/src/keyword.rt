ghost use Rattle.std.specs.Prelude.{◌≡◌};
ghost use Rattle.c_ast.specs.Keywords.{keyword_spelling, keyword_number, keyword_spelled};

/// The keywords, one variant a spelling.
#[derive(Clone, Copy)]
pub enum Keyword {
    Break,
    Char,
    Continue,
    Do,
    Else,
    For,
    If,
    Int,
    Long,
    Return,
    Void,
    While,
    Null,
    Eof,
}

/// All keywords.
const KEYWORDS: [Keyword; 14] = [
    Keyword::Break,
    Keyword::Char,
    Keyword::Continue,
    Keyword::Do,
    Keyword::Else,
    Keyword::For,
    Keyword::If,
    Keyword::Int,
    Keyword::Long,
    Keyword::Return,
    Keyword::Void,
    Keyword::While,
    Keyword::Null,
    Keyword::Eof,
];

impl Keyword {
    /// The keyword with this spelling.
    #[tactic(auto, unfolding(crate::specs::Keywords::keyword_spelled))]
    pub fn spelled(bytes: &[u8]) -> Option<Keyword>
        ensures { result ≡ keyword_spelled bytes.now }
    {
        KEYWORDS
            .iter()
            .copied()
            .find(|keyword| keyword.spelling().as_bytes() == bytes)
    }

    pub fn spelling(self) -> &'static str
        ensures { result.now ≡ keyword_spelling self }
    {
        match self {
            Keyword::Break => "break",
            Keyword::Char => "char",
            Keyword::Continue => "continue",
            Keyword::Do => "do",
            Keyword::Else => "else",
            Keyword::For => "for",
            Keyword::If => "if",
            Keyword::Int => "int",
            Keyword::Long => "long",
            Keyword::Return => "return",
            Keyword::Void => "void",
            Keyword::While => "while",
            Keyword::Null => "NULL",
            Keyword::Eof => "EOF",
        }
    }

    /// The number that tells it from the others.
    pub fn number(self) -> u8
        ensures { result ≡ keyword_number self }
    {
        self as u8
    }
}
