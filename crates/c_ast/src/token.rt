use crate::keyword::Keyword;
use crate::mark::Mark;
use ib_base::{Place, Span, Text};

/// What a token is.
#[derive(Drop)]
pub enum Tok {
    Name(Text),
    /// Its value is not negative. It is a `long` by its suffix, or where an `int` cannot hold it.
    Number { value: i64, long: bool },
    /// The value of a character constant.
    Char(u8),
    /// The bytes that a string's elements stand for.
    Str(Text),
    Word(Keyword),
    Mark(Mark),
    /// A word that no production has.
    Reserved(Text),
}

/// A token, the bytes that it takes, and the place of the first.
#[derive(Drop)]
pub struct Token {
    pub kind: Tok,
    pub span: Span,
    pub place: Place,
}
