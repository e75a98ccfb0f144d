/// Why a source has no tokens.
#[derive(Clone, Copy, PartialEq, Eq, Debug)]
pub enum LexFault {
    /// A byte with which no part of a source begins.
    BadByte,
    /// `/*` without `*/`.
    OpenComment,
    /// A number, character constant or string that is not well formed, too wide or cut off.
    BadLiteral,
}
