ghost use Rattle.std.specs.Prelude.{◌≡◌, ◌↔◌, IsTrue};
ghost use Rattle.ib_act.specs.Acts.{target, first_source, second_source, HasGoodNumber};

use ib_base::Width;

/// How far an access may reach from its base, in bytes.
const REACH: i64 = 1_048_576;

/// How many bytes arithmetic wraps to.
#[derive(Clone, Copy)]
pub enum Size {
    Four,
    Eight,
}

/// What an operation does. Numbers name registers, but for `value`, `offset` and `bound`.
#[derive(Clone, Copy)]
pub enum Act {
    Const {
        to: u32,
        value: i64,
    },
    Mov {
        to: u32,
        from: u32,
    },
    Add {
        size: Size,
        to: u32,
        left: u32,
        right: u32,
    },
    Sub {
        size: Size,
        to: u32,
        left: u32,
        right: u32,
    },
    And {
        to: u32,
        left: u32,
        right: u32,
    },
    Or {
        to: u32,
        left: u32,
        right: u32,
    },
    Xor {
        to: u32,
        left: u32,
        right: u32,
    },
    ShiftLeft {
        size: Size,
        to: u32,
        left: u32,
        right: u32,
    },
    ShiftRight {
        size: Size,
        to: u32,
        left: u32,
        right: u32,
    },
    Equal {
        to: u32,
        left: u32,
        right: u32,
    },
    NotEqual {
        to: u32,
        left: u32,
        right: u32,
    },
    Less {
        to: u32,
        left: u32,
        right: u32,
    },
    LessEqual {
        to: u32,
        left: u32,
        right: u32,
    },
    /// Wraps to one byte, without a sign.
    ExtByte {
        to: u32,
        from: u32,
    },
    /// Wraps to four bytes, with a sign.
    ExtFour {
        to: u32,
        from: u32,
    },
    /// The frame's base plus an offset.
    FrameAddress {
        to: u32,
        offset: i64,
    },
    /// The index itself, where it lies in 0..bound.
    Bounds {
        to: u32,
        from: u32,
        bound: i64,
    },
    Mul {
        size: Size,
        to: u32,
        left: u32,
        right: u32,
    },
    Div {
        size: Size,
        to: u32,
        left: u32,
        right: u32,
    },
    Rem {
        size: Size,
        to: u32,
        left: u32,
        right: u32,
    },
    Load {
        width: Width,
        to: u32,
        base: u32,
        offset: i64,
    },
    Store {
        width: Width,
        base: u32,
        offset: i64,
        from: u32,
    },
    /// The next byte of the input, or -1.
    Get {
        to: u32,
    },
    PutByte {
        from: u32,
    },
    /// Writes the number in decimal.
    PutNumber {
        from: u32,
    },
}

impl Act {
    /// The register that it writes.
    pub fn target(self) -> Option<u32>
        ensures { result ≡ target self }
    {
        match self {
            Act::Const { to, .. } => Some(to),
            Act::Mov { to, .. } => Some(to),
            Act::Add { to, .. } => Some(to),
            Act::Sub { to, .. } => Some(to),
            Act::And { to, .. } => Some(to),
            Act::Or { to, .. } => Some(to),
            Act::Xor { to, .. } => Some(to),
            Act::ShiftLeft { to, .. } => Some(to),
            Act::ShiftRight { to, .. } => Some(to),
            Act::Equal { to, .. } => Some(to),
            Act::NotEqual { to, .. } => Some(to),
            Act::Less { to, .. } => Some(to),
            Act::LessEqual { to, .. } => Some(to),
            Act::ExtByte { to, .. } => Some(to),
            Act::ExtFour { to, .. } => Some(to),
            Act::FrameAddress { to, .. } => Some(to),
            Act::Bounds { to, .. } => Some(to),
            Act::Mul { to, .. } => Some(to),
            Act::Div { to, .. } => Some(to),
            Act::Rem { to, .. } => Some(to),
            Act::Load { to, .. } => Some(to),
            Act::Get { to } => Some(to),
            Act::Store { .. } => None,
            Act::PutByte { .. } => None,
            Act::PutNumber { .. } => None,
        }
    }

    /// The register that it reads first.
    pub fn first_source(self) -> Option<u32>
        ensures { result ≡ first_source self }
    {
        match self {
            Act::Const { .. } => None,
            Act::FrameAddress { .. } => None,
            Act::Get { .. } => None,
            Act::Mov { from, .. } => Some(from),
            Act::ExtByte { from, .. } => Some(from),
            Act::ExtFour { from, .. } => Some(from),
            Act::Bounds { from, .. } => Some(from),
            Act::PutByte { from } => Some(from),
            Act::PutNumber { from } => Some(from),
            Act::Load { base, .. } => Some(base),
            Act::Store { base, .. } => Some(base),
            Act::Add { left, .. } => Some(left),
            Act::Sub { left, .. } => Some(left),
            Act::And { left, .. } => Some(left),
            Act::Or { left, .. } => Some(left),
            Act::Xor { left, .. } => Some(left),
            Act::ShiftLeft { left, .. } => Some(left),
            Act::ShiftRight { left, .. } => Some(left),
            Act::Equal { left, .. } => Some(left),
            Act::NotEqual { left, .. } => Some(left),
            Act::Less { left, .. } => Some(left),
            Act::LessEqual { left, .. } => Some(left),
            Act::Mul { left, .. } => Some(left),
            Act::Div { left, .. } => Some(left),
            Act::Rem { left, .. } => Some(left),
        }
    }

    /// The register that it reads second: the right operand, or what a store writes.
    pub fn second_source(self) -> Option<u32>
        ensures { result ≡ second_source self }
    {
        match self {
            Act::Add { right, .. } => Some(right),
            Act::Sub { right, .. } => Some(right),
            Act::And { right, .. } => Some(right),
            Act::Or { right, .. } => Some(right),
            Act::Xor { right, .. } => Some(right),
            Act::ShiftLeft { right, .. } => Some(right),
            Act::ShiftRight { right, .. } => Some(right),
            Act::Equal { right, .. } => Some(right),
            Act::NotEqual { right, .. } => Some(right),
            Act::Less { right, .. } => Some(right),
            Act::LessEqual { right, .. } => Some(right),
            Act::Mul { right, .. } => Some(right),
            Act::Div { right, .. } => Some(right),
            Act::Rem { right, .. } => Some(right),
            Act::Store { from, .. } => Some(from),
            _ => None,
        }
    }

    /// Whether its numbers are in range: the offset of an access lies within 2^20 bytes, and a bound is 1 or more.
    pub fn has_good_number(self) -> bool
        ensures { IsTrue result ↔ HasGoodNumber self }
    {
        match self {
            Act::Load { offset, .. } => -REACH <= offset && offset <= REACH,
            Act::Store { offset, .. } => -REACH <= offset && offset <= REACH,
            Act::Bounds { bound, .. } => 1 <= bound,
            _ => true,
        }
    }
}
