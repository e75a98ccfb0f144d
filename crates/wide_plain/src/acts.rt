ghost use Rattle.std.specs.Prelude.{◌≡◌, ◌≤◌, length};
ghost use Rattle.plain_code.specs.Plain.{found_in, left_in};
ghost use Rattle.wide_core.specs.Renamed.{act_moved};

use crate::homes::Homes;
use ib_act::Act;

impl Homes {
    /// An operation with these sources on the machine's registers.
    pub(crate) fn act_moved(self, sources: &[u32], act: Act) -> Act
        requires { length sources.now ≤ 8 }
        ensures { result ≡ act_moved (found_in self.low sources.now) (left_in self.low) act }
    {
        match act {
            Act::Const { to, value } => Act::Const {
                to: self.left_in(to),
                value,
            },
            Act::Mov { to, from } => Act::Mov {
                to: self.left_in(to),
                from: self.found_in(sources, from),
            },
            Act::Add {
                size,
                to,
                left,
                right,
            } => Act::Add {
                size,
                to: self.left_in(to),
                left: self.found_in(sources, left),
                right: self.found_in(sources, right),
            },
            Act::Sub {
                size,
                to,
                left,
                right,
            } => Act::Sub {
                size,
                to: self.left_in(to),
                left: self.found_in(sources, left),
                right: self.found_in(sources, right),
            },
            Act::And { to, left, right } => Act::And {
                to: self.left_in(to),
                left: self.found_in(sources, left),
                right: self.found_in(sources, right),
            },
            Act::Or { to, left, right } => Act::Or {
                to: self.left_in(to),
                left: self.found_in(sources, left),
                right: self.found_in(sources, right),
            },
            Act::Xor { to, left, right } => Act::Xor {
                to: self.left_in(to),
                left: self.found_in(sources, left),
                right: self.found_in(sources, right),
            },
            Act::ShiftLeft {
                size,
                to,
                left,
                right,
            } => Act::ShiftLeft {
                size,
                to: self.left_in(to),
                left: self.found_in(sources, left),
                right: self.found_in(sources, right),
            },
            Act::ShiftRight {
                size,
                to,
                left,
                right,
            } => Act::ShiftRight {
                size,
                to: self.left_in(to),
                left: self.found_in(sources, left),
                right: self.found_in(sources, right),
            },
            Act::Equal { to, left, right } => Act::Equal {
                to: self.left_in(to),
                left: self.found_in(sources, left),
                right: self.found_in(sources, right),
            },
            Act::NotEqual { to, left, right } => Act::NotEqual {
                to: self.left_in(to),
                left: self.found_in(sources, left),
                right: self.found_in(sources, right),
            },
            Act::Less { to, left, right } => Act::Less {
                to: self.left_in(to),
                left: self.found_in(sources, left),
                right: self.found_in(sources, right),
            },
            Act::LessEqual { to, left, right } => Act::LessEqual {
                to: self.left_in(to),
                left: self.found_in(sources, left),
                right: self.found_in(sources, right),
            },
            Act::ExtByte { to, from } => Act::ExtByte {
                to: self.left_in(to),
                from: self.found_in(sources, from),
            },
            Act::ExtFour { to, from } => Act::ExtFour {
                to: self.left_in(to),
                from: self.found_in(sources, from),
            },
            Act::FrameAddress { to, offset } => Act::FrameAddress {
                to: self.left_in(to),
                offset,
            },
            Act::Bounds { to, from, bound } => Act::Bounds {
                to: self.left_in(to),
                from: self.found_in(sources, from),
                bound,
            },
            Act::Mul {
                size,
                to,
                left,
                right,
            } => Act::Mul {
                size,
                to: self.left_in(to),
                left: self.found_in(sources, left),
                right: self.found_in(sources, right),
            },
            Act::Div {
                size,
                to,
                left,
                right,
            } => Act::Div {
                size,
                to: self.left_in(to),
                left: self.found_in(sources, left),
                right: self.found_in(sources, right),
            },
            Act::Rem {
                size,
                to,
                left,
                right,
            } => Act::Rem {
                size,
                to: self.left_in(to),
                left: self.found_in(sources, left),
                right: self.found_in(sources, right),
            },
            Act::Load {
                width,
                to,
                base,
                offset,
            } => Act::Load {
                width,
                to: self.left_in(to),
                base: self.found_in(sources, base),
                offset,
            },
            Act::Store {
                width,
                base,
                offset,
                from,
            } => Act::Store {
                width,
                base: self.found_in(sources, base),
                offset,
                from: self.found_in(sources, from),
            },
            Act::Get { to } => Act::Get {
                to: self.left_in(to),
            },
            Act::PutByte { from } => Act::PutByte {
                from: self.found_in(sources, from),
            },
            Act::PutNumber { from } => Act::PutNumber {
                from: self.found_in(sources, from),
            },
        }
    }
}
