/// Where a part of a source lies: from one byte up to, but not including, another.
#[derive(Clone, Copy, PartialEq, Eq, Debug)]
pub struct Span {
    pub from: u32,
    pub to: u32,
}
