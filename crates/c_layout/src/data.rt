use crate::shape::Shape;
use sqlite_items::Items;

/// What an element of a global holds at first: a number, or the address of a string literal, by
/// its place among those that are laid out.
#[derive(Clone, Copy)]
pub enum Datum {
    Number(i64),
    Text(u32),
}

/// A global, and what its first elements hold. The others hold 0.
#[derive(Drop)]
pub struct GlobalData {
    pub shape: Shape,
    pub held: Items<Datum>,
}
