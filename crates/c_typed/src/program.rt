use crate::stmt::Stmt;
use crate::types::ValueType;
use ib_base::Text;

/// Where a variable of a function lives.
#[derive(Clone, Copy)]
pub enum Home {
    /// In the environment, by its number there.
    Slot(u32),
    /// In the frame, so many bytes from its start on.
    Frame(u64),
}

/// A parameter, whose type its argument was converted to.
#[derive(Clone, Copy)]
pub struct Param {
    pub ty: ValueType,
    pub home: Home,
}

/// A function with a body. Its frame is in bytes, a multiple of 16.
#[derive(Drop)]
pub struct Function {
    pub name: Text,
    pub result: ValueType,
    pub params: Vec<Param>,
    pub slots: u32,
    pub frame: u64,
    pub body: Vec<Stmt>,
}

/// The functions with a body, in the order of the source.
#[derive(Drop)]
pub struct Typed {
    pub functions: Vec<Function>,
}

/// The addresses of the globals and of the string literals that are laid out, the frame sizes of
/// the functions with a body, all in the order of the source, and where the first frame starts.
#[derive(Drop)]
pub struct Layout {
    pub globals: Vec<u32>,
    pub strings: Vec<u32>,
    pub frames: Vec<u32>,
    pub first_frame: u32,
}
