//! The memory of a program: 2^20 bytes, with loads and stores of one, four and eight of them.
#![tactic(auto)]

mod memory;
mod number;
mod parts;

pub use memory::Memory;
