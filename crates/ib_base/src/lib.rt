//! What every layer of the compiler shares: the integer rules, the outside world and small types.
#![tactic(auto)]

mod fault_plan;
mod file_table;
mod host;
mod input_left;
mod integers;
mod mem_host;
mod mem_parts;
mod name_log;
mod outcome;
mod real_host;
mod span;
mod stream;
mod text;
mod waiting_output;

pub use host::{Host, HostErr};
pub use ib_meaning::{FaultKind, Place};
pub use integers::{Cmp, Width, compare, div, rem, shift_left, shift_right, wrap};
pub use mem_host::MemHost;
pub use outcome::{Outcome, RunErr};
pub use real_host::RealHost;
pub use span::Span;
pub use stream::{read_beginning, write_whole};
pub use text::Text;
