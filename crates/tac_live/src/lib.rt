//! Which registers are live where a block begins: exactly those that some path from there reads before it writes them.
#![tactic(auto)]

mod before;
mod behind;
mod preds;
mod program;
mod rounds;
mod sets;

pub use before::live_before;
pub use program::live_in;
pub use rounds::live_rows;
