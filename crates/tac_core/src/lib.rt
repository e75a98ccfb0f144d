//! Three-address programs: what they are, which of them are valid, and what they mean.
#![tactic(auto)]

mod chain;
mod chained_origins;
mod code;
mod copied;
mod copies;
mod count;
mod counts;
mod edges;
mod formed;
mod index;
mod labels;
mod live;
mod matching;
mod names;
mod origin;
mod program;
mod regs;
mod rules;
mod shape;
mod weights;

pub use chain::{Chain, Traces};
pub use code::{Block, End, TacFunc, TacOp};
pub use copied::Copied;
pub use counts::{Counts, FuncCounts};
pub use edges::{Edge, find_edge, has_edge};
pub use formed::Formed;
pub use ib_act::{Act, Size};
pub use index::number_at;
pub use labels::labels_of;
pub use live::Live;
pub use program::TacProgram;
pub use regs::Regs;
pub use shape::is_name;
pub use weights::{in_weights, out_weights};
