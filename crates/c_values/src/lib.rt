//! What the operations of typed programs give.
#![tactic(auto)]

mod values;

pub use values::{
    converted, element, further, in_frame, is_true, operated, ranked, signed, size_of, truth,
    width_of,
};
