//! Where globals and string literals lie in memory, and what it holds at first.
#![tactic(auto)]

mod addresses;
mod bytes;
mod data;
mod shape;

pub use addresses::{global_addresses, image_size, string_addresses};
pub use bytes::image;
pub use data::{Datum, GlobalData};
pub use shape::{Shape, aligned};
