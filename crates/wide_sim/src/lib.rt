//! The machine of long words, simulated cycle by cycle over a host.
#![tactic(auto)]

mod advance;
mod ask;
mod at_hand;
mod callers;
mod cycle;
mod frame;
mod from_start;
mod home;
mod next;
mod outcome;
mod plan;
mod planned;
mod ready;
mod sim;
mod site;
mod start;
mod store;
mod tick;
mod times;
mod word;

pub use callers::Callers;
pub use cycle::Behind;
pub use frame::{Frame, Suspended};
pub use from_start::simulate;
pub use next::Next;
pub use outcome::{SimErr, SimOutcome, Stepped};
pub use planned::Planned;
pub use ready::Ready;
pub use sim::Sim;
pub use store::Store;
