//! From structured code to blocks.
#![tactic(auto)]

mod emission;
mod emitter;
mod jump;
mod survey;
mod ways;
