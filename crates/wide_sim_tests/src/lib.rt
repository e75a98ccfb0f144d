//! Tests of the simulator on whole code.
#![tactic(auto)]

#[cfg(test)]
mod tests;
