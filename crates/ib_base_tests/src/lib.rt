//! Tests of the outside world: files of the system, and streams that are interrupted or fail.
#![tactic(auto)]

#[cfg(test)]
mod tests;
