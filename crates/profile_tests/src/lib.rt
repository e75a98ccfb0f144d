//! Tests of counts and of their file on whole programs.
#![tactic(auto)]

#[cfg(test)]
mod counting;
#[cfg(test)]
mod profiles;
