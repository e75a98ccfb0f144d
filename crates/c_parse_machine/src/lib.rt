//! The parser as a machine that takes one token at a time, and what it says of the grammar.
#![tactic(auto)]
