//! Code in source order, one operation a word, and that it does what its three-address program does.
#![tactic(auto)]
