//! What a typed program means.
#![tactic(auto)]
