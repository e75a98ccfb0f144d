//! What a typed program is lowered to, and that it means the same.
#![tactic(auto)]
