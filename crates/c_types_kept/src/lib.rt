//! What a typed program keeps, shown once from the definitions of typing: where a source's tree
//! breaks no rule and its program is within the limits, the program keeps all that code made of it
//! relies on.
#![tactic(auto)]
