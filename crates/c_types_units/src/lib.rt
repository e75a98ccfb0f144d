//! What typing says of a source's tree: the program that it means, within the limits or not, or the
//! first rule that it breaks.
#![tactic(auto)]
