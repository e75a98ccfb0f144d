//! The trees of a source are well-formed: its numbers lie in their types, its names are names, and
//! no list of first values is empty.
#![tactic(auto)]
