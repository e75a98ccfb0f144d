//! Which orders of a superblock's operations are legal, and that a legal one changes nothing that anybody can tell.
#![tactic(auto)]
