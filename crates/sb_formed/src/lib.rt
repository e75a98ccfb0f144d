//! The superblocks of a copied program's chains, which mean what the program means.
#![tactic(auto)]
