//! Laws of memory: what a load reads behind a store, how long the memory stays, and when addresses are apart.
#![tactic(auto)]
