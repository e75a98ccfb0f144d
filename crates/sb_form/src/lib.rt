//! Forms the superblocks of a copied program's chains.
#![tactic(auto)]

mod acts;
mod chains;
mod heads;
mod numbered;
mod program;

pub use program::form;
