//! Which rules declarators and parameters break by themselves.
#![tactic(auto)]

mod declarators;

pub use declarators::{is_bad_declarator, is_bad_param, is_on_void};
