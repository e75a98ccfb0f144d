//! Laws of words: what effect an operation may have, operations with other registers, and worked words and cycles.
#![tactic(auto)]
