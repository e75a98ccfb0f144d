//! Worked rows of the definitions of typing and layout: what they say of small trees, each by computing.
#![tactic(auto)]
