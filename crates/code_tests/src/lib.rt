//! Which three-address and wide code is valid, copies and chains of one program, and the tag rule.
#![tactic(auto)]

#[cfg(test)]
mod covers;
#[cfg(test)]
mod marks;
#[cfg(test)]
mod three_address;
#[cfg(test)]
mod wide;
