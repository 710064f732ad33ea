//! Tests above the low layers: that each public call which can answer out of memory gives its value where memory is
//! ample, and how many parts a configuration has.
//!
//! It has nothing but tests, so that the crates below are proved once.
#![tactic(auto)]

#[cfg(test)]
mod tests;
