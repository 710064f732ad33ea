//! Tests of memory regions: what each call grants and refuses, and where a region's bytes lie, with values reckoned
//! from the rules.
//!
//! It has nothing but tests, so that the crates below are proved once.
#![tactic(auto)]

#[cfg(test)]
mod tests;
