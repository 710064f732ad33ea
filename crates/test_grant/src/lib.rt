//! Tests of the key check and of local operations, by a small engine over a window, a region and a buffer.
//!
//! It has nothing but tests, so that the crates below are proved once.
#![tactic(auto)]

#[cfg(test)]
mod tests;
