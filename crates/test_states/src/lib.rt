//! Tests above the states of queue pairs: each change from each state, each field at both edges of its range, and what
//! creation and the changes make of a queue pair.
//!
//! It has nothing but tests, so that the crates below are proved once.
#![tactic(auto)]

#[cfg(test)]
mod tests;
