//! Tests above the fabric: adapters that four threads share, each with a pass and queue pairs of its own.
//!
//! It has nothing but tests, so that the crate below is proved once.
#![tactic(auto)]

#[cfg(test)]
mod tests;
