//! Tests of an adapter's verbs: runs over a row of all parts, whose answers, marks and refusals are compared with those that
//! another program reckoned from the rules.
//!
//! It has nothing but tests, so that the crates below are proved once.
#![tactic(auto)]

#[cfg(test)]
mod tests;
