//! Tests of the text of calls: lines of verbs with their answers, of requests and of polls, which another program wrote,
//! and what prints of the same values.
//!
//! It has nothing but tests, so that the crate of the text is proved once.
#![tactic(auto)]

#[cfg(test)]
mod tests;
