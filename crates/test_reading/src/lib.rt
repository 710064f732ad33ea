//! Tests of the trace read back: lines and texts that another program wrote, and such with one thing changed.
//!
//! It has nothing but tests, so that the crates of the reader are proved once.
#![tactic(auto)]

#[cfg(test)]
mod tests;
#[cfg(test)]
mod texts;
