//! Tests of the packets: what other programs say of the same bytes, and the packets of the worked examples.
//!
//! It has nothing but tests, so that the crate of the packets is proved once.
#![tactic(auto)]

#[cfg(test)]
mod tests;
