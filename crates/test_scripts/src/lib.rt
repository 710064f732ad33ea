//! Tests of scripts, and of the offers of an engine: what an independent program says of scripts, good and bad, and
//! what made scripts mean as text; and the offers to two consumers and three queue pairs beside lists written by hand.
//! It has nothing but tests, so that the crates of the reader and the engine are proved once.
#![tactic(auto)]

#[cfg(test)]
mod engine_tests;
#[cfg(test)]
mod guide;
#[cfg(test)]
mod rows;
#[cfg(test)]
mod scripts_tests;
