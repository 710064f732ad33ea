//! Tests of the requester: runs of one queue pair over one region, whose packets, marks and reasons are compared with
//! those that another program reckoned from the rules, and with exact answers by hand.
//!
//! It has nothing but tests, so that the crates below are proved once.
#![tactic(auto)]

#[cfg(test)]
mod tests;
