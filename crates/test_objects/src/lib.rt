//! Tests of memory and of completion queues: what buffers and windows answer, with values reckoned from the rules;
//! worked calls of a completion queue, and drawn calls beside a plain list. It has nothing but tests, so that the
//! crates below are proved once.
#![tactic(auto)]

#[cfg(test)]
mod cq_tests;
#[cfg(test)]
mod memory_tests;
