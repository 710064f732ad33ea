//! Tests above the queues: worked calls of saved results, work queues, shared receive queues, mailboxes and
//! weather, and drawn calls beside plain lists.
//!
//! It has nothing but tests, so that the crates below are proved once.
#![tactic(auto)]

#[cfg(test)]
mod tests;
