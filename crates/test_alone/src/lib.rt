//! Tests of groups of domains: of traces that another program wrote, whether groups are closed, and their replies as
//! that program printed them.
//!
//! It has nothing but tests.
#![tactic(auto)]

#[cfg(test)]
mod tests;
#[cfg(test)]
mod traces;
