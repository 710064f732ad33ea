//! Tests of the public functions of `ca_outside`, at each of its sources and sinks.
//!
//! Nothing stands on this crate: tests stand above the crate that they try, so that its proof is paid once.
//!
//! Source: as that of `ca_outside`, this profile's own choice.
#![tactic(auto)]

#[cfg(test)]
mod tests;
