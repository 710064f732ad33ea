//! What the latest atomics of a queue pair found, by PSN, for the answers to their duplicates.
//!
//! To the layers above it promises that the results of the last 16 atomics can be found, that an older one is gone, and
//! that a result is what was kept at that PSN last.
//!
//! Source: InfiniBand Architecture Specification Volume 1, the chapter on transport services, section on the atomic
//! operations of the reliable connection (the responder's resources). That 16 are kept is this profile's choice.
#![tactic(auto)]

mod saved;

pub use saved::Saved;
