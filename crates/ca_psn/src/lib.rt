//! The arithmetic of packet sequence numbers, which count modulo 2^24.
//!
//! To the layers above it promises which packets are expected, which are duplicates and which are ahead, and the one
//! whole number near another that a packet's number stands for, so that no other place of the project knows where the
//! numbers wrap.
//!
//! Source: InfiniBand Architecture Specification Volume 1, the chapter on transport services (packet sequence numbers
//! of the reliable connection). Which numbers are duplicates is this profile's choice.
#![tactic(auto)]

mod class;
mod law;
mod psn;

pub use class::Class;
pub use law::class_is_side;
pub use psn::{classify, widen};

#[cfg(test)]
mod tests;
