//! A shared receive queue: the receives that several queue pairs take from, from their posting to the poll of their
//! completion.
//!
//! To the layers above it promises that a receive keeps its posting place, that receives are taken in the order of their
//! posting, and that a place which was taken occupies the queue until it alone is freed.
//!
//! Source: InfiniBand Architecture Specification Volume 1, the chapter on the software transport interface, section on
//! shared receive queues.
#![tactic(auto)]

mod srq;
mod taken;

pub use srq::Srq;
