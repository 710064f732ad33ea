//! A work queue: the requests of a send queue or a receive queue from their posting to the poll of their completion.
//!
//! To the layers above it promises that a request keeps its posting place, that it occupies the queue until its place or
//! a later one is freed, and that requests are taken in the order of their posting.
//!
//! Source: InfiniBand Architecture Specification Volume 1, the chapter on the software transport interface, sections on
//! work queues and work completions.
#![tactic(auto)]

mod work_queue;

pub use work_queue::WorkQueue;
