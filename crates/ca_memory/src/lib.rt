//! A buffer: bytes of an adapter's memory, which reads copy from, writes copy to, and atomics change eight at a time.
//!
//! To the layers above it promises that a buffer is a list of bytes. A read gives the bytes that memory holds at the
//! places of its run, and a write and an atomic leave memory as a write to the places of their run leaves it.
//!
//! Source: InfiniBand Architecture Specification Volume 1, the chapter on the transport layer, sections on RDMA WRITE,
//! RDMA READ and atomic operations.
#![tactic(auto)]

mod buffer;
mod number;

pub use buffer::Buffer;
pub use number::number_put;
