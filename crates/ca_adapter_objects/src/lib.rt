//! Acts on objects: what the verbs on domains, regions, windows, completion queues and shared receive queues do with the
//! parts in hand, and those on host memory.
//!
//! To the layers above it promises that each act is the plan of its verb, carried out in the small world of what is
//! held: the same marks and changes, and where memory ends, none.
//!
//! Source: InfiniBand Architecture Specification Volume 1, the chapter on the verbs; the order of refusals is this
//! profile's choice.
#![tactic(auto)]

mod completion_queues;
mod domains;
mod host;
mod regions;
mod shared_receives;
mod windows;

pub use completion_queues::{create_cq, destroy_cq};
pub use domains::{alloc_pd, dealloc_pd};
pub use host::{load, store};
pub use regions::{alloc_mr, dereg_mr, reg_mr};
pub use shared_receives::{create_srq, destroy_srq};
pub use windows::{alloc_mw, dealloc_mw};
