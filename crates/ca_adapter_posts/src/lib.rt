//! Acts on work queues: what the verbs that post requests do with the parts in hand.
//!
//! To the layers above it promises that each act is the plan of its verb, carried out in the small world of what is held:
//! the same marks and changes, and where memory ends, none.
//!
//! Source: InfiniBand Architecture Specification Volume 1, the chapter on the verbs, Work Request Processing; the order of
//! refusals is this profile's choice.
#![tactic(auto)]

mod drawing;
mod flushes;
mod receives;
mod refusals;
mod sends;
mod shared_receives;
mod states;

pub use ca_qp_rows;
pub use receives::post_recv;
pub use sends::post_send;
pub use shared_receives::post_srq;
