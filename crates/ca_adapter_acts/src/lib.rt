//! Acts of an adapter: what all acts share. The call that is answered and the marks of its answer, copies of requests,
//! completions that are put into held queues, and how what was done completes. To the layers above it promises the
//! marks of each answer, and that completions go to the queues of their queue pair in their order; where memory ends,
//! nothing has changed. And, as a clause of a function that does nothing, that an event's plan carried out with the
//! parts in hand is the machine's step in every world that shows them.
//!
//! Source: InfiniBand Architecture Specification Volume 1, the chapter on the verbs; that an event has a few parts in
//! hand is this profile's choice.
#![tactic(auto)]

mod answers;
mod completions;
mod copies;
mod depths;
mod done;
mod laws;

pub use answers::{Call, Ready};
pub use completions::{completions_to, put_completions};
pub use copies::{copy_of_send, copy_of_small};
pub use depths::is_no_depth;
pub use done::{Outlets, put_done};
pub use laws::act_is_step;
