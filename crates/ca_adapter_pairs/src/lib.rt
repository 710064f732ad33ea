//! Acts on queue pairs: what ModifyQp, QueryQp and DestroyQp do with the parts in hand.
//!
//! To the layers above it promises that each act is the plan of its verb, carried out in the small world of what is
//! held: the same marks and changes, and where memory ends, none.
//!
//! Source: InfiniBand Architecture Specification Volume 1, the chapter on the software transport interface, sections on
//! queue pairs and their states, and the chapter on its verbs; the order of refusals is this profile's choice.
#![tactic(auto)]

mod around;
mod change;
mod departure;
mod destroy;
mod flush;
mod mailbox;
mod modify;
mod query;

pub use destroy::destroy_qp;
pub use modify::modify_qp;
pub use query::query_qp;
