//! Acts on queue pairs: what CreateQp does with the parts in hand.
//!
//! To the layers above it promises that the act is the plan of its verb, carried out in the small world of what is held:
//! the same marks and changes, and where memory ends, none.
//!
//! Source: InfiniBand Architecture Specification Volume 1, the chapter on the software transport interface, sections on
//! queue pairs and their states, and the chapter on its verbs; the order of refusals is this profile's choice.
#![tactic(auto)]

mod create;
mod creation;
mod reservations;

pub use create::create_qp;
pub use creation::Creation;
