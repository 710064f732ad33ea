//! Acts on local operations: a bind, a fast registration and a Local Invalidate, as the requester's turn performs
//! them with the parts in hand.
//!
//! To the layers above it promises that the operation which a turn found is the plan of that turn, carried out in the
//! small world of what is held: the same marks and changes where it succeeds, the failure of its request with its
//! flushes where it is refused, and where memory ends, none.
//!
//! Source: InfiniBand Architecture Specification Volume 1, the chapter on the software transport interface, sections on
//! memory windows and on the base memory management extensions.
#![tactic(auto)]

mod bind;
mod fast_registration;
mod invalidation;
mod laws;
mod made;
mod operation;

pub use ca_adapter_turns;
pub use ca_adapter_turns::ca_requester;
pub use laws::operation_goes_by_no_lot;
pub use operation::perform;
