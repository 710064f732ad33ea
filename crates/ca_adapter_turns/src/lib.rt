//! Acts on turns: what a queue pair's engines send, and what its timer and its wake do, with the parts in hand.
//!
//! To the layers above it promises that each act is the plan of its event, carried out in the small world of what is held:
//! the same marks and changes, the same reason where the turn is not possible, and where memory ends, none.
//!
//! Source: InfiniBand Architecture Specification Volume 1, the chapter on the transport layer, sections on the requester
//! of the reliable connection; who may take which turn when is this profile's choice.
#![tactic(auto)]

mod answering;
mod leave;
mod requesting;
mod sending;
mod timers;

pub use answering::respond;
pub use ca_adapter_acts;
pub use ca_requester;
pub use ca_requester::ca_requester_sends;
pub use requesting::send_packet;
pub use timers::{rnr_wake, timeout};
