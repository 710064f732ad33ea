//! The adapter: what an event does with the parts in hand, by the machine. To the layers above it promises that an act
//! is the event's plan, carried out in the small world of what is held, and so the machine's step in every world that
//! shows it: the same marks and changes, the same reason where the event is not possible, and where memory ends nothing
//! has changed. Whoever acts shows that the parts in hand are those of a world that comes up, and that none which the
//! event needs is missing. A requester's turn is among the acts: it sends a packet of a request, performs a local
//! operation, or waits. And it promises, as clauses of functions that do nothing, that in every world that comes up a
//! queue pair can be changed and can leave what stands around it: what a flush completes fits, few receives wait, and
//! each place that it holds of a shared receive queue stands there once. It says so of the world, and of the parts in
//! hand that such a world shows.
//!
//! It hands out what a caller needs for one event: `place` and `parts`, `Held` with what is in it, `next_part` and `act`.
//!
//! Source: InfiniBand Architecture Specification Volume 1, the chapters on the verbs, on the software transport
//! interface, sections on queue pairs and shared receive queues, and on the transport layer, sections on the requester
//! of the reliable connection. The order of refusals, and who may take which turn when, are this profile's choice.
#![tactic(auto)]

mod events;
mod laws;
mod lists;
mod requesting;
mod verbs;

pub use ca_adapter_footprint::{ca_requester_sends, next_part};
pub use ca_adapter_opening::parts;
pub use ca_adapter_parts::{ControlPart, Held, Part, QueueSlot, SrqSlot};
pub use ca_adapter_posts::ca_qp_rows;
pub use ca_model_places::place;
pub use events::act;
pub use laws::{
    held_queue_pairs_can_change, held_queue_pairs_can_depart, queue_pairs_can_change,
    queue_pairs_can_depart,
};
pub use lists::lists_fit;
pub use requesting::request;
