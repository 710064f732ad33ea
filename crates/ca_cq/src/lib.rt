//! A completion queue: the room that queue pairs reserved in it, and the completions that wait to be polled. To the
//! layers above it promises that a reservation is refused as too large exactly where the capacity is too small for it,
//! that there is room for a completion where its reservation has room left, that completions are given in the order in
//! which they were put, that none is lost, and that a queue pair's completions are removed together. It is a ring of
//! things; of any such ring it promises that those which are to be removed are gone, and that the others keep their
//! order.
//!
//! Source: InfiniBand Architecture Specification Volume 1, the chapter on the software transport interface, section on
//! completion queues. That a queue pair reserves its room, and that completion queues and shared receive queues are
//! rings, is this profile's choice.
#![tactic(auto)]

mod cq;
mod cq_error;
mod laws;
mod removal;
mod reservation;
mod ring;

pub use cq::Cq;
pub use cq_error::CqError;
pub use laws::{calls_keep_room, release_undoes_reserve, reservation_makes_room};
pub use removal::{Removal, remove};
