//! All parts of a fabric on one thread: one event after another.
//!
//! To the layers above it promises that the row of all parts stands for a world of the machine, and that an event on it is
//! the machine's step there: the marks, and the row of the world after it; or the reason why it is not possible, and the
//! row as it was. What a list of events comes to is what the machine runs from the opening, and a history that is judged,
//! licensed and ordered.
//!
//! Source: this profile's choice.
#![tactic(auto)]

mod events;
mod hand;
mod likely;
mod looks;
mod row;

pub use ca_adapter;
pub use ca_adapter::ca_requester_sends;
pub use ca_adapter_opening;
pub use ca_adapter_parts;
pub use events::{ReplayError, replay};
pub use hand::Taken;
pub use row::Row;
