//! Acts on packets that arrive: what the delivery of an envelope and the host's injection of bytes do with the parts in
//! hand.
//!
//! To the layers above it promises that each act is the plan of its event, carried out in the small world of what is
//! held: the same marks and changes, the same reason where no envelope is kept, and where memory ends, none. The bytes
//! stay where they lie, and are read once.
//!
//! Source: InfiniBand Architecture Specification Volume 1, the chapter on the transport layer, sections on the
//! requester and the responder of the reliable connection; mailboxes and the injection of bytes are this profile's choice.
#![tactic(auto)]

mod arriving;
mod delivery;
mod injection;

pub use ca_adapter_turns;
pub use delivery::deliver;
pub use injection::inject;
