//! The parts of a fabric that an event has in hand, by kinds, and what they are as a world.
//!
//! To the layers above it promises that what is held is seen as a small world, vacant wherever nothing is held, beside
//! tests of names; that a part is added and given back under its name, and nothing else changes; and that reading and
//! changing a held part is reading and changing the thing of that name there.
//!
//! Source: this profile's choice; the parts are the objects of the software transport interface, InfiniBand
//! Architecture Specification Volume 1.
#![tactic(auto)]

mod held;
mod part;

pub use ca_qpstate;
pub use held::Held;
pub use part::{ControlPart, Part, QueueSlot, SrqSlot};
