//! The parts of a fabric before the first event, in the order of their places.
//!
//! To the layers above it promises that the row has one part for each configured name, at the place of that name, and
//! that each is what the machine begins with: a vacant slot, or a buffer with its contents, which may be zeros
//! (`zero_contents`). A law says so of the world.
//!
//! Source: this profile's choice; the parts are the objects of the software transport interface, InfiniBand
//! Architecture Specification Volume 1.
#![tactic(auto)]

mod adapters;
mod buffers;
mod domains;
mod laws;
mod limits;
mod row;
mod slots;
mod zeros;

pub use laws::{opening_parts_are_of_their_kinds, opening_parts_are_the_opening_world};
pub use limits::{fit_contents, is_limited, is_within};
pub use row::parts;
pub use zeros::zero_contents;
