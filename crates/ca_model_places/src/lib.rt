//! The row of all parts of a fabric, and the turns of queue pairs' engines as a caller asks for them: events without
//! the weather's word on them. To the layers above it promises that a part has a place in the row exactly where it is
//! configured, and, as clauses of a function that does nothing, that the places of all parts are the numbers from 0
//! below `part_count`, each once. And which event a turn is in a world under a weather: the lot of what it sends,
//! whether its timer is hastened, and which envelope is due.
//!
//! Source: this profile's choice; the parts are the objects of the software transport interface, and the engines are
//! those of the transport layer, InfiniBand Architecture Specification Volume 1.
#![tactic(auto)]

mod laws;
mod places;

pub use laws::each_part_has_a_place;
pub use places::{is_configured, place};
