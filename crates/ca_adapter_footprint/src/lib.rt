//! Which part of a fabric an event needs next, beside those in hand.
//!
//! To the layers above it promises that the part which is named is the one that the machine's table of parts names, by
//! what the parts in hand show. So naming and taking one after another comes to an end, and then all that the event
//! touches is in hand.
//!
//! Source: this profile's choice.
#![tactic(auto)]

mod around;
mod arrivals;
mod events;
mod keys;
mod missing;
mod named;
mod turns;
mod verbs;

pub use ca_requester::ca_requester_sends;
pub use events::next_part;
pub use named::is_named;
