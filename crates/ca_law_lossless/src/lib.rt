//! Laws of calm weather: a link that loses nothing. To the layers above it promises, as clauses of functions that do
//! nothing:
//!
//! - A response which passes no READ and no atomic that is unanswered, and is neither a sequence error nor an RNR NAK,
//!   leaves the requester's cursor, and brings `una` to where it reaches.
//! - A request which the responder expects is admitted as a calm link's responder admits it, and leaves the queue pair
//!   as that link's responder stands; a turn of the responder sends the front of its response queue, or denies a READ
//!   and closes it; and what is sent says so.
//! - Before the first event a world is tied to the calm link before the first packet. Each event of calm weather (each
//!   packet passes, each delivery is of what is due, nothing is lost or injected, and no timer fires) leaves a world
//!   that is tied to a calm link, and does not lower the cursor of the life that sends.
//! - Where mail is in order, a requester does not come to wait for a wake, no packet is dropped for what it is itself,
//!   and what is sent is for the peer.
//!
//! They hold of the machine's definitions, and no code is in them.
//!
//! Source: InfiniBand Architecture Specification Volume 1, the chapters on transport services (reliable connection: RNR
//! NAK) and on packets (P_Key, destination queue pair).
#![tactic(auto)]

mod laws;

pub use laws::{
    arrival_keeps_calm, calm_event_keeps_ties, expected_request_is_admitted,
    expected_request_stands, opening_is_calmly_tied, response_row_takes_calmly,
    turns_answer_calmly, turns_keep_calm, turns_send_to_peers,
};
