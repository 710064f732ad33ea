//! The requester of a queue pair: what it sends, how it takes answers, when it goes back, and when it gives up. It
//! hands out the calls of `ca_requester_sends` beside its own.
//!
//! To the layers above it promises that each of its calls does what the machine's row says, with the queue pair, the
//! marks and the bytes that it writes, or nothing for the first reason that stands against it; that it touches no byte by
//! an ask that is denied; and that it hands on no other asks than it named before.
//!
//! Source: InfiniBand Architecture Specification Volume 1, the chapter on the transport layer, sections on the requester
//! of the reliable connection. That a bad answer fails its request is this profile's choice.
#![tactic(auto)]

mod progress;
mod responses;
mod taking;
mod timers;

pub use ca_requester_sends;
pub use ca_requester_sends::{
    Found, Turn, ca_qp_rows, local_done, next_asks, next_local, next_packet, next_turn,
};
pub use taking::{on_response, response_asks};
pub use timers::{on_rnr_wake, on_timeout};
