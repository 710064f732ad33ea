//! What a requester sends, and how its requests end: the posted requests with their PSNs; the turn, which sends a packet or
//! performs a local operation; and the completions of requests that succeed, and of one that fails with all that is flushed
//! behind it.
//!
//! To the layers above it promises that a turn ends as the machine's row says, for all of the queue pair, the marks and the
//! packet, or does nothing for the first reason that stands against it; that it touches no byte by an ask that is denied;
//! that it hands on no other asks than it named before; and that requests are numbered, found and finished as the machine
//! numbers, finds and finishes them, in their order.
//!
//! Source: InfiniBand Architecture Specification Volume 1, the chapter on the transport layer, sections on the requester
//! of the reliable connection. Which packets ask for an acknowledgement is this profile's choice.
#![tactic(auto)]

mod finished;
mod local;
mod numbering;
mod outcome;
mod packet;
mod sending;
mod state;
mod turn;

pub use ca_qp_rows;
pub use ca_qp_rows::{ca_grant, ca_qpstate};
pub use finished::{complete_before, finished_count, push_finished};
pub use local::{local_done, next_local};
pub use numbering::{Numbered, begun_at};
pub use outcome::{Failure, Outcome, make, one_retry};
pub use sending::{next_asks, next_packet};
pub use state::is_sending;
pub use turn::{Found, Turn, next_turn};
