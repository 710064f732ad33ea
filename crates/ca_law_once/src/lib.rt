//! Laws of links: every history that follows the machine over a limited configuration, with events that can be made, is
//! Once, Written and WrittenOnce. To the layers above it promises, as clauses of functions that do nothing:
//!
//! - What the machine does at a queue pair is a move of a link. Whatever a row makes of a packet, a link's side may
//!   make of it, whichever keys, bytes and refusals it meets; the bytes of a packet that is sent decode, if they
//!   decode, to the packet of the link; the connection's other direction leaves the side, or empties its response
//!   queue; and each of these, and each timer, wake and local operation, leads from a link that moves lead to to
//!   another one.
//! - Before the first event a world is tied to the opening link of each direction of a connection. Each event whose
//!   answer agrees with the direction, in a world that is tied to a link, leaves one that is tied to a link to which
//!   moves lead; and the marks of a turn tell of the requests under way. Queue pairs begin empty: nothing is posted
//!   before Rts, and there are no peer, no saved results and no envelopes before Rtr.
//! - In such a world the PSN of each packet that may be delivered is taken for the number with which the packet was
//!   sent, and the numbers of the two ends form a chain. An event tells of the success of an atomic only where the link
//!   accepted that atomic once, and the number that it found is what the event put into lists; of the success of a SEND
//!   or a WRITE only where all its numbers lie below the link's expected one.
//! - Each clean connection of a history is a link in each direction. The finished history tells the direction
//!   (`direction_of`): the PSN that the receiving end expects, the path MTU, and the requests that the sending end
//!   posted. Entry by entry the world stays tied to a link of it, and the past says the same (`IsTold`). So each atomic
//!   of a clean connection acts at most once, and exactly once, with the number that it found in its list, where it
//!   completed with success; and the packets of a WRITE write in order, each at most once, and all of them before the
//!   WRITE completes with success.
//!
//! They hold of the machine's definitions, and no code is in them.
//!
//! Source: InfiniBand Architecture Specification Volume 1, the chapters on transport services (reliable connection) and
//! on software transport interfaces.
#![tactic(auto)]

mod arrival;
mod laws;
mod links;
mod requester;
mod responder;
mod turns;

pub use arrival::{
    arrival_leaves_state, arriving_request_is_received, arriving_response_is_taken,
    other_request_stays, other_response_forgets,
};
pub use laws::{
    atomics_act_at_most_once, clean_connections_are_links, create_keeps_ties, delivery_keeps_ties,
    destroy_keeps_ties, ends_form_a_chain, ends_keep_ties, event_keeps_beginnings,
    event_keeps_lists, event_keeps_ties, machine_is_once, machine_is_written, machine_writes_once,
    mail_follows_paths, opening_begins_empty, opening_is_tied, opening_lists_fit,
    other_verbs_keep_ties, request_keeps_ties, requests_arrive_as_sent, respond_keeps_ties,
    responses_arrive_as_sent, successes_are_found, timers_keep_ties,
};
pub use links::{
    loss_moves, received_request_moves, sent_request_moves, sent_response_moves,
    taken_response_moves,
};
pub use requester::{packet_row_is_sent, response_row_is_taken};
pub use responder::{request_row_is_received, respond_row_is_responded};
pub use turns::{
    operation_stays, packet_row_forgets, respond_row_stays, timeout_goes_back, turns_leave_state,
    turns_send_their_packets, wake_stays,
};
