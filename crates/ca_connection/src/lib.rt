//! A connection over whole numbers: one direction of it as a small protocol, and why each packet acts once, whatever is
//! lost, repeated or late. To the layers above it promises, of every link that the moves lead to, that the PSN of a
//! packet that is delivered stands for the number with which it was sent, that each number is accepted once, that an
//! atomic which completed acted exactly once and gave what it found, and that a response fits the request that has its
//! number. In calm weather each packet is delivered once, in the order of sending, and no timer fires. Of every link
//! that calm moves lead to it promises that the oldest undelivered request is the one that the responder expects; that
//! the oldest undelivered response passes no READ and no atomic that is unanswered, and is no sequence error; and that
//! the requester's cursor never goes back, so that it never sends a number again. No function here does anything: each
//! is a law, and its contract says it.
//!
//! Source: InfiniBand Architecture Specification Volume 1, the chapter on transport services (reliable connection). The
//! limits, and how duplicates are answered, are this profile's choice.
#![tactic(auto)]

mod bounds;
mod causes;
mod invariant;
mod laws;
mod numbers;
mod once;

pub use bounds::{numbers_form_a_chain, request_is_near, response_is_near};
pub use causes::{nak_has_its_rejection, response_fits_its_request};
pub use invariant::{link_is_sound, move_keeps_sound, opening_is_sound};
pub use laws::{
    calm_cursor_goes_on, calm_links_are_calm, calm_links_are_links, calm_move_keeps_calm,
    oldest_request_is_expected, oldest_response_passes_nothing, opening_is_calm,
};
pub use numbers::{
    acknowledgement_stops_at_first_unanswered, longest_message, number_has_a_request,
    number_has_one_request, number_of_psn, packet_ends_within_its_request, read_asks_for_the_rest,
};
pub use once::{
    acceptance_is_of_its_request, atomic_acts_once, atomic_that_succeeded_completed,
    completed_atomic_acted_once, number_is_accepted_once, numbers_are_accepted_in_order,
    packet_acts_once, packet_of_success_acted_once, passed_request_acted_once,
};
