//! Laws of histories on failures: every history that follows the machine over a limited configuration, with events that
//! can be made, is Caused. To the layers above it promises, as clauses of functions that do nothing:
//!
//! - Before the first event and after each, something befell each queue pair in Error, and the past knows how far the
//!   sends of each that sends are answered: up to which PSN, with how many retries and RNR NAKs since then, and which
//!   PSN its oldest unfinished request begins with. Each NAK that waits or is under way has its reason among what
//!   befell the queue pair that sends it.
//! - Each completion that is no success has the cause of its status: a receive that fails by its list has that list, a
//!   refused request of a clean connection has its reason at the peer, and on a clean connection no answer misfits its
//!   request.
//! - In any history these causes together are all of Caused, and so such a history is Caused.
//!
//! They hold of the machine's definitions, and no code is in them.
//!
//! Source: InfiniBand Architecture Specification Volume 1, the chapter on the software transport interface, section on
//! completion return status, and the chapter on the transport layer, section on errors of requesters and responders; a
//! history is what the relations on histories speak of.
#![tactic(auto)]

mod laws;

pub use laws::{
    answers_fit_on_clean_connections, causes_and_rest_are_caused, completions_have_their_causes,
    event_keeps_causes_agreed, histories_agree_on_causes, histories_agree_on_reasons,
    lists_and_link_are_the_rest, machine_has_relations, machine_is_caused,
    machine_is_caused_but_for_the_link, opening_agrees_on_causes,
    receives_complete_with_their_lists, refusals_have_befallen_peers,
};
