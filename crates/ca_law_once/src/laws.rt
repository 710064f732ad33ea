mod bounds;
mod once;
mod success;
mod ties;
mod verbs;
mod written;

pub use bounds::{ends_form_a_chain, requests_arrive_as_sent, responses_arrive_as_sent};
pub use once::{atomics_act_at_most_once, clean_connections_are_links, machine_is_once};
pub use success::{event_keeps_lists, opening_lists_fit, successes_are_found};
pub use ties::{
    create_keeps_ties, delivery_keeps_ties, destroy_keeps_ties, ends_keep_ties, mail_follows_paths,
    opening_is_tied, other_verbs_keep_ties, request_keeps_ties, respond_keeps_ties,
    timers_keep_ties,
};
pub use verbs::{event_keeps_beginnings, event_keeps_ties, opening_begins_empty};
pub use written::{machine_is_written, machine_writes_once};
