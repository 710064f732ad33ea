mod accesses;
mod carried;
mod starts;

pub use accesses::{
    accesses_are_carried, event_keeps_accesses_agreed, histories_agree_on_accesses,
    opening_agrees_on_accesses, reads_have_their_requests, writes_have_their_packets,
};
pub use carried::{
    events_end_with_their_causes, machine_is_carried, successes_have_their_responses,
};
pub use starts::{event_keeps_starts_agreed, histories_agree_on_starts, opening_agrees_on_starts};
