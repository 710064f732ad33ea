//! Laws of worlds: what holds of every world that comes up under events. To the layers above it promises, as clauses of
//! functions that do nothing, that the world before the first event is sound, that no window is bound there and that
//! its queue pairs are steady; and that every event that can be made keeps this. A sound world has in each thing what
//! an implementation needs to be safe. Bound windows are counted by their regions and queue pairs, and each lies in
//! what its region grants, which is valid. In steady queue pairs it is known which requests are unfinished, and from
//! which PSN on. The laws hold of the machine's definitions, and no code is in them.
//!
//! Source: this profile's choice. The counts are what the refusals of deregistration, reset and destruction look at;
//! that what is unfinished can be sent, answered or given up rests on steady queue pairs.
#![tactic(auto)]

mod laws;

pub use laws::{
    bound_window_is_counted, ended_window_is_counted, event_keeps_queue_pairs_steady,
    event_keeps_windows_counted, event_keeps_worlds_sound, opening_queue_pairs_are_steady,
    opening_world_counts_windows, opening_world_is_sound,
};
