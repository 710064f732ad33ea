//! Laws: what keys reach of the parts in hand is what the machine reaches in the small world that these are.
//!
//! To the layers above it promises, as clauses of functions that do nothing, that what is seen of keys and memory by
//! the parts in hand is the machine's sight in their world; that parts of a world that comes up are as the calls of
//! `Reach` ask for; and that a write and the end of a key leave the world that the machine's writes and changes leave.
//! They hold of the definitions, and no code is in them.
//!
//! Source: this profile's choice.
#![tactic(auto)]

mod laws;

pub use ca_responder_operations;
pub use ca_responder_operations::ca_responder_answers;
pub use laws::{
    bytes_held_are_at_hand, end_is_the_machines, ends_held_are_at_hand, held_parts_fit,
    held_world_is_vacant_outside, rows_held_are_at_hand, rows_held_hold_what_comes_behind,
    rows_leave_what_the_machine_leaves, rows_perform_as_seen, sight_is_the_machines,
    writes_and_end_are_the_machines, writes_are_the_machines, writes_held_are_at_hand,
};
