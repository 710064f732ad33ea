//! What it is that a history is one of a script, and the order in which a script is worked.
//!
//! To the layers above it promises that the order of a script is a history of it, that where the order ends before
//! all events that the script allows are made, all is quiet, and that its status says how it ended. They hold of
//! the machine's definitions, and no code is in them. The same is said of rounds that start at any stage to which a
//! history of the script leads.
//!
//! Source: this profile's choice; the standard says nothing of the order in which channel adapters work.
#![tactic(auto)]

mod laws;

pub use ca_model_places;
pub use laws::{
    orders_are_of_their_scripts, orders_end, orders_follow_the_machine, orders_have_their_status,
    rounds_add_entries, rounds_are_of_their_scripts, rounds_end, rounds_follow_the_machine,
    stages_have_their_status,
};
