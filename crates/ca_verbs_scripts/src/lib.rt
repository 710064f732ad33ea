//! What passes of a fabric called of a script, and that their one history is a history of the script.
//!
//! To the layers above it promises, as clauses of functions that do nothing, that a list of the machine is a history of
//! a script where each of its entries was a verb or a turn under the script's weather, no timer and no wake, and each
//! consumer called the verbs of its lines in order, none before the clock for which it waited; and that what passes
//! called together so is in such a list.
//!
//! Source: this profile's choice; the standard leaves open how an adapter orders what its consumers do at once.
#![tactic(auto)]

mod laws;

pub use laws::{worked_histories_are_of_their_scripts, works_are_in_their_history};
