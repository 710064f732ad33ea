//! The lone run of a group of domains, beside a script: the script is worked, and where the group is closed in its
//! history, the events that it makes alone are replayed from the same opening, and its replies there are printed.
//!
//! To the layer above it promises the history and the status of the script as they are without a group; that the queue
//! pair that is told is the first of the group that named a peer outside it; and else that the text is that of the replies
//! in the run of the group's events alone, which are those of the history. Want of memory is its only refusal.
//!
//! Source: this profile's choice; the standard says nothing of programs.
#![tactic(auto)]

mod collecting;
mod laws;
mod lone;
mod work;

pub use lone::{Lone, Outcome};
pub use work::work_alone;
