//! A script worked on one thread, in its order: whoever is next is offered by the engine, and what is possible is made on
//! the row of all parts.
//!
//! To the layers above it promises that what comes of a script is its order, entry by entry, and how it ended its
//! status. So it follows the machine, each of its events has the weather's word, and where it ended before all events
//! that the script allows were made, all is quiet. And what comes of a script that others worked so far are the rounds
//! from there. Whether a script can be worked is answered exactly, so that whoever makes one by hand can ask.
//!
//! Source: this profile's choice; the standard says nothing of the order in which channel adapters work.
#![tactic(auto)]

mod events;
mod known;
mod progress;
mod status;
mod turns;
mod visits;
mod work;
mod workable;

pub use ca_adapter_store;
pub use ca_adapter_store::ca_adapter;
pub use progress::Progress;
pub use status::Status;
pub use work::{Worked, finish_script, work_script};
pub use workable::is_workable;
