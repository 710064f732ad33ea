//! Isolation: groups of domains, and what their events come to by themselves. Whether a group is closed in a history,
//! the replies to it, and its lone run: its own events, and in the place of each write of another event Stores into the
//! bytes that its grants cover. To the layers above it promises that calls say which domains and events are a group's
//! own, that one names the first queue pair of a group that named a stranger, that another gives the replies to the
//! group, and that a third gives the events of the lone run, one for one, where each run that the history grants ends
//! among the 2^32 bytes that places can name; want of memory is its only refusal. And, as clauses of functions that do
//! nothing, that the Stores leave in covered bytes what the write leaves there, and that the lone list has the group's
//! events and no other event of domains, so that its replies are those of the history. Offsets and lengths are in
//! bytes.
//!
//! Source: this profile's choice; protection domains and grants are those of the software transport interface,
//! InfiniBand Architecture Specification Volume 1.
#![tactic(auto)]

mod answers;
mod cover;
mod events;
mod extent;
mod group;
mod in_force;
mod laws;
mod stores;
mod strays;
mod stretch;

pub use answers::replies;
pub use events::alone;
pub use group::{has_domain, is_own};
pub use laws::{lone_list_has_the_replies, stores_write_what_was_written};
pub use strays::closed;
pub use stretch::Stretch;
