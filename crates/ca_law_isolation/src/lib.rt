//! Laws of domains: every history that follows the machine over a limited configuration, with events that can be made,
//! is Isolated. To the layers above it promises, as clauses of functions that do nothing:
//!
//! - An event touches things of its own domain alone, but for the peer of the queue pair whose turn it is, and bytes
//!   that its domain's regions grant; an event of others leaves a group's things as they were; and a closed group has
//!   no peer outside it.
//! - The marks of an event in a sound world keep to bounds: no more bytes at once than a Store may have, and no byte
//!   behind the end of its buffer.
//! - In such a history the events of each closed group have the marks that they have in the group's lone run: the run
//!   over the bytes that its grants cover, of its own events alone and of Stores for what others write there.
//!
//! They hold of the machine's definitions, and no code is in them.
//!
//! Source: this profile's choice; protection domains, memory regions and grants are those of the software transport
//! interface, InfiniBand Architecture Specification Volume 1. The longest payload is that of the largest path MTU.
#![tactic(auto)]

mod laws;

pub use laws::{
    closed_groups_stay_within, event_keeps_windows_beside, event_touches_granted_bytes,
    event_touches_its_domain, group_events_depend_on_the_group, machine_is_isolated,
    marks_are_bounded, opening_world_binds_beside, others_leave_things_as_they_were,
};
