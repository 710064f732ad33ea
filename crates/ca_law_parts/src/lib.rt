//! Laws of parts: what an event touches, and what numbers and queues keep to. To the layers above it promises, as
//! clauses of functions that do nothing:
//!
//! - Worlds are placed: what is not configured stays vacant, and all things that an event looks at, reads, changes or
//!   writes are configured, and so are the queue pairs of completions that wait.
//! - An event touches only what stands in the parts that a table names for it, and these are few. The table is data: a
//!   part, or what a thing decides. So which part is needed next follows from those in hand, and naming one after
//!   another comes to an end.
//! - Numbers that only events raise are 0 before the first event. Every event raises each by one at most, and whole
//!   PSNs, which begin below 2^25, by 4096. So before 2^32 - 1 events each of them that a call asks to be below the end
//!   of its type is.
//! - Completion queues have room: each completion of an event finds a place in its completion queue, which holds at
//!   most its capacity, and at most so many receives of one queue pair as this may post.
//! - One record has all that holds of a world that comes up: it holds before the first event, and every event that can
//!   be made keeps it. So whoever acts on parts of a world has one premise, from which each law gives what a call asks
//!   for.
//!
//! They hold of the machine's definitions, and no code is in them.
//!
//! Source: this profile's choice. Placed worlds are what an implementation with a slot for each configured thing needs,
//! the bounds are what its calls ask for, and the room is what each queue pair reserved when it was made.
#![tactic(auto)]

mod laws;

pub use laws::{
    MAX_EVENT_PARTS, bound_windows_can_rise, completed_places_can_be_freed,
    completion_queues_hold_what_waits, completions_of_an_event_fit, event_keeps_room,
    event_keeps_worlds_placed, event_leads_on, event_needs_configured_parts, event_needs_few_parts,
    event_raises_numbers_little, event_touches_configured, event_touches_its_parts,
    held_parts_serve_rows, held_parts_serve_turns, held_parts_suffice, incarnation_can_rise,
    mailbox_can_count, next_part_comes_to_an_end, next_part_is_needed, next_part_is_shown,
    opening_comes_up, opening_world_has_no_numbers, opening_world_has_room,
    opening_world_is_placed, places_in_use_are_within, posting_places_can_rise,
    queue_pair_can_step, queues_in_use_are_there, sharing_queues_have_no_receives, users_can_rise,
    vacant_slots_reserve_nothing, waiting_completions_are_configured, waiting_receives_stand_apart,
    waiting_receives_stand_once, worlds_after_events_are_within,
};
