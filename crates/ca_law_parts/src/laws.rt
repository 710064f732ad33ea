mod names;
mod numbers;
mod parts;
mod room;
mod worlds;

pub use names::{
    event_keeps_worlds_placed, event_touches_configured, opening_world_is_placed,
    waiting_completions_are_configured,
};
pub use numbers::{
    bound_windows_can_rise, completed_places_can_be_freed, event_raises_numbers_little,
    incarnation_can_rise, mailbox_can_count, opening_world_has_no_numbers,
    places_in_use_are_within, posting_places_can_rise, queue_pair_can_step, users_can_rise,
    worlds_after_events_are_within,
};
pub use parts::{
    MAX_EVENT_PARTS, event_needs_configured_parts, event_needs_few_parts, event_touches_its_parts,
    held_parts_serve_rows, held_parts_serve_turns, held_parts_suffice, next_part_comes_to_an_end,
    next_part_is_needed, next_part_is_shown,
};
pub use room::{
    completion_queues_hold_what_waits, completions_of_an_event_fit, event_keeps_room,
    opening_world_has_room, queues_in_use_are_there, sharing_queues_have_no_receives,
    vacant_slots_reserve_nothing, waiting_receives_stand_apart, waiting_receives_stand_once,
};
pub use worlds::{event_leads_on, opening_comes_up};
