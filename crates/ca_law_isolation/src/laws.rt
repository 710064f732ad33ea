mod domains;
mod isolated;
mod writes;

pub use domains::{
    closed_groups_stay_within, event_keeps_windows_beside, event_touches_granted_bytes,
    event_touches_its_domain, group_events_depend_on_the_group, opening_world_binds_beside,
    others_leave_things_as_they_were,
};
pub use isolated::machine_is_isolated;
pub use writes::marks_are_bounded;
