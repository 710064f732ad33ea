mod sound;
mod steady;
mod windows;

pub use sound::{event_keeps_worlds_sound, opening_world_is_sound};
pub use steady::{event_keeps_queue_pairs_steady, opening_queue_pairs_are_steady};
pub use windows::{
    bound_window_is_counted, ended_window_is_counted, event_keeps_windows_counted,
    opening_world_counts_windows,
};
