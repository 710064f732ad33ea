mod judged;
mod keys;
mod licensed;
mod posts;
mod ways;

pub use judged::machine_is_judged;
pub use keys::{
    asks_meet_what_is_in_force, event_keeps_keys_agreed, histories_agree_on_keys,
    opening_agrees_on_keys,
};
pub use licensed::{
    grants_are_as_asked, grants_stand_alone, keys_end_as_asked, keys_end_in_force,
    machine_is_licensed, successes_have_their_effects, windows_lie_in_their_regions,
};
pub use posts::{event_keeps_posts_agreed, histories_agree_on_posts, opening_agrees_on_posts};
pub use ways::histories_agree_on_ways;
