mod lists;
mod ordered;
mod polls;
mod receives;
mod sends;

pub use lists::{event_keeps_lists_agreed, histories_agree_on_lists, opening_agrees_on_lists};
pub use ordered::machine_is_ordered;
pub use polls::{
    event_keeps_polls_agreed, histories_agree_on_polls, opening_agrees_on_polls,
    polls_give_in_order,
};
pub use receives::{
    event_keeps_receives_agreed, histories_agree_on_receives, opening_agrees_on_receives,
    receives_complete_in_order,
};
pub use sends::{
    event_keeps_completed_agreed, histories_agree_on_completed, opening_agrees_on_completed,
    sends_complete_in_order,
};
