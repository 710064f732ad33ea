mod calm_bounds;
mod calm_mail;
mod calm_runs;
mod runs;
mod turns;
mod verbs;
mod weights;

pub use calm_bounds::{calm_runs_are_bounded, calm_runs_go_forward};
pub use calm_mail::{
    calm_world_stays_calm, histories_stay_calm, nobody_is_woken, opening_mail_is_calm,
};
pub use calm_runs::{calm_cursors_go_on, calm_runs_lead_on};
pub use runs::{
    event_lowers_weight, histories_are_bounded, opening_weighs_nothing, turns_are_bounded_by_posts,
};
pub use turns::{delivery_lowers_weight, request_lowers_weight, respond_lowers_weight};
pub use verbs::{operation_lowers_weight, verb_raises_weight_by_posts};
pub use weights::{arrival_lowers_weight, packet_row_lowers_weight, respond_row_lowers_weight};
