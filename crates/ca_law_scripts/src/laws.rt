mod calm_scripts;
mod order_laws;
mod rest;
mod texts;

pub use calm_scripts::{calm_orders_are_bounded, calm_scripts_are_bounded};
pub use order_laws::{
    histories_of_scripts_are_lawful, marks_tell_the_memory_of_orders, orders_are_lawful,
};
pub use rest::{quiet_queue_pairs_are_at_rest, scripts_come_to_rest, texts_mean_limited_scripts};
pub use texts::{
    long_texts_are_refused_by_their_fronts, orders_of_texts_are_lawful, texts_mean_workable_scripts,
};
