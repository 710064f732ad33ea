mod engine;
mod engine_laws;

pub use engine::quiet_comes_when_all_are_not_ready;
pub use engine_laws::{
    offers_come_to_an_end, offers_from_a_stage_come_to_an_end, offers_from_a_stage_make_its_rounds,
    offers_make_the_order,
};
