mod caused;
mod link;
mod lists;
mod relations;

pub use caused::{
    causes_and_rest_are_caused, completions_have_their_causes, event_keeps_causes_agreed,
    histories_agree_on_causes, opening_agrees_on_causes,
};
pub use link::{
    answers_fit_on_clean_connections, histories_agree_on_reasons, machine_is_caused,
    refusals_have_befallen_peers,
};
pub use lists::{
    lists_and_link_are_the_rest, machine_is_caused_but_for_the_link,
    receives_complete_with_their_lists,
};
pub use relations::machine_has_relations;
