mod mail;
mod rows;
mod standing;
mod ties;

pub use mail::{arrival_keeps_calm, turns_keep_calm, turns_send_to_peers};
pub use rows::{expected_request_is_admitted, response_row_takes_calmly};
pub use standing::{expected_request_stands, turns_answer_calmly};
pub use ties::{calm_event_keeps_ties, opening_is_calmly_tied};
