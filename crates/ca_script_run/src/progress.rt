use ca_adapter_store::Row;
use ca_model::History;

/// How far a script is worked, by whomever. It is of a stage (`IsAt`) where the three agree.
#[derive(Drop)]
pub struct Progress {
    /// All parts as the entries left them, with as many events counted as there are entries.
    pub row: Row,
    /// How many of its lines each consumer has done, `at` lines too, by its number.
    pub done: Vec<usize>,
    /// The entries so far, of any pass.
    pub history: History,
}
