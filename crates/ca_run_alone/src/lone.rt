use ca_base::{Bytes, QueueId};
use ca_model::History;
use ca_script_run::Status;

/// What came of a script, and of the lone run of a group beside it.
#[derive(Drop)]
pub struct Lone {
    pub history: History,
    pub status: Status,
    pub outcome: Outcome,
}

/// What came of the lone run of a group.
#[derive(Drop)]
pub enum Outcome {
    /// There is none: this queue pair of the group is the first that named a peer outside it.
    NotClosed(QueueId),
    /// The line `alone` and the replies, as text.
    Replies(Bytes),
}
