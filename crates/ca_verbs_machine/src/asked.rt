use ca_base::Turn;
use ca_mailbox::Weather;
use ca_model::{Event, Mark};
use std::collections::LinkedList;

/// What is asked for: an event as it is, or a turn under a weather. No value of it is made; it is what contracts say that
/// parts are taken for.
pub enum Asked {
    /// This event, as a verb of a consumer.
    Event { event: Event },
    /// A turn of a queue pair's engine. The weather says the lot of what it sends, and whether its timer is hastened.
    Turn { turn: Turn, weather: Weather },
}

/// What the history keeps of an event: what was asked for, the event that this was, and its marks. No value of it is made.
pub struct Told {
    pub asked: Asked,
    pub event: Event,
    pub marks: LinkedList<Mark>,
}
