use ca_base::Turn;
use ca_mailbox::Weather;
use ca_model::Event;

/// What is asked for: an event as it is, or a turn under a weather.
#[derive(Clone, Copy)]
pub enum Ask<'a> {
    /// This event.
    Event(&'a Event),
    /// A turn of a queue pair's engine. The weather says the lot of what it sends, and whether its timer is hastened.
    Turn(Turn, &'a Weather),
}
