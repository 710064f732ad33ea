use ca_base::{Config, Items};
use ca_mailbox::Weather;
use ca_script_lines::Line;

/// The lines of a consumer, in their order.
pub type Lines = Items<Line>;

/// The lines of each consumer, from 0 to the highest that occurs.
pub type Consumers = Items<Lines>;

/// A script: the fabric, the weather, and what each consumer does.
#[derive(Drop)]
pub struct Script {
    pub config: Config,
    pub weather: Weather,
    pub consumers: Consumers,
}
