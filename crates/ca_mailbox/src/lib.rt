//! A mailbox: the packets that are under way to a queue pair, whom it accepts, and which packet is due. Beside it stands
//! the weather: which packets are lost, repeated or held, and which timers are hastened.
//!
//! To the layers above it promises that a packet passes only between two queue pairs that named each other, that an
//! envelope has an index of its own and keeps its bytes while it is among the last 256, and which envelope is due.
//!
//! Source: what lies between two adapters is no matter of the InfiniBand Architecture Specification; loss, repetition
//! and order of its packets are this profile's choice.
#![tactic(auto)]

mod envelope;
mod mailbox;
mod order;
mod seeded;
mod weather;

pub use mailbox::{Mailbox, NotKept, SendError};
pub use weather::{Weather, WeatherLine, WeatherList};
