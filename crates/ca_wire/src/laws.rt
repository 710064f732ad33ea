mod packet;
mod wire;

pub use packet::{one_packet, reading, round_trip, spelling_length};
pub use wire::{operations, syndromes};
