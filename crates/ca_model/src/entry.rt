use crate::event::Event;
use crate::marks::Marks;

/// One event with its place in the history. `stamp` is the number of the events before it, `pass` the number of the
/// caller's pass, and `marks` say what the event did.
#[derive(Drop)]
pub struct Entry {
    pub stamp: u64,
    pub pass: u32,
    pub event: Event,
    pub marks: Marks,
}
