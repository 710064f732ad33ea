//! What a pass knows of the row. It takes no memory: no value of it is made, and only contracts read it.
use std::collections::LinkedList;

/// What a pass knows: its range of numbers and its share, of how many passes it is made, the event for which it takes
/// parts, the parts in its hand with what they stand for, what its latest look since its last stamp read, the parts that
/// it was refused, what it noted at each look, and its entries with their stamps.
///
/// `passes` counts the pass itself, those that were joined into it, and those that were joined into these.
///
/// `giving` is true from the first stamp or give on, until the next part is taken. `out` is the part whose value is
/// on the way between its home and the caller; between calls there is none. `late` counts the entries with late
/// stamps, and `burnt` says that the pass has stamped late with the number that it has now.
pub struct View<S, E, N, T> {
    pub settings: Option<S>,
    pub first: u64,
    pub count: u64,
    pub share: u64,
    pub passes: u64,
    pub event: Option<E>,
    pub giving: bool,
    pub out: Option<u64>,
    pub hand: LinkedList<(u64, T)>,
    pub looked: Option<u64>,
    pub refused: LinkedList<u64>,
    pub notes: LinkedList<(u64, LinkedList<(u64, T)>)>,
    pub entries: LinkedList<(u64, N)>,
    pub late: u64,
    pub burnt: bool,
}
