/// What came of an offer.
#[derive(Clone, Copy, PartialEq, Eq)]
pub enum Outcome {
    /// An event was made, or a line was passed.
    Did,
    /// It is not possible after so many events.
    NotReady(u64),
    /// A part was held by another pass.
    Busy,
    /// The consumer has no line left.
    Ended,
}
