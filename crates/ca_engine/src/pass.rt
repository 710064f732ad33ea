/// A round, or the timer pass behind a round in which nothing happened.
#[derive(Clone, Copy, PartialEq, Eq)]
pub enum Pass {
    Round,
    Timers,
}
