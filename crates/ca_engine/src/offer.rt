ghost use Rattle.std.specs.Prelude.{◌≡◌};
ghost use Rattle.ca_engine.specs.Engine.{is_consumer};

use ca_base::Turn;

/// What an engine offers to be tried.
#[derive(Clone, Copy, PartialEq, Eq)]
pub enum Offer {
    /// The next line of the consumer of this number.
    Consumer(u32),
    /// A turn of a queue pair.
    Turn(Turn),
    /// Nothing: since a round began all was told to be not ready, at one clock.
    Quiet,
}

impl Offer {
    /// Whether a consumer is offered.
    pub(crate) fn is_consumer(self) -> bool
        ensures { result ≡ is_consumer self }
    {
        matches!(self, Offer::Consumer(_))
    }
}
