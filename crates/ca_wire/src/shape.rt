ghost use Rattle.std.specs.Prelude.{◌≡◌};
ghost use Rattle.ca_wire.specs.Shapes.{begins, ends};

use ca_base::Kind;

/// Where a packet stands in its message.
#[derive(Clone, Copy)]
pub enum Position {
    /// The first of several.
    First,
    /// Neither the first nor the last.
    Middle,
    /// The last of several.
    Last,
    /// The only one.
    Only,
}

impl Position {
    /// Whether the message begins here.
    pub fn begins(self) -> bool
        ensures { result ≡ begins self }
    {
        matches!(self, Position::First | Position::Only)
    }

    /// Whether the message ends here.
    pub fn ends(self) -> bool
        ensures { result ≡ ends self }
    {
        matches!(self, Position::Last | Position::Only)
    }
}

/// The shape of a request packet: of which operation it is, and where in its message it stands.
#[derive(Clone, Copy)]
pub enum Shape {
    Send(Position),
    Write(Position),
    Read,
    Atomic(Kind),
}

/// Of which operation a packet is: of a request, of the answer to a READ, or an acknowledgement.
#[derive(Clone, Copy)]
pub enum Operation {
    Request(Shape),
    ReadResponse(Position),
    Acknowledge,
    AtomicAcknowledge,
}
