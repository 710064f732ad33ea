ghost use Rattle.std.specs.Prelude.{◌≡◌, ◌<◌};
ghost use Rattle.ca_wire.specs.Segment.{is_last, position_of, asks_acknowledgement};

use crate::Position;

/// Besides the last packet of a message, each one whose number, counted from 1, is a multiple of this asks for an
/// acknowledgement. The standard leaves it to the requester.
pub const PACKETS_PER_ACKNOWLEDGEMENT: u32 = 32;

/// A segment of a message: what one of its packets carries.
#[derive(Clone, Copy)]
pub struct Segment {
    /// Which packet of the message it is, counted from 0.
    pub index: u32,
    /// How many packets the message has.
    pub count: u32,
}

impl Segment {
    /// Whether the message ends with it.
    pub fn is_last(self) -> bool
        requires { self.index < self.count }
        ensures { result ≡ is_last self }
    {
        self.index + 1 == self.count
    }

    /// Where it stands in its message.
    pub fn position(self) -> Position
        requires { self.index < self.count }
        ensures { result ≡ position_of self }
    {
        match (self.index == 0, self.is_last()) {
            (true, true) => Position::Only,
            (true, false) => Position::First,
            (false, true) => Position::Last,
            (false, false) => Position::Middle,
        }
    }

    /// Whether its packet, where it is a SEND or a WRITE, asks for an acknowledgement.
    pub fn asks_acknowledgement(self) -> bool
        requires { self.index < self.count }
        ensures { result ≡ asks_acknowledgement self }
    {
        self.is_last() || (self.index + 1) % PACKETS_PER_ACKNOWLEDGEMENT == 0
    }
}
