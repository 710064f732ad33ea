ghost use Rattle.std.specs.Prelude.{ℕ};
ghost use Rattle.ca_connection.specs.Invariant.{NumberFact};
ghost use Rattle.ca_connection.specs.Layout.{Direction, start};
ghost use Rattle.ca_connection.specs.Link.{Response, Link, RequestPacket};
ghost use Rattle.ca_connection.specs.Moves.{MayArrive, MayBeTaken, Reached};
ghost use Rattle.ca_connection.specs.Once.{RequestIsNear, ResponseIsNear};

/// `una`, the greatest `una` that a sent response can bring, the expected number and the end of all that was sent stand in
/// this order, and the last lies no further above the first than numbers may be outstanding.
pub fn numbers_form_a_chain()
    ensures { (d : Direction) (l : Link) → Reached d l
        → NumberFact (start d) l.requester.una l.requester.cursor l.response_top l.responder.expected l.request_top }
{}

/// Each request that may be delivered lies near the expected number, so the responder takes its PSN for the number with
/// which it was sent.
pub fn request_is_near()
    ensures { (d : Direction) (l : Link) (k : ℕ) (packet : RequestPacket) → Reached d l → MayArrive l k packet
        → RequestIsNear l packet }
{}

/// Each response that may be delivered lies near `una`, so the requester takes its PSN for the number with which it was
/// sent.
pub fn response_is_near()
    ensures { (d : Direction) (l : Link) (k : ℕ) (a : Response) → Reached d l → MayBeTaken l k a → ResponseIsNear l a }
{}
