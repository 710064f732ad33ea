ghost use Rattle.std.specs.Prelude.{◌≡◌, ℕ, List, Ok, Some, true, false};
ghost use Rattle.ca_base.specs.Configuration.{Configuration};
ghost use Rattle.ca_base.specs.declared.correspondent.Correspondent.{Correspondent};
ghost use Rattle.ca_base.specs.objects.Mailbox.{bytes_lent};
ghost use Rattle.ca_base.specs.objects.QueuePair.{QueuePair};
ghost use Rattle.ca_connection.specs.Invariant.{NumberFact};
ghost use Rattle.ca_connection.specs.Layout.{Direction, start};
ghost use Rattle.ca_connection.specs.Link.{Link};
ghost use Rattle.ca_model.specs.Packets.{is_response};
ghost use Rattle.ca_model.specs.machine.Invariants.{is_sending};
ghost use Rattle.ca_model.specs.machine.Sound.{IsSoundWorld};
ghost use Rattle.ca_model.specs.machine.World.{World};
ghost use Rattle.ca_wire.specs.Decoding.{packet_in};
ghost use Rattle.ca_wire.specs.Packet.{Fields};
ghost use Rattle.ca_law_once.specs.Ties.{IsPaired, IsTied};
ghost use Rattle.ca_law_once.specs.Bounds.{IsRequestSent, IsResponseSent};

/// Where the life that receives has named its peer, each request packet that may be delivered to it is one of the link,
/// and its PSN is taken for the number with which the packet was sent.
pub fn requests_arrive_as_sent()
    ensures { (d : Direction) (s r : Correspondent) (c : Configuration) (w : World) (l : Link) (q : QueuePair)
        (index : ℕ) (bytes : List ℕ) (p : Fields) → IsSoundWorld c w → IsTied d s r w l
        → IsPaired d r s (w.queue r.queue) q → bytes_lent index (w.mailbox r.queue) ≡ Some bytes
        → packet_in bytes ≡ Ok p → is_response p.opcode ≡ false → IsRequestSent q (w.mailbox r.queue) l index p }
{}

/// Where the life that sends has named its peer and sends, each response packet that may be delivered to it is one of
/// the link, and its PSN is taken for the number with which the packet was sent.
pub fn responses_arrive_as_sent()
    ensures { (d : Direction) (s r : Correspondent) (c : Configuration) (w : World) (l : Link) (q : QueuePair)
        (index : ℕ) (bytes : List ℕ) (p : Fields) → IsSoundWorld c w → IsTied d s r w l
        → IsPaired d s r (w.queue s.queue) q → is_sending q.state ≡ true
        → bytes_lent index (w.mailbox s.queue) ≡ Some bytes → packet_in bytes ≡ Ok p → is_response p.opcode ≡ true
        → IsResponseSent q (w.mailbox s.queue) l index p }
{}

/// Where the two have named each other and the one sends, its `una`, the greatest `una` that a sent response can bring,
/// the number that the other expects, and the end of all that was sent form a chain, within what may be outstanding.
pub fn ends_form_a_chain()
    ensures { (d : Direction) (s r : Correspondent) (w : World) (l : Link) (q p : QueuePair) → IsTied d s r w l
        → IsPaired d s r (w.queue s.queue) q → is_sending q.state ≡ true → IsPaired d r s (w.queue r.queue) p
        → NumberFact (start d) q.requester.una q.requester.cursor l.response_top p.responder.expected l.request_top }
{}
